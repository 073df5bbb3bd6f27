//! The attempts at a proof, in turn: cubes alone, which find most, mostly with the shortest text; with the linear equations of the program,
//! if it has some, where cubes alone come to no end; and without equations in front of arrows, where the joint conditions of a text are too
//! wide. Where a program has equations, either of the first two may go on for long to no end while the other needs little, so there both are
//! made with few queries before, and then with more; and cubes alone then without states to which runs come, which lead to a proof with
//! counters that grow where these lead past it.

/// What an attempt takes.
#[derive(Clone, Copy, Debug, PartialEq, Eq)]
pub struct Attempt {
    /// Linear equations are known from the beginning.
    pub(crate) equations: bool,
    /// No equation stands in front of an arrow.
    pub(crate) plain: bool,
    /// States to which runs come are looked for first.
    pub(crate) explores: bool,
    /// It is made only where the program has equations, and asks at most so many queries.
    pub(crate) early: Option<u64>,
}

/// The attempts, in the order in which they are made.
pub const ATTEMPTS: [Attempt; 7] = [
    Attempt {
        equations: false,
        plain: false,
        explores: true,
        early: Some(1_450),
    },
    Attempt {
        equations: true,
        plain: false,
        explores: true,
        early: Some(460),
    },
    Attempt {
        equations: false,
        plain: false,
        explores: false,
        early: Some(6_000),
    },
    Attempt {
        equations: true,
        plain: false,
        explores: true,
        early: Some(24_000),
    },
    Attempt {
        equations: false,
        plain: false,
        explores: true,
        early: None,
    },
    Attempt {
        equations: true,
        plain: false,
        explores: true,
        early: None,
    },
    Attempt {
        equations: false,
        plain: true,
        explores: true,
        early: None,
    },
];

/// How many queries an attempt may ask, of those that are left: an early one no more than a quarter of them, each other three quarters, and
/// the last one all.
pub fn share(number: usize, left: u64) -> u64 {
    let early = ATTEMPTS.get(number).and_then(|attempt| attempt.early);
    match early {
        Some(most) => most.min(left / 4),
        None if number.saturating_add(1) < ATTEMPTS.len() => left.saturating_sub(left / 4),
        None => left,
    }
}
