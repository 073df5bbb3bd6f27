//! What is ahead of a position for each name.

ghost use Rattle.std.specs.Prelude.{◌≡◌, ◌+◌, ◌^◌, ◌<◌};
ghost use Rattle.run_judging.specs.Paying.{earlier, is_on, is_of, LooksBack};

/// What is ahead of a position for one name. The position behind the last one stands for never.
#[derive(Clone, Copy, Debug, PartialEq, Eq)]
pub struct Ahead {
    /// The first position behind a step of the name.
    pub served: usize,
    /// The first position in which the name is disabled.
    pub off: usize,
    /// The first position in which the name is enabled.
    pub on: usize,
}

/// What is ahead one position earlier.
fn earlier(ahead: Ahead, position: usize, enabled: bool, taken: bool) -> Ahead
    requires { position + 1 < 2 ^ 64 }
    ensures { result ≡ earlier position enabled taken ahead }
{
    Ahead {
        served: if taken { position + 1 } else { ahead.served },
        off: if enabled { ahead.off } else { position },
        on: if enabled { position } else { ahead.on },
    }
}

/// Whether the flag of the name is set.
pub(crate) fn is_on(flags: &[bool], name: usize) -> bool
    ensures { result ≡ is_on flags.now name }
{
    flags.get(name).copied().unwrap_or(false)
}

/// Whether the step has the name.
fn is_of(taken: Option<usize>, name: usize) -> bool
    ensures { result ≡ is_of taken name }
{
    match taken {
        Some(other) => other == name,
        None => false,
    }
}

/// Goes one position back for all names.
pub(crate) fn look_back(
    aheads: &mut [Ahead],
    position: usize,
    enabled: &[bool],
    taken: Option<usize>,
)
    requires { position + 1 < 2 ^ 64 }
    ensures { LooksBack aheads.old position enabled.now taken aheads.new }
{
    for name in 0..aheads.len() {
        aheads[name] = earlier(
            aheads[name],
            position,
            is_on(enabled, name),
            is_of(taken, name),
        );
    }
}
