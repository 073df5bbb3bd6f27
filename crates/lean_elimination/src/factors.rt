//! What a line is multiplied by.

ghost use Rattle.std.specs.Prelude.{◌≡◌, ◌≢◌, ◌<◌, ◌/◌, ◌^◌, IsTrue, unsigned_abs, pos};
ghost use Rattle.std.specs.Int.{IsGcd};
ghost use Rattle.st_linear.specs.Linear.{is_within, are_within};
ghost use Rattle.elimination_laws.specs.Mixing.{part, shared, second_factor, differ, against};

/// The coefficient of a variable.
pub(crate) fn part(var: u32, entries: &[(u32, i64)]) -> i64
    requires { IsTrue (are_within (2 ^ 62) entries.now) }
    ensures value { result ≡ part var entries.now }
    ensures within { IsTrue (is_within (2 ^ 62) result) }
{
    for e in entries {
        if e.0 == var {
            return e.1;
        }
    }
    0
}

/// The greatest common divisor, by Euclid's algorithm.
fn gcd(a: u64, b: u64) -> u64
    ensures { IsGcd a b result }
{
    let mut x = a;
    let mut y = b;
    while y != 0 {
        let rest = x % y;
        x = y;
        y = rest;
    }
    x
}

/// The greatest common divisor of two coefficients.
pub(crate) fn shared(a: &i64, c: &i64) -> u64
    requires a { a.now ≢ pos 0 }
    requires c { c.now ≢ pos 0 }
    requires a_within { IsTrue (is_within (2 ^ 62) a.now) }
    requires c_within { IsTrue (is_within (2 ^ 62) c.now) }
    ensures value { result ≡ shared a.now c.now }
    ensures positive { 0 < result }
{
    gcd(a.unsigned_abs(), c.unsigned_abs())
}

/// How often a number holds a divisor.
#[tactic(auto, unfolding(st_linear::specs::Linear::is_within))]
pub(crate) fn quotient(x: &i64, by: u64) -> i64
    requires within { IsTrue (is_within (2 ^ 62) x.now) }
    requires positive { 0 < by }
    ensures { result ≡ pos (unsigned_abs x.now / by) }
{
    (x.unsigned_abs() / by) as i64
}

fn differ(a: &i64, c: &i64) -> bool
    ensures { result ≡ differ a.now c.now }
{
    (*a < 0) != (*c < 0)
}

/// What the equation's coefficient c is multiplied by, so that it takes away a.
#[tactic(auto, unfolding(elimination_laws::specs::Mixing::against, elimination_laws::specs::Mixing::second_factor))]
pub(crate) fn against(a: &i64, c: &i64, divisor: u64) -> i64
    requires within { IsTrue (is_within (2 ^ 62) a.now) }
    requires positive { 0 < divisor }
    requires divisor { divisor ≡ shared a.now c.now }
    ensures { result ≡ against a.now c.now }
{
    let y = quotient(a, divisor);
    if differ(a, c) { y } else { -y }
}
