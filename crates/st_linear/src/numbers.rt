//! The arithmetic of single numbers within a limit. Numbers are passed by reference, since a clause then speaks of them as they
//! are, and a caller's proof of what stands in a list needs no step for the type's range.

ghost use Rattle.std.specs.Prelude.{◌≡◌, ◌<◌, ◌≤◌, ◌^◌, IsTrue, unsigned_abs, ◌+ℤ◌, ◌*ℤ◌, pos, false, neg_ℤ, negsuc};
ghost use Rattle.st_linear.specs.Linear.{is_within, number_within, is_small, narrow, is_wide};
ghost use Rattle.st_linear.specs.Answers.{Gives};
ghost use Rattle.std.specs.Int.{IsGcd, int_div_euclid};

use crate::faults::LinFault;

/// No number of a form has this size or more.
pub const LIMIT: u128 = 1 << 100;

/// A value is given up where a number on the way to it has this size or more.
const WIDE: u128 = 1 << 126;

/// Whether a number's size is below a limit.
#[tactic(auto, unfolding(crate::specs::Linear::is_within))]
pub fn is_within(limit: u128, value: i128) -> bool
    ensures { result ≡ is_within limit value }
{
    value.unsigned_abs() < limit
}

/// The sum of two numbers within a limit, or `TooLarge` exactly where it isn't within the limit.
#[tactic(auto, unfolding(crate::specs::Linear::is_within))]
pub fn sum_within(limit: u128, x: &i128, y: &i128) -> Result<i128, LinFault>
    requires narrow { limit ≤ 2 ^ 100 }
    requires x_within { IsTrue (is_within limit x.now) }
    requires y_within { IsTrue (is_within limit y.now) }
    ensures { Gives (λ z. z) result (number_within limit (x.now +ℤ y.now)) }
{
    let sum = *x + *y;
    if is_within(limit, sum) {
        Ok(sum)
    } else {
        Err(LinFault::TooLarge)
    }
}

/// The product of two numbers, or `TooLarge` exactly where it isn't within the limit.
#[tactic(auto, unfolding(crate::specs::Linear::is_within))]
pub fn product_within(limit: u128, x: &i128, by: &i128) -> Result<i128, LinFault>
    requires narrow { limit ≤ 2 ^ 100 }
    ensures { Gives (λ z. z) result (number_within limit (x.now *ℤ by.now)) }
{
    match x.checked_mul(*by) {
        Some(product) => {
            if is_within(limit, product) {
                Ok(product)
            } else {
                Err(LinFault::TooLarge)
            }
        }
        None => Err(LinFault::TooLarge),
    }
}

/// A partial sum of a value, unless its size is 2^126 or more.
#[tactic(auto, unfolding(crate::specs::Linear::is_wide))]
pub fn narrow_sum(x: i128, y: i128) -> Option<i128>
    requires x_narrow { is_wide x ≡ false }
    requires y_narrow { is_wide y ≡ false }
    ensures { result ≡ narrow (x +ℤ y) }
{
    let sum = x + y;
    if sum.unsigned_abs() < WIDE {
        Some(sum)
    } else {
        None
    }
}

/// A product of a value, unless its size is 2^126 or more.
#[tactic(auto, unfolding(crate::specs::Linear::is_wide))]
pub fn narrow_product(x: &i128, y: &i128) -> Option<i128>
    ensures { result ≡ narrow (x.now *ℤ y.now) }
{
    match x.checked_mul(*y) {
        Some(product) => {
            if product.unsigned_abs() < WIDE {
                Some(product)
            } else {
                None
            }
        }
        None => None,
    }
}

/// The greatest common divisor, by Euclid's algorithm.
pub fn gcd(a: u128, b: u128) -> u128
    ensures { IsGcd a b result }
{
    let mut x = a;
    let mut y = b;
    while y != 0 {
        let rest = x % y;
        x = y;
        y = rest;
    }
    x
}

/// A quotient, rounded down.
pub fn floor_quotient(x: i128, by: u128) -> i128
    requires positive { 0 < by }
    requires bound { by < 2 ^ 100 }
    ensures { result ≡ int_div_euclid x (pos by) }
{
    x.div_euclid(by as i128)
}

#[tactic(auto, unfolding(crate::specs::Linear::is_within))]
pub fn lowered_number(x: &i128) -> i128
    requires { unsigned_abs x.now < 2 ^ 99 }
    ensures value { result ≡ x.now +ℤ negsuc 0 }
    ensures small { IsTrue (is_small result) }
{
    *x - 1
}

#[tactic(auto, unfolding(crate::specs::Linear::is_within))]
pub fn complement_number(x: &i128) -> i128
    requires { unsigned_abs x.now < 2 ^ 99 }
    ensures value { result ≡ neg_ℤ x.now +ℤ negsuc 0 }
    ensures small { IsTrue (is_small result) }
{
    -*x - 1
}

#[tactic(auto, unfolding(crate::specs::Linear::is_within))]
pub fn negated_number(x: &i128) -> i128
    requires { IsTrue (is_small x.now) }
    ensures value { result ≡ neg_ℤ x.now }
    ensures small { IsTrue (is_small result) }
{
    -*x
}
