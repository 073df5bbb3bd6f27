//! Sums of coefficients.

ghost use Rattle.std.specs.Prelude.{◌≡◌, ◌+ℤ◌, ◌<◌, ◌^◌, IsTrue, unsigned_abs};
ghost use Rattle.st_linear.specs.Linear.{is_small};

/// The sum of a coefficient and of what others come to.
#[tactic(auto, unfolding(st_linear::specs::Linear::is_within))]
pub(crate) fn sum(coefficient: &i128, others: &i128) -> i128
    requires small { IsTrue (is_small coefficient.now) }
    requires modest { unsigned_abs others.now < 2 ^ 110 }
    ensures { result ≡ coefficient.now +ℤ others.now }
{
    *coefficient + *others
}
