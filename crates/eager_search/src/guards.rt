//! Whether a certificate is within the limits of certificates, as a test that can be computed. A true answer is a proof of it.

ghost use Rattle.std.specs.Prelude.{◌≡◌, ◌<◌, ◌≤◌, ◌^◌, All, true, length, unsigned_abs};
ghost use Rattle.st_certificate.specs.Plain.{plain as tree_of, plain_trees};
ghost use Rattle.farkas_check.specs.Limits.{AreLimited, IsLimited, IsSlight};

use st_certificate::Certificate;
use st_linear::Lin;

/// No number of a cut may have this size or more.
const NUMBER: u128 = 1 << 69;

/// No multiplier may have this size or more.
const MULTIPLIER: u64 = 1 << 40;

const MOST_PICKS: usize = 4096;

fn is_small(number: &i128) -> bool
    ensures { result ≡ true → unsigned_abs number.now < 2 ^ 69 }
{
    number.unsigned_abs() < NUMBER
}

fn are_small(entries: &[(u32, i128)]) -> bool
    ensures { result ≡ true → All (λ e. unsigned_abs e.1 < 2 ^ 69) entries.now }
{
    for entry in entries {
        if !is_small(&entry.1) {
            return false;
        }
    }
    true
}

fn is_slight(row: &Lin) -> bool
    ensures { result ≡ true → IsSlight row.now }
{
    is_small(&row.constant()) && are_small(row.entries())
}

fn is_multiplier(number: &i64) -> bool
    ensures { result ≡ true → unsigned_abs number.now < 2 ^ 40 }
{
    number.unsigned_abs() < MULTIPLIER
}

fn are_multipliers(picks: &[(u32, i64)]) -> bool
    ensures { result ≡ true → All (λ p. unsigned_abs p.1 < 2 ^ 40) picks.now }
{
    for pick in picks {
        if !is_multiplier(&pick.1) {
            return false;
        }
    }
    true
}

fn are_picks(picks: &[(u32, i64)]) -> bool
    ensures multipliers { result ≡ true → All (λ p. unsigned_abs p.1 < 2 ^ 40) picks.now }
    ensures few { result ≡ true → length picks.now ≤ 4096 }
{
    picks.len() <= MOST_PICKS && are_multipliers(picks)
}

/// Whether numbers of cuts, multipliers and picks are within their limits. Leaves of rows alone aren't made by the search.
#[cycle(limited)]
#[tactic(auto, using(st_certificate::proofs::Nodes::all_nodes))]
pub(crate) fn is_limited(certificate: &Certificate) -> bool
    ensures { result ≡ true → IsLimited (tree_of certificate.now) }
{
    match certificate {
        Certificate::Absurd => true,
        Certificate::Farkas(_) => false,
        Certificate::Linear(picks) => are_picks(picks),
        Certificate::Case(_, parts) => are_limited(parts),
        Certificate::Bool(_, parts) => are_limited(parts),
        Certificate::Split(_, parts) => are_limited(parts),
        Certificate::Cut(form, parts) => is_slight(form) && are_limited(parts),
    }
}

#[cycle(limited)]
fn are_limited(certificates: &[Certificate]) -> bool
    ensures { result ≡ true → AreLimited (plain_trees certificates.now) }
{
    for certificate in certificates {
        if !is_limited(certificate) {
            return false;
        }
    }
    true
}
