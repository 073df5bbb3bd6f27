//! Whether two contexts are the same.

ghost use Rattle.std.specs.Prelude.{◌≡◌, true};

use control_states::Alternative;

fn is_same_alternative(x: &Alternative, y: &Alternative) -> bool
    ensures { result ≡ true → x.now ≡ y.now }
{
    match *x {
        Alternative::Location(l) => match *y {
            Alternative::Location(m) => l == m,
            Alternative::Inside(_) => false,
        },
        Alternative::Inside(l) => match *y {
            Alternative::Location(_) => false,
            Alternative::Inside(m) => l == m,
        },
    }
}

fn is_same_case(x: &Option<Alternative>, y: &Option<Alternative>) -> bool
    ensures { result ≡ true → x.now ≡ y.now }
{
    match x {
        None => match y {
            None => true,
            Some(_) => false,
        },
        Some(a) => match y {
            None => false,
            Some(b) => is_same_alternative(a, b),
        },
    }
}

/// Whether the same is decided in both.
pub fn is_same_context(xs: &[Option<Alternative>], ys: &[Option<Alternative>]) -> bool
    ensures { result ≡ true → xs.now ≡ ys.now }
{
    if xs.len() != ys.len() {
        return false;
    }
    for (place, x) in xs.iter().enumerate() {
        if !is_same_case(x, &ys[place]) {
            return false;
        }
    }
    true
}
