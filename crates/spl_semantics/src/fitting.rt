//! Whether a store is one of the program: what `start` and `moves` ask.

ghost use Rattle.std.specs.Prelude.{◌≡◌, true, false};
ghost use Rattle.spl_semantics.specs.Data.{StoreFits, is_boolean};

use st_form::Variable;
use st_program::Datum;

/// Whether the datum is a truth value.
fn is_boolean(datum: Datum) -> bool
    ensures { result ≡ is_boolean datum }
{
    match datum {
        Datum::Number(_) => false,
        Datum::Truth(_) => true,
    }
}

/// Whether the store has a datum of its type for each variable.
pub fn store_fits(variables: &[Variable], store: &[Datum]) -> bool
    ensures fits { result ≡ true → StoreFits variables.now store.now }
    ensures differs { result ≡ false → StoreFits variables.now store.now → ⊥ }
{
    if variables.len() != store.len() {
        return false;
    }
    for index in 0..store.len() {
        if variables[index].truth != is_boolean(store[index]) {
            return false;
        }
    }
    true
}
