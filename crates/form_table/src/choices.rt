//! Decisions by number.

ghost use Rattle.std.specs.Prelude.{◌≡◌};
ghost use Rattle.form_table.specs.Contents.{decision_at};
ghost use Rattle.form_table.specs.Memory.{choices};

/// What is decided of boolean variables, and of being at locations, by number.
#[derive(Drop)]
pub struct Decision {
    pub truths: Vec<Option<bool>>,
    pub places: Vec<Option<bool>>,
}

/// What a decision says of a boolean variable.
pub fn truth_under(decisions: &[Decision], decision: u32, var: u32) -> Option<bool>
    ensures { result ≡ (decision_at (choices decisions.now) decision).truths var }
{
    match decisions.get(decision as usize) {
        None => None,
        Some(known) => match known.truths.get(var as usize) {
            None => None,
            Some(value) => *value,
        },
    }
}

/// What a decision says of being at a location.
pub fn place_under(decisions: &[Decision], decision: u32, location: u32) -> Option<bool>
    ensures { result ≡ (decision_at (choices decisions.now) decision).places location }
{
    match decisions.get(decision as usize) {
        None => None,
        Some(known) => match known.places.get(location as usize) {
            None => None,
            Some(value) => *value,
        },
    }
}
