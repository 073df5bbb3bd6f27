//! What can be taken in a state.

ghost use Rattle.std.specs.Prelude.{◌≡◌};
ghost use Rattle.std.specs.List.{list_all};
ghost use Rattle.st_form.specs.Exchange.{is_listed};
ghost use Rattle.spl_semantics.specs.Answers.{Answers};
ghost use Rattle.transition_system.specs.Meaning.{can_go, is_enabled};
ghost use Rattle.transition_system.specs.Plain.{plain_mode, plain_transition};
ghost use Rattle.shown_states.specs.Pictures.{seen};
ghost use Rattle.shown_states.specs.Enabling.{wide_mode, wide_transition};

use crate::pictures::Picture;
use spl_semantics::{MoveFault, is_true_at};
use transition_system::{Mode, Transition};

/// Whether control is at each of these locations, being at those.
fn is_at_all(fronts: &[u32], locations: &[u32]) -> bool
    ensures { result ≡ list_all (λ l. is_listed l fronts.now) locations.now }
{
    for location in locations {
        if !fronts.contains(location) {
            return false;
        }
    }
    true
}

impl Picture {
    /// Whether a mode can be taken in the state; `ValueLimit` exactly where control is at its locations and a number on the way to
    /// its guard is of size 2^126 or more.
    pub fn can_go(&self, mode: &Mode) -> Result<bool, MoveFault>
        ensures { Answers (λ b. b) result (wide_mode (plain_mode mode.now) self.now) (can_go (plain_mode mode.now) (seen self.now)) }
    {
        if is_at_all(&self.fronts, &mode.at) {
            is_true_at(&mode.guard, &self.store, &self.fronts)
        } else {
            Ok(false)
        }
    }

    /// Whether some mode of a transition can be taken in the state; `ValueLimit` exactly where of no mode it can be told that it
    /// goes, and a number on the way to the guard of some is of size 2^126 or more.
    pub fn is_enabled(&self, transition: &Transition) -> Result<bool, MoveFault>
        ensures { Answers (λ b. b) result
            (wide_transition (plain_transition transition.now) self.now)
            (is_enabled (plain_transition transition.now) (seen self.now)) }
    {
        let mut wide = false;
        for mode in &transition.modes {
            match self.can_go(mode) {
                Ok(true) => return Ok(true),
                Ok(false) => {}
                Err(MoveFault::ValueLimit) => wide = true,
                Err(MoveFault::Memory) => return Err(MoveFault::Memory),
            }
        }
        if wide {
            return Err(MoveFault::ValueLimit);
        }
        Ok(false)
    }
}
