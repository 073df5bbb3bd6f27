//! The names of conditions.

ghost use Rattle.std.specs.Prelude.{◌≡◌};
ghost use Rattle.vc_generator.specs.Walks.{by_mode as named_by_mode, plainly as plainly_named};

use st_form::{CondName, Premise, TransName};

/// The name of a condition that isn't about a mode.
pub fn plainly(step: u32, premise: Premise, node: Option<u32>) -> CondName
    ensures { result ≡ plainly_named step premise node }
{
    CondName {
        step,
        premise,
        node,
        trans: None,
        mode: 0,
    }
}

/// The name of a condition about a mode, which is numbered from 1 among those of its transition.
pub fn by_mode(
    step: u32,
    premise: Premise,
    node: Option<u32>,
    transition: TransName,
    mode: u32,
) -> CondName
    ensures { result ≡ named_by_mode step premise node transition mode }
{
    CondName {
        step,
        premise,
        node,
        trans: Some(transition),
        mode,
    }
}
