//! Goals.

ghost use Rattle.std.specs.Prelude.{◌≡◌, IfOk};
ghost use Rattle.temporal_goals.specs.Plain.{plain_goal};

use st_form::{Form, copy_all};
use st_linear::Lin;
use st_memory::Memory;
use std::alloc::Global;

/// What is claimed of every run.
#[derive(Drop)]
pub enum Goal {
    /// The formula holds in every state.
    Invariant(Form),
    /// Wherever the first formula holds, the others hold in turn from there on, in their order.
    Waiting(Form, Vec<Form>),
    /// Wherever the first formula holds, the second is reached within as many rounds as the form says there.
    Response(Form, Form, Lin),
}

impl Goal {
    /// An equal goal.
    pub fn copy(&self, alloc: Global) -> Result<Goal, Memory>
        ensures { IfOk result (λ g. plain_goal g ≡ plain_goal self.now) }
    {
        match self {
            Goal::Invariant(p) => Ok(Goal::Invariant(p.copy(alloc)?)),
            Goal::Waiting(p, forms) => {
                let p = p.copy(alloc)?;
                Ok(Goal::Waiting(p, copy_all(alloc, forms)?))
            }
            Goal::Response(p, q, bound) => {
                let p = p.copy(alloc)?;
                let q = q.copy(alloc)?;
                Ok(Goal::Response(p, q, bound.copy(alloc)?))
            }
        }
    }
}
