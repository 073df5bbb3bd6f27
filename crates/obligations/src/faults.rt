//! Why the conditions of a script aren't generated.

ghost use Rattle.std.specs.Prelude.{◌≡◌};
ghost use Rattle.obligations.specs.Faults.{fault_at as fault_at_step};

use thiserror::Error;
use vc_generator::VcFault;

/// Why the conditions of a script aren't generated. The number is that of the step, from 0, with the first condition that passes
/// a limit.
#[derive(Error, Debug, Clone, Copy, PartialEq, Eq)]
pub enum ObligationFault {
    /// The script has more than 20,000 conditions.
    #[error("too many conditions at step {0}")]
    TooMany(u32),
    /// A condition has more than 2,048 atoms.
    #[error("too many atoms in a condition of step {0}")]
    TooWide(u32),
    /// The conditions weigh more than 2^24.
    #[error("the conditions are too heavy at step {0}")]
    TooHeavy(u32),
    #[error("out of memory")]
    Memory,
}

/// A refusal, with the step that it is at.
pub(crate) fn fault_at(step: u32, fault: VcFault) -> ObligationFault
    ensures { result ≡ fault_at_step step fault }
{
    match fault {
        VcFault::TooMany => ObligationFault::TooMany(step),
        VcFault::TooWide => ObligationFault::TooWide(step),
        VcFault::TooHeavy => ObligationFault::TooHeavy(step),
        VcFault::Memory => ObligationFault::Memory,
    }
}
