//! What is left of a program to run, and states.

ghost use Rattle.std.specs.Prelude.{◌≡◌, IfOk};
ghost use Rattle.st_program.specs.Residuals.{plain_residual, plain_state, plain_residuals};

use st_memory::Memory;
use std::alloc::Global;

/// What a process, or a child of a cooperation, still has to run. It names statements by occurrence.
#[derive(Drop)]
pub enum Residual {
    Done,
    Run(u32),
    /// The first part, and then the statements of the block from an index on. A block number from the program's number
    /// of statements on names the body of a component: that number and the component's.
    Then {
        first: Box<Residual>,
        block: u32,
        from: u32,
    },
    /// The body, and then the loop again.
    Again {
        body: Box<Residual>,
        loop_occ: u32,
    },
    /// A cooperation, with what is left of each child.
    Inside {
        coop: u32,
        children: Vec<Residual>,
    },
}

/// The value of a variable.
#[derive(Clone, Copy, Debug, PartialEq, Eq)]
pub enum Datum {
    Number(i128),
    Truth(bool),
}

/// A state: what is left of each process, and the value of each variable.
#[derive(Drop)]
pub struct State {
    pub residuals: Vec<Residual>,
    pub store: Vec<Datum>,
}

impl Residual {
    /// An equal residual.
    #[cycle(copy)]
    pub fn copy(&self, alloc: Global) -> Result<Residual, Memory>
        ensures { IfOk result (λ r. plain_residual r ≡ plain_residual self.now) }
    {
        match self {
            Residual::Done => Ok(Residual::Done),
            Residual::Run(occ) => Ok(Residual::Run(*occ)),
            Residual::Then { first, block, from } => {
                let first = first.copy(alloc)?;
                Ok(Residual::Then {
                    first: Box::new(alloc, first)?,
                    block: *block,
                    from: *from,
                })
            }
            Residual::Again { body, loop_occ } => {
                let body = body.copy(alloc)?;
                Ok(Residual::Again {
                    body: Box::new(alloc, body)?,
                    loop_occ: *loop_occ,
                })
            }
            Residual::Inside { coop, children } => Ok(Residual::Inside {
                coop: *coop,
                children: copy_all(alloc, children)?,
            }),
        }
    }
}

/// Equal residuals, in the same order.
#[cycle(copy)]
pub fn copy_all(alloc: Global, residuals: &[Residual]) -> Result<Vec<Residual>, Memory>
    ensures { IfOk result (λ v. plain_residuals v.items ≡ plain_residuals residuals.now) }
{
    let mut copies = Vec::new(alloc);
    for residual in residuals {
        copies.push(residual.copy(alloc)?)?;
    }
    Ok(copies)
}

impl State {
    /// An equal state.
    pub fn copy(&self, alloc: Global) -> Result<State, Memory>
        ensures { IfOk result (λ s. plain_state s ≡ plain_state self.now) }
    {
        Ok(State {
            residuals: copy_all(alloc, &self.residuals)?,
            store: Vec::from_slice(alloc, &self.store)?,
        })
    }
}
