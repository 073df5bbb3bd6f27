//! Certificates: trees that divide a problem until each part is refuted.
#![tactic(auto)]

ghost use Rattle.std.specs.Prelude.{◌≡◌, IfOk, map};
ghost use Rattle.st_certificate.specs.Plain.{plain, plain_trees};

use st_linear::Lin;
use st_memory::Memory;
use std::alloc::Global;

/// A certificate. Components, variables, disjunctions and rows count from 0.
#[derive(Drop)]
pub enum Certificate {
    /// One certificate for each alternative of this component.
    Case(u32, Vec<Certificate>),
    /// One certificate for this boolean variable being true, and one for its being false.
    Bool(u32, Vec<Certificate>),
    /// One certificate for each disjunct of this disjunction among the conjuncts.
    Split(u32, Vec<Certificate>),
    /// One certificate for this form being at least 0, and one for its being below. It stands behind a pointer, so that every
    /// node is small.
    Cut(Box<Lin>, Vec<Certificate>),
    /// The problem is false.
    Absurd,
    /// Rows, each with a multiplier, whose sum is a negative constant.
    Farkas(Vec<(u32, u64)>),
    /// Rows and equations, each with a multiplier, whose sum is a negative constant.
    Linear(Vec<(u32, i64)>),
}

impl Certificate {
    /// An equal certificate.
    #[cycle(copy)]
    #[tactic(auto, using(crate::proofs::Nodes::nodes))]
    pub fn copy(&self, alloc: Global) -> Result<Certificate, Memory>
        ensures { IfOk result (λ t. plain t ≡ plain self.now) }
    {
        match self {
            Certificate::Case(c, ts) => Ok(Certificate::Case(*c, copy_all(alloc, ts)?)),
            Certificate::Bool(v, ts) => Ok(Certificate::Bool(*v, copy_all(alloc, ts)?)),
            Certificate::Split(k, ts) => Ok(Certificate::Split(*k, copy_all(alloc, ts)?)),
            Certificate::Cut(f, ts) => {
                let f = Box::new(alloc, f.copy(alloc)?)?;
                Ok(Certificate::Cut(f, copy_all(alloc, ts)?))
            }
            Certificate::Absurd => Ok(Certificate::Absurd),
            Certificate::Farkas(ps) => Ok(Certificate::Farkas(Vec::from_slice(alloc, ps)?)),
            Certificate::Linear(ps) => Ok(Certificate::Linear(Vec::from_slice(alloc, ps)?)),
        }
    }
}

#[cycle(copy)]
fn copy_all(alloc: Global, ts: &[Certificate]) -> Result<Vec<Certificate>, Memory>
    ensures { IfOk result (λ v. map plain v.items ≡ map plain ts.now) }
{
    let mut out = Vec::with_capacity(alloc, ts.len())?;
    for t in ts {
        out.push(t.copy(alloc)?)?;
    }
    Ok(out)
}
