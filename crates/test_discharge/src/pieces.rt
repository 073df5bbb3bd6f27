//! Two conditions for two workers, of which the second doesn't hold.

ghost use Rattle.std.specs.Prelude.{◌≡◌, IfOk, length};
ghost use Rattle.test_discharge.specs.Implied.{AreAbsurd, AreImplied, IsAbsurd, IsImplied};

use crate::gate::SideBySide;
use control_states::{Alternative, Component};
use discharge::{Block, Components, Condition, check_all, verify_all};
use st_certificate::Certificate;
use st_form::{CondName, Form, Premise};
use st_memory::Memory;
use std::alloc::Global;
use std::test::Fail;

/// One process at one location.
fn one_process(alloc: Global) -> Result<Components, Memory> {
    let alternatives = vec![in alloc; Alternative::Location(0)]?;
    let parts = vec![in alloc; Component::new(alternatives, None)]?;
    let owners = vec![in alloc; 0u32]?;
    Ok(Components::new(parts, owners))
}

/// That true implies the truth value.
#[tactic(auto, using(st_form::proofs::Nodes::nodes))]
fn implied(alloc: Global, shown: bool) -> Result<Condition, Memory>
    ensures { IfOk result IsImplied }
{
    let name = CondName {
        step: 0,
        premise: Premise::Implies,
        node: None,
        trans: None,
        mode: 0,
    };
    if shown {
        Condition::new(alloc, Form::True, Form::True, name)
    } else {
        Condition::new(alloc, Form::True, Form::False, name)
    }
}

fn conditions(alloc: Global) -> Result<Vec<Condition>, Memory>
    ensures { IfOk result (λ v. AreImplied v.items × (length v.items ≡ 2)) }
{
    let first = implied(alloc, true)?;
    let second = implied(alloc, false)?;
    Ok(vec![in alloc; first, second]?)
}

#[tactic(auto, using(st_certificate::proofs::Nodes::nodes))]
fn block(number: u32) -> Block
    ensures { IsAbsurd result }
{
    Block {
        number,
        certificate: Certificate::Absurd,
    }
}

fn blocks(alloc: Global) -> Result<Vec<Block>, Memory>
    ensures { IfOk result (λ v. AreAbsurd v.items × (length v.items ≡ 2)) }
{
    Ok(vec![in alloc; block(1), block(2)]?)
}

#[test]
fn searches_run_side_by_side(rt: HostRuntime) -> Result<(), Fail> {
    let alloc = rt.alloc();
    let components = one_process(alloc)?;
    let conditions = conditions(alloc)?;
    let gate = SideBySide::new();
    let place = verify_all(&rt, alloc, &gate, 2, &components, &[], &conditions)?;
    assert_eq!(rt; place, Some(1));
    assert_eq!(rt; gate.marks(), 0);
    Ok(())
}

#[test]
fn checks_run_side_by_side(rt: HostRuntime) -> Result<(), Fail> {
    let alloc = rt.alloc();
    let components = one_process(alloc)?;
    let conditions = conditions(alloc)?;
    let blocks = blocks(alloc)?;
    let gate = SideBySide::new();
    let place = check_all(&rt, alloc, &gate, 2, &components, &[], &conditions, &blocks)?;
    assert_eq!(rt; place, Some(1));
    assert_eq!(rt; gate.marks(), 0);
    Ok(())
}
