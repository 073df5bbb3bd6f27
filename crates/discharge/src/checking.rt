//! The first place whose block isn't valid.

ghost use Rattle.std.specs.Prelude.{◌≡◌, ◌<◌, ◌≤◌, ◌+◌, ◌-◌, ◌*◌, ◌/◌, ◌^◌, IfOk, IsTrue, Option, length, drop};
ghost use Rattle.std.specs.Thread.{IsSync};
ghost use Rattle.farkas_check.specs.PlainProblem.{setting};
ghost use Rattle.discharge.specs.Dealt.{dealt, left_half, right_half};
ghost use Rattle.block_validity.specs.First.{AreCheckable, IsFirstFailing};
ghost use Rattle.discharge.specs.Pieces.{EachPiece};

use crate::gates::at_gate;
use crate::shares::{Share, behind, halves, lesser_place};
use crate::validity::is_valid;
use cert_text::Block;
use control_states::Components;
use linear_prover::Book;
use st_form::{Condition, Variable};
use st_memory::Memory;
use st_outside::Gate;
use std::alloc::Global;
use std::thread::{Threads, join};

/// The first place of one piece whose block isn't valid.
fn check_piece<G: Gate>(
    alloc: Global,
    gate: &G,
    components: &Components,
    variables: &[Variable],
    conditions: &[Condition],
    blocks: &[Block],
    share: Share,
) -> Result<Option<usize>, Memory>
    requires checkable { AreCheckable conditions.now blocks.now }
    ensures { IfOk result (λ o. IsFirstFailing (setting components.now variables.now) (dealt share conditions.now) (dealt share blocks.now) o) }
{
    let mut book = Book::new(alloc, components, variables)?;
    let mut rest = conditions;
    let mut rest_blocks = blocks;
    for i in 0..share.count {
        let Some((condition, _)) = rest.split_first() else {
            return Ok(None);
        };
        let Some((block, _)) = rest_blocks.split_first() else {
            return Ok(None);
        };
        if !is_valid(
            alloc,
            &mut book,
            components,
            variables,
            condition,
            &block.certificate,
        )? {
            gate.decided(1, 1);
            return Ok(Some(i));
        }
        gate.decided(1, 0);
        rest = behind(rest, share.stride);
        rest_blocks = behind(rest_blocks, share.stride);
    }
    Ok(None)
}

/// The same, between the gate's begin and end of this piece.
fn check_at_gate<G: Gate>(
    alloc: Global,
    gate: &G,
    components: &Components,
    variables: &[Variable],
    conditions: &[Condition],
    blocks: &[Block],
    share: Share,
) -> Result<Option<usize>, Memory>
    requires checkable { AreCheckable conditions.now blocks.now }
    ensures first_failing { IfOk result (λ o. IsFirstFailing (setting components.now variables.now) (dealt share conditions.now) (dealt share blocks.now) o) }
    ensures ended { IsTrue (G.ended gate.now share.first) }
{
    at_gate(
        gate,
        share.first,
        || check_piece(
            alloc, gate, components, variables, conditions, blocks, share,
        ),
    )
}

/// The first failing place of a share: the lesser of both halves' places, whichever half ends first.
#[cycle(check_range)]
fn check_range<R: Threads + Sync, G: Gate + Sync>(
    rt: &R,
    alloc: Global,
    gate: &G,
    components: &Components,
    variables: &[Variable],
    conditions: &[Condition],
    blocks: &[Block],
    share: Share,
) -> Result<Option<usize>, Memory>
    requires pieces { share.first + share.workers < 2 ^ 32 }
    requires strides { share.stride * (share.workers - 1) < 2 ^ 32 }
    requires checkable { AreCheckable conditions.now blocks.now }
    ensures first_failing { IfOk result (λ o. IsFirstFailing (setting components.now variables.now) (dealt share conditions.now) (dealt share blocks.now) o) }
    ensures ended { EachPiece share.first share.workers share.count (G.ended gate.now) }
{
    if share.workers < 2 || share.count < 2 {
        return check_at_gate(
            alloc, gate, components, variables, conditions, blocks, share,
        );
    }
    let (left, right) = check_both(
        rt, alloc, gate, components, variables, conditions, blocks, share,
    );
    let left = left?;
    let right = right?;
    Ok(lesser_place(share.count, right, left))
}

/// The first failing places of both halves of a share, each with half of the workers.
#[cycle(check_range)]
fn check_both<R: Threads + Sync, G: Gate + Sync>(
    rt: &R,
    alloc: Global,
    gate: &G,
    components: &Components,
    variables: &[Variable],
    conditions: &[Condition],
    blocks: &[Block],
    share: Share,
) -> (Result<Option<usize>, Memory>, Result<Option<usize>, Memory>)
    requires some { 2 ≤ share.workers }
    requires pieces { share.first + share.workers < 2 ^ 32 }
    requires strides { share.stride * (share.workers - 1) < 2 ^ 32 }
    requires checkable { AreCheckable conditions.now blocks.now }
    ensures left { IfOk result.0 (λ o. IsFirstFailing (setting components.now variables.now) (dealt (left_half share) (drop share.stride conditions.now)) (dealt (left_half share) (drop share.stride blocks.now)) o) }
    ensures right { IfOk result.1 (λ o. IsFirstFailing (setting components.now variables.now) (dealt (right_half share) conditions.now) (dealt (right_half share) blocks.now) o) }
    ensures left_ended { EachPiece share.first (share.workers / 2) (share.count / 2) (G.ended gate.now) }
    ensures right_ended { EachPiece (share.first + share.workers / 2) (share.workers - share.workers / 2) (share.count - share.count / 2) (G.ended gate.now) }
{
    let (left, right) = halves(share);
    let between = behind(conditions, share.stride);
    let their_blocks = behind(blocks, share.stride);
    join(
        rt,
        || -> Result<Option<usize>, Memory>
            requires { IsSync R.row × IsSync G.row × (left.first + left.workers < 2 ^ 32) × (left.stride * (left.workers - 1) < 2 ^ 32) × AreCheckable between.now their_blocks.now }
            ensures first_failing { IfOk result (λ o. IsFirstFailing (setting components.entry.now variables.entry.now) (dealt left between.entry.now) (dealt left their_blocks.entry.now) o) }
            ensures ended { EachPiece left.first left.workers left.count (G.ended gate.entry.now) }
        {
            check_range(
                rt,
                alloc,
                gate,
                components,
                variables,
                between,
                their_blocks,
                left,
            )
        },
        || -> Result<Option<usize>, Memory>
            requires { IsSync R.row × IsSync G.row × (right.first + right.workers < 2 ^ 32) × (right.stride * (right.workers - 1) < 2 ^ 32) × AreCheckable conditions.now blocks.now }
            ensures first_failing { IfOk result (λ o. IsFirstFailing (setting components.entry.now variables.entry.now) (dealt right conditions.entry.now) (dealt right blocks.entry.now) o) }
            ensures ended { EachPiece right.first right.workers right.count (G.ended gate.entry.now) }
        {
            check_range(
                rt, alloc, gate, components, variables, conditions, blocks, right,
            )
        },
    )
}

/// The first place whose block isn't valid for its condition; `None` exactly where all are valid. Each piece of the work
/// stands between the gate's `begin` and `end` of its number.
pub fn check_all<R: Threads + Sync, G: Gate + Sync>(
    rt: &R,
    alloc: Global,
    gate: &G,
    workers: u32,
    components: &Components,
    variables: &[Variable],
    conditions: &[Condition],
    blocks: &[Block],
) -> Result<Option<usize>, Memory>
    requires workers { 0 < workers }
    requires checkable { AreCheckable conditions.now blocks.now }
    ensures first_failing { IfOk result (λ o. IsFirstFailing (setting components.now variables.now) conditions.now blocks.now o) }
    ensures ended { EachPiece 0 workers (length conditions.now) (G.ended gate.now) }
{
    let share = Share {
        first: 0,
        workers,
        stride: 1,
        count: conditions.len(),
    };
    check_range(
        rt, alloc, gate, components, variables, conditions, blocks, share,
    )
}
