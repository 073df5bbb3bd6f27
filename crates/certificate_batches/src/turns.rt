//! What a text gives next, which may still be open.

ghost use Rattle.std.specs.Prelude.{◌≡◌, ℕ, ◌<◌, ◌≤◌, ◌-◌, ◌^◌, List, Some, false, IfOk, IfSome, IfNone};
ghost use Rattle.certificate_batches.specs.Turns.{IsTurn, IsFronted, is_need, AreDropped, trailing};
ghost use Rattle.cert_text.specs.Answer.{answer_view};

use block_laws::laws::blocks_are_limited;
use cert_laws::laws::{answers_stay, need_is_exact, read_is_spelled, trailing_is_blank};
use cert_text::{Block, CertReader, NextBlock};
use st_memory::Memory;
use step_report::Reason;

/// What a text gives next.
#[derive(Drop)]
pub enum Turn {
    Taken(Block),
    /// The text is open, and what is held of it begins a block.
    Needs,
    /// There is no further block, whatever is still to come.
    Lacks(Reason),
}

/// Takes the next block, where there is one.
pub fn next_turn(reader: &mut CertReader) -> Result<Turn, Memory>
    requires number { reader.old.number < 2 ^ 32 - 1 }
    ensures { IfOk result (IsTurn reader.old reader.new) }
{
    answers_stay();
    blocks_are_limited();
    need_is_exact();
    read_is_spelled();
    match reader.next_block()? {
        NextBlock::Block(block) => Ok(Turn::Taken(block)),
        NextBlock::Need => Ok(Turn::Needs),
        NextBlock::End => Ok(Turn::Lacks(Reason::Absent)),
        NextBlock::Malformed(_) => Ok(Turn::Lacks(Reason::Malformed)),
        NextBlock::CertLimit(_) => Ok(Turn::Lacks(Reason::OverLimit)),
    }
}

/// Drops blanks behind the last block, and answers the place of what isn't blank, whatever is still to come.
pub fn drop_blanks(reader: &mut CertReader) -> Option<u64>
    requires no_header { 2 ≤ reader.old.number }
    ensures place { IfSome result (λ place. (rest : List ℕ) → trailing reader.old rest ≡ Some place) }
    ensures dropped { AreDropped reader.old reader.new }
{
    reader.trailing()
}

fn is_need(answer: &NextBlock) -> bool
    ensures { result ≡ is_need (answer_view answer.now) }
{
    match answer {
        NextBlock::Need => true,
        NextBlock::Block(_) => false,
        NextBlock::End => false,
        NextBlock::Malformed(_) => false,
        NextBlock::CertLimit(_) => false,
    }
}

/// Drops blanks in front, and a whole header. Answers the place of what isn't blank once no header can come of it: while one
/// can, more is needed.
pub fn drop_front(reader: &mut CertReader) -> Result<Option<u64>, Memory>
    requires number { reader.old.number < 2 ^ 32 - 1 }
    requires unfinished { reader.old.finished ≡ false }
    ensures { IfOk result (IsFronted reader.old reader.new) }
{
    answers_stay();
    trailing_is_blank();
    let Some(place) = reader.trailing() else {
        return Ok(None);
    };
    let answer = reader.next_block()?;
    if is_need(&answer) {
        return Ok(None);
    }
    Ok(Some(place))
}
