//! What is answered to a replay whose end is asked for: where the run leads, behind its verdict.
ghost use Rattle.std.specs.Prelude.{◌≤◌, ℕ, List, IfOk};
ghost use Rattle.bip_model.specs.declared.partitions.Partition.{Partition};
ghost use Rattle.bip_reader.specs.Texts.{Means};
ghost use Rattle.bip_answers.specs.Answers.{greatest_base};
ghost use Rattle.bip_replay.specs.Runs.{standing_of};
ghost use Rattle.bip_answers.specs.Ended.{IsEndAnswer, IsRunAndEnd};

use crate::answers::{Answer, Status, answer_replayed, said};
use crate::wording::run_text;
use bip_draw::write_end;
use bip_explain::Explanation;
use bip_model::{Model, Number};
use bip_replay::{Position, replay_to};
use std::alloc::{AllocError, Global};

/// The answer to a trace, where the model's text is one, with the end of its run: where the grants
/// are a run of the model, what its components are in behind it, and what may run there; else what
/// is answered to a replay (docs/ANSWERS.md, "Answers"). The only error is want of memory.
pub fn answer_ended(
    alloc: Global,
    explanation: &mut Explanation,
    model: &Model,
    trace: &[u8],
    base: Number,
) -> Result<Answer, AllocError>
    requires { base ≤ greatest_base }
    ensures { IfOk result (λ answer. (text : List ℕ) (classes : Partition)
        → Means text model.now classes → IsEndAnswer base text trace.now answer) }
{
    match replay_to(alloc, model, base, trace) {
        Ok((position, count)) => {
            let text = run_and_end(alloc, &position, count)?;
            Ok(said(alloc, Status::Done, text))
        }
        Err(fault) => answer_replayed(alloc, explanation, model, trace, base, &Err(fault)),
    }
}

// `run N`, and behind it where the run stands.
fn run_and_end(alloc: Global, position: &Position<'_>, count: u64) -> Result<Vec<u8>, AllocError>
    ensures { IfOk result (λ text. IsRunAndEnd (standing_of position.now) count text.items) }
{
    let mut text = run_text(alloc, count)?;
    let end = write_end(alloc, position)?;
    text.extend_from_slice(end.as_slice())?;
    Ok(text)
}
