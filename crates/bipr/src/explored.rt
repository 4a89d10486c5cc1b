//! Answers to exploring: what the seeds come to, and what is told on the way.
ghost use Rattle.std.specs.Prelude.{◌≡◌, IfOk};
ghost use Rattle.bipr.specs.Endings.{AllOutcomesTelling};
ghost use Rattle.bipr.specs.Explored.{IsExploreAnswer, exploring_stats, stop_of_fault};
ghost use Rattle.bipr.specs.Scheduled.{reporting};
ghost use Rattle.bipr.specs.Wording.{seeds_text};

use crate::ahead::{Ahead, go_on, jobs_of, keep_ahead};
use crate::commands::explore::ExploreArguments;
use crate::progress::Progress;
use crate::scheduled::reported;
use crate::stops::Stop;
use crate::streams::Stream;
use crate::wording::{report_text, seeds_text};
use bip_answers::Answer;
use bip_draw::write_tally;
use bip_explain::{Explanation, explain_seed};
use bip_model::Model;
use bip_partition::Plan;
use bip_schedule::{Checked, ExploreFault};
use std::alloc::{AllocError, Global};
use std::thread::Threads;
use std::time::Clock;

/// The answer to exploring a plan with a resolver's bank: that the traces of all seeds are runs of
/// the model. Each is checked, and it is proved that no check fails; what a failed one says is
/// there for who doesn't believe the proof. Where progress is asked for, a line is put on
/// standard error each time that another hundredth of the seeds is done, and one with the time
/// where nothing was told for more than a second; whether they are out decides nothing
/// (docs/ANSWERS.md, "Answers"). Threads explore seeds ahead, and change nothing of what is
/// said but the lines with the time: a seed that isn't explored there is explored in its turn.
/// Where that is asked for, what the seeds come to is said beside the answer. What stops it is want
/// of memory.
pub fn answer_explore<'a, R: Threads + Clock + Sync, E: Stream>(
    rt: &R,
    alloc: Global,
    explanation: &mut Explanation,
    plan: &Plan,
    asked: &ExploreArguments<'a>,
    errors: &mut E,
) -> Result<Answer, Stop<'a>>
    ensures { AllOutcomesTelling E.writes errors.old errors.new result
        (IsExploreAnswer plan.now asked.now) }
{
    let jobs = jobs_of(rt, asked.jobs);
    let mut ahead = Ahead::nothing(alloc, 0);
    let mut progress = Progress::begin(rt);
    let mut all = Checked::none(plan.model());
    for done in 0..asked.seeds {
        keep_ahead(rt, alloc, plan, asked, jobs, &mut ahead, done);
        if let Err(fault) = go_on(alloc, plan, asked, &ahead, &mut all, done) {
            return Err(stop_of_fault(explanation, plan, &fault));
        }
        let is_next_open = all.seeds() == done + 1;
        progress.tell(rt, alloc, asked, done + 1, is_next_open, errors)?;
    }
    Ok(answer_checked(alloc, plan, asked, &all)?)
}

// That the traces of all seeds are runs, and what they come to, where that is asked for.
fn answer_checked(
    alloc: Global,
    plan: &Plan,
    asked: &ExploreArguments<'_>,
    all: &Checked,
) -> Result<Answer, AllocError>
    ensures { IfOk result (λ answer. answer ≡ reporting (seeds_text asked.now.seeds)
        (exploring_stats plan.now.model asked.now.with_stats all.now)) }
{
    let text = seeds_text(alloc, asked.seeds)?;
    let stats = exploring_stats(alloc, plan.model(), asked.with_stats, all)?;
    Ok(reported(text, stats))
}

// What seeds come to: the sums of their reports, and the tally of their traces.
fn exploring_stats(
    alloc: Global,
    model: &Model,
    with_stats: bool,
    all: &Checked,
) -> Result<Vec<u8>, AllocError>
    ensures { IfOk result (λ text.
        text.items ≡ exploring_stats model.now with_stats all.now) }
{
    if !with_stats {
        return Ok(Vec::new(alloc));
    }
    let mut text = report_text(alloc, all.report())?;
    let tally = write_tally(alloc, model, all.tally())?;
    text.extend_from_slice(tally.as_slice())?;
    Ok(text)
}

// What stops the exploring where a seed isn't explored, whatever its fault is, though it is proved
// to be want of memory.
fn stop_of_fault(explanation: &mut Explanation, plan: &Plan, fault: &ExploreFault) -> Stop<'static>
    ensures { result ≡ stop_of_fault fault.now }
{
    match fault {
        ExploreFault::NotARun(seed, why) => {
            explain_seed(explanation, plan.model(), why);
            Stop::SeedNotARun(*seed)
        }
        ExploreFault::Memory => Stop::OutOfMemory,
    }
}
