//! Answers to walks: runs of a model itself, by chance.
ghost use Rattle.std.specs.Prelude.{◌≡◌, ◌≤◌, IfOk, length};
ghost use Rattle.bip_answers.specs.Answers.{greatest_base};
ghost use Rattle.bipr.specs.Endings.{AllOutcomes};
ghost use Rattle.bipr.specs.Walked.{IsBesideWalk, IsWalkAnswer, survey_text, tally_stats};
ghost use Rattle.bipr.specs.Walked.{walk_end, walks_of};
ghost use Rattle.bipr.specs.declared.walked.Walks.TheVariants.{Many, One};

use crate::commands::walk::WalkArguments;
use crate::scheduled::reported;
use crate::stops::Stop;
use crate::wording::{stuck_text, walks_text};
use bip_answers::{Answer, Status, said};
use bip_draw::write_tally;
use bip_model::{Grant, Model};
use bip_partition::Plan;
use bip_replay::{Book, run_laws, write_trace};
use bip_walk::{Tally, survey, tally_of_book, walk};
use std::alloc::{AllocError, Global};

/// Which walks are asked for: that of one seed, or those of so many, from 1 on.
#[derive(Clone, Copy, Debug, PartialEq, Eq)]
pub enum Walks {
    One(u32),
    Many(u32),
}

/// The walks that are asked for, where just one is said of a seed and of how many seeds.
pub fn walks_of(seed: Option<u32>, seeds: Option<u32>) -> Option<Walks>
    ensures { result ≡ walks_of seed seeds }
{
    match (seed, seeds) {
        (Some(seed), None) => Some(Walks::One(seed)),
        (None, Some(seeds)) => Some(Walks::Many(seeds)),
        _ => None,
    }
}

/// The answer to walks of a plan's model. Of one seed: the trace of its walk, and where that has
/// fewer grants than were asked for, since nothing can be granted next, how many these are; behind
/// it what the trace comes to, where that is asked for. Of many seeds: what their walks come to
/// (docs/ANSWERS.md, "Answers"). What stops it is want of memory.
pub fn answer_walk<'a>(
    alloc: Global,
    plan: &Plan,
    asked: &WalkArguments<'a>,
    walks: Walks,
) -> Result<Answer, Stop<'a>>
    requires { asked.now.base ≤ greatest_base }
    ensures { AllOutcomes result (IsWalkAnswer plan.now asked.now walks) }
{
    Ok(answer_walks(alloc, plan, asked, walks)?)
}

// The same; the only error is want of memory.
fn answer_walks(
    alloc: Global,
    plan: &Plan,
    asked: &WalkArguments<'_>,
    walks: Walks,
) -> Result<Answer, AllocError>
    requires { asked.now.base ≤ greatest_base }
    ensures { IfOk result (IsWalkAnswer plan.now asked.now walks) }
{
    match walks {
        Walks::One(seed) => answer_walked(alloc, plan, asked, seed),
        Walks::Many(seeds) => answer_survey(alloc, plan, asked, seeds),
    }
}

// The answer to the walk of one seed.
fn answer_walked(
    alloc: Global,
    plan: &Plan,
    asked: &WalkArguments<'_>,
    seed: u32,
) -> Result<Answer, AllocError>
    requires { asked.now.base ≤ greatest_base }
    ensures { IfOk result (IsWalkAnswer plan.now asked.now (One seed)) }
{
    run_laws();
    plan.recall();
    let book = walk(alloc, plan, asked.base, u64::from(seed), asked.grants)?;
    let trace = write_trace(alloc, plan.model(), book.grants())?;
    let beside = beside_walk(alloc, plan.model(), asked, seed, &book)?;
    Ok(reported(trace, beside))
}

// What is said beside the walk of a seed, which has no more grants than were asked for.
fn beside_walk(
    alloc: Global,
    model: &Model,
    asked: &WalkArguments<'_>,
    seed: u32,
    book: &Book<'_>,
) -> Result<Vec<u8>, AllocError>
    requires model { book.now.model ≡ model.now }
    requires few { length book.now.grants ≤ asked.now.grants }
    ensures { IfOk result (λ text.
        IsBesideWalk model.now asked.now seed book.now.grants text.items) }
{
    let mut text = walk_end(alloc, asked.grants, book.grants())?;
    let tally = tally_of_book(book, seed);
    let stats = tally_stats(alloc, model, asked.with_stats, &tally)?;
    text.extend_from_slice(stats.as_slice())?;
    Ok(text)
}

// The text of a tally, where that is asked for.
fn tally_stats(
    alloc: Global,
    model: &Model,
    is_asked: bool,
    tally: &Tally,
) -> Result<Vec<u8>, AllocError>
    ensures { IfOk result (λ text. text.items ≡ tally_stats model.now is_asked tally.now) }
{
    if !is_asked {
        return Ok(Vec::new(alloc));
    }
    write_tally(alloc, model, tally)
}

// What is said beside a walk that was to have so many grants.
fn walk_end(alloc: Global, count: u32, grants: &[Grant]) -> Result<Vec<u8>, AllocError>
    ensures { IfOk result (λ text. text.items ≡ walk_end count grants.now) }
{
    let made = grants.len() as u64;
    if made < u64::from(count) {
        stuck_text(alloc, made)
    } else {
        Ok(Vec::new(alloc))
    }
}

// The answer to the walks of many seeds.
fn answer_survey(
    alloc: Global,
    plan: &Plan,
    asked: &WalkArguments<'_>,
    seeds: u32,
) -> Result<Answer, AllocError>
    requires { asked.now.base ≤ greatest_base }
    ensures { IfOk result (IsWalkAnswer plan.now asked.now (Many seeds)) }
{
    let tally = survey(alloc, plan, asked.base, seeds, asked.grants)?;
    let text = survey_text(alloc, plan.model(), &tally)?;
    Ok(said(alloc, Status::Done, text))
}

// What the walks of many seeds come to.
fn survey_text(alloc: Global, model: &Model, tally: &Tally) -> Result<Vec<u8>, AllocError>
    ensures { IfOk result (λ text. text.items ≡ survey_text model.now tally.now) }
{
    let mut text = walks_text(alloc, tally.traces(), tally.grants())?;
    let lines = write_tally(alloc, model, tally)?;
    text.extend_from_slice(lines.as_slice())?;
    Ok(text)
}
