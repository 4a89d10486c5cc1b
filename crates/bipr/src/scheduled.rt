//! Answers to schedules: what their events lead to, and what is told on the way.
ghost use Rattle.std.specs.Prelude.{◌≡◌, ◌<◌, ◌≤◌, ◌^◌, [], IfOk, List, Ok, OnErr, length, true};
ghost use Rattle.std.specs.Prelude.{ℕ};
ghost use Rattle.bip_bank.specs.Banks.{content_of};
ghost use Rattle.bip_core.specs.Starting.{IsUnasked};
ghost use Rattle.bip_core.specs.Worlds.{world_of};
ghost use Rattle.bip_explain.specs.Explanations.{Tells};
ghost use Rattle.bip_explain.specs.Schedules.{IsScheduleReasonOf, schedule_parts};
ghost use Rattle.bip_model.specs.Texts.{line_at};
ghost use Rattle.bip_replay.specs.Runs.{IsModelRun};
ghost use Rattle.bip_replay.specs.Traces.{grants_of};
ghost use Rattle.bip_schedule.specs.Laws.{IsFault};
ghost use Rattle.bip_schedule.specs.Schedules.{IsEventText};
ghost use Rattle.bip_schedule.specs.Writing.{HaveSpelling};
ghost use Rattle.bip_replay.specs.Writing.{text_of};
ghost use Rattle.bip_answers.specs.Answers.{complaining};
ghost use Rattle.bip_answers.specs.Answers.{greatest_base};
ghost use Rattle.bipr.specs.Endings.{AllOutcomesTelling};
ghost use Rattle.bipr.specs.Resolvers.{IsSharedAtFirst};
ghost use Rattle.bipr.specs.Scheduled.{IsScheduleAnswer, IsScheduleOf, IsTelling, reporting};
ghost use Rattle.bip_tell.specs.Lines.{first_lines};
ghost use Rattle.bipr.specs.Streams.{Put, PutsEach, Puts};
ghost use Rattle.bipr.specs.Wording.{report_text, schedule_refusal};
ghost use Rattle.bip_answers.specs.declared.answers.Status.TheVariants.{Refused};

use crate::commands::steps::StepsArguments;
use crate::resolvers::Resolver;
use crate::stops::Stop;
use crate::streams::{Stream, put};
use crate::wording::{report_text, schedule_refusal};
use bip_answers::{Answer, Status, complained};
use bip_bank::{Bank, Central};
use bip_core::{Report, World, world_laws};
use bip_explain::{Explanation, explain_schedule};
use bip_forks::Forks;
use bip_model::{Number, Seq};
use bip_partition::Plan;
use bip_replay::{TraceFault, write_trace};
use bip_ring::Ring;
use bip_schedule::{Schedule, follow_schedule};
use bip_tell::{tell_event, tell_first};
use std::alloc::{AllocError, Global};

/// The answer to a schedule's text for a plan, with a resolver's bank, from a base: the trace of
/// the world to which its events lead from the new one, with their report; else the first fault of
/// the text. Where that is asked for, each event is told on standard error when it is done, and
/// nothing of a text that is refused; where its line isn't out, no more are done (docs/ANSWERS.md,
/// "Answers"). What stops it is that, or want of memory.
pub fn answer_schedule<'a, E: Stream>(
    alloc: Global,
    explanation: &mut Explanation,
    plan: &Plan,
    asked: &StepsArguments<'a>,
    schedule: &[u8],
    errors: &mut E,
) -> Result<Answer, Stop<'a>>
    requires { asked.now.base ≤ greatest_base }
    ensures { AllOutcomesTelling E.writes errors.old errors.new result
        (IsScheduleOf plan.now asked.now schedule.now) }
{
    let base = asked.base;
    match asked.resolver {
        Resolver::Central => {
            let bank = Central::new(alloc, plan, base)?;
            answer_with_bank(alloc, explanation, plan, bank, asked, schedule, errors)
        }
        Resolver::Ring => {
            let bank = Ring::new(alloc, plan, base)?;
            answer_with_bank(alloc, explanation, plan, bank, asked, schedule, errors)
        }
        Resolver::Forks => {
            let bank = Forks::new(alloc, plan, base)?;
            answer_with_bank(alloc, explanation, plan, bank, asked, schedule, errors)
        }
    }
}

// The answer to a schedule's text for a plan, with a new bank of the resolver.
fn answer_with_bank<'a, B: Bank + Drop, E: Stream>(
    alloc: Global,
    explanation: &mut Explanation,
    plan: &Plan,
    bank: B,
    asked: &StepsArguments<'a>,
    schedule: &[u8],
    errors: &mut E,
) -> Result<Answer, Stop<'a>>
    requires base { asked.now.base ≤ greatest_base }
    requires unasked { IsUnasked plan.now asked.now.base (content_of (B.kept bank)) }
    requires shared { IsSharedAtFirst asked.now.resolver plan.now (B.kept bank).sharing }
    ensures { AllOutcomesTelling E.writes errors.old errors.new result
        (IsScheduleOf plan.now asked.now schedule.now) }
{
    if asked.is_told {
        answer_aloud(alloc, explanation, plan, bank, asked, schedule, errors)
    } else {
        Ok(answer_events(alloc, explanation, plan, bank, schedule, asked.base)?)
    }
}

// The same where each event is told: the text is read whole before the first one.
fn answer_aloud<'a, B: Bank + Drop, E: Stream>(
    alloc: Global,
    explanation: &mut Explanation,
    plan: &Plan,
    bank: B,
    asked: &StepsArguments<'a>,
    schedule: &[u8],
    errors: &mut E,
) -> Result<Answer, Stop<'a>>
    requires base { asked.now.base ≤ greatest_base }
    requires unasked { IsUnasked plan.now asked.now.base (content_of (B.kept bank)) }
    requires shared { IsSharedAtFirst asked.now.resolver plan.now (B.kept bank).sharing }
    requires told { asked.now.is_told ≡ true }
    ensures { AllOutcomesTelling E.writes errors.old errors.new result
        (IsScheduleOf plan.now asked.now schedule.now) }
{
    match Schedule::of(alloc, plan, schedule) {
        Ok(events) => answer_telling(alloc, plan, bank, asked, events, errors),
        Err((line, fault)) => Ok(refuse_schedule(
            alloc,
            explanation,
            plan,
            schedule,
            line,
            &fault,
        )?),
    }
}

/// The answer that refuses a schedule by its first fault, which the explanation tells more of. The
/// only error is want of memory.
pub fn refuse_schedule(
    alloc: Global,
    explanation: &mut Explanation,
    plan: &Plan,
    schedule: &[u8],
    line: u64,
    fault: &TraceFault,
) -> Result<Answer, AllocError>
    requires { IsFault plan.now schedule.now line fault.now }
    ensures refused { IfOk result (λ answer.
        answer ≡ complaining Refused (schedule_refusal line fault.now)) }
    ensures explained { Tells ⊥ (IsScheduleReasonOf plan.now (line_at schedule.now line) fault.now)
        schedule_parts explanation.old explanation.new }
{
    explain_schedule(explanation, plan, schedule, line, fault);
    let complaint = schedule_refusal(alloc, line, fault)?;
    Ok(complained(alloc, Status::Refused, complaint))
}

// The answer to the events of a schedule of the plan, with a new bank of the resolver: what is in
// flight at first is told, and then each event.
fn answer_telling<'a, B: Bank + Drop, E: Stream>(
    alloc: Global,
    plan: &Plan,
    bank: B,
    asked: &StepsArguments<'a>,
    events: Schedule<'_>,
    errors: &mut E,
) -> Result<Answer, Stop<'a>>
    requires base { asked.now.base ≤ greatest_base }
    requires unasked { IsUnasked plan.now asked.now.base (content_of (B.kept bank)) }
    requires shared { IsSharedAtFirst asked.now.resolver plan.now (B.kept bank).sharing }
    requires told { asked.now.is_told ≡ true }
    requires spelled { HaveSpelling plan.now events }
    requires few { length events < 2 ^ 64 }
    ensures { (text : List ℕ) → IsEventText plan.now text events.entry
        → AllOutcomesTelling E.writes errors.old errors.new result
        (IsScheduleOf plan.now asked.now text) }
{
    world_laws();
    let mut world = World::new(alloc, plan, bank, asked.base)?;
    match tell_events(alloc, events, &mut world, errors)? {
        Some(report) => Ok(answer_run(alloc, plan, &world, &report)?),
        None => Err(Stop::CannotWrite),
    }
}

// Tells what is in flight at first, does the events of a schedule one after another, and tells each
// by its line; no report where a text isn't out. The only error is want of memory.
fn tell_events<'p, B: Bank, E: Stream>(
    alloc: Global,
    events: Schedule<'_>,
    world: &mut World<'p, B>,
    errors: &mut E,
) -> Result<Option<Report>, AllocError>
    requires spelled { HaveSpelling world.old.plan events }
    requires few { length events < 2 ^ 64 }
    ensures plan { world.new.plan ≡ world.old.plan }
    ensures told { (told : List Put) × PutsEach E.writes errors.old told errors.new
        × IsTelling events.entry (world_of world.old) (world_of world.new) told result }
{
    let mut line = Vec::new(alloc);
    if !tell_beginning(&mut line, world, errors)? {
        return Ok(None);
    }
    let mut report = Report::empty();
    for event in events {
        line.clear();
        tell_event(&mut line, world, event, &mut report)?;
        if !put(errors, line.as_slice()) {
            return Ok(None);
        }
    }
    Ok(Some(report))
}

// Tells what is in flight before the first event, and says whether that is out. The only error is
// want of memory: nothing is told then.
fn tell_beginning<'p, B: Bank, E: Stream>(
    line: &mut Vec<u8>,
    world: &World<'p, B>,
    errors: &mut E,
) -> Result<bool, AllocError>
    requires { line.old.items ≡ [] }
    ensures told { IfOk result
        (Puts E.writes errors.old errors.new (first_lines world.now.plan world.now.mail)) }
    ensures err { OnErr result (errors.new ≡ errors.old) }
{
    tell_first(line, world)?;
    Ok(put(errors, line.as_slice()))
}

// The answer to a schedule's text for a plan, with a new bank, where nothing is told on the way:
// each line is read once, and its event done.
fn answer_events<B: Bank + Drop>(
    alloc: Global,
    explanation: &mut Explanation,
    plan: &Plan,
    bank: B,
    schedule: &[u8],
    base: Number,
) -> Result<Answer, AllocError>
    requires base { base ≤ greatest_base }
    requires unasked { IsUnasked plan.now base (content_of (B.kept bank)) }
    ensures { IfOk result (λ answer. (resolver : Resolver)
        → IsSharedAtFirst resolver plan.now (B.kept bank).sharing
        → IsScheduleAnswer plan.now base resolver schedule.now answer) }
{
    world_laws();
    let mut world = World::new(alloc, plan, bank, base)?;
    match follow_schedule(alloc, &mut world, schedule) {
        Ok(report) => answer_run(alloc, plan, &world, &report),
        Err((line, fault)) => refuse_schedule(alloc, explanation, plan, schedule, line, &fault),
    }
}

/// The answer to a run of events: the trace of the world to which they led, and their report. The
/// only error is want of memory.
pub fn answer_run<'p, B: Bank>(
    alloc: Global,
    plan: &Plan,
    world: &World<'p, B>,
    report: &Report,
) -> Result<Answer, AllocError>
    requires { world.now.plan ≡ plan.now }
    ensures answer { IfOk result (λ answer. answer
        ≡ reporting (text_of plan.now.model world.now.trace) (report_text report.now)) }
    ensures reads { IfOk result (λ answer.
        grants_of plan.now.model (text_of plan.now.model world.now.trace) ≡ Ok world.now.trace) }
    ensures ran { IsModelRun world.now.plan.model (world_of world.now).bank.base world.now.trace }
{
    plan.recall();
    let trace = write_trace(alloc, plan.model(), world.trace())?;
    let told = report_text(alloc, report)?;
    Ok(reported(trace, told))
}

/// A trace on standard output, and a report on standard error.
pub fn reported(trace: Vec<u8>, report: Vec<u8>) -> Answer
    ensures { result ≡ reporting trace.items report.items }
{
    Answer {
        status: Status::Done,
        output: Seq::of(trace),
        complaint: Seq::of(report),
        file: None,
    }
}
