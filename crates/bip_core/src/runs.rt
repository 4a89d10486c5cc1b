//! Runs of events, and their reports.
ghost use Rattle.std.specs.Prelude.{◌≡◌, ◌<◌, ◌++◌, ◌∷◌, List, [], IfNone, IfSome, None, length};
ghost use Rattle.bip_model.specs.Numbering.{last_number};
ghost use Rattle.bip_model.specs.declared.grants.Grant.{Grant};
ghost use Rattle.bip_model.specs.Grants.{MovesOnceEach};
ghost use Rattle.bip_replay.specs.Runs.{IsModelRun};
ghost use Rattle.bip_core.specs.Agreement.{Agrees};
ghost use Rattle.bip_core.specs.Events.{IsCounted};
ghost use Rattle.bip_core.specs.Laws.{KeepsThePlan};
ghost use Rattle.bip_core.specs.Runs.{AddsUp, AreSteps, IsEventCounted, IsRunOfEvents};
ghost use Rattle.bip_core.specs.Runs.{report_counted, report_of, report_with};
ghost use Rattle.bip_core.specs.Worlds.{world_of};

use crate::outcomes::{Effect, NoOne, Outcome, Witness};
use crate::{Did, Event, What, World};

/// The sums of a run of events (docs/PROTOCOL.md, "The world and its events").
#[derive(Clone, Copy, Debug, PartialEq, Eq)]
pub struct Report {
    /// Messages that were lost for want of memory.
    pub lost: u128,
    /// All events.
    pub events: u64,
    /// Grants that joined the trace, of local and of reserved interactions.
    pub grants: u64,
    /// Requests that the bank refused.
    pub refusals: u64,
    /// Events that did nothing: no such message or class, a try that gave neither a grant nor a
    /// request, a step of the bank that doesn't apply.
    pub idle: u64,
    /// Events that were skipped for want of memory.
    pub skipped: u64,
}

impl Report {
    /// The report of no event.
    pub fn empty() -> Report
        ensures sums { result ≡ report_of [] }
        ensures adds_up { AddsUp result }
    {
        Report {
            lost: 0,
            events: 0,
            grants: 0,
            refusals: 0,
            idle: 0,
            skipped: 0,
        }
    }

    /// Counts an event that comes to this.
    fn count(&mut self, outcome: Outcome)
        requires room { self.old.events < last_number }
        requires adds_up { AddsUp self.old }
        ensures counted { self.new ≡ report_counted self.old outcome }
        ensures adds_up { AddsUp self.new }
    {
        self.lost += outcome.lost as u128;
        self.events += 1;
        match outcome.effect {
            Effect::Done => {}
            Effect::Granted => self.grants += 1,
            Effect::Refused => self.refusals += 1,
            Effect::Idle => self.idle += 1,
        }
    }

    /// Counts an event that was skipped.
    fn count_skipped(&mut self)
        requires room { self.old.events < last_number }
        requires adds_up { AddsUp self.old }
        ensures counted { self.new ≡ report_with self.old None }
        ensures adds_up { AddsUp self.new }
    {
        self.events += 1;
        self.skipped += 1;
    }
}

/// Does one event, and counts it; one for which there is no memory is skipped, and then the world
/// stays as it was. The report is one of fewer than 2^64 - 1 events, of which it counts each once,
/// and no more messages lost than they can lose.
pub fn run_event<'p, B: bip_bank::Bank>(world: &mut World<'p, B>, event: Event, report: &mut Report)
    requires room { report.old.events < last_number }
    requires adds_up { AddsUp report.old }
    ensures done { IsEventCounted event (world_of world.old) (world_of world.new) report.old
        report.new }
    ensures adds_up { AddsUp report.new }
{
    let _outcome = count_event(world, event, &mut NoOne, report);
}

/// Does one event and counts it, as `run_event` does, and gives what it did; none where it was
/// skipped (docs/PROTOCOL.md, "The world and its events").
pub fn watch_event<'p, B: bip_bank::Bank>(
    world: &mut World<'p, B>,
    event: Event,
    report: &mut Report,
) -> Option<Did>
    requires room { report.old.events < last_number }
    requires adds_up { AddsUp report.old }
    ensures done { AreSteps (event ∷ []) (result ∷ []) (world_of world.old) (world_of world.new) }
    ensures counted { report.new ≡ report_with report.old result }
    ensures adds_up { AddsUp report.new }
{
    let mut what = What::Nothing;
    let outcome = count_event(world, event, &mut what, report)?;
    Some(Did {
        what,
        lost: outcome.lost,
    })
}

/// Does one event before a witness, and counts it; none where it was skipped.
fn count_event<'p, B: bip_bank::Bank, W: Witness>(
    world: &mut World<'p, B>,
    event: Event,
    witness: &mut W,
    report: &mut Report,
) -> Option<Outcome>
    requires room { report.old.events < last_number }
    requires adds_up { AddsUp report.old }
    ensures some { IfSome result (λ outcome. IsCounted (λ what. W.saw what witness.new)
        (world_of world.old) event outcome (world_of world.new)) }
    ensures counted { IfSome result (λ outcome.
        report.new ≡ report_counted report.old outcome) }
    ensures none { IfNone result (AreSteps (event ∷ []) (None ∷ []) (world_of world.old)
        (world_of world.new)) }
    ensures skipped { IfNone result (report.new ≡ report_with report.old None) }
    ensures adds_up { AddsUp report.new }
{
    match world.step_before(event, witness) {
        Ok(outcome) => {
            report.count(outcome);
            Some(outcome)
        }
        Err(_) => {
            report.count_skipped();
            None
        }
    }
}

/// Does events one after another; one for which there is no memory is skipped, and those that
/// follow are done. Whatever the events are, the report has their sums.
pub fn run_steps<'p, B: bip_bank::Bank>(world: &mut World<'p, B>, events: &[Event]) -> Report
    ensures run { IsRunOfEvents events.now (world_of world.old) (world_of world.new) result }
    ensures grown { (grants : List Grant) × (world.new.trace ≡ world.old.trace ++ grants)
        × (result.grants ≡ length grants) }
    ensures same { KeepsThePlan (world_of world.old) (world_of world.new) }
    ensures agrees { Agrees (world_of world.new) }
    ensures ran { IsModelRun world.new.plan.model (world_of world.new).bank.base world.new.trace }
    ensures once { MovesOnceEach world.new.trace }
{
    let mut report = Report::empty();
    for event in events {
        run_event(world, *event, &mut report);
    }
    world.recall();
    report
}
