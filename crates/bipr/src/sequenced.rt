//! Answers to schedules whose steps are drawn: the picture is kept in a file.
ghost use Rattle.std.specs.Prelude.{◌≡◌, ◌≤◌, ◌<◌, ◌^◌, IfNone, IfOk, IfSome, List, Option, Some};
ghost use Rattle.std.specs.Prelude.{false, length, true, ℕ};
ghost use Rattle.bip_bank.specs.Banks.{content_of};
ghost use Rattle.bip_core.specs.Starting.{IsUnasked};
ghost use Rattle.bip_core.specs.declared.runs.Report.{Report};
ghost use Rattle.bip_schedule.specs.Schedules.{IsEventText};
ghost use Rattle.bip_schedule.specs.Writing.{HaveSpelling};
ghost use Rattle.bip_answers.specs.Answers.{greatest_base};
ghost use Rattle.bip_answers.specs.Charted.{most_rows};
ghost use Rattle.bipr.specs.Endings.{AllOutcomes};
ghost use Rattle.bipr.specs.Resolvers.{IsSharedAtFirst};
ghost use Rattle.bipr.specs.Sequenced.{AreRowsIn, AreRowsOut, AreTooMany, AreStepsDrawn};
ghost use Rattle.bipr.specs.Sequenced.{IsScheduleDrawn, events_before, last_asked, last_noted};
ghost use Rattle.bipr.specs.Sequenced.{rows_asked};

use crate::commands::steps::StepsArguments;
use crate::hosting::Hosting;
use crate::invocations::Invocation;
use crate::recorded::answer_keeping;
use crate::resolvers::Resolver;
use crate::scheduled::{answer_run, refuse_schedule};
use crate::stops::Stop;
use bip_answers::{Answer, MOST_ROWS, refuse_rows};
use bip_bank::{Bank, Central};
use bip_core::{World, world_laws};
use bip_forks::Forks;
use bip_partition::Plan;
use bip_ring::Ring;
use bip_schedule::Schedule;
use bip_sequence::{chart_events, count_event_rows};
use std::alloc::{AllocError, Global};

/// Which rows of a picture of steps are asked for, by the numbers of their events from 1, the last
/// one included.
#[derive(Clone, Copy, Debug)]
pub struct StepRows {
    pub from: u64,
    pub to: Option<u64>,
}

impl StepRows {
    /// Whether they end where they begin, or later.
    pub fn are_in_order(&self) -> bool
        ensures yes { result ≡ true → AreRowsIn self.now }
        ensures no { result ≡ false → AreRowsOut self.now }
    {
        match self.to {
            Some(last) => self.from <= last,
            None => true,
        }
    }

    /// How many events come before the first one that is drawn.
    fn before(&self) -> u64
        ensures { result ≡ events_before self.now }
    {
        self.from.saturating_sub(1)
    }

    /// Up to which number events are asked for.
    fn last_asked(&self) -> u64
        ensures { result ≡ last_asked self.now }
    {
        self.to.unwrap_or(u64::MAX)
    }

    /// Up to which number events are noted: no more than have room in a picture.
    fn last_noted(&self) -> u64
        ensures { result ≡ last_noted self.now }
    {
        let room = self.before().saturating_add(u64::from(MOST_ROWS));
        self.last_asked().min(room)
    }

    /// Whether more of so many events are asked for than have room in a picture.
    fn are_too_many(&self, events: u64) -> bool
        ensures no { result ≡ false → rows_asked self.now events ≤ most_rows }
        ensures yes { result ≡ true → most_rows < rows_asked self.now events }
    {
        u64::from(MOST_ROWS) < count_event_rows(self.before(), self.last_asked(), events)
    }
}

/// The answer to steps, and the picture of them.
#[derive(Drop)]
struct DrawnSteps {
    plain: Answer,
    picture: Vec<u8>,
}

impl<R, I, H: Hosting, O, E> Invocation<'_, R, I, H, O, E> {
    /// The answer to a schedule's text for a plan, whose steps are drawn: that of its events, with
    /// the picture to keep in the file that a path names; or that it has too many rows; else the
    /// first fault of the text. The file is made once the events are done (docs/ANSWERS.md,
    /// "Answers").
    pub fn answer_drawn<'a>(
        &mut self,
        plan: &Plan,
        asked: &StepsArguments<'a>,
        text: &[u8],
        path: &'a str,
    ) -> Result<Answer, Stop<'a>>
        requires { asked.now.base ≤ greatest_base }
        ensures says { AllOutcomes result (IsScheduleDrawn plan.now
            (H.hosts self.old.hosting.now) asked.now path.now text.now) }
        ensures errors { self.new.errors ≡ self.old.errors }
        ensures output { self.new.output ≡ self.old.output }
    {
        let (alloc, explanation) = (self.alloc, &mut self.explanation);
        let events = match Schedule::of(alloc, plan, text) {
            Ok(events) => events,
            Err((line, fault)) => {
                return Ok(refuse_schedule(alloc, explanation, plan, text, line, &fault)?);
            }
        };
        let Some(drawn) = draw_resolved(alloc, plan, asked, events)? else {
            return Ok(refuse_rows(alloc)?);
        };
        let Some(made) = self.hosting.make(path) else {
            self.explanation
                .say(b"the file for the picture can't be made");
            drop(drawn);
            return Err(Stop::CannotWrite);
        };
        self.record = Some(made);
        Ok(answer_keeping(alloc, drawn.plain, path, drawn.picture)?)
    }
}

// The steps of a schedule of the plan, with a resolver's bank; none where more are asked for than
// have room in a picture. The only error is want of memory.
fn draw_resolved(
    alloc: Global,
    plan: &Plan,
    asked: &StepsArguments<'_>,
    events: Schedule<'_>,
) -> Result<Option<DrawnSteps>, AllocError>
    requires base { asked.now.base ≤ greatest_base }
    requires spelled { HaveSpelling plan.now events }
    requires few { length events < 2 ^ 64 }
    ensures drawn { IfOk result (λ drawn. IfSome drawn (λ steps. (text : List ℕ)
        → IsEventText plan.now text events.entry
        → (report : Report) × AreStepsDrawn plan.now asked.now text report steps.plain
        steps.picture.items × (rows_asked asked.now.rows report.events ≤ most_rows))) }
    ensures many { IfOk result (λ drawn. IfNone drawn ((text : List ℕ)
        → IsEventText plan.now text events.entry → AreTooMany plan.now asked.now text)) }
{
    let base = asked.base;
    match asked.resolver {
        Resolver::Central => {
            let bank = Central::new(alloc, plan, base)?;
            draw_with_bank(alloc, plan, bank, asked, events)
        }
        Resolver::Ring => {
            let bank = Ring::new(alloc, plan, base)?;
            draw_with_bank(alloc, plan, bank, asked, events)
        }
        Resolver::Forks => {
            let bank = Forks::new(alloc, plan, base)?;
            draw_with_bank(alloc, plan, bank, asked, events)
        }
    }
}

// The same, with a new bank of the resolver.
fn draw_with_bank<B: Bank + Drop>(
    alloc: Global,
    plan: &Plan,
    bank: B,
    asked: &StepsArguments<'_>,
    events: Schedule<'_>,
) -> Result<Option<DrawnSteps>, AllocError>
    requires base { asked.now.base ≤ greatest_base }
    requires unasked { IsUnasked plan.now asked.now.base (content_of (B.kept bank)) }
    requires shared { IsSharedAtFirst asked.now.resolver plan.now (B.kept bank).sharing }
    requires spelled { HaveSpelling plan.now events }
    requires few { length events < 2 ^ 64 }
    ensures drawn { IfOk result (λ drawn. IfSome drawn (λ steps. (text : List ℕ)
        → IsEventText plan.now text events.entry
        → (report : Report) × AreStepsDrawn plan.now asked.now text report steps.plain
        steps.picture.items × (rows_asked asked.now.rows report.events ≤ most_rows))) }
    ensures many { IfOk result (λ drawn. IfNone drawn ((text : List ℕ)
        → IsEventText plan.now text events.entry → AreTooMany plan.now asked.now text)) }
{
    world_laws();
    let mut world = World::new(alloc, plan, bank, asked.base)?;
    let rows = asked.rows;
    let (before, last) = (rows.before(), rows.last_noted());
    let (report, picture) = chart_events(alloc, &mut world, events, before, last)?;
    let plain = answer_run(alloc, plan, &world, &report)?;
    if rows.are_too_many(report.events) {
        drop(plain);
        return Ok(None);
    }
    Ok(Some(DrawnSteps { plain, picture }))
}
