//! The command `run`.
ghost use Rattle.std.specs.Prelude.{◌≡◌, Some};
ghost use Rattle.clap.specs.Words.{found_of, rows_of};
ghost use Rattle.bip_program.specs.Asked.{IsReadAs};
ghost use Rattle.bipr.specs.CommandLine.{IsRunAsked};
ghost use Rattle.bipr.specs.Commands.{IsThreadedRun};
ghost use Rattle.bipr.specs.Endings.{AllOutcomes, AllOutcomesTelling};
ghost use Rattle.bipr.specs.Hosted.{IsPlanHosted, limits_of};

use crate::command_line::{resolver_asked, tables_asked};
use crate::hosted::limits_of;
use crate::hosting::Hosting;
use crate::inputs::Inputs;
use crate::invocations::Invocation;
use crate::loading::load;
use crate::resolvers::HostForm;
use crate::sources::is_on_output;
use crate::stops::Stop;
use crate::streams::Stream;
use bip_answers::{Answer, PlanOrRefusal, plan_text};
use bip_host::{Limits, can_have};
use bip_partition::Plan;
use bip_program::{is_set, number_asked, text_asked};
use clap::ArgMatches;
use std::sync::Wait;
use std::thread::Threads;
use std::time::Clock;

/// The running of the nodes of the model that a path names as threads, in a form, for so many turns
/// each or until there are so many grants, as far as either is said; in which file it is recorded,
/// if in one; and whether what is counted is told.
#[derive(Drop)]
pub struct RunArguments<'p> {
    pub model: &'p str,
    pub form: HostForm,
    pub turns: Option<u32>,
    pub grants: Option<u32>,
    pub record_in: Option<&'p str>,
    pub with_stats: bool,
}

impl<'p> RunArguments<'p> {
    /// What the words behind `run` ask.
    pub fn read(matches: &ArgMatches<'p>) -> Option<RunArguments<'p>>
        ensures { IsReadAs (IsRunAsked (rows_of (found_of matches.now))) result }
    {
        let resolver = resolver_asked(matches)?;
        let tables = tables_asked(matches)?;
        Some(RunArguments {
            model: text_asked(matches, "model")?,
            form: HostForm { resolver, tables },
            turns: number_asked(matches, "turns"),
            grants: number_asked(matches, "grants"),
            record_in: text_asked(matches, "record"),
            with_stats: is_set(matches, "stats"),
        })
    }
}

impl<R: Threads + Wait + Clock + Sync, I: Inputs, H: Hosting, O, E: Stream> Invocation<
    '_,
    R,
    I,
    H,
    O,
    E,
> {
    /// Runs the nodes of the model that the path names as threads, for so many turns each or until
    /// there are so many grants: the trace of their grants, and beside it what is counted, where
    /// that is asked for (docs/ANSWERS.md, "The run that is asked for").
    pub fn run<'p>(&mut self, asked: &RunArguments<'p>) -> Result<Answer, Stop<'p>>
        ensures says { AllOutcomesTelling E.writes self.old.errors self.new.errors result
            (IsThreadedRun (I.gives self.old.inputs.now) (H.hosts self.old.hosting.now)
            asked.now) }
        ensures output { self.new.output ≡ self.old.output }
    {
        match limits_of(asked.turns, asked.grants) {
            Some(limits) => self.run_within(asked, limits),
            None => {
                self.explanation
                    .say(b"a run has one of `--turns` and `--grants`");
                Err(Stop::TurnsOrGrants)
            }
        }
    }

    // The same, with these limits.
    fn run_within<'p>(
        &mut self,
        asked: &RunArguments<'p>,
        limits: Limits,
    ) -> Result<Answer, Stop<'p>>
        requires limits { limits_of asked.now.turns asked.now.grants ≡ Some limits }
        ensures says { AllOutcomesTelling E.writes self.old.errors self.new.errors result
            (IsThreadedRun (I.gives self.old.inputs.now) (H.hosts self.old.hosting.now)
            asked.now) }
        ensures output { self.new.output ≡ self.old.output }
    {
        if asked.form.needs_central() {
            self.explanation
                .say(b"`--table words` goes with `--resolver central` alone");
            return Err(Stop::WordsNeedCentral);
        }
        if is_on_output(asked.record_in) {
            self.explanation
                .say(b"`--record` names a file, and no stream");
            return Err(Stop::RecordOnOutput);
        }
        let (alloc, explanation) = (self.alloc, &mut self.explanation);
        let text = load(alloc, explanation, self.inputs, asked.model)?;
        match plan_text(alloc, explanation, text.as_slice())? {
            PlanOrRefusal::Plan(plan) => self.run_plan(&plan, asked, limits),
            PlanOrRefusal::Refusal(answer) => Ok(answer),
        }
    }

    // The same, where the text has this plan.
    fn run_plan<'p>(
        &mut self,
        plan: &Plan,
        asked: &RunArguments<'p>,
        limits: Limits,
    ) -> Result<Answer, Stop<'p>>
        ensures says { AllOutcomes result
            (IsPlanHosted plan.now (H.hosts self.old.hosting.now) asked.now limits) }
        ensures errors { self.new.errors ≡ self.old.errors }
        ensures output { self.new.output ≡ self.old.output }
    {
        let (alloc, explanation) = (self.alloc, &mut self.explanation);
        if !can_have(plan, asked.form.kind(), asked.form.tables) {
            explanation.say(b"row words are of at most 32 components, and more have a row");
            return Err(Stop::TooManyRows);
        }
        match asked.record_in {
            None => self.answer_host(plan, asked, limits),
            Some(path) => self.answer_recorded(plan, asked, limits, path),
        }
    }
}
