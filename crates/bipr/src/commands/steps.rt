//! The command `steps`.
ghost use Rattle.std.specs.Prelude.{◌≡◌, ◌≤◌};
ghost use Rattle.clap.specs.Words.{found_of, rows_of};
ghost use Rattle.bip_program.specs.Asked.{IsReadAs};
ghost use Rattle.bip_answers.specs.Answers.{greatest_base};
ghost use Rattle.bipr.specs.CommandLine.{AreStepsAsked};
ghost use Rattle.bip_answers.specs.Answers.{IsRefusedModel};
ghost use Rattle.bipr.specs.Commands.{IsSteps};
ghost use Rattle.bipr.specs.Endings.{AllOutcomesTelling};
ghost use Rattle.bipr.specs.Loading.{IsPlannedText, OfPlan, OfTexts};
ghost use Rattle.bipr.specs.Sequenced.{IsScheduleShown};

use crate::command_line::{base_asked, resolver_asked};
use crate::hosting::Hosting;
use crate::inputs::Inputs;
use crate::invocations::Invocation;
use crate::loading::{load, parts};
use crate::resolvers::Resolver;
use crate::scheduled::answer_schedule;
use crate::sequenced::StepRows;
use crate::sources::is_on_output;
use crate::stops::Stop;
use crate::streams::Stream;
use bip_answers::{Answer, PlanOrRefusal, plan_text};
use bip_model::Number;
use bip_partition::Plan;
use bip_program::{is_set, text_asked, wide_number_asked};
use clap::ArgMatches;

/// The steps of a schedule from the new world of a model above a base, with a resolver's bank, each
/// text named by its path; whether each event is told; in which file they are drawn, if in one, and
/// which rows of them.
#[derive(Drop)]
pub struct StepsArguments<'p> {
    pub model: &'p str,
    pub schedule: &'p str,
    pub resolver: Resolver,
    pub base: Number,
    pub is_told: bool,
    pub chart_in: Option<&'p str>,
    pub rows: StepRows,
}

impl<'p> StepsArguments<'p> {
    /// What the words behind `steps` ask.
    pub fn read(matches: &ArgMatches<'p>) -> Option<StepsArguments<'p>>
        ensures { IsReadAs (AreStepsAsked (rows_of (found_of matches.now))) result }
    {
        Some(StepsArguments {
            model: text_asked(matches, "model")?,
            schedule: text_asked(matches, "schedule")?,
            resolver: resolver_asked(matches)?,
            base: base_asked(matches)?,
            is_told: is_set(matches, "tell"),
            chart_in: text_asked(matches, "chart"),
            rows: StepRows {
                from: wide_number_asked(matches, "from")?,
                to: wide_number_asked(matches, "to"),
            },
        })
    }
}

impl<R, I: Inputs, H: Hosting, O, E: Stream> Invocation<'_, R, I, H, O, E> {
    /// Runs the events of the schedule that the second path names from the new world of the model
    /// that the first path names, with the resolver's bank: the trace, and their report beside it.
    /// Where that is asked for, each event is told on standard error when it is done, or all are
    /// drawn in a file. The schedule is read only where the model has a plan; where both paths are
    /// standard input, that has both texts (docs/ANSWERS.md, "The steps that are asked for").
    pub fn steps<'p>(&mut self, asked: &StepsArguments<'p>) -> Result<Answer, Stop<'p>>
        requires { asked.now.base ≤ greatest_base }
        ensures says { AllOutcomesTelling E.writes self.old.errors self.new.errors result
            (IsSteps (I.gives self.old.inputs.now) (H.hosts self.old.hosting.now) asked.now) }
        ensures output { self.new.output ≡ self.old.output }
    {
        if !asked.rows.are_in_order() {
            return Err(Stop::RowsOutOfOrder);
        }
        if asked.chart_in.is_some() && asked.is_told {
            self.explanation.say(
                b"`--tell` writes what steps did, `--chart` draws it: one at a time",
            );
            return Err(Stop::DrawnAndTold);
        }
        if is_on_output(asked.chart_in) {
            self.explanation
                .say(b"`--chart` names a file, and no stream");
            return Err(Stop::ChartOnOutput);
        }
        self.run_schedule(asked)
    }

    // The same, where what is asked for can be had.
    fn run_schedule<'p>(&mut self, asked: &StepsArguments<'p>) -> Result<Answer, Stop<'p>>
        requires { asked.now.base ≤ greatest_base }
        ensures says { AllOutcomesTelling E.writes self.old.errors self.new.errors result
            (OfTexts IsPlannedText IsRefusedModel
            (λ model schedule. OfPlan model (λ p.
            IsScheduleShown p (H.hosts self.old.hosting.now) asked.now schedule))
            (I.gives self.old.inputs.now) asked.now.model.now asked.now.schedule.now) }
        ensures output { self.new.output ≡ self.old.output }
    {
        let (alloc, explanation) = (self.alloc, &mut self.explanation);
        let text = load(alloc, explanation, self.inputs, asked.model)?;
        let (model, other) = parts(text.as_slice(), asked.model, asked.schedule);
        let plan = match plan_text(alloc, explanation, model)? {
            PlanOrRefusal::Plan(plan) => plan,
            PlanOrRefusal::Refusal(answer) => return Ok(answer),
        };
        let schedule = other.load(alloc, explanation, self.inputs)?;
        self.show_schedule(&plan, asked, schedule.as_slice())
    }

    // The answer to a schedule's text for a plan, drawn where that is asked for.
    fn show_schedule<'p>(
        &mut self,
        plan: &Plan,
        asked: &StepsArguments<'p>,
        schedule: &[u8],
    ) -> Result<Answer, Stop<'p>>
        requires { asked.now.base ≤ greatest_base }
        ensures says { AllOutcomesTelling E.writes self.old.errors self.new.errors result
            (IsScheduleShown plan.now (H.hosts self.old.hosting.now) asked.now schedule.now) }
        ensures output { self.new.output ≡ self.old.output }
    {
        match asked.chart_in {
            None => {
                let (alloc, explanation) = (self.alloc, &mut self.explanation);
                answer_schedule(alloc, explanation, plan, asked, schedule, &mut self.errors)
            }
            Some(path) => self.answer_drawn(plan, asked, schedule, path),
        }
    }
}
