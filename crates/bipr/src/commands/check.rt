//! The command `check`.
ghost use Rattle.std.specs.Prelude.{◌≡◌};
ghost use Rattle.clap.specs.Words.{found_of, rows_of};
ghost use Rattle.bip_program.specs.Asked.{IsReadAs};
ghost use Rattle.bipr.specs.CommandLine.{IsCheckAsked};
ghost use Rattle.bipr.specs.Commands.{IsCheck};
ghost use Rattle.bipr.specs.Endings.{AllOutcomesTelling};

use crate::hosting::Hosting;
use crate::inputs::Inputs;
use crate::invocations::Invocation;
use crate::loading::load;
use crate::stops::Stop;
use crate::streams::Stream;
use bip_answers::{Answer, answer_check};
use bip_program::{is_set, text_asked};
use clap::ArgMatches;

/// The check of the model that a path names, and whether its plan is shown.
#[derive(Drop)]
pub struct CheckArguments<'p> {
    pub model: &'p str,
    pub with_plan: bool,
}

impl<'p> CheckArguments<'p> {
    /// What the words behind `check` ask.
    pub fn read(matches: &ArgMatches<'p>) -> Option<CheckArguments<'p>>
        ensures { IsReadAs (IsCheckAsked (rows_of (found_of matches.now))) result }
    {
        Some(CheckArguments {
            model: text_asked(matches, "model")?,
            with_plan: is_set(matches, "plan"),
        })
    }
}

impl<R, I: Inputs, H: Hosting, O, E: Stream> Invocation<'_, R, I, H, O, E> {
    /// Counts what the plan has of the model that the path names, and shows it where that is asked
    /// for (docs/ANSWERS.md, "The check that is asked for").
    pub fn check<'p>(&mut self, asked: &CheckArguments<'p>) -> Result<Answer, Stop<'p>>
        ensures says { AllOutcomesTelling E.writes self.old.errors self.new.errors result
            (IsCheck (I.gives self.old.inputs.now) asked.now) }
        ensures output { self.new.output ≡ self.old.output }
    {
        let text = load(self.alloc, &mut self.explanation, self.inputs, asked.model)?;
        let text = text.as_slice();
        Ok(answer_check(self.alloc, &mut self.explanation, text, asked.with_plan)?)
    }
}
