//! The command `seed`.
ghost use Rattle.std.specs.Prelude.{◌≡◌};
ghost use Rattle.clap.specs.Words.{found_of, rows_of};
ghost use Rattle.bip_program.specs.Asked.{IsReadAs};
ghost use Rattle.bipr.specs.CommandLine.{IsSeedAsked};
ghost use Rattle.bipr.specs.Commands.{IsSeedWritten};
ghost use Rattle.bipr.specs.Endings.{AllOutcomesTelling};

use crate::command_line::{draws_asked, resolver_asked};
use crate::hosting::Hosting;
use crate::inputs::Inputs;
use crate::invocations::Invocation;
use crate::loading::load;
use crate::resolvers::Resolver;
use crate::seeds::answer_seed;
use crate::stops::Stop;
use crate::streams::Stream;
use bip_answers::{Answer, PlanOrRefusal, plan_text};
use bip_program::{number_asked, text_asked};
use bip_schedule::Draws;
use clap::ArgMatches;

/// The schedule of a seed of the model that a path names: of what is drawn of it, with a resolver's
/// bank.
#[derive(Drop)]
pub struct SeedArguments<'p> {
    pub model: &'p str,
    pub resolver: Resolver,
    pub seed: u32,
    pub draws: Draws,
}

impl<'p> SeedArguments<'p> {
    /// What the words behind `seed` ask.
    pub fn read(matches: &ArgMatches<'p>) -> Option<SeedArguments<'p>>
        ensures { IsReadAs (IsSeedAsked (rows_of (found_of matches.now))) result }
    {
        Some(SeedArguments {
            model: text_asked(matches, "model")?,
            resolver: resolver_asked(matches)?,
            seed: number_asked(matches, "seed")?,
            draws: draws_asked(matches)?,
        })
    }
}

impl<R, I: Inputs, H: Hosting, O, E: Stream> Invocation<'_, R, I, H, O, E> {
    /// Writes the events that are drawn from a seed, in the new world of the model that the path
    /// names, with the resolver's bank, as a schedule (docs/ANSWERS.md, "The seed that is asked
    /// for").
    pub fn seed<'p>(&mut self, asked: &SeedArguments<'p>) -> Result<Answer, Stop<'p>>
        ensures says { AllOutcomesTelling E.writes self.old.errors self.new.errors result
            (IsSeedWritten (I.gives self.old.inputs.now) asked.now) }
        ensures output { self.new.output ≡ self.old.output }
    {
        let (alloc, explanation) = (self.alloc, &mut self.explanation);
        let text = load(alloc, explanation, self.inputs, asked.model)?;
        match plan_text(alloc, explanation, text.as_slice())? {
            PlanOrRefusal::Plan(plan) => answer_seed(alloc, &plan, asked),
            PlanOrRefusal::Refusal(answer) => Ok(answer),
        }
    }
}
