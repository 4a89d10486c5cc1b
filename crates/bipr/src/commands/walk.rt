//! The command `walk`.
ghost use Rattle.std.specs.Prelude.{◌≡◌, ◌≤◌};
ghost use Rattle.clap.specs.Words.{found_of, rows_of};
ghost use Rattle.bip_program.specs.Asked.{IsReadAs};
ghost use Rattle.bip_answers.specs.Answers.{greatest_base};
ghost use Rattle.bipr.specs.CommandLine.{IsWalkAsked};
ghost use Rattle.bipr.specs.Commands.{AreWalksWritten};
ghost use Rattle.bipr.specs.Endings.{AllOutcomesTelling};
ghost use Rattle.bipr.specs.Loading.{OfPlan, OfText, Silently};
ghost use Rattle.bipr.specs.Walked.{IsWalkAnswer};

use crate::command_line::base_asked;
use crate::hosting::Hosting;
use crate::inputs::Inputs;
use crate::invocations::Invocation;
use crate::loading::load;
use crate::stops::Stop;
use crate::streams::Stream;
use crate::walked::{Walks, answer_walk, walks_of};
use bip_answers::{Answer, PlanOrRefusal, plan_text};
use bip_model::Number;
use bip_program::{is_set, number_asked, text_asked};
use clap::ArgMatches;

/// Walks of the model that a path names, of so many grants each, from a base: the seed of one, or
/// of how many seeds, as far as either is said; and whether what the one comes to is told.
#[derive(Drop)]
pub struct WalkArguments<'p> {
    pub model: &'p str,
    pub seed: Option<u32>,
    pub seeds: Option<u32>,
    pub grants: u32,
    pub base: Number,
    pub with_stats: bool,
}

impl<'p> WalkArguments<'p> {
    /// What the words behind `walk` ask.
    pub fn read(matches: &ArgMatches<'p>) -> Option<WalkArguments<'p>>
        ensures { IsReadAs (IsWalkAsked (rows_of (found_of matches.now))) result }
    {
        Some(WalkArguments {
            model: text_asked(matches, "model")?,
            seed: number_asked(matches, "seed"),
            seeds: number_asked(matches, "seeds"),
            grants: number_asked(matches, "grants")?,
            base: base_asked(matches)?,
            with_stats: is_set(matches, "stats"),
        })
    }
}

impl<R, I: Inputs, H: Hosting, O, E: Stream> Invocation<'_, R, I, H, O, E> {
    /// Walks the model that the path names: writes the trace of a run of the model itself, each of
    /// whose grants is drawn among those that can be next, or what the walks of many seeds come to
    /// (docs/ANSWERS.md, "The walks that are asked for").
    pub fn walk<'p>(&mut self, asked: &WalkArguments<'p>) -> Result<Answer, Stop<'p>>
        requires { asked.now.base ≤ greatest_base }
        ensures says { AllOutcomesTelling E.writes self.old.errors self.new.errors result
            (AreWalksWritten (I.gives self.old.inputs.now) asked.now) }
        ensures output { self.new.output ≡ self.old.output }
    {
        match walks_of(asked.seed, asked.seeds) {
            Some(walks) => self.walk_so(asked, walks),
            None => {
                self.explanation
                    .say(b"a walk has one of `--seed` and `--seeds`");
                Err(Stop::SeedOrSeeds)
            }
        }
    }

    // The same, where these walks are asked for.
    fn walk_so<'p>(&mut self, asked: &WalkArguments<'p>, walks: Walks) -> Result<Answer, Stop<'p>>
        requires { asked.now.base ≤ greatest_base }
        ensures says { AllOutcomesTelling E.writes self.old.errors self.new.errors result
            (OfText (I.gives self.old.inputs.now) asked.now.model.now (λ model.
            OfPlan model (λ p. Silently (IsWalkAnswer p asked.now walks)))) }
        ensures output { self.new.output ≡ self.old.output }
    {
        let (alloc, explanation) = (self.alloc, &mut self.explanation);
        let text = load(alloc, explanation, self.inputs, asked.model)?;
        match plan_text(alloc, explanation, text.as_slice())? {
            PlanOrRefusal::Plan(plan) => answer_walk(alloc, &plan, asked, walks),
            PlanOrRefusal::Refusal(answer) => Ok(answer),
        }
    }
}
