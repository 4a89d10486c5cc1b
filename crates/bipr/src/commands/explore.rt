//! The command `explore`.
ghost use Rattle.std.specs.Prelude.{◌≡◌};
ghost use Rattle.clap.specs.Words.{found_of, rows_of};
ghost use Rattle.bip_program.specs.Asked.{IsReadAs};
ghost use Rattle.bipr.specs.CommandLine.{IsExploreAsked};
ghost use Rattle.bipr.specs.Commands.{IsExplore};
ghost use Rattle.bipr.specs.Endings.{AllOutcomesTelling};

use crate::command_line::{draws_asked, resolver_asked};
use crate::explored::answer_explore;
use crate::hosting::Hosting;
use crate::inputs::Inputs;
use crate::invocations::Invocation;
use crate::loading::load;
use crate::resolvers::Resolver;
use crate::stops::Stop;
use crate::streams::Stream;
use bip_answers::{Answer, PlanOrRefusal, plan_text};
use bip_program::{is_set, number_asked, text_asked};
use bip_schedule::Draws;
use clap::ArgMatches;
use std::thread::Threads;
use std::time::Clock;

/// The exploring of the model that a path names, with a resolver's bank, by the seeds from 1 on,
/// with what is drawn of each, in so many threads if that is said; whether progress is told, and
/// whether what they come to is.
#[derive(Drop)]
pub struct ExploreArguments<'p> {
    pub model: &'p str,
    pub resolver: Resolver,
    pub seeds: u32,
    pub draws: Draws,
    pub is_told: bool,
    pub jobs: Option<u32>,
    pub with_stats: bool,
}

impl<'p> ExploreArguments<'p> {
    /// What the words behind `explore` ask.
    pub fn read(matches: &ArgMatches<'p>) -> Option<ExploreArguments<'p>>
        ensures { IsReadAs (IsExploreAsked (rows_of (found_of matches.now))) result }
    {
        Some(ExploreArguments {
            model: text_asked(matches, "model")?,
            resolver: resolver_asked(matches)?,
            seeds: number_asked(matches, "seeds")?,
            draws: draws_asked(matches)?,
            is_told: is_set(matches, "progress"),
            jobs: number_asked(matches, "jobs"),
            with_stats: is_set(matches, "stats"),
        })
    }
}

impl<R: Threads + Clock + Sync, I: Inputs, H: Hosting, O, E: Stream> Invocation<'_, R, I, H, O, E> {
    /// Explores the plan of the model that the path names by so many seeds, with the resolver's
    /// bank, and tells progress on standard error where that is asked for, and what the seeds come
    /// to (docs/ANSWERS.md, "The exploring that is asked for").
    pub fn explore<'p>(&mut self, asked: &ExploreArguments<'p>) -> Result<Answer, Stop<'p>>
        ensures says { AllOutcomesTelling E.writes self.old.errors self.new.errors result
            (IsExplore (I.gives self.old.inputs.now) asked.now) }
        ensures output { self.new.output ≡ self.old.output }
    {
        let (alloc, explanation) = (self.alloc, &mut self.explanation);
        let text = load(alloc, explanation, self.inputs, asked.model)?;
        match plan_text(alloc, explanation, text.as_slice())? {
            PlanOrRefusal::Plan(plan) => {
                answer_explore(self.rt, alloc, explanation, &plan, asked, &mut self.errors)
            }
            PlanOrRefusal::Refusal(answer) => Ok(answer),
        }
    }
}
