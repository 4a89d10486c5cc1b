//! The commands, and what they have in common.
ghost use Rattle.std.specs.Prelude.{◌≡◌, ◌≢◌, IfErr, IfNone, IfOk, IfSome, None, Some, map};
ghost use Rattle.std.specs.String.{string_bytes};
ghost use Rattle.clap.specs.Words.{found_of, rows_of, subcommand_rows_of};
ghost use Rattle.bipr.specs.Commands.{IsCarriedOut, IsCarriedOutBy, spelled};
ghost use Rattle.bipr.specs.Endings.{AllOutcomesTelling, EndsExplaining};
ghost use Rattle.bip_program.specs.Programs.{IsParse, parsed_of};
ghost use Rattle.bipr.specs.Streams.{Puts};
ghost use Rattle.bipr.specs.declared.stops.Stop.TheVariants.{BaseOutOfRange};

pub mod canon;
pub mod chart;
pub mod check;
pub mod draw;
pub mod explore;
pub mod replay;
pub mod run;
pub mod seed;
pub mod steps;
pub mod walk;

use crate::draws::DRAWS;
use crate::hosting::Hosting;
use crate::inputs::Inputs;
use crate::invocations::Invocation;
use crate::refusals::answer_error;
use crate::resolvers::{HOSTED_TABLES, RESOLVERS};
use crate::stops::{NO_MEMORY, Stop};
use crate::streams::Stream;
use bip_answers::{Answer, Status};
use bip_explain::Explanation;
use bip_program::{Choices, is_explained, program};
use canon::CanonArguments;
use chart::ChartArguments;
use check::CheckArguments;
use clap::ArgMatches;
use draw::DrawArguments;
use explore::ExploreArguments;
use replay::VerdictArguments;
use run::RunArguments;
use seed::SeedArguments;
use std::sync::Wait;
use std::thread::Threads;
use std::time::Clock;
use steps::StepsArguments;
use walk::WalkArguments;

/// What the options of the program have to choose from.
const CHOICES: Choices<'static> = Choices {
    resolvers: RESOLVERS,
    tables: HOSTED_TABLES,
    draws: DRAWS,
};

/// What the program can be asked to do.
#[derive(Clone, Copy, Debug, PartialEq, Eq)]
pub enum Command {
    Canon,
    Chart,
    Check,
    Draw,
    Replay,
    Steps,
    Explore,
    Seed,
    Run,
    Walk,
}

// The command of a name, if it has one.
fn command_named(name: &str) -> Option<Command>
    ensures some { IfSome result (λ command. name.now ≡ spelled command) }
    ensures none { IfNone result ((command : Command) → name.now ≢ spelled command) }
{
    match name.as_bytes() {
        b"canon" => Some(Command::Canon),
        b"chart" => Some(Command::Chart),
        b"check" => Some(Command::Check),
        b"draw" => Some(Command::Draw),
        b"replay" => Some(Command::Replay),
        b"steps" => Some(Command::Steps),
        b"explore" => Some(Command::Explore),
        b"seed" => Some(Command::Seed),
        b"run" => Some(Command::Run),
        b"walk" => Some(Command::Walk),
        _ => None,
    }
}

// What the words behind a command ask, where they ask something.
fn asked<'s, T>(read: Option<T>) -> Result<T, Stop<'s>>
    ensures ok { IfOk result (λ arguments. read ≡ Some arguments) }
    ensures err { IfErr result (λ why. (read ≡ None) × (why ≡ BaseOutOfRange)) }
{
    match read {
        Some(arguments) => Ok(arguments),
        None => Err(Stop::BaseOutOfRange),
    }
}

impl<R: Threads + Wait + Clock + Sync, I: Inputs, H: Hosting, O: Stream, E: Stream> Invocation<
    '_,
    R,
    I,
    H,
    O,
    E,
> {
    /// Carries out what the words of a command line ask, or says why they ask for nothing, and says
    /// with which status the program ends (docs/ANSWERS.md, "Endings").
    pub fn carry_out(&mut self, words: &[String]) -> Status
        ensures { EndsExplaining (IsCarriedOut (map string_bytes words.now)
            (I.gives self.old.inputs.now) (H.hosts self.old.hosting.now))
            (Puts O.writes self.old.output self.new.output)
            (H.hosts self.old.hosting.now).keeps E.writes self.old.errors self.new.errors result }
    {
        let Ok(program) = program(self.alloc, CHOICES) else {
            return self.complain(Status::NoMemory, NO_MEMORY);
        };
        match program.try_get_matches_from(words) {
            Ok(matches) => self.carry_out_parsed(&matches),
            Err(error) => {
                let hosting = self.hosting;
                let answer = answer_error(self.alloc, &error);
                self.end(hosting, answer)
            }
        }
    }

    // Carries out what a parsed command line asks, and explains what is refused if it asks that
    // too.
    fn carry_out_parsed(&mut self, matches: &ArgMatches<'_>) -> Status
        ensures { (words : _) → IsParse words (parsed_of matches.now) → EndsExplaining
            (IsCarriedOut words (I.gives self.old.inputs.now) (H.hosts self.old.hosting.now))
            (Puts O.writes self.old.output self.new.output)
            (H.hosts self.old.hosting.now).keeps E.writes self.old.errors self.new.errors result }
    {
        let is_asked = is_explained(matches);
        self.explanation = Explanation::new(is_asked);
        let hosting = self.hosting;
        let answer = self.answer(matches);
        let status = self.end(hosting, answer);
        if is_asked {
            self.explain(status);
        }
        status
    }

    // The answer to what a parsed command line asks.
    fn answer<'p>(&mut self, matches: &ArgMatches<'p>) -> Result<Answer, Stop<'p>>
        ensures says { AllOutcomesTelling E.writes self.old.errors self.new.errors result
            (IsCarriedOutBy (subcommand_rows_of matches.now) (I.gives self.old.inputs.now)
            (H.hosts self.old.hosting.now)) }
        ensures output { self.new.output ≡ self.old.output }
    {
        match matches.subcommand() {
            Some((name, behind)) => self.answer_named(name, behind),
            None => Err(Stop::BaseOutOfRange),
        }
    }

    // The answer to a command of this name, with the words behind it.
    fn answer_named<'p>(&mut self, name: &str, behind: &ArgMatches<'p>) -> Result<Answer, Stop<'p>>
        ensures says { AllOutcomesTelling E.writes self.old.errors self.new.errors result
            (IsCarriedOutBy (Some (name.now, rows_of (found_of behind.now)))
            (I.gives self.old.inputs.now) (H.hosts self.old.hosting.now)) }
        ensures output { self.new.output ≡ self.old.output }
    {
        match command_named(name) {
            Some(Command::Canon) => self.canon(&asked(CanonArguments::read(behind))?),
            Some(Command::Chart) => self.chart(&asked(ChartArguments::read(behind))?),
            Some(Command::Check) => self.check(&asked(CheckArguments::read(behind))?),
            Some(Command::Draw) => self.draw(&asked(DrawArguments::read(behind))?),
            Some(Command::Replay) => self.replay(&asked(VerdictArguments::read(behind))?),
            Some(Command::Steps) => self.steps(&asked(StepsArguments::read(behind))?),
            Some(Command::Explore) => self.explore(&asked(ExploreArguments::read(behind))?),
            Some(Command::Seed) => self.seed(&asked(SeedArguments::read(behind))?),
            Some(Command::Run) => self.run(&asked(RunArguments::read(behind))?),
            Some(Command::Walk) => self.walk(&asked(WalkArguments::read(behind))?),
            None => Err(Stop::BaseOutOfRange),
        }
    }
}
