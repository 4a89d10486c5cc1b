//! The command `canon`.
ghost use Rattle.std.specs.Prelude.{◌≡◌};
ghost use Rattle.clap.specs.Words.{found_of, rows_of};
ghost use Rattle.bip_program.specs.Asked.{IsReadAs};
ghost use Rattle.bipr.specs.CommandLine.{IsCanonAsked};
ghost use Rattle.bipr.specs.Commands.{IsCanon};
ghost use Rattle.bipr.specs.Endings.{AllOutcomesTelling};

use crate::hosting::Hosting;
use crate::inputs::Inputs;
use crate::invocations::Invocation;
use crate::loading::load;
use crate::stops::Stop;
use crate::streams::Stream;
use bip_answers::{Answer, Rendering, answer_rendering};
use bip_program::text_asked;
use clap::ArgMatches;

/// The canonical text of the model that a path names.
#[derive(Drop)]
pub struct CanonArguments<'p> {
    pub model: &'p str,
}

impl<'p> CanonArguments<'p> {
    /// What the words behind `canon` ask.
    pub fn read(matches: &ArgMatches<'p>) -> Option<CanonArguments<'p>>
        ensures { IsReadAs (IsCanonAsked (rows_of (found_of matches.now))) result }
    {
        Some(CanonArguments {
            model: text_asked(matches, "model")?,
        })
    }
}

impl<R, I: Inputs, H: Hosting, O, E: Stream> Invocation<'_, R, I, H, O, E> {
    /// The canonical text of the model that the path names (docs/ANSWERS.md, "The rendering that is
    /// asked for").
    pub fn canon<'p>(&mut self, asked: &CanonArguments<'p>) -> Result<Answer, Stop<'p>>
        ensures says { AllOutcomesTelling E.writes self.old.errors self.new.errors result
            (IsCanon (I.gives self.old.inputs.now) asked.now) }
        ensures output { self.new.output ≡ self.old.output }
    {
        let (alloc, explanation) = (self.alloc, &mut self.explanation);
        let text = load(alloc, explanation, self.inputs, asked.model)?;
        let text = text.as_slice();
        Ok(answer_rendering(alloc, explanation, Rendering::Canonical, text)?)
    }
}
