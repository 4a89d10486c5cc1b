//! The command `draw`.
ghost use Rattle.std.specs.Prelude.{◌≡◌, true};
ghost use Rattle.clap.specs.Words.{found_of, rows_of};
ghost use Rattle.bip_program.specs.Asked.{IsReadAs};
ghost use Rattle.bipr.specs.CommandLine.{IsDrawingAsked};
ghost use Rattle.bipr.specs.Commands.{IsDraw, is_of_part, words_of};
ghost use Rattle.bipr.specs.Endings.{AllOutcomesTelling};

use crate::hosting::Hosting;
use crate::inputs::Inputs;
use crate::invocations::Invocation;
use crate::loading::load;
use crate::stops::Stop;
use crate::streams::Stream;
use bip_answers::{Answer, answer_drawing, answer_part};
use bip_program::{is_set, text_asked, texts_asked};
use clap::ArgMatches;

/// The drawing of the model that a path names, or of its plan; or of a part of the model, of the
/// components and the classes that words name, as far as either is said.
#[derive(Drop)]
pub struct DrawArguments<'m, 'p> {
    pub model: &'p str,
    pub only: Option<&'m [&'p str]>,
    pub only_class: Option<&'m [&'p str]>,
    pub with_plan: bool,
}

impl<'m, 'p> DrawArguments<'m, 'p> {
    /// What the words behind `draw` ask.
    pub fn read(matches: &'m ArgMatches<'p>) -> Option<DrawArguments<'m, 'p>>
        ensures { IsReadAs (IsDrawingAsked (rows_of (found_of matches.now))) result }
    {
        Some(DrawArguments {
            model: text_asked(matches, "model")?,
            only: texts_asked(matches, "only"),
            only_class: texts_asked(matches, "only-class"),
            with_plan: is_set(matches, "plan"),
        })
    }

    /// Whether a part is asked for.
    fn is_of_part(&self) -> bool
        ensures { result ≡ is_of_part self.now }
    {
        self.only.is_some() || self.only_class.is_some()
    }
}

impl<R, I: Inputs, H: Hosting, O, E: Stream> Invocation<'_, R, I, H, O, E> {
    /// Draws the model that the path names in the language of Graphviz, or its plan or a part of it
    /// where that is asked for (docs/ANSWERS.md, "The rendering that is asked for").
    pub fn draw<'p>(&mut self, asked: &DrawArguments<'_, 'p>) -> Result<Answer, Stop<'p>>
        ensures says { AllOutcomesTelling E.writes self.old.errors self.new.errors result
            (IsDraw (I.gives self.old.inputs.now) asked.now) }
        ensures output { self.new.output ≡ self.old.output }
    {
        if asked.is_of_part() {
            return self.draw_part(asked);
        }
        let text = load(self.alloc, &mut self.explanation, self.inputs, asked.model)?;
        let text = text.as_slice();
        Ok(answer_drawing(self.alloc, &mut self.explanation, text, asked.with_plan)?)
    }

    // The same of a part.
    fn draw_part<'p>(&mut self, asked: &DrawArguments<'_, 'p>) -> Result<Answer, Stop<'p>>
        requires { is_of_part asked.now ≡ true }
        ensures says { AllOutcomesTelling E.writes self.old.errors self.new.errors result
            (IsDraw (I.gives self.old.inputs.now) asked.now) }
        ensures output { self.new.output ≡ self.old.output }
    {
        if asked.with_plan {
            self.explanation
                .say(b"`--plan` draws the whole plan, and no part of it");
            return Err(Stop::PlanOfPart);
        }
        let text = load(self.alloc, &mut self.explanation, self.inputs, asked.model)?;
        let (components, classes) = (words_of(asked.only), words_of(asked.only_class));
        let explanation = &mut self.explanation;
        Ok(answer_part(
            self.alloc,
            explanation,
            text.as_slice(),
            components,
            classes,
        )?)
    }
}

// The words that an option gives; none where it isn't given.
fn words_of<'m, 'p>(given: Option<&'m [&'p str]>) -> &'m [&'p str]
    ensures { result.now ≡ words_of given.entry }
{
    given.unwrap_or_default()
}
