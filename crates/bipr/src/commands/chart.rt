//! The command `chart`.
ghost use Rattle.std.specs.Prelude.{◌≡◌, ◌≤◌, false, true};
ghost use Rattle.clap.specs.Words.{found_of, rows_of};
ghost use Rattle.bip_answers.specs.Charted.{AreRowsDisordered, AreRowsInOrder};
ghost use Rattle.bip_program.specs.Asked.{IsReadAs};
ghost use Rattle.bip_answers.specs.Answers.{greatest_base};
ghost use Rattle.bipr.specs.CommandLine.{IsChartAsked};
ghost use Rattle.bipr.specs.Commands.{IsChart};
ghost use Rattle.bipr.specs.Endings.{AllOutcomesTelling};

use crate::commands::replay::{ReplayArguments, answer_viewed};
use crate::hosting::Hosting;
use crate::inputs::Inputs;
use crate::invocations::Invocation;
use crate::stops::Stop;
use crate::streams::Stream;
use bip_answers::{Answer, Shown, View};
use bip_program::{is_set, texts_asked, wide_number_asked};
use clap::ArgMatches;

/// The chart of the run of a replay, with the rows and lanes that it shows.
#[derive(Drop)]
pub struct ChartArguments<'m, 'p> {
    pub replay: ReplayArguments<'p>,
    pub shown: Shown<'m, 'p>,
}

impl<'m, 'p> ChartArguments<'m, 'p> {
    /// What the words behind `chart` ask.
    pub fn read(matches: &'m ArgMatches<'p>) -> Option<ChartArguments<'m, 'p>>
        ensures { IsReadAs (IsChartAsked (rows_of (found_of matches.now))) result }
    {
        let replay = ReplayArguments::read(matches)?;
        let shown = Shown {
            from: wide_number_asked(matches, "from")?,
            to: wide_number_asked(matches, "to"),
            values: is_set(matches, "values"),
            only: texts_asked(matches, "only"),
        };
        Some(ChartArguments { replay, shown })
    }
}

impl<R, I: Inputs, H: Hosting, O, E: Stream> Invocation<'_, R, I, H, O, E> {
    /// Draws the run with which the trace begins that the second path names, of the model that the
    /// first path names: the picture, and beside it the verdict on the trace (docs/ANSWERS.md, "The
    /// chart that is asked for").
    pub fn chart<'p>(&mut self, asked: &ChartArguments<'_, 'p>) -> Result<Answer, Stop<'p>>
        requires { asked.now.replay.base ≤ greatest_base }
        ensures says { AllOutcomesTelling E.writes self.old.errors self.new.errors result
            (IsChart (I.gives self.old.inputs.now) asked.now) }
        ensures output { self.new.output ≡ self.old.output }
    {
        if !is_in_order(&asked.shown) {
            return Err(Stop::RowsOutOfOrder);
        }
        let view = View::Chart(&asked.shown);
        answer_viewed(
            self.alloc,
            &mut self.explanation,
            self.inputs,
            &asked.replay,
            &view,
        )
    }
}

// Whether the rows that are shown end where they begin, or later.
fn is_in_order(shown: &Shown<'_, '_>) -> bool
    ensures yes { result ≡ true → AreRowsInOrder shown.now }
    ensures no { result ≡ false → AreRowsDisordered shown.now }
{
    match shown.to {
        Some(last) => shown.from <= last,
        None => true,
    }
}
