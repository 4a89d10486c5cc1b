//! The command `replay`, and what is read for it and for `chart`.
ghost use Rattle.std.specs.Prelude.{◌≡◌, ◌≤◌, []};
ghost use Rattle.clap.specs.Words.{found_of, rows_of};
ghost use Rattle.bip_program.specs.Asked.{IsReadAs};
ghost use Rattle.bip_answers.specs.Answers.{greatest_base};
ghost use Rattle.bipr.specs.CommandLine.{IsReplayAsked, IsVerdictAsked};
ghost use Rattle.bipr.specs.Commands.{IsReplayBy, IsReplayShowing};
ghost use Rattle.bipr.specs.Endings.{AllOutcomes, AllOutcomesTelling};
ghost use Rattle.bip_answers.specs.Views.{IsViewed, verdict_view};

use crate::command_line::base_asked;
use crate::hosting::Hosting;
use crate::inputs::Inputs;
use crate::invocations::Invocation;
use crate::loading::{load, parts};
use crate::stops::Stop;
use crate::streams::Stream;
use bip_answers::{Answer, View, answer_fault};
use bip_explain::Explanation;
use bip_model::Number;
use bip_program::{is_set, text_asked};
use bip_reader::read_model;
use clap::ArgMatches;
use std::alloc::Global;

/// The replay of a trace on a model, each named by its path, from a base.
#[derive(Drop)]
pub struct ReplayArguments<'p> {
    pub model: &'p str,
    pub trace: &'p str,
    pub base: Number,
}

impl<'p> ReplayArguments<'p> {
    /// What the words behind `replay` or `chart` ask of it.
    pub fn read(matches: &ArgMatches<'p>) -> Option<ReplayArguments<'p>>
        ensures { IsReadAs (IsReplayAsked (rows_of (found_of matches.now))) result }
    {
        Some(ReplayArguments {
            model: text_asked(matches, "model")?,
            trace: text_asked(matches, "trace")?,
            base: base_asked(matches)?,
        })
    }
}

/// The verdict on a replay, and where its run leads, where that is asked for.
#[derive(Drop)]
pub struct VerdictArguments<'p> {
    pub replay: ReplayArguments<'p>,
    pub with_end: bool,
}

impl<'p> VerdictArguments<'p> {
    /// What the words behind `replay` ask.
    pub fn read(matches: &ArgMatches<'p>) -> Option<VerdictArguments<'p>>
        ensures { IsReadAs (IsVerdictAsked (rows_of (found_of matches.now))) result }
    {
        Some(VerdictArguments {
            replay: ReplayArguments::read(matches)?,
            with_end: is_set(matches, "end"),
        })
    }
}

impl<R, I: Inputs, H: Hosting, O, E: Stream> Invocation<'_, R, I, H, O, E> {
    /// Replays the trace that the second path names on the model that the first path names. The
    /// trace is read only where the model's text is one; where both paths are standard input, that
    /// has both texts (docs/ANSWERS.md, "The replay that is asked for").
    pub fn replay<'p>(&mut self, asked: &VerdictArguments<'p>) -> Result<Answer, Stop<'p>>
        requires { asked.now.replay.base ≤ greatest_base }
        ensures says { AllOutcomesTelling E.writes self.old.errors self.new.errors result
            (IsReplayShowing (I.gives self.old.inputs.now) asked.now) }
        ensures output { self.new.output ≡ self.old.output }
    {
        let view = verdict_view(asked.with_end);
        answer_viewed(
            self.alloc,
            &mut self.explanation,
            self.inputs,
            &asked.replay,
            &view,
        )
    }
}

// What is asked of a trace whose verdict is, with its end or without.
fn verdict_view<'a, 'm, 'p>(with_end: bool) -> View<'a, 'm, 'p>
    ensures { result ≡ verdict_view with_end }
{
    if with_end { View::End } else { View::Verdict }
}

/// The answer to the two texts that are asked for, by what is asked of them.
pub fn answer_viewed<'p, I: Inputs>(
    alloc: Global,
    explanation: &mut Explanation,
    inputs: &I,
    asked: &ReplayArguments<'p>,
    view: &View<'_, '_, '_>,
) -> Result<Answer, Stop<'p>>
    requires { asked.now.base ≤ greatest_base }
    ensures { AllOutcomes result
        (IsReplayBy (IsViewed view.now asked.now.base) (I.gives inputs.now) asked.now []) }
{
    let text = load(alloc, explanation, inputs, asked.model)?;
    let (text, other) = parts(text.as_slice(), asked.model, asked.trace);
    match read_model(alloc, text) {
        Ok((model, classes)) => {
            let trace = other.load(alloc, explanation, inputs)?;
            let trace = trace.as_slice();
            Ok(view.answer_trace(alloc, explanation, &model, &classes, trace, asked.base)?)
        }
        Err(fault) => Ok(answer_fault(alloc, explanation, text, &fault)?),
    }
}
