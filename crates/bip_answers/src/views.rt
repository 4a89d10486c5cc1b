//! What is answered of a trace: its verdict, with its end or without, or its chart.
ghost use Rattle.std.specs.Prelude.{◌≤◌, ℕ, List, IfOk};
ghost use Rattle.bip_model.specs.Partitions.{AreClassesOf};
ghost use Rattle.bip_reader.specs.Texts.{Means};
ghost use Rattle.bip_answers.specs.Answers.{greatest_base};
ghost use Rattle.bip_answers.specs.Views.{IsViewed};

use crate::answers::{Answer, answer_trace};
use crate::charted::{Shown, answer_chart};
use crate::ended::answer_ended;
use bip_explain::Explanation;
use bip_model::{Classes, Model, Number};
use std::alloc::{AllocError, Global};

/// What is asked of a trace: its verdict; that, and where its run leads; or the chart of its run,
/// in which these rows and lanes are shown.
#[derive(Clone, Copy)]
pub enum View<'a, 'm, 'p> {
    Verdict,
    End,
    Chart(&'a Shown<'m, 'p>),
}

impl View<'_, '_, '_> {
    /// The answer to a trace from a base, where the model's text is one (docs/ANSWERS.md,
    /// "Answers"). The only error is want of memory.
    pub fn answer_trace(
        &self,
        alloc: Global,
        explanation: &mut Explanation,
        model: &Model,
        classes: &Classes,
        trace: &[u8],
        base: Number,
    ) -> Result<Answer, AllocError>
        requires base { base ≤ greatest_base }
        requires classes { AreClassesOf model.now classes.now }
        ensures { IfOk result (λ answer. (text : List ℕ) → Means text model.now classes.now
            → IsViewed self.now base text trace.now answer) }
    {
        match self {
            View::Verdict => answer_trace(alloc, explanation, model, trace, base),
            View::End => answer_ended(alloc, explanation, model, trace, base),
            View::Chart(shown) => {
                answer_chart(alloc, explanation, model, classes, trace, base, shown)
            }
        }
    }
}
