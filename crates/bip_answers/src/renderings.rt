//! What a model is rendered as: its drawing, its canonical text, and the drawing of its plan.
ghost use Rattle.std.specs.Prelude.{◌≡◌, IfOk, true};
ghost use Rattle.bip_model.specs.Partitions.{AreClassesOf};
ghost use Rattle.bip_answers.specs.Renderings.{IsDrawingShowing, IsRenderingAnswer, rendering_of};

use crate::answers::{Answer, PlanOrRefusal, Status, answer_fault, plan_text, said};
use bip_draw::draw_model;
use bip_explain::Explanation;
use bip_model::{Classes, Model};
use bip_reader::{read_model, write_model};
use bip_review::draw_plan;
use std::alloc::{AllocError, Global};

/// What a model can be rendered as.
#[derive(Clone, Copy, Debug, PartialEq, Eq)]
pub enum Rendering {
    Drawing,
    Canonical,
}

/// The answer to the rendering of a model's text: the model in the language of Graphviz, or its
/// canonical text; or the first fault of the text (docs/ANSWERS.md, "Answers"). The only error is
/// want of memory.
pub fn answer_rendering(
    alloc: Global,
    explanation: &mut Explanation,
    rendering: Rendering,
    model: &[u8],
) -> Result<Answer, AllocError>
    ensures { IfOk result (IsRenderingAnswer rendering model.now) }
{
    let (system, classes) = match read_model(alloc, model) {
        Ok(read) => read,
        Err(fault) => return answer_fault(alloc, explanation, model, &fault),
    };
    let text = render(alloc, rendering, &system, &classes)?;
    Ok(said(alloc, Status::Done, text))
}

/// The answer to the drawing of a model's text: that rendering, or the drawing of its plan where
/// that is asked for, in the language of Graphviz; or what keeps it from having one. The only error
/// is want of memory.
pub fn answer_drawing(
    alloc: Global,
    explanation: &mut Explanation,
    model: &[u8],
    with_plan: bool,
) -> Result<Answer, AllocError>
    ensures { IfOk result (IsDrawingShowing model.now with_plan) }
{
    if with_plan {
        answer_plan_drawing(alloc, explanation, model)
    } else {
        answer_rendering(alloc, explanation, Rendering::Drawing, model)
    }
}

// The same of its plan.
fn answer_plan_drawing(
    alloc: Global,
    explanation: &mut Explanation,
    model: &[u8],
) -> Result<Answer, AllocError>
    ensures { IfOk result (IsDrawingShowing model.now true) }
{
    match plan_text(alloc, explanation, model)? {
        PlanOrRefusal::Plan(plan) => {
            let drawing = draw_plan(alloc, &plan)?;
            drop(plan);
            Ok(said(alloc, Status::Done, drawing))
        }
        PlanOrRefusal::Refusal(answer) => Ok(answer),
    }
}

// The rendering of a model and its classes.
fn render(
    alloc: Global,
    rendering: Rendering,
    model: &Model,
    classes: &Classes,
) -> Result<Vec<u8>, AllocError>
    requires { AreClassesOf model.now classes.now }
    ensures { IfOk result (λ text. text.items ≡ rendering_of rendering model.now classes.now) }
{
    match rendering {
        Rendering::Drawing => draw_model(alloc, model, classes),
        Rendering::Canonical => write_model(alloc, model, classes),
    }
}
