//! Answers: what the program writes for the texts that it is given, and the status with which it
//! ends.
ghost use Rattle.std.specs.Prelude.{◌≡◌, ◌≢◌, ◌≤◌, ℕ, List, IfErr, IfOk, true};
ghost use Rattle.bip_explain.specs.Explanations.{Tells};
ghost use Rattle.bip_explain.specs.Models.{IsReasonOf, model_parts};
ghost use Rattle.bip_model.specs.declared.partitions.Partition.{Partition};
ghost use Rattle.bip_reader.specs.Texts.{HasFault, Means};
ghost use Rattle.bip_reader.specs.declared.faults.Why.TheVariants.{Memory};
ghost use Rattle.bip_model.specs.Partitions.{AreClassesOf};
ghost use Rattle.bip_replay.specs.Replays.{IsReplayFault, IsRunOf};
ghost use Rattle.bip_answers.specs.Answers.{AreCountsOf, HasPlan, IsAnswer, IsCheckAnswer};
ghost use Rattle.bip_answers.specs.Answers.{ExplainsReplayed, IsCheckShowing, IsSaidOf};
ghost use Rattle.bip_answers.specs.Answers.{IsPlanOrRefusal, code_of, complaining, saying};
ghost use Rattle.bip_answers.specs.Answers.{greatest_base};
ghost use Rattle.bip_answers.specs.declared.answers.Status.TheVariants.{Refused};
ghost use Rattle.bip_answers.specs.Wording.{model_refusal, plan_refusal};

use crate::wording::{
    Counts, counts_text, model_refusal, plan_refusal, run_text, trace_refusal, verdict_text,
};
use bip_explain::{Explanation, explain_model, explain_plan, explain_step, explain_trace};
use bip_model::{Classes, InterId, Model, Number, Seq};
use bip_partition::{Plan, PlanFault, first_touching_too_many};
use bip_reader::{ReadFault, Why, read_model};
use bip_replay::{ReplayFault, TraceFault, replay};
use bip_review::write_plan;
use std::alloc::{AllocError, Global};

/// How a command ends.
#[derive(Clone, Copy, Debug, PartialEq, Eq)]
pub enum Status {
    /// What was asked is done.
    Done,
    /// An input is refused, or the answer can't be written.
    Refused,
    /// The command line has no command's form.
    BadCommandLine,
    /// Want of memory.
    NoMemory,
    /// A thread couldn't be made.
    NoThread,
    /// The trace is no run of the model.
    NotARun,
}

impl Status {
    /// The status as the system sees it.
    pub fn code(&self) -> u8
        ensures { result ≡ code_of self.now }
    {
        match self {
            Status::Done => 0,
            Status::Refused => 1,
            Status::BadCommandLine => 2,
            Status::NoMemory => 3,
            Status::NoThread => 3,
            Status::NotARun => 4,
        }
    }
}

/// A text that is kept in the file that a path names.
#[derive(Drop)]
pub struct FileText {
    pub path: Seq<u8>,
    pub text: Seq<u8>,
}

/// The answer to a command: its status; what it writes on standard output and on standard error;
/// and what it keeps in a file, if anything.
#[derive(Drop)]
pub struct Answer {
    pub status: Status,
    pub output: Seq<u8>,
    pub complaint: Seq<u8>,
    pub file: Option<FileText>,
}

/// The answer to the check of a model's text: the counts of its plan, and behind them the plan
/// itself where that is asked for; else the lowest interaction that touches too many components, or
/// the first fault of the text (docs/ANSWERS.md, "Answers"). The only error is want of memory.
pub fn answer_check(
    alloc: Global,
    explanation: &mut Explanation,
    model: &[u8],
    with_plan: bool,
) -> Result<Answer, AllocError>
    ensures { IfOk result (IsCheckShowing model.now with_plan) }
{
    let given = plan_text(alloc, explanation, model)?;
    match given {
        PlanOrRefusal::Plan(plan) => answer_plan(alloc, &plan, with_plan),
        PlanOrRefusal::Refusal(answer) => Ok(answer),
    }
}

/// What a model's text comes to where a plan is needed: the plan, or the answer that refuses it.
#[derive(Drop)]
pub enum PlanOrRefusal {
    Plan(Plan),
    Refusal(Answer),
}

/// The plan of a model's text; else the answer that names the lowest interaction that touches too
/// many components, or the first fault of the text. The only error is want of memory.
pub fn plan_text(
    alloc: Global,
    explanation: &mut Explanation,
    text: &[u8],
) -> Result<PlanOrRefusal, AllocError>
    ensures { IfOk result (IsPlanOrRefusal text.now) }
{
    match read_model(alloc, text) {
        Ok((model, classes)) => plan_model(alloc, explanation, model, classes),
        Err(fault) => Ok(PlanOrRefusal::Refusal(answer_fault(alloc, explanation, text, &fault)?)),
    }
}

/// The same, where the model's text is one.
fn plan_model(
    alloc: Global,
    explanation: &mut Explanation,
    model: Model,
    classes: Classes,
) -> Result<PlanOrRefusal, AllocError>
    requires { AreClassesOf model classes }
    ensures { IfOk result (λ given. (text : List ℕ)
        → Means text model classes → IsPlanOrRefusal text given) }
{
    if let Some(inter) = first_touching_too_many(&model) {
        let refused = refuse_plan(alloc, explanation, &model, inter);
        drop(model);
        drop(classes);
        return Ok(PlanOrRefusal::Refusal(refused?));
    }
    match Plan::of(alloc, model, classes) {
        Ok(plan) => Ok(PlanOrRefusal::Plan(plan)),
        Err(PlanFault::TooManyTouched(_)) => unreachable!(),
        Err(PlanFault::Memory) => Err(AllocError),
    }
}

/// The answer that refuses a model: this interaction, which it names, touches too many components.
/// The only error is want of memory.
fn refuse_plan(
    alloc: Global,
    explanation: &mut Explanation,
    model: &Model,
    inter: InterId,
) -> Result<Answer, AllocError>
    ensures { IfOk result (λ answer.
        answer ≡ complaining Refused (plan_refusal model.now inter.0)) }
{
    explain_plan(explanation, model, inter);
    let complaint = plan_refusal(alloc, model, inter)?;
    Ok(complained(alloc, Status::Refused, complaint))
}

/// The answer to a check where there is a plan, which is shown or not.
fn answer_plan(alloc: Global, plan: &Plan, with_plan: bool) -> Result<Answer, AllocError>
    ensures { IfOk result (λ answer. (text : List ℕ)
        → HasPlan text plan.now → IsCheckShowing text with_plan answer) }
{
    if with_plan {
        answer_shown(alloc, plan)
    } else {
        answer_counts(alloc, plan)
    }
}

/// The counts of a plan, and the plan itself.
fn answer_shown(alloc: Global, plan: &Plan) -> Result<Answer, AllocError>
    ensures { IfOk result (λ answer. (text : List ℕ)
        → HasPlan text plan.now → IsCheckShowing text true answer) }
{
    let mut text = counts_text(alloc, &count_plan(plan))?;
    let shown = write_plan(alloc, plan)?;
    text.extend_from_slice(shown.as_slice())?;
    Ok(said(alloc, Status::Done, text))
}

/// The counts of a plan.
fn answer_counts(alloc: Global, plan: &Plan) -> Result<Answer, AllocError>
    ensures { IfOk result (λ answer. (text : List ℕ)
        → HasPlan text plan.now → IsCheckAnswer text answer) }
{
    let text = counts_text(alloc, &count_plan(plan))?;
    Ok(said(alloc, Status::Done, text))
}

/// What there is to count of a plan.
fn count_plan(plan: &Plan) -> Counts
    ensures { AreCountsOf plan.now result }
{
    Counts {
        components: plan.model().components().len(),
        interactions: plan.model().interactions().len(),
        classes: plan.classes().len(),
        tabled: plan.count_tabled(),
        reserved: plan.stations().len(),
    }
}

/// The answer to a model's text with a fault, which the explanation tells more of.
pub fn answer_fault(
    alloc: Global,
    explanation: &mut Explanation,
    text: &[u8],
    fault: &ReadFault,
) -> Result<Answer, AllocError>
    requires { fault.now.why ≢ Memory → HasFault text.now fault.now }
    ensures answered { IfOk result (λ answer. (fault.now.why ≢ Memory)
        × (answer ≡ complaining Refused (model_refusal fault.now))) }
    ensures explained { fault.now.why ≢ Memory
        → Tells ⊥ (IsReasonOf text.now fault.now) model_parts explanation.old explanation.new }
{
    if fault.why == Why::Memory {
        return Err(AllocError);
    }
    explain_model(alloc, explanation, text, fault);
    let complaint = model_refusal(alloc, fault)?;
    Ok(complained(alloc, Status::Refused, complaint))
}

/// The answer to a trace, where the model's text is one: `run N` where the grants are a run of the
/// model; else the verdict on the first line at fault where that line's grant can't be next; else
/// the first fault of the trace's text (docs/ANSWERS.md, "Answers"). The only error is want of
/// memory.
pub fn answer_trace(
    alloc: Global,
    explanation: &mut Explanation,
    model: &Model,
    trace: &[u8],
    base: Number,
) -> Result<Answer, AllocError>
    requires { base ≤ greatest_base }
    ensures { IfOk result (λ answer. (text : List ℕ) (classes : Partition)
        → Means text model.now classes → IsAnswer base text trace.now answer) }
{
    let replayed = replay(alloc, model, base, trace);
    answer_replayed(alloc, explanation, model, trace, base, &replayed)
}

/// What is said of a trace that was replayed so, which the explanation tells more of.
pub fn answer_replayed(
    alloc: Global,
    explanation: &mut Explanation,
    model: &Model,
    trace: &[u8],
    base: Number,
    replayed: &Result<u64, (u64, ReplayFault)>,
) -> Result<Answer, AllocError>
    requires base { base ≤ greatest_base }
    requires run { IfOk replayed.now (IsRunOf model.now base trace.now) }
    requires fault { IfErr replayed.now (λ e. IsReplayFault model.now base trace.now e.0 e.1) }
    ensures answered { IfOk result (IsSaidOf model.now trace.now replayed.now) }
    ensures explained { ExplainsReplayed model.now base trace.now replayed.now
        explanation.old explanation.new }
{
    match replayed {
        Ok(count) => Ok(said(alloc, Status::Done, run_text(alloc, *count)?)),
        Err((line, fault)) => match fault {
            ReplayFault::Syntax => {
                explain_trace(explanation, model, trace, *line, &TraceFault::Syntax);
                let complaint = trace_refusal(alloc, *line, fault)?;
                Ok(complained(alloc, Status::Refused, complaint))
            }
            ReplayFault::Unknown => {
                explain_trace(explanation, model, trace, *line, &TraceFault::Unknown);
                let complaint = trace_refusal(alloc, *line, fault)?;
                Ok(complained(alloc, Status::Refused, complaint))
            }
            ReplayFault::NotARun(why) => {
                explain_step(alloc, explanation, model, base, trace, *line, why);
                let verdict = verdict_text(alloc, model, trace, *line, why)?;
                Ok(said(alloc, Status::NotARun, verdict))
            }
            ReplayFault::Memory => Err(AllocError),
        },
    }
}

/// An answer on standard output, and no complaint.
pub fn said(alloc: Global, status: Status, output: Vec<u8>) -> Answer
    ensures { result ≡ saying status output.items }
{
    Answer {
        status,
        output: Seq::of(output),
        complaint: Seq::of(Vec::new(alloc)),
        file: None,
    }
}

/// A complaint, and nothing on standard output.
pub fn complained(alloc: Global, status: Status, complaint: Vec<u8>) -> Answer
    ensures { result ≡ complaining status complaint.items }
{
    Answer {
        status,
        output: Seq::of(Vec::new(alloc)),
        complaint: Seq::of(complaint),
        file: None,
    }
}
