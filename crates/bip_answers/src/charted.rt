//! What is answered to a chart: the picture of the run with which a trace begins.
ghost use Rattle.std.specs.Prelude.{◌≡◌, ◌≤◌, ◌<◌, ◌+◌, ◌^◌, [], ℕ, List, IfOk, codes};
ghost use Rattle.std.specs.Option.{option_map};
ghost use Rattle.bip_draw.specs.Charts.{HasDrawn, IsChartOn};
ghost use Rattle.bip_model.specs.Partitions.{AreClassesOf};
ghost use Rattle.bip_reader.specs.Texts.{Means};
ghost use Rattle.bip_model.specs.declared.grants.Grant.{Grant};
ghost use Rattle.bip_answers.specs.Charted.{IsChartAnswer, IsExcerptAnswer, IsFollowed};
ghost use Rattle.bip_answers.specs.Charted.{IsFootOf, IsPictured};
ghost use Rattle.bip_answers.specs.Charted.{TakesLine, excerpt_of, most_rows, reason_of};
ghost use Rattle.bip_answers.specs.Charted.{shows_behind};
ghost use Rattle.bip_answers.specs.Answers.{complaining, greatest_base};
ghost use Rattle.bip_answers.specs.Selected.{IsFirstUnknown, IsUnknownAt};
ghost use Rattle.bip_answers.specs.Wording.{chart_refusal, unknown_text};
ghost use Rattle.bip_answers.specs.declared.answers.Status.TheVariants.{Refused};
ghost use Rattle.bip_answers.specs.declared.selected.SelectFault.TheVariants.{Unknown};

use crate::answers::{Answer, Status, answer_replayed, complained};
use crate::selected::{SelectFault, number_components, refuse_word};
use crate::wording::chart_refusal;
use bip_draw::{Chart, ChartFault, Excerpt, Foot, write_runnable};
use bip_explain::Explanation;
use bip_model::{Classes, CompId, Model, Number, NumberedLines, Seq};
use bip_replay::{ReplayFault, Room};
use std::alloc::{AllocError, Global};

/// Which rows of a run are shown, by their numbers from 1, the last one included; whether the values
/// of variables are; and the words that name the components with lanes, where not all have one.
#[derive(Clone, Copy, Debug)]
pub struct Shown<'m, 'p> {
    pub from: u64,
    pub to: Option<u64>,
    pub values: bool,
    pub only: Option<&'m [&'p str]>,
}

/// How many rows a chart has at most.
pub const MOST_ROWS: u32 = 2_000;

/// The answer to the chart of a trace, where the model's text is one: the shown rows of the run
/// with which the trace begins, behind them why it stops or what may run there, and the verdict on
/// the trace beside it; or that they are too many rows; or the first word for a lane that names no
/// component; or the first fault of the trace's text (docs/ANSWERS.md, "Answers"). The trace is
/// read once, and none of its grants is kept. The only error is want of memory.
pub fn answer_chart(
    alloc: Global,
    explanation: &mut Explanation,
    model: &Model,
    classes: &Classes,
    trace: &[u8],
    base: Number,
    shown: &Shown<'_, '_>,
) -> Result<Answer, AllocError>
    requires base { base ≤ greatest_base }
    requires classes { AreClassesOf model.now classes.now }
    ensures { IfOk result (λ answer. (text : List ℕ) → Means text model.now classes.now
        → IsChartAnswer base shown.now text trace.now answer) }
{
    let Some(words) = shown.only else {
        let excerpt = excerpt_of(shown, None);
        return answer_excerpt(alloc, explanation, model, classes, trace, base, &excerpt);
    };
    let named = match number_components(alloc, model, words) {
        Ok(named) => named,
        Err(SelectFault::Unknown(at)) => return refuse_lane(alloc, model, words, at),
        Err(SelectFault::Memory) => return Err(AllocError),
    };
    let excerpt = excerpt_of(shown, Some(named.as_slice()));
    answer_excerpt(alloc, explanation, model, classes, trace, base, &excerpt)
}

// That the word with this number names no component. The only error is want of memory.
fn refuse_lane(
    alloc: Global,
    model: &Model,
    words: &[&str],
    at: usize,
) -> Result<Answer, AllocError>
    requires { IsUnknownAt model.now.component_names words.now (Unknown at) }
    ensures { IfOk result (λ answer. (word : List ℕ)
        × IsFirstUnknown model.now.component_names words.now word
        × (answer ≡ complaining Refused (unknown_text (codes "component") word))) }
{
    refuse_word(alloc, b"component", words[at])
}

// What a chart shows of a run, where these rows are asked for, and these lanes.
fn excerpt_of<'a>(shown: &Shown<'_, '_>, only: Option<&'a [CompId]>) -> Excerpt<'a>
    ensures { result ≡ excerpt_of shown.now only.entry }
{
    Excerpt {
        first: shown.from.saturating_sub(1),
        last: shown.to,
        most: MOST_ROWS,
        values: shown.values,
        only,
    }
}

// The same answer, where this is to be shown.
fn answer_excerpt(
    alloc: Global,
    explanation: &mut Explanation,
    model: &Model,
    classes: &Classes,
    trace: &[u8],
    base: Number,
    excerpt: &Excerpt<'_>,
) -> Result<Answer, AllocError>
    requires base { base ≤ greatest_base }
    requires classes { AreClassesOf model.now classes.now }
    requires rows { excerpt.now.most ≡ most_rows }
    ensures { IfOk result (λ answer. (text : List ℕ) → Means text model.now classes.now
        → IsExcerptAnswer base model.now classes.now excerpt.now text trace.now answer) }
{
    let mut chart = Chart::start(alloc, model, classes, base, *excerpt)?;
    let replayed = follow(&mut chart, trace)?;
    let verdict = answer_replayed(alloc, explanation, model, trace, base, &replayed)?;
    match &replayed {
        Ok(_) => answer_begun(alloc, &chart, verdict, excerpt),
        Err((_, fault)) => match fault {
            ReplayFault::NotARun(_) => answer_begun(alloc, &chart, verdict, excerpt),
            ReplayFault::Syntax => Ok(verdict),
            ReplayFault::Unknown => Ok(verdict),
            ReplayFault::Memory => Err(AllocError),
        },
    }
}

// Follows a trace up to its end or to its first line at fault, and draws its grants: what a replay
// says of it. The only error is want of memory.
fn follow(
    chart: &mut Chart<'_>,
    trace: &[u8],
) -> Result<Result<u64, (u64, ReplayFault)>, AllocError>
    requires { (base : ℕ) × HasDrawn base [] chart.old }
    ensures on { IfOk result (λ replayed.
        IsChartOn chart.old.model chart.old.classes chart.old.excerpt chart.new) }
    ensures drawn { IfOk result (λ replayed. (base : ℕ) → HasDrawn base [] chart.old
        → (gs : List Grant) × IsFollowed chart.new.model base trace.now replayed gs
        × HasDrawn base gs chart.new) }
{
    let mut room = Room::new();
    for (number, line) in NumberedLines::of(trace) {
        let taken = take_line(chart, &mut room, line)?;
        if let Err(fault) = taken {
            return Ok(Err((number, fault)));
        }
    }
    Ok(Ok(chart.count()))
}

// Draws the grant of a line, if it has one; or why the trace stops there. The only error is want of
// memory.
fn take_line(
    chart: &mut Chart<'_>,
    room: &mut Room,
    line: &[u8],
) -> Result<Result<(), ReplayFault>, AllocError>
    requires { chart.old.count + 1 < 2 ^ 64 }
    ensures on { IfOk result (λ taken.
        IsChartOn chart.old.model chart.old.classes chart.old.excerpt chart.new) }
    ensures drawn { IfOk result (λ taken. (base : ℕ) (gs : List Grant) → HasDrawn base gs chart.old
        → TakesLine base gs line.now taken chart.new) }
{
    let grant = match room.read(chart.position().model(), line) {
        Ok(Some(grant)) => grant,
        Ok(None) => return Ok(Ok(())),
        Err(fault) => return Ok(Err(ReplayFault::from(fault))),
    };
    match chart.add(&grant) {
        Ok(()) => Ok(Ok(())),
        Err(fault) => match fault {
            ChartFault::NotNext(why) => Ok(Err(ReplayFault::from(why))),
            ChartFault::Memory => Err(AllocError),
        },
    }
}

// The chart of a run, with its verdict beside it; or that it has too many rows. The only error is
// want of memory.
fn answer_begun(
    alloc: Global,
    chart: &Chart<'_>,
    verdict: Answer,
    excerpt: &Excerpt<'_>,
) -> Result<Answer, AllocError>
    requires shows { chart.now.excerpt ≡ excerpt.now }
    requires rows { excerpt.now.most ≡ most_rows }
    ensures { IfOk result (λ answer. (base : ℕ) (gs : List Grant) → HasDrawn base gs chart.now
        → IsPictured chart.now.model chart.now.classes excerpt.now gs verdict answer) }
{
    if chart.rows() > MOST_ROWS as u64 {
        drop(verdict);
        return refuse_rows(alloc);
    }
    let mut runnable = Vec::new(alloc);
    write_runnable(&mut runnable, chart.position())?;
    let foot = foot_of(&verdict, excerpt, chart.count(), runnable.as_slice());
    let picture = chart.finish(alloc, &foot)?;
    Ok(Answer {
        status: verdict.status,
        output: Seq::of(picture),
        complaint: verdict.output,
        file: None,
    })
}

// What stands behind the rows that are shown of a run of so many grants, which has this verdict,
// and behind which this may run.
fn foot_of<'r>(
    verdict: &'r Answer,
    excerpt: &Excerpt<'_>,
    count: u64,
    runnable: &'r [u8],
) -> Foot<'r>
    ensures { IsFootOf excerpt.now count verdict.now runnable.now result }
{
    if !shows_behind(excerpt, count) {
        return Foot::Nothing;
    }
    match reason_of(verdict) {
        Some(reason) => Foot::Fault(reason),
        None => Foot::Runnable(runnable),
    }
}

/// That a chart would have too many rows. The only error is want of memory.
pub fn refuse_rows(alloc: Global) -> Result<Answer, AllocError>
    ensures { IfOk result (λ answer. answer ≡ complaining Refused (chart_refusal most_rows)) }
{
    let complaint = chart_refusal(alloc, MOST_ROWS as usize)?;
    Ok(complained(alloc, Status::Refused, complaint))
}

// Whether the row behind so many is shown.
fn shows_behind(excerpt: &Excerpt<'_>, count: u64) -> bool
    ensures { result ≡ shows_behind excerpt.now count }
{
    let begins = excerpt.first <= count;
    match excerpt.last {
        Some(last) => begins && count < last,
        None => begins,
    }
}

// Why a run stops, where a trace has this verdict: the verdict without its line feed.
fn reason_of(verdict: &Answer) -> Option<&[u8]>
    ensures { option_map (λ why. why.now) result ≡ reason_of verdict.now }
{
    let text = verdict.output.as_slice();
    match verdict.status {
        Status::NotARun => Some(&text[..text.len().saturating_sub(1)]),
        _ => None,
    }
}
