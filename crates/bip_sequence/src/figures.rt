//! The figures of a sequence chart, as elements of SVG.
ghost use Rattle.std.specs.Prelude.{◌≡◌, ◌++◌, OnOk};
ghost use Rattle.bip_sequence.specs.Figures.{arrow_front, flight_text, line_front, line_text};
ghost use Rattle.bip_sequence.specs.Figures.{mark_figure, mark_front, mark_of, mark_text, paired};
ghost use Rattle.bip_sequence.specs.Figures.{segment, titled, with_number};

use crate::deeds::{Deed, write_deed};
use crate::lifelines::{Brief, Lifeline, write_brief};
use bip_partition::Plan;
use itoa::Buffer;
use std::alloc::AllocError;

/// A point of a chart.
#[derive(Clone, Copy)]
pub(crate) struct Point {
    pub x: u64,
    pub y: u64,
}

/// How what an event did is marked.
#[derive(Clone, Copy)]
pub(crate) enum Mark {
    Grant,
    Refusal,
    Done,
    Shared,
    Nothing,
}

/// Puts a text last. It says less than `extend_from_slice` does, so that proofs read less.
pub(crate) fn write_part(text: &mut Vec<u8>, part: &[u8]) -> Result<(), AllocError>
    ensures { OnOk result (text.new.items ≡ text.old.items ++ part.now) }
{
    text.extend_from_slice(part)
}

/// A number behind a text.
#[tactic(auto, unfolding(crate::specs::Figures::with_number))]
pub(crate) fn write_with_number(
    text: &mut Vec<u8>,
    front: &[u8],
    number: u64,
) -> Result<(), AllocError>
    ensures { OnOk result (text.new.items ≡ text.old.items ++ with_number front.now number) }
{
    write_part(text, front)?;
    write_part(text, Buffer::new().format(number).as_bytes())
}

/// Two numbers between texts.
#[tactic(auto, unfolding(crate::specs::Figures::paired))]
pub(crate) fn write_paired(
    text: &mut Vec<u8>,
    front: &[u8],
    first: u64,
    middle: &[u8],
    second: u64,
    back: &[u8],
) -> Result<(), AllocError>
    ensures { OnOk result (text.new.items
        ≡ text.old.items ++ paired front.now first middle.now second back.now) }
{
    write_with_number(text, front, first)?;
    write_with_number(text, middle, second)?;
    write_part(text, back)
}

/// A line from a point to another, between texts.
#[tactic(auto, unfolding(crate::specs::Figures::segment))]
pub(crate) fn write_segment(
    text: &mut Vec<u8>,
    front: &[u8],
    from: Point,
    to: Point,
    back: &[u8],
) -> Result<(), AllocError>
    ensures { OnOk result
        (text.new.items ≡ text.old.items ++ segment front.now from to back.now) }
{
    write_paired(text, front, from.x, b" ", from.y, b"L")?;
    write_paired(text, b"", to.x, b" ", to.y, back)
}

/// The line of a lifeline, from a point to another.
#[tactic(auto, unfolding(crate::specs::Figures::line_text))]
pub(crate) fn write_line(
    text: &mut Vec<u8>,
    lifeline: Lifeline,
    from: Point,
    to: Point,
) -> Result<(), AllocError>
    ensures { OnOk result (text.new.items ≡ text.old.items ++ line_text lifeline from to) }
{
    write_segment(text, line_front(lifeline), from, to, b"\"/>\n")
}

fn line_front(lifeline: Lifeline) -> &'static [u8]
    ensures { result.now ≡ line_front lifeline }
{
    match lifeline {
        Lifeline::Outside => b"<path d=\"M",
        Lifeline::Component(_) => b"<path class=\"component\" d=\"M",
        Lifeline::Class(_) => b"<path class=\"class\" d=\"M",
        Lifeline::Station(_) => b"<path class=\"station\" d=\"M",
    }
}

/// The arrow of a message from a point to another, which shows the message to who points at it.
#[tactic(auto, unfolding(crate::specs::Figures::flight_text))]
pub(crate) fn write_flight(
    text: &mut Vec<u8>,
    plan: &Plan,
    brief: Brief,
    from: Point,
    to: Point,
) -> Result<(), AllocError>
    ensures { OnOk result (text.new.items ≡ text.old.items ++ flight_text plan.now brief from to) }
{
    write_segment(text, arrow_front(brief), from, to, b"\"><title>")?;
    write_titled(text, plan, brief)
}

#[tactic(auto, unfolding(crate::specs::Figures::titled))]
fn write_titled(text: &mut Vec<u8>, plan: &Plan, brief: Brief) -> Result<(), AllocError>
    ensures { OnOk result (text.new.items ≡ text.old.items ++ titled plan.now brief) }
{
    write_brief(text, plan, brief)?;
    write_part(text, b"</title></path>\n")
}

fn arrow_front(brief: Brief) -> &'static [u8]
    ensures { result.now ≡ arrow_front brief }
{
    match brief {
        Brief::Offer(_, _, _) => b"<path class=\"offer\" d=\"M",
        Brief::Request(_, _, _) => b"<path class=\"request\" d=\"M",
        Brief::Granted(_, _, _) => b"<path class=\"granted\" d=\"M",
        Brief::Refused(_, _, _) => b"<path class=\"refused\" d=\"M",
        Brief::Notify(_, _, _) => b"<path class=\"notify\" d=\"M",
    }
}

/// The mark of what an event did, at a point, and that in a word.
#[tactic(auto, unfolding(crate::specs::Figures::mark_text))]
pub(crate) fn write_mark(
    text: &mut Vec<u8>,
    plan: &Plan,
    deed: Deed,
    at: Point,
) -> Result<(), AllocError>
    ensures { OnOk result (text.new.items ≡ text.old.items ++ mark_text plan.now deed at) }
{
    let mark = mark_of(deed);
    write_paired(text, mark_front(mark), at.x, b" ", at.y, b")\">")?;
    write_part(text, mark_figure(mark))?;
    write_deed(text, plan.model(), deed)?;
    write_part(text, b"</text></g>\n")
}

pub(crate) fn mark_of(deed: Deed) -> Mark
    ensures { result ≡ mark_of deed }
{
    match deed {
        Deed::Granted(_) => Mark::Grant,
        Deed::Refused(_) => Mark::Refusal,
        Deed::Held | Deed::Submitted | Deed::Told | Deed::Dropped => Mark::Done,
        Deed::Moved | Deed::Spent | Deed::Sent => Mark::Done,
        Deed::Shared => Mark::Shared,
        _ => Mark::Nothing,
    }
}

fn mark_front(mark: Mark) -> &'static [u8]
    ensures { result.now ≡ mark_front mark }
{
    match mark {
        Mark::Grant => b"<g class=\"grant\" transform=\"translate(",
        Mark::Refusal => b"<g class=\"refusal\" transform=\"translate(",
        Mark::Done => b"<g class=\"done\" transform=\"translate(",
        Mark::Shared => b"<g class=\"shared\" transform=\"translate(",
        Mark::Nothing => b"<g class=\"nothing\" transform=\"translate(",
    }
}

fn mark_figure(mark: Mark) -> &'static [u8]
    ensures { result.now ≡ mark_figure mark }
{
    match mark {
        Mark::Grant => b"<circle r=\"6\"/><text x=\"9\" y=\"-2\">",
        Mark::Refusal => {
            b"<circle r=\"6\"/><path d=\"M-4-4L4 4M4-4L-4 4\"/><text x=\"9\" y=\"-2\">"
        }
        Mark::Done => b"<circle r=\"3\"/><text x=\"6\" y=\"11\">",
        Mark::Shared => b"<path d=\"M-5 0L0-5L5 0L0 5z\"/><text x=\"8\" y=\"-2\">",
        Mark::Nothing => b"<path d=\"M-3-3L3 3M3-3L-3 3\"/><text x=\"6\" y=\"11\">",
    }
}
