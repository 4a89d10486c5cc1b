//! The sequence chart of what was noted.
ghost use Rattle.std.specs.Prelude.{◌≡◌, ◌<◌, ◌++◌, ◌^◌, All, IfOk, List, OnOk, Option, length};
ghost use Rattle.std.specs.List.{flat_map, range_with_len};
ghost use Rattle.bip_partition.specs.Plans.{AreStations};
ghost use Rattle.bip_core.specs.Runs.{IsRunOfEvents, report_of};
ghost use Rattle.bip_core.specs.Worlds.{world_of};
ghost use Rattle.bip_core.specs.declared.events.Did.{Did};
ghost use Rattle.bip_schedule.specs.Writing.{HasSpelling, HaveSpelling};
ghost use Rattle.bip_sequence.specs.Grids.{IsGrid, lifeline_count};
ghost use Rattle.bip_sequence.specs.Sequences.{aim_of, aim_text, air_text, arrow_text, each_air};
ghost use Rattle.bip_sequence.specs.Sequences.{picture_front, group_text, groups_text};
ghost use Rattle.bip_sequence.specs.Sequences.{lifeline_head, label_text, lifeline_text};
ghost use Rattle.bip_sequence.specs.Sequences.{IsSequenceChart, on_lifeline, row_text, sequence_of};
ghost use Rattle.bip_sequence.specs.Sequences.{stub_end};
ghost use Rattle.bip_sequence.specs.Sequences.{words_text};
ghost use Rattle.bip_sequence.specs.declared.notes.EventRow.{EventRow};

use crate::deeds::Deed;
use crate::figures::{
    Point, write_flight, write_line, write_mark, write_paired, write_part, write_segment,
    write_with_number,
};
use crate::grids::Grid;
use crate::lifelines::{Lifeline, taker, write_lifeline_name};
use crate::notes::{EventRow, Flight, Notes, note_events};
use crate::styles::write_sequence_style;
use bip_bank::{Bank, BankStep};
use bip_core::{Event, Report, World};
use bip_model::{ClassId, CompId, InterId};
use bip_partition::Plan;
use bip_schedule::{Schedule, write_event};
use bip_tell::write_lost;
use std::alloc::{AllocError, Global};

/// Does the events of a schedule one after another, and draws their sequence chart: of those behind
/// the first `before` ones, up to number `until`, counted from 1. The report has the sums of all
/// (docs/DRAW.md, "Sequence charts"). The only error is want of memory for the chart: then some of
/// the events are done. It asks events that have a spelling.
pub fn chart_events<'p, B: Bank>(
    alloc: Global,
    world: &mut World<'p, B>,
    events: Schedule<'_>,
    before: u64,
    until: u64,
) -> Result<(Report, Vec<u8>), AllocError>
    requires spelled { HaveSpelling world.old.plan events }
    requires few { length events < 2 ^ 64 }
    ensures charted { IfOk result (λ charted. (dids : List (Option Did))
        × IsSequenceChart before until (world_of world.old) events.entry dids (world_of world.new)
        charted.1.items × (charted.0 ≡ report_of dids)) }
    ensures run { IfOk result (λ charted. IsRunOfEvents events.entry (world_of world.old)
        (world_of world.new) charted.0) }
    ensures plan { world.new.plan ≡ world.old.plan }
{
    let mut notes = Notes::begin(alloc, world, before, until)?;
    let report = note_events(&mut notes, world, events)?;
    let text = draw_sequence(alloc, &notes)?;
    Ok((report, text))
}

/// The sequence chart of what was noted, as SVG: a lifeline for each component, class and station;
/// a row for each event that is shown, with its number and its words, the arrow of the message that
/// it took, and a mark of what it did; and an arrow that ends in the air for each message that is
/// in flight behind the last row (docs/DRAW.md, "Sequence charts"). The only error is want of
/// memory.
pub fn draw_sequence(alloc: Global, notes: &Notes<'_>) -> Result<Vec<u8>, AllocError>
    ensures { IfOk result (λ text. text.items ≡ sequence_of notes.now) }
{
    let grid = Grid::of(notes);
    let (plan, stations) = (notes.plan(), notes.stations());
    let mut text = Vec::new(alloc);
    write_front(&mut text, &grid)?;
    write_lifelines(&mut text, &grid, plan, stations)?;
    write_rows(&mut text, &grid, plan, stations, notes.rows())?;
    write_air(&mut text, &grid, plan, stations, notes.in_flight())?;
    Ok(text)
}

/// The front of a chart, with how all is drawn and the names of the groups of lifelines.
#[tactic(auto, unfolding(crate::specs::Sequences::picture_front))]
fn write_front(text: &mut Vec<u8>, grid: &Grid) -> Result<(), AllocError>
    requires { IsGrid grid.now }
    ensures { OnOk result (text.new.items ≡ text.old.items ++ picture_front grid.now) }
{
    write_paired(
        text,
        b"<svg xmlns=\"http://www.w3.org/2000/svg\" width=\"",
        grid.width(),
        b"\" height=\"",
        grid.bottom + 20,
        b"\" font-family=\"monospace\" font-size=\"11\">\n",
    )?;
    write_sequence_style(text)?;
    write_groups(text, grid)?;
    Ok(())
}

#[tactic(auto, unfolding(crate::specs::Sequences::groups_text))]
fn write_groups(text: &mut Vec<u8>, grid: &Grid) -> Result<(), AllocError>
    requires { IsGrid grid.now }
    ensures { OnOk result (text.new.items ≡ text.old.items ++ groups_text grid.now) }
{
    write_group(text, grid, Lifeline::Component(CompId(0)), b"components")?;
    write_group(text, grid, Lifeline::Class(ClassId(0)), b"classes")?;
    write_group(text, grid, Lifeline::Station(0), b"stations")
}

/// The name of a group, above its first lifeline.
#[tactic(auto, unfolding(crate::specs::Sequences::group_text))]
fn write_group(
    text: &mut Vec<u8>,
    grid: &Grid,
    first: Lifeline,
    name: &[u8],
) -> Result<(), AllocError>
    requires { IsGrid grid.now }
    ensures { OnOk result (text.new.items ≡ text.old.items ++ group_text grid.now first name.now) }
{
    let x = grid.lifeline_x(first);
    write_with_number(text, b"<text class=\"group\" y=\"16\" x=\"", x)?;
    write_part(text, b"\">")?;
    write_part(text, name)?;
    write_part(text, b"</text>\n")
}

fn write_lifelines(
    text: &mut Vec<u8>,
    grid: &Grid,
    plan: &Plan,
    stations: &[InterId],
) -> Result<(), AllocError>
    requires { IsGrid grid.now }
    ensures { OnOk result (text.new.items ≡ text.old.items
        ++ flat_map (lifeline_text grid.now plan.now stations.now)
        (range_with_len 0 (lifeline_count grid.now))) }
{
    for number in 0..grid.lifeline_count() {
        write_lifeline(text, grid, plan, stations, number)?;
    }
    Ok(())
}

/// The line of a lifeline with a number from 0, and its name.
#[tactic(auto, unfolding(crate::specs::Sequences::lifeline_text))]
fn write_lifeline(
    text: &mut Vec<u8>,
    grid: &Grid,
    plan: &Plan,
    stations: &[InterId],
    number: u64,
) -> Result<(), AllocError>
    requires grid { IsGrid grid.now }
    requires number { number < 512 }
    ensures { OnOk result (text.new.items
        ≡ text.old.items ++ lifeline_text grid.now plan.now stations.now number) }
{
    let lifeline = grid.lifeline_at(number);
    let x = grid.lifeline_x(lifeline);
    let (top, bottom) = (Point { x, y: 42 }, Point { x, y: grid.bottom });
    write_line(text, lifeline, top, bottom)?;
    write_head(text, plan, stations, lifeline, x)
}

#[tactic(auto, unfolding(crate::specs::Sequences::lifeline_head))]
fn write_head(
    text: &mut Vec<u8>,
    plan: &Plan,
    stations: &[InterId],
    lifeline: Lifeline,
    x: u64,
) -> Result<(), AllocError>
    ensures { OnOk result (text.new.items
        ≡ text.old.items ++ lifeline_head plan.now stations.now lifeline x) }
{
    write_with_number(text, b"<text class=\"head\" y=\"36\" x=\"", x)?;
    write_part(text, b"\">")?;
    write_lifeline_name(text, plan, stations, lifeline)?;
    write_part(text, b"</text>\n")
}

fn write_rows(
    text: &mut Vec<u8>,
    grid: &Grid,
    plan: &Plan,
    stations: &[InterId],
    rows: &[EventRow],
) -> Result<(), AllocError>
    requires grid { IsGrid grid.now }
    requires stations { AreStations plan.now stations.now }
    requires spelled { All (λ (row : EventRow). HasSpelling plan.now stations.now row.event)
        rows.now }
    ensures { OnOk result (text.new.items
        ≡ text.old.items ++ flat_map (row_text grid.now plan.now stations.now) rows.now) }
{
    for row in rows {
        write_row(text, grid, plan, stations, row)?;
    }
    Ok(())
}

/// A row: its label, the arrow of the message that its event took, whom it aims at inside the bank,
/// and the mark of what it did.
#[tactic(auto, unfolding(crate::specs::Sequences::row_text))]
fn write_row(
    text: &mut Vec<u8>,
    grid: &Grid,
    plan: &Plan,
    stations: &[InterId],
    row: &EventRow,
) -> Result<(), AllocError>
    requires grid { IsGrid grid.now }
    requires stations { AreStations plan.now stations.now }
    requires spelled { HasSpelling plan.now stations.now row.now.event }
    ensures { OnOk result (text.new.items
        ≡ text.old.items ++ row_text grid.now plan.now stations.now row.now) }
{
    let at = on_lifeline(grid, row.at, row.number);
    write_label(text, grid, plan, stations, row, at.y)?;
    write_arrow(text, grid, plan, &row.taken, at)?;
    write_aim(text, grid, row, at)?;
    write_mark(text, plan, row.deed, at)
}

/// A point on a lifeline, in the row of an event with a number.
fn on_lifeline(grid: &Grid, lifeline: Lifeline, number: u64) -> Point
    requires { IsGrid grid.now }
    ensures point { result ≡ on_lifeline grid.now lifeline number }
    ensures x { result.x < 2 ^ 30 }
    ensures y { result.y < 2 ^ 17 }
{
    Point {
        x: grid.lifeline_x(lifeline),
        y: grid.row_y(number),
    }
}

/// The number of a row, and the words of its event.
#[tactic(auto, unfolding(crate::specs::Sequences::label_text))]
fn write_label(
    text: &mut Vec<u8>,
    grid: &Grid,
    plan: &Plan,
    stations: &[InterId],
    row: &EventRow,
    y: u64,
) -> Result<(), AllocError>
    requires grid { IsGrid grid.now }
    requires stations { AreStations plan.now stations.now }
    requires spelled { HasSpelling plan.now stations.now row.now.event }
    ensures { OnOk result (text.new.items
        ≡ text.old.items ++ label_text grid.now plan.now stations.now row.now y) }
{
    write_paired(
        text,
        b"<path class=\"guide\" d=\"M0 ",
        y,
        b"H",
        grid.width(),
        b"\"/>\n",
    )?;
    write_paired(
        text,
        b"<text class=\"number\" x=\"44\" dy=\"4\" y=\"",
        y,
        b"\">",
        row.number,
        b"</text>\n",
    )?;
    write_with_number(text, b"<text x=\"52\" dy=\"4\" y=\"", y)?;
    write_words(text, plan, stations, row)?;
    Ok(())
}

/// The words of an event, and how many messages it lost, if any.
#[tactic(auto, unfolding(crate::specs::Sequences::words_text))]
fn write_words(
    text: &mut Vec<u8>,
    plan: &Plan,
    stations: &[InterId],
    row: &EventRow,
) -> Result<(), AllocError>
    requires stations { AreStations plan.now stations.now }
    requires spelled { HasSpelling plan.now stations.now row.now.event }
    ensures { OnOk result (text.new.items
        ≡ text.old.items ++ words_text plan.now stations.now row.now) }
{
    write_part(text, b"\">")?;
    write_event(text, plan, stations, &row.event)?;
    write_lost(text, row.lost)?;
    write_part(text, b"</text>\n")
}

/// The arrow of the message that an event took, if it took one, from where it was sent to a point.
fn write_arrow(
    text: &mut Vec<u8>,
    grid: &Grid,
    plan: &Plan,
    taken: &Option<Flight>,
    at: Point,
) -> Result<(), AllocError>
    requires { IsGrid grid.now }
    ensures { OnOk result
        (text.new.items ≡ text.old.items ++ arrow_text grid.now plan.now taken.now at) }
{
    match taken {
        Some(flight) => {
            let from = on_lifeline(grid, flight.from, flight.number);
            write_flight(text, plan, flight.brief, from, at)
        }
        None => Ok(()),
    }
}

/// Whom a step inside the bank aims at, if it moved something.
fn aim_of(event: Event, deed: Deed) -> Option<Lifeline>
    ensures { result ≡ aim_of event deed }
{
    match (event, deed) {
        (Event::Bank(BankStep::Pass(_, to) | BankStep::Ask(_, to)), Deed::Shared) => {
            Some(Lifeline::Station(to.0 as usize))
        }
        _ => None,
    }
}

/// Where an arrow ends that is aimed at a lifeline, and doesn't arrive: on the first quarter of the
/// way.
fn stub_end(grid: &Grid, from: Point, to: Lifeline) -> Point
    requires grid { IsGrid grid.now }
    requires x { from.x < 2 ^ 30 }
    requires y { from.y < 2 ^ 17 }
    ensures { result ≡ stub_end grid.now from to }
{
    Point {
        x: (3 * from.x + grid.lifeline_x(to)) / 4,
        y: from.y + 12,
    }
}

fn write_aim(text: &mut Vec<u8>, grid: &Grid, row: &EventRow, at: Point) -> Result<(), AllocError>
    requires grid { IsGrid grid.now }
    requires x { at.x < 2 ^ 30 }
    requires y { at.y < 2 ^ 17 }
    ensures { OnOk result (text.new.items ≡ text.old.items ++ aim_text grid.now row.now at) }
{
    match aim_of(row.event, row.deed) {
        Some(to) => write_segment(
            text,
            b"<path class=\"aim\" d=\"M",
            at,
            stub_end(grid, at, to),
            b"\"/>\n",
        ),
        None => Ok(()),
    }
}

/// The arrows of messages that nobody took, and the end of the chart.
#[tactic(auto, unfolding(crate::specs::Sequences::each_air))]
fn write_air(
    text: &mut Vec<u8>,
    grid: &Grid,
    plan: &Plan,
    stations: &[InterId],
    flights: &[Flight],
) -> Result<(), AllocError>
    requires { IsGrid grid.now }
    ensures { OnOk result (text.new.items
        ≡ text.old.items ++ each_air grid.now plan.now stations.now flights.now) }
{
    write_part(text, b"<g class=\"air\">\n")?;
    write_stubs(text, grid, plan, stations, flights)?;
    write_part(text, b"</g>\n</svg>\n")
}

fn write_stubs(
    text: &mut Vec<u8>,
    grid: &Grid,
    plan: &Plan,
    stations: &[InterId],
    flights: &[Flight],
) -> Result<(), AllocError>
    requires { IsGrid grid.now }
    ensures { OnOk result (text.new.items
        ≡ text.old.items ++ flat_map (air_text grid.now plan.now stations.now) flights.now) }
{
    for flight in flights {
        write_stub(text, grid, plan, stations, flight)?;
    }
    Ok(())
}

/// The arrow of a message that nobody took: it ends in the air.
fn write_stub(
    text: &mut Vec<u8>,
    grid: &Grid,
    plan: &Plan,
    stations: &[InterId],
    flight: &Flight,
) -> Result<(), AllocError>
    requires { IsGrid grid.now }
    ensures { OnOk result (text.new.items
        ≡ text.old.items ++ air_text grid.now plan.now stations.now flight.now) }
{
    let from = on_lifeline(grid, flight.from, flight.number);
    let to = stub_end(grid, from, taker(stations, flight.brief));
    write_flight(text, plan, flight.brief, from, to)
}
