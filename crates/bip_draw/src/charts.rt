//! The chart of a run, as SVG.
ghost use Rattle.std.specs.Prelude.{◌≡◌, ◌≤◌, ◌<◌, ◌+◌, ◌-◌, ◌^◌, ◌&&◌, ◌++◌, ◌∷◌, [], List, ℕ};
ghost use Rattle.std.specs.Prelude.{IfErr, IfOk, OnOk, codes, if◌then◌else◌, length, max, nat_lt};
ghost use Rattle.std.specs.Prelude.{filter, slice_index, true};
ghost use Rattle.std.specs.List.{flat_map, list_any};
ghost use Rattle.bip_model.specs.Naming.{name_in};
ghost use Rattle.bip_model.specs.Partitions.{AreClassesOf, class_in};
ghost use Rattle.bip_model.specs.States.{state_of};
ghost use Rattle.bip_model.specs.Wants.{components_of};
ghost use Rattle.bip_draw.specs.Charts.{bar_of, chart_of, chart_width, has_mark, has_row};
ghost use Rattle.bip_draw.specs.Charts.{is_within};
ghost use Rattle.bip_draw.specs.Charts.{lane_part, lane_text, lanes_text, legend_entry};
ghost use Rattle.bip_draw.specs.Charts.{legend_of, mark_text, marked_text, row_head, row_text};
ghost use Rattle.bip_draw.specs.Charts.{wants_text};
ghost use Rattle.bip_draw.specs.Feet.{foot_height, foot_text, foot_width};
ghost use Rattle.bip_draw.specs.Layout.{IsLayout, lane_x, layout_of, row_y};
ghost use Rattle.bip_draw.specs.Shapes.{chart_front};

use crate::escaping::write_escaped;
use crate::feet::{Foot, write_foot};
use crate::hues::class_of;
use crate::layout::{Layout, legend_width};
use crate::locals::{write_changes, write_state};
use crate::lookups::{count_of, name_at};
use crate::shapes::{
    write_bar, write_beside, write_chart_front, write_circle, write_circle_end, write_colour,
    write_ended, write_group_end, write_head_front, write_lane_line, write_place, write_row_number,
    write_square,
};
use bip_model::{Classes, CompId, InterId, Model, Name, Number, State, Want};
use bip_replay::{GrantRef, Position, StepFault};
use std::alloc::{AllocError, Global};
use std::marker;

/// What a chart shows of a run: rows for the grants behind so many, up to the one with a number
/// from 1, or up to the end; how many rows there may be; values of variables, where these are
/// wanted; and lanes for these components alone, in any order, or for all. Where not all have one,
/// a grant has a row only where one of its wants is of a component with a lane.
#[derive(Clone, Copy, Debug)]
pub struct Excerpt<'a> {
    pub first: u64,
    pub last: Option<u64>,
    pub most: u32,
    pub values: bool,
    pub only: Option<&'a [CompId]>,
}

impl Excerpt<'_> {
    /// Whether a number is one of those that are shown.
    fn is_within(&self, number: u64) -> bool
        ensures { result ≡ is_within self.now number }
    {
        let begun = self.first < number;
        match self.last {
            Some(last) => begun && number <= last,
            None => begun,
        }
    }
}

/// What all rows of a chart have in common.
#[derive(Clone, Copy)]
struct Sheet<'a> {
    model: &'a Model,
    classes: &'a Classes,
    excerpt: Excerpt<'a>,
    layout: Layout<'a>,
}

impl Sheet<'_> {
    /// Whether the grant with this number has a row.
    fn has_row(&self, number: u64, grant: &GrantRef<'_>) -> bool
        ensures { result ≡ has_row self.now.layout self.now.excerpt number grant.now }
    {
        self.excerpt.is_within(number) && has_marks(&self.layout, grant.wants())
    }
}

/// Whether one of these wants is of a component with a lane.
fn has_marks(layout: &Layout<'_>, wants: &[Want]) -> bool
    ensures { result ≡ list_any (has_mark layout.now.only) wants.now }
{
    wants.iter().any(|want| layout.has_lane(want.comp.0))
}

/// Why a chart takes no grant.
#[derive(Debug, Drop)]
pub enum ChartFault {
    /// The grant can't be next in the run.
    NotNext(StepFault),
    /// Want of memory.
    Memory,
}

/// A chart that is being drawn of a run, grant by grant (docs/DRAW.md, "Charts"). It keeps the text
/// of the rows that are shown and where the run stands, and no grant; so its memory doesn't grow
/// with the run. Contracts see what it shows of which model, where the run stands, how many grants
/// it has taken, how many rows there are, the state above the rows, and their text.
#[derive(Drop)]
pub struct Chart<'a> {
    sheet: Sheet<'a>,
    position: Position<'a>,
    count: u64,
    rows: u64,
    above: State,
    before: State,
    text: Vec<u8>,
}

impl<'a> marker::Model for Chart<'a> {
    ghost use Rattle.std.specs.Prelude.{◌≤◌, ◌<◌, ◌^◌};
    ghost use Rattle.bip_draw.specs.Charts.{IsInStep, IsLaidOut, Sketch};

    ghost Value = { Sketch };

    ghost view = { λ c. record {
      model = c.sheet.model.now;
      classes = c.sheet.classes.now;
      excerpt = c.sheet.excerpt;
      position = c.position;
      count = c.count;
      rows = c.rows;
      above = c.above;
      text = c.text.items;
    } };

    ghost invariant = { λ c. IsLaidOut c.sheet.model.now c.sheet.classes.now c.sheet.excerpt
        c.sheet.layout
        × (c.rows ≤ c.count)
        × (c.sheet.excerpt.most < 2 ^ 32)
        × IsInStep c.sheet.model.now c.position c.count c.sheet.excerpt.first c.above c.before };
}

impl<'a> Chart<'a> {
    ghost use Rattle.bip_model.specs.declared.grants.Grant.{Grant};
    ghost use Rattle.bip_model.specs.Numbering.{last_number};
    ghost use Rattle.bip_replay.specs.Runs.{IsNextAt, standing_of, standing_on};
    ghost use Rattle.bip_draw.specs.Charts.{HasDrawn, IsChartFault, IsChartOn};

    /// The chart of the empty run above a base.
    pub fn start(
        alloc: Global,
        model: &'a Model,
        classes: &'a Classes,
        base: Number,
        excerpt: Excerpt<'a>,
    ) -> Result<Chart<'a>, AllocError>
        requires base { base < last_number }
        requires classes { AreClassesOf model.now classes.now }
        ensures on { IfOk result (IsChartOn model.now classes.now excerpt.entry) }
        ensures drawn { IfOk result (HasDrawn base []) }
    {
        let layout = Layout::of(model, excerpt.values, excerpt.only, classes.len());
        Ok(Chart {
            sheet: Sheet {
                model,
                classes,
                excerpt,
                layout,
            },
            position: Position::start(alloc, model, base)?,
            count: 0,
            rows: 0,
            above: model.start(alloc)?,
            before: model.start(alloc)?,
            text: Vec::new(alloc),
        })
    }

    /// How many grants it has taken.
    pub fn count(&self) -> u64
        ensures { result ≡ self.now.count }
    {
        self.count
    }

    /// How many rows are shown; where they are more than there may be, the later ones aren't kept.
    pub fn rows(&self) -> u64
        ensures { result ≡ self.now.rows }
    {
        self.rows
    }

    /// Where the run stands.
    pub fn position(&self) -> &Position<'a>
        ensures { result.now ≡ self.now.position }
    {
        &self.position
    }

    /// Takes a grant that can be next, and draws its row if it is shown; any other is refused with
    /// its fault, and the chart stays. Without memory the chart may have a part of the row.
    pub fn add(&mut self, grant: &GrantRef<'_>) -> Result<(), ChartFault>
        requires room { self.old.count + 1 < 2 ^ 64 }
        ensures next { OnOk result (IsNextAt (standing_of self.old.position) grant.now) }
        ensures taken { OnOk result (standing_of self.new.position
            ≡ standing_on (standing_of self.old.position) grant.now) }
        ensures on { OnOk result
            (IsChartOn self.old.model self.old.classes self.old.excerpt self.new) }
        ensures drawn { OnOk result ((base : ℕ) (gs : List Grant)
            → HasDrawn base gs self.old → HasDrawn base (gs ++ grant.now ∷ []) self.new) }
        ensures fault { IfErr result (IsChartFault self.old self.new grant.now) }
    {
        if let Err(fault) = self.position.step(grant) {
            return Err(ChartFault::NotNext(fault));
        }
        let number = self.count + 1;
        let rows = add_row(
            &mut self.text,
            &self.sheet,
            self.rows,
            number,
            grant,
            &self.before,
            self.position.state(),
        );
        if number <= self.sheet.excerpt.first {
            self.sheet.model.run(&mut self.above, grant.inter());
        }
        self.sheet.model.run(&mut self.before, grant.inter());
        self.count = number;
        match rows {
            Ok(rows) => {
                self.rows = rows;
                Ok(())
            }
            Err(_) => Err(ChartFault::Memory),
        }
    }

    /// The whole chart, with what stands behind the last row.
    pub fn finish(&self, alloc: Global, foot: &Foot<'_>) -> Result<Vec<u8>, AllocError>
        requires { self.now.rows ≤ self.now.excerpt.most }
        ensures { IfOk result (λ text. (base : ℕ) (gs : List Grant) → HasDrawn base gs self.now
            → text.items ≡ chart_of self.now.model self.now.classes self.now.excerpt gs foot.now) }
    {
        let sheet = &self.sheet;
        let layout = &sheet.layout;
        let mut text = Vec::new(alloc);
        write_front(&mut text, sheet, self.rows, foot)?;
        write_legend(&mut text, sheet.classes)?;
        write_lanes(&mut text, layout, sheet.model, self.rows)?;
        write_state(&mut text, layout, sheet.model, &self.above)?;
        text.extend_from_slice(self.text.as_slice())?;
        write_foot(&mut text, layout, self.rows, foot)?;
        text.extend_from_slice(b"</svg>\n")?;
        Ok(text)
    }
}

fn write_front(
    text: &mut Vec<u8>,
    sheet: &Sheet<'_>,
    rows: u64,
    foot: &Foot<'_>,
) -> Result<(), AllocError>
    requires layout { IsLayout sheet.now.layout }
    requires rows { rows < 2 ^ 54 }
    ensures { OnOk result (text.new.items ≡ text.old.items ++ chart_front
        (chart_width sheet.now.model.now sheet.now.classes.now sheet.now.layout foot.now)
        (row_y sheet.now.layout rows + foot_height sheet.now.layout foot.now)) }
{
    let width = chart_width(sheet, foot);
    let bottom = sheet.layout.row_y(rows) + foot.height(&sheet.layout);
    write_chart_front(text, width, bottom)
}

fn chart_width(sheet: &Sheet<'_>, foot: &Foot<'_>) -> u64
    requires { IsLayout sheet.now.layout }
    ensures { result
        ≡ chart_width sheet.now.model.now sheet.now.classes.now sheet.now.layout foot.now }
{
    let lanes = sheet.layout.lane_x(count_of(sheet.model));
    let legend = legend_width(sheet.classes.len());
    lanes.max(legend).max(foot.width())
}

fn write_legend(text: &mut Vec<u8>, classes: &Classes) -> Result<(), AllocError>
    ensures { OnOk result (text.new.items ≡ text.old.items ++ legend_of classes.now) }
{
    for number in 0..classes.len() {
        write_legend_entry(text, classes, number as u16)?;
    }
    Ok(())
}

fn write_legend_entry(text: &mut Vec<u8>, classes: &Classes, class: u16) -> Result<(), AllocError>
    ensures { OnOk result (text.new.items ≡ text.old.items ++ legend_entry classes.now class) }
{
    let (column, line) = (class as u64 / 8, class as u64 % 8);
    write_place(text, 254 * column + 10, 18 * line + 10)?;
    write_colour(text, class)?;
    write_square(text)?;
    write_ended(text, name_at(classes.names(), class as usize))?;
    write_group_end(text)
}

/// The lanes of the components, which go down beside so many rows.
fn write_lanes(
    text: &mut Vec<u8>,
    layout: &Layout<'_>,
    model: &Model,
    rows: u64,
) -> Result<(), AllocError>
    requires layout { IsLayout layout.now }
    requires rows { rows < 2 ^ 54 }
    ensures { OnOk result
        (text.new.items ≡ text.old.items ++ lanes_text layout.now model.now rows) }
{
    let names = model.component_names();
    for comp in 0..count_of(model) {
        write_lane_part(text, layout, names, rows, comp)?;
    }
    Ok(())
}

fn write_lane_part(
    text: &mut Vec<u8>,
    layout: &Layout<'_>,
    names: &[Name],
    rows: u64,
    comp: u16,
) -> Result<(), AllocError>
    requires layout { IsLayout layout.now }
    requires rows { rows < 2 ^ 54 }
    ensures { OnOk result
        (text.new.items ≡ text.old.items ++ lane_part layout.now names.now rows comp) }
{
    if !layout.has_lane(comp) {
        return Ok(());
    }
    write_lane(text, layout, names, rows, comp)
}

fn write_lane(
    text: &mut Vec<u8>,
    layout: &Layout<'_>,
    names: &[Name],
    rows: u64,
    comp: u16,
) -> Result<(), AllocError>
    requires layout { IsLayout layout.now }
    requires rows { rows < 2 ^ 54 }
    ensures { OnOk result
        (text.new.items ≡ text.old.items ++ lane_text layout.now names.now rows comp) }
{
    let x = layout.lane_x(comp);
    write_lane_line(text, x, layout.top, layout.row_y(rows))?;
    write_head_front(text, x, layout.top - 6)?;
    write_ended(text, name_at(names, comp as usize))
}

/// Draws the row of a grant with a number below so many rows, if it is shown and they aren't as
/// many as there may be; how many rows are shown then.
fn add_row(
    text: &mut Vec<u8>,
    sheet: &Sheet<'_>,
    rows: u64,
    number: u64,
    grant: &GrantRef<'_>,
    before: &State,
    behind: &State,
) -> Result<u64, AllocError>
    requires layout { IsLayout sheet.now.layout }
    requires room { rows + 1 < 2 ^ 64 }
    ensures rows { IfOk result (λ now. now
        ≡ (if has_row sheet.now.layout sheet.now.excerpt number grant.now then rows + 1 else rows)) }
    ensures text { OnOk result (text.new.items ≡ text.old.items
        ++ (if has_row sheet.now.layout sheet.now.excerpt number grant.now && nat_lt rows sheet.now.excerpt.most
        then row_text sheet.now.model.now sheet.now.classes.now sheet.now.layout rows
        (record {
          number = number;
          grant = grant.now;
          before = state_of before.now;
          behind = state_of behind.now;
        })
        else [])) }
{
    if !sheet.has_row(number, grant) {
        return Ok(rows);
    }
    if rows < sheet.excerpt.most as u64 {
        write_row(text, sheet, rows, number, grant, before, behind)?;
    }
    Ok(rows + 1)
}

/// A row: a grant with its number that leads from one state to another.
#[tactic(auto, unfolding(crate::specs::Charts::row_text))]
fn write_row(
    text: &mut Vec<u8>,
    sheet: &Sheet<'_>,
    row: u64,
    number: u64,
    grant: &GrantRef<'_>,
    before: &State,
    behind: &State,
) -> Result<(), AllocError>
    requires layout { IsLayout sheet.now.layout }
    requires row { row < 2 ^ 54 }
    requires marked { list_any (has_mark sheet.now.layout.only) grant.now.wants ≡ true }
    ensures { OnOk result (text.new.items ≡ text.old.items
        ++ row_text sheet.now.model.now sheet.now.classes.now sheet.now.layout row
        (record {
          number = number;
          grant = grant.now;
          before = state_of before.now;
          behind = state_of behind.now;
        })) }
{
    let names = sheet.model.component_names();
    write_row_head(text, sheet, row, number, grant.inter())?;
    write_wants(text, &sheet.layout, names, grant.wants())?;
    write_changes(text, &sheet.layout, sheet.model, before, behind)?;
    write_group_end(text)
}

/// The front of a row, with its number and its interaction.
#[tactic(auto, unfolding(crate::specs::Charts::row_head))]
fn write_row_head(
    text: &mut Vec<u8>,
    sheet: &Sheet<'_>,
    row: u64,
    number: u64,
    inter: InterId,
) -> Result<(), AllocError>
    requires layout { IsLayout sheet.now.layout }
    requires row { row < 2 ^ 54 }
    ensures { OnOk result (text.new.items ≡ text.old.items
        ++ row_head sheet.now.model.now sheet.now.classes.now sheet.now.layout row number
        inter.0) }
{
    write_place(text, 0, sheet.layout.row_y(row))?;
    write_colour(text, class_of(sheet.classes, inter))?;
    write_row_number(text, number)?;
    write_ended(
        text,
        name_at(sheet.model.interaction_names(), inter.0 as usize),
    )
}

/// The bar of the wants of components with lanes, and their marks.
fn write_wants(
    text: &mut Vec<u8>,
    layout: &Layout<'_>,
    names: &[Name],
    wants: &[Want],
) -> Result<(), AllocError>
    requires layout { IsLayout layout.now }
    requires marked { list_any (has_mark layout.now.only) wants.now ≡ true }
    ensures { OnOk result
        (text.new.items ≡ text.old.items ++ wants_text layout.now names.now wants.now) }
{
    let marked = marked_wants(*text.allocator(), layout, wants)?;
    write_marked(text, layout, names, marked.as_slice())
}

fn marked_wants(alloc: Global, layout: &Layout<'_>, wants: &[Want]) -> Result<Vec<Want>, AllocError>
    ensures { IfOk result (λ marked.
        marked.items ≡ filter (has_mark layout.now.only) wants.now) }
{
    wants
        .iter()
        .copied()
        .filter(|want| layout.has_lane(want.comp.0))
        .collect(alloc)
}

#[tactic(auto, unfolding(crate::specs::Charts::marked_text))]
fn write_marked(
    text: &mut Vec<u8>,
    layout: &Layout<'_>,
    names: &[Name],
    wants: &[Want],
) -> Result<(), AllocError>
    requires layout { IsLayout layout.now }
    requires some { 0 < length wants.now }
    ensures { OnOk result
        (text.new.items ≡ text.old.items ++ marked_text layout.now names.now wants.now) }
{
    let last = wants.len() - 1;
    write_bar(
        text,
        lane_at(layout, wants, 0),
        lane_at(layout, wants, last),
    )?;
    write_marks(text, layout, names, wants)
}

/// The x of the lane of a want.
fn lane_at(layout: &Layout<'_>, wants: &[Want], index: usize) -> u64
    requires layout { IsLayout layout.now }
    requires index { index < length wants.now }
    ensures { result ≡ lane_x layout.now (slice_index (components_of wants.now) index) }
{
    layout.lane_x(wants[index].comp.0)
}

fn write_marks(
    text: &mut Vec<u8>,
    layout: &Layout<'_>,
    names: &[Name],
    wants: &[Want],
) -> Result<(), AllocError>
    requires { IsLayout layout.now }
    ensures { OnOk result
        (text.new.items ≡ text.old.items ++ flat_map (mark_text layout.now names.now) wants.now) }
{
    for want in wants {
        write_mark(text, layout, names, *want)?;
    }
    Ok(())
}

fn write_mark(
    text: &mut Vec<u8>,
    layout: &Layout<'_>,
    names: &[Name],
    want: Want,
) -> Result<(), AllocError>
    requires { IsLayout layout.now }
    ensures { OnOk result (text.new.items ≡ text.old.items ++ mark_text layout.now names.now want) }
{
    let x = layout.lane_x(want.comp.0);
    write_circle(text, want.role, x)?;
    write_escaped(text, name_at(names, want.comp.0 as usize))?;
    write_circle_end(text)?;
    write_beside(text, x + 8, want.number)
}
