//! What stands behind the last row of a chart.
ghost use Rattle.std.specs.Prelude.{◌≡◌, ◌<◌, ◌≤◌, ◌^◌, ◌++◌, OnOk, length};
ghost use Rattle.std.specs.List.{flat_map};
ghost use Rattle.bip_model.specs.Texts.{lines};
ghost use Rattle.bip_draw.specs.Feet.{fault_row, foot_height, foot_text, foot_width, runnable_rows};
ghost use Rattle.bip_draw.specs.Layout.{IsLayout, longest};
ghost use Rattle.bip_draw.specs.Shapes.{foot_line};

use crate::layout::{Layout, reason_width};
use crate::shapes::{
    write_ended, write_fault_front, write_foot_end, write_foot_front, write_foot_line,
    write_group_end, write_place,
};
use bip_model::NumberedLines;
use std::alloc::AllocError;

/// What stands behind the last row of a chart.
#[derive(Clone, Copy)]
pub enum Foot<'r> {
    Nothing,
    /// Why the run stops there, in one line.
    Fault(&'r [u8]),
    /// What may run there, line by line.
    Runnable(&'r [u8]),
}

impl Foot<'_> {
    pub(crate) fn width(&self) -> u64
        ensures { result ≡ foot_width self.now }
    {
        match self {
            Foot::Nothing => 0,
            Foot::Fault(reason) => reason_width(reason.len()),
            Foot::Runnable(text) => reason_width(measure(text).1),
        }
    }

    pub(crate) fn height(&self, layout: &Layout<'_>) -> u64
        requires { IsLayout layout.now }
        ensures height { result ≡ foot_height layout.now self.now }
        ensures small { result ≤ 2_000 }
    {
        match self {
            Foot::Runnable(text) => 14 * measure(text).0.min(128) + 20,
            _ => layout.height,
        }
    }
}

/// How many lines a text has, and how many bytes the longest has.
fn measure(text: &[u8]) -> (u64, usize)
    ensures count { result.0 ≡ length (lines text.now) }
    ensures longest { result.1 ≡ longest (lines text.now) }
{
    let mut count = 0;
    let mut most = 0;
    for (number, line) in NumberedLines::of(text) {
        count = number;
        most = most.max(line.len());
    }
    (count, most)
}

/// What stands behind so many rows.
#[tactic(auto, unfolding(crate::specs::Feet::foot_text))]
pub(crate) fn write_foot(
    text: &mut Vec<u8>,
    layout: &Layout<'_>,
    rows: u64,
    foot: &Foot<'_>,
) -> Result<(), AllocError>
    requires layout { IsLayout layout.now }
    requires rows { rows < 2 ^ 54 }
    ensures { OnOk result (text.new.items ≡ text.old.items ++ foot_text layout.now rows foot.now) }
{
    match foot {
        Foot::Nothing => Ok(()),
        Foot::Fault(reason) => write_fault_row(text, layout, rows, reason),
        Foot::Runnable(runnable) => write_runnable_rows(text, layout, rows, runnable),
    }
}

fn write_fault_row(
    text: &mut Vec<u8>,
    layout: &Layout<'_>,
    rows: u64,
    reason: &[u8],
) -> Result<(), AllocError>
    requires layout { IsLayout layout.now }
    requires rows { rows < 2 ^ 54 }
    ensures { OnOk result
        (text.new.items ≡ text.old.items ++ fault_row layout.now rows reason.now) }
{
    write_place(text, 0, layout.row_y(rows))?;
    write_fault_front(text)?;
    write_ended(text, reason)?;
    write_group_end(text)
}

#[tactic(auto, unfolding(crate::specs::Feet::runnable_rows))]
fn write_runnable_rows(
    text: &mut Vec<u8>,
    layout: &Layout<'_>,
    rows: u64,
    runnable: &[u8],
) -> Result<(), AllocError>
    requires layout { IsLayout layout.now }
    requires rows { rows < 2 ^ 54 }
    ensures { OnOk result
        (text.new.items ≡ text.old.items ++ runnable_rows layout.now rows runnable.now) }
{
    write_place(text, 0, layout.row_y(rows))?;
    write_foot_front(text)?;
    write_lines(text, runnable)?;
    write_foot_end(text)
}

/// Lines, one below the other.
fn write_lines(text: &mut Vec<u8>, written: &[u8]) -> Result<(), AllocError>
    ensures { OnOk result
        (text.new.items ≡ text.old.items ++ flat_map foot_line (lines written.now)) }
{
    for (_, line) in NumberedLines::of(written) {
        write_foot_line(text, line)?;
    }
    Ok(())
}
