//! Reading and writing traces.
ghost use Rattle.std.specs.Prelude.{◌≡◌, ◌<◌, ◌-◌, true, false, Ok, IfOk, IfErr, take};
ghost use Rattle.bip_model.specs.Texts.{lines};
ghost use Rattle.bip_replay.specs.Items.{Reads};
ghost use Rattle.bip_replay.specs.Lines.{grant_on};
ghost use Rattle.bip_replay.specs.Traces.{IsAfter, IsBefore, IsTraceFault, grants_from, grants_of};
ghost use Rattle.bip_replay.specs.Traces.{lines_before};

use crate::TraceFault;
use crate::rooms::Room;
use bip_model::{Grant, Model, NumberedLines, Wants};
use std::alloc::Global;

/// The grants of a trace of a model, or the number of the first line at fault with its fault; what
/// follows that line doesn't count. Want of memory names the line of a grant, and no line before it
/// is at fault (docs/DEFINITIONS.md, "Traces").
pub fn read_trace(
    alloc: Global,
    model: &Model,
    text: &[u8],
) -> Result<Vec<Grant>, (u64, TraceFault)>
    ensures grants { IfOk result (λ grants. grants_of model.now text.now ≡ Ok grants.items) }
    ensures fault { IfErr result (λ e. IsTraceFault model.now text.now e.0 e.1) }
{
    read_lines(alloc, model, text, None)
}

/// The same of the lines before the one with this number, from 1; of all lines where the text has
/// none with it. What stands from that line on doesn't count.
pub fn read_front(
    alloc: Global,
    model: &Model,
    text: &[u8],
    end: u64,
) -> Result<Vec<Grant>, (u64, TraceFault)>
    ensures grants { IfOk result (λ grants.
        grants_from model.now 1 (take (end - 1) (lines text.now)) ≡ Ok grants.items) }
    ensures fault { IfErr result (λ e. IsTraceFault model.now text.now e.0 e.1) }
    ensures before { IfErr result (λ e. e.0 < end) }
{
    read_lines(alloc, model, text, Some(end))
}

// The grants of the lines before an end, or of all.
fn read_lines(
    alloc: Global,
    model: &Model,
    text: &[u8],
    end: Option<u64>,
) -> Result<Vec<Grant>, (u64, TraceFault)>
    ensures grants { IfOk result (λ grants.
        grants_from model.now 1 (lines_before end (lines text.now)) ≡ Ok grants.items) }
    ensures fault { IfErr result (λ e. IsTraceFault model.now text.now e.0 e.1) }
    ensures before { IfErr result (λ e. IsBefore end e.0) }
{
    let mut room = Room::new();
    let mut grants = Vec::new(alloc);
    for (number, line) in NumberedLines::of(text) {
        if is_after(end, number) {
            return Ok(grants);
        }
        if let Err(fault) = read_one(&mut grants, &mut room, model, line) {
            return Err((number, fault));
        }
    }
    Ok(grants)
}

// Whether a line with this number stands at an end or behind it.
fn is_after(end: Option<u64>, number: u64) -> bool
    ensures after { result ≡ true → IsAfter end number }
    ensures before { result ≡ false → IsBefore end number }
{
    match end {
        Some(end) => end <= number,
        None => false,
    }
}

// The grant of a line, put last, or the line's fault.
fn read_one(
    grants: &mut Vec<Grant>,
    room: &mut Room,
    model: &Model,
    line: &[u8],
) -> Result<(), TraceFault>
    ensures { Reads (grant_on model.now) grants.old.items line.now result grants.new.items }
{
    let Some(grant) = room.read(model, line)? else {
        return Ok(());
    };
    let inter = grant.inter();
    match Wants::of(grant.wants()) {
        None => unreachable!(),
        Some(wants) => grants
            .push(Grant { inter, wants })
            .map_err(|_| TraceFault::Memory),
    }
}
