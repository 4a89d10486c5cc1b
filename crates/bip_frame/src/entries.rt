//! Entries of a request: what each wants of which component.
ghost use Rattle.std.specs.Prelude.{◌≡◌, ◌||◌, ◌<◌, Err, IfOk, length};
ghost use Rattle.bip_model.specs.Wants.{is_moved};
ghost use Rattle.bip_frame.specs.Entries.{one_moves, passed, read_entries, read_entry, read_parts};
ghost use Rattle.bip_frame.specs.Entries.{read_role};
ghost use Rattle.bip_frame.specs.Faults.{entry_parts};
ghost use Rattle.bip_frame.specs.Fields.{Gives};
ghost use Rattle.bip_frame.specs.Frames.{comp_of};
ghost use Rattle.bip_frame.specs.Lent.{wants_in};
ghost use Rattle.bip_frame.specs.Reading.{Lies};

use crate::FrameFault;
use crate::fields::{take_byte, take_count, take_positive, take_rising};
use crate::frames::ENTRY;
use crate::lent::role_of;
use bip_model::{CompId, Role, Want};

/// The most entries of a request.
const MOST_ENTRIES: u8 = 32;

/// Entries that were passed: so many at the front of a list, and what stands behind them.
#[derive(Clone, Copy)]
pub(crate) struct PassedEntries<'a> {
    pub(crate) list: &'a [u8],
    pub(crate) rest: &'a [u8],
    pub(crate) count: u8,
    /// Whether one of them moves its component.
    pub(crate) moved: bool,
}

#[tactic(auto, unfolding(crate::specs::Entries::read_role))]
fn take_role(bytes: &[u8]) -> Result<(Role, &[u8]), FrameFault>
    ensures { Gives (λ x. (x.0, x.1.now)) result (read_role bytes.now) }
{
    let (byte, rest) = take_byte(bytes)?;
    if 1 < byte {
        return Err(FrameFault::Role);
    }
    Ok((role_of(byte), rest))
}

#[inline(always)]
#[tactic(auto, unfolding(crate::specs::Entries::read_entry))]
fn take_entry(low: u32, bytes: &[u8]) -> Result<(Want, &[u8]), FrameFault>
    ensures { Gives (λ x. (x.0, x.1.now)) result (read_entry low bytes.now) }
{
    let (comp, rest) = take_rising(low, bytes)?;
    let (role, rest) = take_role(rest)?;
    let (number, rest) = take_positive(rest)?;
    Ok((
        Want {
            comp: CompId(comp),
            role,
            number,
        },
        rest,
    ))
}

/// The fault of bytes that are too few for an entry.
#[cold]
#[inline(never)]
#[tactic(auto, using(crate::proofs::EntryLemmas::too_few))]
fn fault_of_few(low: u32, bytes: &[u8]) -> FrameFault
    requires { length bytes.now < 11 }
    ensures { read_entry low bytes.now ≡ Err result }
{
    match take_entry(low, bytes) {
        Ok(_) => unreachable!(),
        Err(fault) => fault,
    }
}

/// Where it is tested first that the bytes suffice for an entry, its fields are known to be there,
/// and are read faster.
fn next_entry(low: u32, bytes: &[u8]) -> Result<(Want, &[u8]), FrameFault>
    ensures { Gives (λ x. (x.0, x.1.now)) result (read_entry low bytes.now) }
{
    if bytes.len() < ENTRY {
        return Err(fault_of_few(low, bytes));
    }
    take_entry(low, bytes)
}

/// Whether a component is moved, this one or one before.
fn moves(moved: bool, role: Role) -> bool
    ensures { result ≡ moved || is_moved role }
{
    match role {
        Role::Moved => true,
        Role::Seen => moved,
    }
}

/// Passes so many entries, each with a component above the one before: whether one of them moves
/// its component, and the bytes behind them.
#[inline(always)]
fn pass_entries(count: u8, bytes: &[u8]) -> Result<(bool, &[u8]), FrameFault>
    ensures { Gives (λ x. (x.0, x.1.now)) result
        (passed one_moves (read_parts read_entry comp_of count 0 bytes.now)) }
{
    let mut moved = false;
    let mut low: u32 = 0;
    let mut rest = bytes;
    for _ in 0..count {
        let (want, after) = next_entry(low, rest)?;
        moved = moves(moved, want.role);
        low = want.comp.0 as u32 + 1;
        rest = after;
    }
    Ok((moved, rest))
}

/// A count of entries, and the entries. Requests without reasons and those with some each have this
/// in place, so that neither pays for the other.
#[inline(always)]
#[tactic(auto, unfolding(crate::specs::Entries::read_list))]
pub(crate) fn take_entries(bytes: &[u8]) -> Result<PassedEntries, FrameFault>
    ensures read { Gives (λ x. (wants_in x.count x.list.now, x.rest.now)) result
        (read_entries bytes.now) }
    ensures lie { IfOk result
        (λ x. Lies entry_parts (wants_in x.count x.list.now) x.list.now x.rest.now) }
    ensures moved { IfOk result (λ x. x.moved ≡ one_moves (wants_in x.count x.list.now)) }
{
    let (count, list) = take_count(MOST_ENTRIES, bytes)?;
    let (moved, rest) = pass_entries(count, list)?;
    Ok(PassedEntries {
        list,
        rest,
        count,
        moved,
    })
}
