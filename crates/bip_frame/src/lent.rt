//! The parts of a frame that views show: values, entries and reasons, at their places.
ghost use Rattle.std.specs.Prelude.{◌≡◌, ◌≤◌, ◌<◌, ◌*◌, length, slice_get, IfSome};
ghost use Rattle.std.specs.Prelude.{Some, take};
ghost use Rattle.std.specs.Int.{from_be_bytes, w16, w64};
ghost use Rattle.std.specs.Option.{option_map};
ghost use Rattle.bip_model.specs.Reasons.{IsReasons};
ghost use Rattle.bip_model.specs.Wants.{IsWants};
ghost use Rattle.bip_frame.specs.Lent.{entry_in, role_in, values_in, wants_in, whys_lent};
ghost use Rattle.bip_frame.specs.Views.{entry_lent, want_shown};

use crate::EntryPart;
use crate::frames::{ENTRY, REASON};
use bip_model::{
    Cause, CompId, InterId, MOST_REASONS, MOST_WANTS, Reasons, Role, Values, Want, Wants, Why,
};

/// The number of two bytes at the front.
fn u16_at(bytes: &[u8]) -> u16
    requires { 2 ≤ length bytes.now }
    ensures { result ≡ from_be_bytes w16 (take 2 bytes.now) }
{
    u16::from_be_bytes([bytes[0], bytes[1]])
}

/// The component at the front.
pub(crate) fn comp_at(bytes: &[u8]) -> CompId
    requires { 2 ≤ length bytes.now }
    ensures { result.0 ≡ from_be_bytes w16 (take 2 bytes.now) }
{
    CompId(u16_at(bytes))
}

/// The role that a byte says.
pub(crate) fn role_of(byte: u8) -> Role
    ensures { result ≡ role_in byte }
{
    if byte == 1 { Role::Moved } else { Role::Seen }
}

/// The number at the front.
pub(crate) fn number_at(bytes: &[u8]) -> u64
    requires { 8 ≤ length bytes.now }
    ensures { result ≡ from_be_bytes w64 (take 8 bytes.now) }
{
    u64::from_be_bytes([
        bytes[0], bytes[1], bytes[2], bytes[3], bytes[4], bytes[5], bytes[6], bytes[7],
    ])
}

/// The value with this index, among so many.
#[tactic(auto, using(crate::proofs::LentLemmas::value_here, crate::proofs::LentLemmas::no_value))]
pub(crate) fn value_at(count: u8, vars: &[u8], i: usize) -> Option<u32>
    requires { length vars.now ≡ 4 * count }
    ensures { result ≡ slice_get (values_in count vars.now) i }
{
    if count as usize <= i {
        return None;
    }
    let (_, rest) = vars.split_at(4 * i);
    Some(u32::from_be_bytes([rest[0], rest[1], rest[2], rest[3]]))
}

/// The value with this index, which is there.
#[tactic(auto, using(crate::proofs::LentLemmas::value_here))]
fn word_at(count: u8, vars: &[u8], i: usize) -> u32
    requires whole { length vars.now ≡ 4 * count }
    requires within { i < count }
    ensures { slice_get (values_in count vars.now) i ≡ Some result }
{
    let (_, rest) = vars.split_at(4 * i);
    u32::from_be_bytes([rest[0], rest[1], rest[2], rest[3]])
}

/// All values, so many.
#[tactic(auto, using(crate::proofs::LentLemmas::copying_values))]
pub(crate) fn values_of(count: u8, vars: &[u8]) -> Values
    requires few { count ≤ 8 }
    requires whole { length vars.now ≡ 4 * count }
    ensures { result ≡ values_in count vars.now }
{
    let mut values = [0; 8];
    for i in 0..count as usize {
        values[i] = word_at(count, vars, i);
    }
    match Values::of(&values[..count as usize]) {
        Some(values) => values,
        None => unreachable!(),
    }
}

/// The entry with this index, among so many.
#[tactic(auto, using(crate::proofs::LentLemmas::entry_here, crate::proofs::LentLemmas::no_entry))]
pub(crate) fn entry_at(count: u8, entries: &[u8], i: usize) -> Option<EntryPart>
    requires { 11 * count ≤ length entries.now }
    ensures shown { option_map want_shown result ≡ slice_get (wants_in count entries.now) i }
    ensures lent { IfSome result (λ part. entry_lent part ≡ entry_in i entries.now) }
{
    if count as usize <= i {
        return None;
    }
    let (_, rest) = entries.split_at(ENTRY * i);
    let (bytes, _) = rest.split_at(ENTRY);
    Some(EntryPart { bytes })
}

/// The want of the entry with this index, which is there.
#[tactic(auto, using(crate::proofs::LentLemmas::entry_here))]
fn want_at(count: u8, entries: &[u8], i: usize) -> Want
    requires whole { 11 * count ≤ length entries.now }
    requires within { i < count }
    ensures { slice_get (wants_in count entries.now) i ≡ Some result }
{
    let (_, rest) = entries.split_at(ENTRY * i);
    let (bytes, _) = rest.split_at(ENTRY);
    let part = EntryPart { bytes };
    Want {
        comp: part.comp(),
        role: part.role(),
        number: part.number(),
    }
}

/// The wants of all entries, so many.
#[tactic(auto, using(crate::proofs::LentLemmas::copying_wants))]
pub(crate) fn wants_of(count: u8, entries: &[u8]) -> Wants
    requires few { count ≤ 32 }
    requires whole { 11 * count ≤ length entries.now }
    requires wants { IsWants (wants_in count entries.now) }
    ensures { result ≡ wants_in count entries.now }
{
    let mut wants = [Want::default(); MOST_WANTS];
    for i in 0..count as usize {
        wants[i] = want_at(count, entries, i);
    }
    match Wants::of(&wants[..count as usize]) {
        Some(wants) => wants,
        None => unreachable!(),
    }
}

/// The reason with this index, which is there.
#[tactic(auto, using(crate::proofs::LentLemmas::reason_here))]
fn why_at(count: u8, reasons: &[u8], i: usize) -> Why
    requires whole { length reasons.now ≡ 4 * count }
    requires within { i < count }
    ensures { slice_get (whys_lent count reasons.now) i ≡ Some result }
{
    let (_, rest) = reasons.split_at(REASON * i);
    let (part, _) = rest.split_at(REASON);
    Why {
        inter: InterId(u16_at(part)),
        cause: Cause::of_number(u16_at(&part[2..])),
    }
}

/// The reason with this index, among so many.
#[tactic(auto, using(crate::proofs::LentLemmas::no_reason))]
pub(crate) fn reason_at(count: u8, reasons: &[u8], i: usize) -> Option<Why>
    requires { length reasons.now ≡ 4 * count }
    ensures { result ≡ slice_get (whys_lent count reasons.now) i }
{
    if count as usize <= i {
        return None;
    }
    Some(why_at(count, reasons, i))
}

/// All reasons, so many.
#[inline(always)]
pub(crate) fn reasons_of(count: u8, reasons: &[u8]) -> Reasons
    requires few { count ≤ 127 }
    requires whole { length reasons.now ≡ 4 * count }
    requires reasons { IsReasons (whys_lent count reasons.now) }
    ensures { result ≡ whys_lent count reasons.now }
{
    if count == 0 {
        return Reasons::none();
    }
    copy_reasons(count, reasons)
}

/// It stands alone, so that its room isn't made where there are none.
#[inline(never)]
#[tactic(auto, using(crate::proofs::LentLemmas::copying_reasons))]
fn copy_reasons(count: u8, reasons: &[u8]) -> Reasons
    requires few { count ≤ 127 }
    requires whole { length reasons.now ≡ 4 * count }
    requires reasons { IsReasons (whys_lent count reasons.now) }
    ensures { result ≡ whys_lent count reasons.now }
{
    let mut whys = [Why::default(); MOST_REASONS];
    for i in 0..count as usize {
        whys[i] = why_at(count, reasons, i);
    }
    match Reasons::of(&whys[..count as usize]) {
        Some(reasons) => reasons,
        None => unreachable!(),
    }
}
