//! Rows that are lent together, each for as long as the slice was; and what wants meet in rows.
ghost use Rattle.std.specs.Prelude.{◌≡◌, ◌+◌, ◌<◌, ◌∷◌, ◌++◌, None, drop, length};
ghost use Rattle.std.specs.Prelude.{IsTrue, Some, map, slice_set, take};
ghost use Rattle.std.specs.Borrow.{Array, LendsBoth, sem};
ghost use Rattle.std.specs.List.Sorted.{IsStrictlyIncreasing};
ghost use Rattle.bip_model.specs.Wants.{components_of};
ghost use Rattle.bip_table.specs.Lending.{are_fresh, met, raising, renewed, renewed_by};
ghost use Rattle.bip_table.specs.Rows.{row_components};
ghost use Rattle.bip_table.specs.contracts.rows.Row.{the_row};

use crate::Row;
use crate::rows::{Rows, place_of};
use bip_model::{CompId, Number, Role, Want};
use std::mem;

/// Lends rows by component, in rising order: each stays lent for as long as the slice was, so that
/// several are held at once (docs/PROTOCOL.md, "The reservation table").
#[derive(Drop)]
pub struct RowLender<'t> {
    rows: &'t mut [Row],
    from: usize,
    ghost rising: { IsStrictlyIncreasing (row_components rows.now) },
}

impl<'t> RowLender<'t> {
    ghost use Rattle.std.specs.Prelude.{◌↔◌, ◌≤◌, IfNone, IfSome, IsSome, IsTrue, max};
    ghost use Rattle.bip_table.specs.Lending.{LeavesRows, LendsRow};
    ghost use Rattle.bip_table.specs.Rows.{has_row, place_in};

    /// A lender of these rows, whose components rise. It was asked nothing yet.
    pub fn over(rows: &'t mut [Row]) -> RowLender<'t>
        requires { IsStrictlyIncreasing (row_components rows.old) }
        ensures same { result.rows.ghost_name ≡ rows.entry.ghost_name }
        ensures rows { result.rows.now ≡ rows.old }
        ensures from { result.from ≡ 0 }
    {
        RowLender { rows, from: 0 }
    }

    /// The row of a component, lent for as long as the slice was; rows that were lent earlier stay
    /// lent. None where there is no such row, or the component isn't above all that were asked
    /// before. Once that row and what the lender has left are given back, the rows are the old ones
    /// with these as they were written.
    pub fn next(&mut self, comp: CompId) -> Option<&'t mut Row>
        ensures* writes_back { sem 𝓛 (LendsRow self.old.rows comp.0 result self.new.rows) }
        ensures some { IsSome result ↔ ((self.old.from ≤ comp.0)
            × IsTrue (has_row self.old.rows.now comp.0)) }
        ensures lent { IfSome result (λ row. self.old.rows.now
            ≡ take (place_in self.old.rows.now comp.0) self.old.rows.now
            ++ row.now ∷ self.new.rows.now) }
        ensures none { IfNone result (self.new.rows.now ≡ self.old.rows.now) }
        ensures kept { IfNone result (self.new.rows.ghost_name ≡ self.old.rows.ghost_name) }
        ensures from { self.new.from ≡ max self.old.from (comp.0 + 1) }
    {
        let Some(place) = self.seek(comp) else {
            return None;
        };
        Some(self.take_row(place))
    }

    /// The place of a component's row among those that are left. Components up to this one aren't
    /// found any more.
    fn seek(&mut self, comp: CompId) -> Option<usize>
        ensures some { IsSome result ↔ ((self.old.from ≤ comp.0)
            × IsTrue (has_row self.old.rows.now comp.0)) }
        ensures place { IfSome result (λ k. k ≡ place_in self.old.rows.now comp.0) }
        ensures within { IfSome result (λ k. k < length self.old.rows.now) }
        ensures rows { self.new.rows ≡ self.old.rows }
        ensures from { self.new.from ≡ max self.old.from (comp.0 + 1) }
    {
        let wanted = comp.0 as usize;
        let from = self.from;
        if wanted < from {
            return None;
        }
        self.from = wanted + 1;
        let rows = self.take_rows();
        let place = place_of(rows, from, comp);
        self.put_rows(rows);
        place
    }

    /// Takes out the row at a place, and leaves those behind it.
    fn take_row(&mut self, place: usize) -> &'t mut Row
        requires { place < length self.old.rows.now }
        ensures* writes_back { sem 𝓛 (LeavesRows self.old.rows place result self.new.rows) }
        ensures value { self.old.rows.now
            ≡ take place self.old.rows.now ++ result.now ∷ self.new.rows.now }
        ensures from { self.new.from ≡ self.old.from }
    {
        let rows = self.take_rows();
        let (row, rest) = lend(rows, place);
        self.put_rows(rest);
        row
    }

    /// Takes out all rows that are left.
    fn take_rows(&mut self) -> &'t mut [Row]
        ensures rows { result ≡ self.old.rows }
        ensures from { self.new.from ≡ self.old.from }
    {
        mem::take(&mut self.rows)
    }

    /// Takes these rows for those that are left.
    fn put_rows(&mut self, rows: &'t mut [Row])
        requires { IsStrictlyIncreasing (row_components rows.old) }
        ensures rows { self.new.rows ≡ rows.entry }
        ensures from { self.new.from ≡ self.old.from }
    {
        self.rows = rows;
    }
}

/// Lends the row at a place, and the rows behind it. Once both are given back, the rows are the old
/// ones with these as they were written.
fn lend(rows: &mut [Row], place: usize) -> (&mut Row, &mut [Row])
    requires { place < length rows.old }
    ensures* writes_back { sem 𝓛 (LendsBoth (Array the_row 0) the_row (Array the_row 0) rows.entry
        result (λ x ys. slice_set (take (place + 1) rows.old) place x ++ ys)) }
    ensures value { rows.old ≡ take place rows.old ++ result.0.now ∷ result.1.now }
    ensures rest { result.1.now ≡ drop (place + 1) rows.old }
{
    let (front, rest) = rows.split_at_mut(place + 1);
    (&mut front[place], rest)
}

/// What wants meet in rows.
#[derive(Clone, Copy, Debug, PartialEq, Eq)]
pub(crate) enum Met {
    /// Each has a row, and is fresh.
    Fresh,
    /// Each has a row, and the first that isn't fresh is of this component.
    Stale(CompId),
    /// The first without a row is of this component.
    Unknown(CompId),
}

/// What wants meet in rows behind one of this component that isn't fresh.
fn look_behind(rows: &[Row], wants: &[Want], stale: CompId) -> Met
    requires { IsStrictlyIncreasing (row_components rows.now) }
    ensures { result ≡ met rows.now wants.now (Some stale) }
{
    for want in wants {
        if place_of(rows, 0, want.comp).is_none() {
            return Met::Unknown(want.comp);
        }
    }
    Met::Stale(stale)
}

/// What wants meet in rows.
pub(crate) fn look_up(rows: &[Row], wants: &[Want]) -> Met
    requires { IsStrictlyIncreasing (row_components rows.now) }
    ensures { result ≡ met rows.now wants.now None }
{
    for (at, want) in wants.iter().enumerate() {
        let Some(place) = place_of(rows, 0, want.comp) else {
            return Met::Unknown(want.comp);
        };
        if want.number <= rows[place].used {
            return look_behind(rows, &wants[at + 1..], want.comp);
        }
    }
    Met::Fresh
}

/// Uses up the number of a fresh want in its row, where the want moves it.
fn use_up_one(row: &mut Row, want: Want)
    requires { row.old.used < want.number }
    ensures { row.new ≡ renewed_by want row.old }
{
    if want.role == Role::Moved {
        row.used = want.number;
    }
}

/// Takes the rows of wants that are all fresh, and holds all of them; their numbers are used up on
/// the way back. The rows are those of components from this number on.
fn use_up(rows: &mut [Row], from: usize, wants: &[Want])
    requires rows { IsStrictlyIncreasing (row_components rows.old) }
    requires wants { IsStrictlyIncreasing (components_of wants.now) }
    requires fresh { IsTrue (are_fresh (met rows.old wants.now None)) }
    ensures { rows.new ≡ map (renewed wants.now) rows.old }
{
    let [want, later @ ..] = wants else {
        return;
    };
    let Some(place) = place_of(rows, from, want.comp) else {
        unreachable!();
    };
    let (row, rest) = lend(rows, place);
    use_up(rest, want.comp.0 as usize + 1, later);
    use_up_one(row, *want);
}

/// The same in rows that are kept.
pub(crate) fn use_up_all(rows: &mut Rows, wants: &[Want])
    requires rows { IsStrictlyIncreasing (row_components rows.old) }
    requires wants { IsStrictlyIncreasing (components_of wants.now) }
    requires fresh { IsTrue (are_fresh (met rows.old wants.now None)) }
    ensures { rows.new ≡ map (renewed wants.now) rows.old }
{
    use_up(rows.as_mut_slice(), 0, wants);
}

/// Raises the number of a component's row, if it has one, to at least this one.
fn raise_lent(rows: &mut [Row], comp: CompId, number: Number)
    requires { IsStrictlyIncreasing (row_components rows.old) }
    ensures { rows.new ≡ map (renewed (raising comp number)) rows.old }
{
    let Some(place) = place_of(rows, 0, comp) else {
        return;
    };
    let (row, _) = lend(rows, place);
    row.used = row.used.max(number);
}

/// The same in rows that are kept.
pub(crate) fn raise_one(rows: &mut Rows, comp: CompId, number: Number)
    requires { IsStrictlyIncreasing (row_components rows.old) }
    ensures { rows.new ≡ map (renewed (raising comp number)) rows.old }
{
    raise_lent(rows.as_mut_slice(), comp, number);
}
