//! Passes: what one caller of a locked table was granted and shown.
ghost use Rattle.std.specs.Prelude.{◌≡◌, ◌+◌, ◌<◌, ◌≤◌, ◌^◌, [], All, IfNone, IfOk, IfSome};
ghost use Rattle.std.specs.Prelude.{length, map, sum_by};
ghost use Rattle.bip_model.specs.Wants.{moved_in};
ghost use Rattle.bip_table.specs.declared.passes.Tally.{Tally};
ghost use Rattle.bip_table.specs.Passes.{count_at, first_pass, first_tally, granted_by, shown_at};
ghost use Rattle.bip_table.specs.Passes.{tallies_after, tally_after_grant, tally_after_refusal};
ghost use Rattle.bip_table.specs.Reservations.{IsTableAfter, IsTableAnswer};

use crate::counted::CountedTable;
use crate::{Decision, Row, TableFault};
use bip_model::{CompId, Number, Request, Role, Seq, Want};
use std::alloc::{AllocError, Global};
use std::marker::Model;
use std::sync::ledger::{Ledger, Share};

/// Of one component's row: how many grants of a pass moved it, and the greatest used number of it
/// that the pass was shown.
#[derive(Clone, Copy, Debug, Default, PartialEq, Eq)]
pub struct Tally {
    pub count: u64,
    pub shown: Number,
    pub comp: CompId,
}

/// The right of one caller to ask a locked table, with what it was granted and shown so far: its
/// share of the ledger, and a tally of each row (docs/LOCK.md, "Passes"). Contracts see how many
/// grants it has, and its tallies; no tally counts more than these.
#[derive(Drop)]
pub struct Pass<L: Ledger> {
    share: Share<L>,
    tallies: Seq<Tally>,
}

impl<L: Ledger> Model for Pass<L> {
    ghost use Rattle.std.specs.Prelude.{◌≡◌, ◌≤◌, All};
    ghost use Rattle.bip_table.specs.Passes.{Passed};
    ghost use Rattle.bip_table.specs.declared.passes.Tally.{Tally};

    ghost Value = { Passed };

    ghost view = { λ p. record { grants = p.share.amount; tallies = p.tallies } };

    ghost invariant = { λ p.
        (p.share.parts ≡ 1) × All (λ (t : Tally). t.count ≤ p.share.amount) p.tallies };
}

impl<L: Ledger> Pass<L> {
    /// How many of its grants moved a component; 0 where that one has no row.
    pub fn count(&self, comp: CompId) -> u64
        ensures count { result ≡ count_at self.now.tallies comp.0 }
        ensures few { result ≤ self.now.grants }
    {
        count_in(self.tallies.as_slice(), comp)
    }

    /// The greatest used number of a component that its answers have shown, at first the floor; 0
    /// where that one has no row.
    pub fn shown(&self, comp: CompId) -> Number
        ensures { result ≡ shown_at self.now.tallies comp.0 }
    {
        shown_in(self.tallies.as_slice(), comp)
    }

    /// Asks the table that lies under a lock, and counts a grant in its share. The answer has still
    /// to be noted in the tallies: of each there is room for what it gives.
    pub(crate) fn ask(
        &mut self,
        counted: &mut CountedTable<L>,
        request: &Request,
    ) -> Result<Decision, TableFault>
        ensures answer { IsTableAnswer counted.old.table request.now.wants result }
        ensures left { IsTableAfter request.now result counted.old.table counted.new.table }
        ensures grants { self.new.grants ≡ self.old.grants + granted_by result }
        ensures bound { self.new.grants < 2 ^ 64 }
        ensures tallies { self.new.tallies ≡ self.old.tallies }
        ensures few { All (λ (t : Tally). t.count + granted_by result ≤ self.new.grants)
            self.new.tallies }
    {
        counted.decide(&mut self.share, request)
    }

    /// Notes an answer to wants in its tallies.
    pub(crate) fn note(&mut self, wants: &[Want], answer: &Result<Decision, TableFault>)
        requires bound { self.old.grants < 2 ^ 64 }
        requires few { All (λ (t : Tally). t.count + granted_by answer.now ≤ self.old.grants)
            self.old.tallies }
        ensures grants { self.new.grants ≡ self.old.grants }
        ensures tallies { self.new.tallies
            ≡ tallies_after wants.now answer.now self.old.tallies }
    {
        match answer {
            Ok(Decision::Granted(_)) => note_grant(&mut self.tallies, wants),
            Err(TableFault::NotKept) => note_grant(&mut self.tallies, wants),
            Ok(Decision::Refused { comp, used }) => note_refusal(&mut self.tallies, *comp, *used),
            Err(_) => {}
        }
    }
}

fn count_in(tallies: &[Tally], comp: CompId) -> u64
    ensures { result ≡ count_at tallies.now comp.0 }
{
    for tally in tallies {
        if tally.comp == comp {
            return tally.count;
        }
    }
    0
}

fn shown_in(tallies: &[Tally], comp: CompId) -> Number
    ensures { result ≡ shown_at tallies.now comp.0 }
{
    for tally in tallies {
        if tally.comp == comp {
            return tally.shown;
        }
    }
    0
}

/// The number with which wants move a component; 0 where they don't move it.
pub(crate) fn moved_number(wants: &[Want], comp: CompId) -> Number
    ensures { result ≡ moved_in wants.now comp.0 }
{
    for want in wants {
        if want.comp == comp && want.role == Role::Moved {
            return want.number;
        }
    }
    0
}

/// Notes a grant of wants in each tally.
fn note_grant(tallies: &mut Seq<Tally>, wants: &[Want])
    requires { All (λ (t : Tally). t.count + 1 < 2 ^ 64) tallies.old }
    ensures { tallies.new ≡ map (tally_after_grant wants.now) tallies.old }
{
    for place in 0..tallies.len() {
        let tally = noted_grant(tallies.as_slice()[place], wants);
        tallies.set(place, tally);
    }
}

fn noted_grant(tally: Tally, wants: &[Want]) -> Tally
    requires { tally.count + 1 < 2 ^ 64 }
    ensures { result ≡ tally_after_grant wants.now tally }
{
    let number = moved_number(wants, tally.comp);
    Tally {
        count: tally.count + if number == 0 { 0 } else { 1 },
        shown: tally.shown.max(number),
        comp: tally.comp,
    }
}

/// Notes a refusal in each tally, which names a component and its used number.
fn note_refusal(tallies: &mut Seq<Tally>, comp: CompId, used: Number)
    ensures { tallies.new ≡ map (tally_after_refusal comp.0 used) tallies.old }
{
    for place in 0..tallies.len() {
        let tally = noted_refusal(tallies.as_slice()[place], comp, used);
        tallies.set(place, tally);
    }
}

fn noted_refusal(tally: Tally, comp: CompId, used: Number) -> Tally
    ensures { result ≡ tally_after_refusal comp.0 used tally }
{
    if tally.comp != comp {
        return tally;
    }
    Tally {
        count: tally.count,
        shown: tally.shown.max(used),
        comp: tally.comp,
    }
}

/// So many passes for a table with these rows, each with one part of a ledger's share.
pub(crate) fn make_passes<L: Ledger>(
    alloc: Global,
    mut rest: Share<L>,
    count: usize,
    rows: &[Row],
) -> Result<Vec<Pass<L>>, AllocError>
    requires { (rest.parts ≡ count) × (rest.amount ≡ 0) }
    ensures len { IfOk result (λ v. length v.items ≡ count) }
    ensures first { IfOk result (λ v. All (λ p. p ≡ first_pass rows.now) v.items) }
{
    let mut passes = Vec::with_capacity(alloc, count)?;
    for _i in 0..count {
        let share = rest.split_off(1, 0);
        let tallies = Seq::of(first_tallies(alloc, rows)?);
        passes.push(Pass { share, tallies })?;
    }
    Ok(passes)
}

fn first_tallies(alloc: Global, rows: &[Row]) -> Result<Vec<Tally>, AllocError>
    ensures { IfOk result (λ tallies. tallies.items ≡ map first_tally rows.now) }
{
    rows.iter()
        .map(|row| Tally {
            count: 0,
            shown: row.used,
            comp: row.comp,
        })
        .collect(alloc)
}

/// The shares of all passes in one; none where there is no pass.
pub(crate) fn join_shares<L: Ledger>(mut passes: Vec<Pass<L>>) -> Option<Share<L>>
    ensures parts { IfSome result (λ s. s.parts ≡ length passes.items) }
    ensures amount { IfSome result (λ s. s.amount ≡ sum_by (λ p. p.grants) passes.items) }
    ensures bound { IfSome result (λ s. s.parts ≤ L.parts) }
    ensures none { IfNone result (passes.items ≡ []) }
{
    let Pass { share: mut all, .. } = passes.pop()?;
    // Shares tell how many parts they have as they are joined, also with none.
    let none = all.empty();
    all.merge(none);
    while let Some(Pass { share, .. }) = passes.pop() {
        all.merge(share);
    }
    Some(all)
}
