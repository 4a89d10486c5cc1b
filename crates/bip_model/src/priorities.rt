//! Priorities: which interactions stand above which. They are closed when a model is built.
ghost use Rattle.std.specs.Prelude.{◌≡◌, ◌<◌, ◌≤◌, ◌↔◌, ℕ, IsTrue, All, IfOk, List};
ghost use Rattle.bip_model.specs.Sets.{has};
ghost use Rattle.bip_model.specs.Priorities.{AreDeclaredAbove, AreListsAbove, HasAbove, IsClosure};
ghost use Rattle.bip_model.specs.Priorities.{IsCyclic, IsPairOf, inters_in};
ghost use Rattle.bip_model.specs.declared.parts.Pair.{Pair};

use crate::parts::MOST_INTERACTIONS;
use crate::sets::{has_inter, joined, lowest_outside, with_inter};
use crate::{InterId, Pair, Seq};
use std::alloc::{AllocError, Global};

/// Of so many interactions, between which pairs are declared, for each the set of those above it.
#[derive(Drop)]
pub(crate) struct Above<'p> {
    count: u16,
    pairs: &'p [Pair],
    sets: [u128; MOST_INTERACTIONS],
}

impl<'p> Above<'p> {
    /// Closes the pairs, once for all that is asked of it.
    pub fn of(count: u16, pairs: &'p [Pair]) -> Above<'p>
        requires few { count ≤ 128 }
        requires known { All (IsPairOf count) pairs.now }
        ensures closed { IsClosure result }
        ensures pairs { result.pairs.now ≡ pairs.now }
        ensures count { result.count ≡ count }
    {
        let declared = declared_above(pairs);
        let mut sets = [0; MOST_INTERACTIONS];
        for number in 0..count {
            sets[number as usize] = set_above(&declared, InterId(number));
        }
        Above { count, pairs, sets }
    }

    /// Whether some interaction stands above itself.
    pub fn is_cyclic(&self) -> bool
        requires { IsClosure self.now }
        ensures { IsTrue result ↔ IsCyclic self.now.pairs.now }
    {
        for number in 0..self.count {
            if has_inter(self.sets[number as usize], InterId(number)) {
                return true;
            }
        }
        false
    }

    /// For each interaction in turn those above it, in order of their numbers.
    pub fn lists(&self, alloc: Global) -> Result<Seq<Seq<InterId>>, AllocError>
        requires { IsClosure self.now }
        ensures { IfOk result (AreListsAbove self.now.pairs.now self.now.count) }
    {
        let mut lists = Seq::of(Vec::new(alloc));
        for number in 0..self.count {
            let list = inters_in(alloc, self.count, self.sets[number as usize])?;
            lists.push(Seq::of(list))?;
        }
        Ok(lists)
    }
}

/// The interactions in a set, in order of their numbers.
fn inters_in(alloc: Global, count: u16, set: u128) -> Result<Vec<InterId>, AllocError>
    requires { count ≤ 128 }
    ensures { IfOk result (λ v. v.items ≡ inters_in count set) }
{
    (0..count)
        .map(|number| InterId(number))
        .filter(|inter| has_inter(set, *inter))
        .collect(alloc)
}

/// For each interaction the set of those that declared pairs lead to from it.
fn declared_above(pairs: &[Pair]) -> [u128; MOST_INTERACTIONS]
    requires { All (IsPairOf 128) pairs.now }
    ensures { AreDeclaredAbove pairs.now result }
{
    let mut sets = [0; MOST_INTERACTIONS];
    for pair in pairs {
        let low = pair.low.0 as usize;
        sets[low] = with_inter(sets[low], pair.high);
    }
    sets
}

/// The set of the interactions above one: those that declared pairs lead to from it, and from each
/// that is in the set.
fn set_above(declared: &[u128; MOST_INTERACTIONS], inter: InterId) -> u128
    requires { inter.0 < 128 }
    ensures { (pairs : List Pair) → AreDeclaredAbove pairs declared.now
        → (b : ℕ) → IsTrue (has result b) ↔ HasAbove pairs inter.0 b }
{
    let mut set = declared[inter.0 as usize];
    let mut gone_on = 0u128;
    while let Some(next) = lowest_outside(set, gone_on) {
        set = joined(set, declared[next.0 as usize]);
        gone_on = with_inter(gone_on, next);
    }
    set
}
