//! What many traces come to: how often each interaction is granted in them, and how many of them
//! end where nothing may run.
ghost use Rattle.std.specs.Prelude.{◌≡◌, ◌+◌, ◌<◌, ◌^◌, ◌∷◌, [], length, map};
ghost use Rattle.std.specs.List.{count_by, range_with_len};
ghost use Rattle.bip_walk.specs.Tallies.{JoinsTallies, count_of_one, is_of_inter, joined_count};
ghost use Rattle.bip_walk.specs.Tallies.{joined_counts, tally_of};

use arrayvec::ArrayVec;
use bip_model::{Grant, InterId, MOST_INTERACTIONS, Model};
use std::marker;

/// How often an interaction is granted in traces: so many grants of it in all of them, which so
/// many of them have.
#[derive(Clone, Copy, Debug, Default, PartialEq, Eq)]
pub struct GrantCount {
    pub grants: u64,
    pub traces: u32,
}

/// The first trace behind which nothing may run: its seed, and how many grants it has.
#[derive(Clone, Copy, Debug, PartialEq, Eq)]
pub struct FirstEnd {
    pub seed: u32,
    pub grants: u64,
}

/// The tally of traces of one model: how many there are, how many grants they have together, how
/// often each interaction is granted in them, by its number, behind how many of them nothing may
/// run, and which of these is the first (docs/DEFINITIONS.md, "Tallies").
#[derive(Drop)]
pub struct Tally {
    traces: u32,
    grants: u64,
    counts: ArrayVec<GrantCount, MOST_INTERACTIONS>,
    stuck: u32,
    first: Option<FirstEnd>,
}

impl marker::Model for Tally {
    ghost use Rattle.bip_walk.specs.Tallies.{IsTallyWithin, Tallied};

    ghost Value = { Tallied };

    ghost view = { λ t. record {
      traces = t.traces;
      grants = t.grants;
      counts = t.counts.items;
      stuck = t.stuck;
      first = t.first;
    } };

    ghost invariant = { λ t. IsTallyWithin (record {
      traces = t.traces;
      grants = t.grants;
      counts = t.counts.items;
      stuck = t.stuck;
      first = t.first;
    }) };
}

impl Tally {
    /// The tally of no trace of a model.
    pub fn none(model: &Model) -> Tally
        ensures { result ≡ tally_of (length model.now.interactions) [] }
    {
        Tally {
            traces: 0,
            grants: 0,
            counts: counts_of(model, &[]),
            stuck: 0,
            first: None,
        }
    }

    /// The tally of the trace of one seed, behind which nothing may run, or something.
    pub fn of(model: &Model, seed: u32, grants: &[Grant], is_stuck: bool) -> Tally
        requires { length grants.now < 2 ^ 32 }
        ensures { result ≡ tally_of (length model.now.interactions)
            (record { seed = seed; grants = grants.now; is_stuck = is_stuck } ∷ []) }
    {
        let end = FirstEnd {
            seed,
            grants: grants.len() as u64,
        };
        Tally {
            traces: 1,
            grants: end.grants,
            counts: counts_of(model, grants),
            stuck: u32::from(is_stuck),
            first: is_stuck.then_some(end),
        }
    }

    /// Joins the tally of further traces of the same model.
    pub fn join(&mut self, more: &Tally)
        requires same { length self.old.counts ≡ length more.now.counts }
        requires few { self.old.traces + more.now.traces < 2 ^ 32 }
        ensures joins { JoinsTallies self.old more.now self.new }
        ensures traces { self.new.traces ≡ self.old.traces + more.now.traces }
    {
        self.counts = self.counts_with(more);
        self.traces += more.traces;
        self.grants += more.grants;
        self.stuck += more.stuck;
        self.first = self.first.or(more.first);
    }

    // The counts of two tallies together, place by place.
    fn counts_with(&self, more: &Tally) -> ArrayVec<GrantCount, MOST_INTERACTIONS>
        requires same { length self.now.counts ≡ length more.now.counts }
        requires few { self.now.traces + more.now.traces < 2 ^ 32 }
        ensures { result.items ≡ joined_counts self.now.counts more.now.counts }
    {
        let mut joined = ArrayVec::new();
        for place in 0..self.counts.len() {
            joined.push(joined_count(self.counts[place], more.counts[place]));
        }
        joined
    }

    /// How many traces there are.
    pub fn traces(&self) -> u32
        ensures { result ≡ self.now.traces }
    {
        self.traces
    }

    /// How many grants they have together.
    pub fn grants(&self) -> u64
        ensures { result ≡ self.now.grants }
    {
        self.grants
    }

    /// How often each interaction is granted, by its number.
    pub fn counts(&self) -> &[GrantCount]
        ensures { result.now ≡ self.now.counts }
    {
        self.counts.as_slice()
    }

    /// Behind how many of the traces nothing may run.
    pub fn stuck(&self) -> u32
        ensures { result ≡ self.now.stuck }
    {
        self.stuck
    }

    /// The first of these.
    pub fn first(&self) -> Option<FirstEnd>
        ensures { result ≡ self.now.first }
    {
        self.first
    }
}

// How often each interaction of a model is granted in one trace.
fn counts_of(model: &Model, grants: &[Grant]) -> ArrayVec<GrantCount, MOST_INTERACTIONS>
    ensures { result.items
        ≡ map (λ a. count_of_one (count_by (is_of_inter a) grants.now))
        (range_with_len 0 (length model.now.interactions)) }
{
    let mut counts = ArrayVec::new();
    for number in 0..model.interactions().len() {
        counts.push(count_of(grants, InterId(number as u16)));
    }
    counts
}

// How often an interaction is granted in one trace.
fn count_of(grants: &[Grant], inter: InterId) -> GrantCount
    ensures { result ≡ count_of_one (count_by (is_of_inter inter.0) grants.now) }
{
    let grants = grants.iter().filter(|grant| grant.inter == inter).count() as u64;
    GrantCount {
        grants,
        traces: u32::from(grants > 0),
    }
}

// Two counts together.
fn joined_count(count: GrantCount, more: GrantCount) -> GrantCount
    requires grants { count.grants + more.grants < 2 ^ 64 }
    requires traces { count.traces + more.traces < 2 ^ 32 }
    ensures { result ≡ joined_count count more }
{
    GrantCount {
        grants: count.grants + more.grants,
        traces: count.traces + more.traces,
    }
}
