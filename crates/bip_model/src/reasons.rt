//! Reasons: why nothing above the interaction of a request is enabled.
ghost use Rattle.std.specs.Prelude.{◌≡◌, ◌<◌, ◌↔◌, [], length, slice_get, slice_index, IfSome};
ghost use Rattle.std.specs.Prelude.{All, IsSome, IsTrue, map, take};
ghost use Rattle.std.specs.List.Sorted.{IsStrictlyIncreasing};
ghost use Rattle.bip_model.specs.Reasons.{IsNameable, IsReasons, cause_number, cause_of_number};
ghost use Rattle.bip_model.specs.Reasons.{entry_of, inters_of, why_of};
ghost use Rattle.bip_model.specs.declared.reasons.Why.{Why};

use crate::{CompId, InterId};
use std::marker::Model;

/// How many reasons a request has at most.
pub const MOST_REASONS: usize = 127;

/// The number that stands for a guard where else that of a component stands.
pub const GUARD_NUMBER: u16 = 0xffff;

/// Why an interaction isn't enabled: this component's port for it is off, or its guard is false.
#[derive(Clone, Copy, Debug, Default, PartialEq, Eq, Hash)]
pub enum Cause {
    Port(CompId),
    #[default]
    Guard,
}

impl Cause {
    /// The number that stands for the cause: that of the component whose port is off, or 65535 for
    /// a guard.
    pub fn number(self) -> u16
        ensures { result ≡ cause_number self }
    {
        match self {
            Cause::Port(comp) => comp.0,
            Cause::Guard => GUARD_NUMBER,
        }
    }

    /// The cause that a number stands for.
    pub fn of_number(number: u16) -> Cause
        ensures { result ≡ cause_of_number number }
    {
        if number == GUARD_NUMBER {
            Cause::Guard
        } else {
            Cause::Port(CompId(number))
        }
    }
}

/// Why one interaction isn't enabled.
#[derive(Clone, Copy, Debug, Default, PartialEq, Eq, Hash)]
pub struct Why {
    pub inter: InterId,
    pub cause: Cause,
}

/// A reason as it is kept: its interaction, and the number that stands for its cause.
#[derive(Clone, Copy, Default)]
struct Kept {
    inter: InterId,
    cause: u16,
}

/// Up to 127 reasons, kept in place: their interactions strictly rise, and none is for the port of
/// component 65535 (docs/DEFINITIONS.md, "Reasons"). Contracts see them as the list. Where there
/// are none, nothing is kept behind the length.
#[derive(Drop)]
pub struct Reasons {
    len: u8,
    kept: Option<[Kept; MOST_REASONS]>,
}

impl Model for Reasons {
    ghost use Rattle.std.specs.Prelude.{◌≤◌, List, length};
    ghost use Rattle.bip_model.specs.declared.reasons.Why.{Why};
    ghost use Rattle.bip_model.specs.Reasons.{IsReasons, kept_in, whys_in};

    ghost Value = { List Why };

    ghost view = { λ y. whys_in y.len (kept_in y.kept) };

    ghost invariant = { λ y.
        (y.len ≤ length (kept_in y.kept)) × IsReasons (whys_in y.len (kept_in y.kept)) };
}

impl Reasons {
    /// No reasons.
    pub fn none() -> Reasons
        ensures { result ≡ [] }
    {
        Reasons { len: 0, kept: None }
    }

    /// The reasons of a list; none where they can't be those of one request.
    pub fn of(list: &[Why]) -> Option<Reasons>
        ensures reasons { IfSome result (λ reasons. reasons ≡ list.now) }
        ensures exact { IsSome result ↔ IsReasons list.now }
    {
        if !are_reasons(list) {
            return None;
        }
        if list.is_empty() {
            return Some(Reasons::none());
        }
        let mut kept = [Kept::default(); MOST_REASONS];
        for (place, why) in list.iter().enumerate() {
            kept[place] = keep(*why);
        }
        Some(Reasons {
            len: list.len() as u8,
            kept: Some(kept),
        })
    }

    /// How many reasons there are.
    pub fn len(&self) -> usize
        ensures count { result ≡ length self.now }
        ensures valid { IsReasons self.now }
    {
        self.len as usize
    }

    /// Whether there are none.
    pub fn is_empty(&self) -> bool
        ensures { IsTrue result ↔ (self.now ≡ []) }
    {
        self.len == 0
    }

    /// The reason at a place, by interaction; none past the last.
    pub fn get(&self, place: usize) -> Option<Why>
        ensures { result ≡ slice_get self.now place }
    {
        match &self.kept {
            Some(kept) if place < self.len as usize => Some(show(kept[place])),
            _ => None,
        }
    }

    /// The same reasons once more. Takes no memory.
    pub fn copy(&self) -> Reasons
        ensures { result ≡ self.now }
    {
        match &self.kept {
            Some(kept) => Reasons {
                len: self.len,
                kept: Some(*kept),
            },
            None => Reasons::none(),
        }
    }
}

fn keep(why: Why) -> Kept
    ensures { result ≡ entry_of why }
{
    Kept {
        inter: why.inter,
        cause: why.cause.number(),
    }
}

fn show(kept: Kept) -> Why
    ensures { result ≡ why_of kept }
{
    Why {
        inter: kept.inter,
        cause: Cause::of_number(kept.cause),
    }
}

fn are_reasons(reasons: &[Why]) -> bool
    ensures { IsTrue result ↔ IsReasons reasons.now }
{
    reasons.len() <= MOST_REASONS && rise(reasons) && are_nameable(reasons)
}

fn rise(reasons: &[Why]) -> bool
    ensures { IsTrue result ↔ IsStrictlyIncreasing (inters_of reasons.now) }
{
    for i in 1..reasons.len() {
        if inter_at(reasons, i) <= inter_at(reasons, i - 1) {
            return false;
        }
    }
    true
}

fn inter_at(reasons: &[Why], i: usize) -> u16
    requires { i < length reasons.now }
    ensures { result ≡ slice_index (inters_of reasons.now) i }
{
    reasons[i].inter.0
}

fn are_nameable(reasons: &[Why]) -> bool
    ensures { IsTrue result ↔ All (λ (y : Why). IsNameable y.cause) reasons.now }
{
    reasons.iter().all(|why| is_nameable(why.cause))
}

/// Whether a cause is the one that its number stands for.
fn is_nameable(cause: Cause) -> bool
    ensures { IsTrue result ↔ IsNameable cause }
{
    cause != Cause::Port(CompId(GUARD_NUMBER))
}
