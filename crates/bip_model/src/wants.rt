//! Wants: which components a grant moves or looks at, and with which numbers.
ghost use Rattle.std.specs.Prelude.{◌≡◌, ◌≤◌, ◌<◌, ◌↔◌, length, slice_index, All, IsTrue, IsSome};
ghost use Rattle.std.specs.Prelude.{IfSome};
ghost use Rattle.std.specs.List.Sorted.{IsStrictlyIncreasing};
ghost use Rattle.std.specs.List.{list_any};
ghost use Rattle.bip_model.specs.declared.wants.Want.{Want};
ghost use Rattle.bip_model.specs.Wants.{IsWants, components_of, is_moved};

use crate::{CompId, Number};
use std::marker::Model;

/// How many wants a grant has at most.
pub const MOST_WANTS: usize = 32;

/// What a grant does with a component: it moves it, or it only looks at it.
#[derive(Clone, Copy, Debug, Default, PartialEq, Eq, Hash)]
pub enum Role {
    #[default]
    Moved,
    Seen,
}

/// One component of a grant, the number that it is wanted with, and its role. Fields lie as they
/// are written, so the widest comes first: a want takes 16 bytes.
#[derive(Clone, Copy, Debug, Default, PartialEq, Eq, Hash)]
pub struct Want {
    pub number: Number,
    pub comp: CompId,
    pub role: Role,
}

/// One to 32 wants, kept in place: components strictly rise, numbers are at least 1, and one want
/// or more moves its component (docs/DEFINITIONS.md, "Wants"). Contracts see them as the list.
#[derive(Drop)]
pub struct Wants {
    wants: [Want; MOST_WANTS],
    len: u8,
}

impl Model for Wants {
    ghost use Rattle.std.specs.Prelude.{◌≡◌, ◌≤◌, List, length, take};
    ghost use Rattle.bip_model.specs.declared.wants.TheConstants.{MOST_WANTS};
    ghost use Rattle.bip_model.specs.declared.wants.Want.{Want};
    ghost use Rattle.bip_model.specs.Wants.{IsWants};

    ghost Value = { List Want };

    ghost view = { λ w. take w.len w.wants };

    ghost invariant = { λ w.
        (w.len ≤ MOST_WANTS) × (length w.wants ≡ MOST_WANTS) × IsWants (take w.len w.wants) };
}

impl Wants {
    /// The wants of a list; none where they can't be those of one grant.
    pub fn of(list: &[Want]) -> Option<Wants>
        ensures wants { IfSome result (λ wants. wants ≡ list.now) }
        ensures exact { IsSome result ↔ IsWants list.now }
    {
        if !are_wants(list) {
            return None;
        }
        let mut wants = [Want::default(); MOST_WANTS];
        wants[..list.len()].copy_from_slice(list);
        Some(Wants {
            wants,
            len: list.len() as u8,
        })
    }

    /// The wants, by component.
    pub fn as_slice(&self) -> &[Want]
        ensures wants { result.now ≡ self.now }
        ensures valid { IsWants self.now }
    {
        &self.wants[..self.len as usize]
    }

    /// The same wants once more.
    pub fn copy(&self) -> Wants
        ensures { result ≡ self.now }
    {
        Wants {
            wants: self.wants,
            len: self.len,
        }
    }
}

fn are_wants(wants: &[Want]) -> bool
    ensures { IsTrue result ↔ IsWants wants.now }
{
    wants.len() <= MOST_WANTS && rise(wants) && are_numbered(wants) && move_one(wants)
}

fn rise(wants: &[Want]) -> bool
    ensures { IsTrue result ↔ IsStrictlyIncreasing (components_of wants.now) }
{
    for i in 1..wants.len() {
        if component_at(wants, i) <= component_at(wants, i - 1) {
            return false;
        }
    }
    true
}

fn component_at(wants: &[Want], i: usize) -> u16
    requires { i < length wants.now }
    ensures { result ≡ slice_index (components_of wants.now) i }
{
    wants[i].comp.0
}

fn are_numbered(wants: &[Want]) -> bool
    ensures { IsTrue result ↔ All (λ (w : Want). 1 ≤ w.number) wants.now }
{
    wants.iter().all(|want| 1 <= want.number)
}

fn move_one(wants: &[Want]) -> bool
    ensures { result ≡ list_any (λ (w : Want). is_moved w.role) wants.now }
{
    wants.iter().any(|want| want.role == Role::Moved)
}
