//! States: the local state of each component.
ghost use Rattle.std.specs.Prelude.{◌≡◌, ◌↔◌, ◌≤◌, ◌<◌, ℕ, [], ◌∷◌, ◌++◌, length, slice_set};
ghost use Rattle.std.specs.Prelude.{IsSome, IfSome};

use crate::expressions::update;
use crate::{CompId, LocId, Transition};
use std::marker::Model;

/// How many values a local state has at most.
pub const MOST_VALUES: usize = 8;

/// The values of a component's variables, at most eight, in order of their numbers. Contracts see
/// them as the list.
#[derive(Clone, Copy, Debug)]
pub struct Values {
    values: [u32; MOST_VALUES],
    len: u8,
}

impl Model for Values {
    ghost use Rattle.std.specs.Prelude.{List, ℕ, take, length};
    ghost use Rattle.bip_model.specs.Sequence.{IsPadded, padded, remade};
    ghost use Rattle.bip_model.specs.declared.states.TheConstants.{MOST_VALUES};

    ghost Value = { List ℕ };

    ghost view = { λ v. take v.len v.values };

    ghost invariant = { λ v. IsPadded MOST_VALUES v.len v.values };

    ghost inverse = { λ l. record { values = padded MOST_VALUES l; len = length l } };

    ghost inverse_ok = { λ v h. remade
        (λ xs n. record { values = xs; len = n }) MOST_VALUES v.len v.values h };
}

impl Default for Values {
    ghost use Rattle.std.specs.Prelude.{[], ◌≡◌};

    ghost is_default = { λ values. values ≡ [] };

    fn default() -> Values {
        Values::none()
    }
}

impl Values {
    /// No values.
    pub fn none() -> Values
        ensures { result ≡ [] }
    {
        Values {
            values: [0; MOST_VALUES],
            len: 0,
        }
    }

    /// The values of a list; none where there are more than eight.
    pub fn of(list: &[u32]) -> Option<Values>
        ensures values { IfSome result (λ values. values ≡ list.now) }
        ensures exact { IsSome result ↔ (length list.now ≤ 8) }
    {
        if list.len() > MOST_VALUES {
            return None;
        }
        let mut values = [0; MOST_VALUES];
        values[..list.len()].copy_from_slice(list);
        Some(Values {
            values,
            len: list.len() as u8,
        })
    }

    /// The values, in order.
    pub fn as_slice(&self) -> &[u32]
        ensures values { result.now ≡ self.now }
        ensures few { length self.now ≤ 8 }
    {
        &self.values[..self.len as usize]
    }

    /// How many values there are.
    pub(crate) fn len(&self) -> usize
        ensures { result ≡ length self.now }
    {
        self.len as usize
    }

    /// Puts a value last.
    pub(crate) fn push(&mut self, value: u32)
        requires { length self.old < 8 }
        ensures { self.new ≡ self.old ++ value ∷ [] }
    {
        let len = self.len as usize;
        let values = &mut self.values;
        values[len] = value;
        self.len += 1;
    }

    /// Puts a value in the place of the one at the index.
    pub(crate) fn set(&mut self, index: usize, value: u32)
        requires { index < length self.old }
        ensures { self.new ≡ slice_set self.old index value }
    {
        let values = &mut self.values;
        values[index] = value;
    }
}

/// The local state of a component: where it is, and the values of its variables.
#[derive(Clone, Copy, Debug)]
pub struct LocalState {
    pub location: LocId,
    pub values: Values,
}

impl LocalState {
    ghost use Rattle.bip_model.specs.Components.{followed};
    ghost use Rattle.bip_model.specs.Expressions.{AreAssignmentsIn};

    /// Goes along a transition, to its target and with its update done.
    pub(crate) fn follow(&mut self, transition: &Transition)
        requires { AreAssignmentsIn (length self.old.values ∷ []) transition.now.update }
        ensures { self.new ≡ followed transition.now self.old }
    {
        self.location = transition.target;
        update(transition.update.as_slice(), &mut self.values);
    }
}

/// A state: the local state of each component, by component. Contracts see it as the list.
#[derive(Drop)]
pub struct State {
    locals: Vec<LocalState>,
}

impl Model for State {
    ghost use Rattle.std.specs.Prelude.{List};
    ghost use Rattle.bip_model.specs.declared.states.LocalState.{LocalState};

    ghost Value = { List LocalState };

    ghost view = { λ s. s.locals.items };
}

impl State {
    ghost use Rattle.std.specs.Prelude.{◌==◌, if◌then◌else◌};
    ghost use Rattle.std.specs.Option.{option_map};
    ghost use Rattle.bip_model.specs.Components.{followed};
    ghost use Rattle.bip_model.specs.Expressions.{AreAssignmentsIn};
    ghost use Rattle.bip_model.specs.States.{state_of, with_values};

    /// The state with these local states, by component.
    pub(crate) fn of(locals: Vec<LocalState>) -> State
        ensures { result ≡ locals.items }
    {
        State { locals }
    }

    /// The local state of a component; none where the state has no such component.
    pub fn local(&self, comp: CompId) -> Option<LocalState>
        ensures { result ≡ state_of self.now comp.0 }
    {
        self.at(comp).copied()
    }

    /// The same, lent.
    pub(crate) fn at(&self, comp: CompId) -> Option<&LocalState>
        ensures { option_map (λ local. local.now) result ≡ state_of self.now comp.0 }
    {
        self.locals.get(comp.0 as usize)
    }

    /// Gives a component other values; one that has no local state stays without.
    pub(crate) fn tell(&mut self, comp: CompId, values: &Values)
        ensures { (c : ℕ) → state_of self.new c
            ≡ (if c == comp.0 then option_map (with_values values.now) (state_of self.old c)
            else state_of self.old c) }
    {
        if (comp.0 as usize) < self.locals.len() {
            self.locals[comp.0 as usize].values = *values;
        }
    }

    /// Leads a component along a transition, to its target and with its update done; one that has
    /// no local state stays without.
    pub(crate) fn follow(&mut self, comp: CompId, transition: &Transition)
        requires { IfSome (state_of self.old comp.0)
            (λ local. AreAssignmentsIn (length local.values ∷ []) transition.now.update) }
        ensures { (c : ℕ) → state_of self.new c
            ≡ (if c == comp.0 then option_map (followed transition.now) (state_of self.old c)
            else state_of self.old c) }
    {
        if (comp.0 as usize) < self.locals.len() {
            self.locals[comp.0 as usize].follow(transition);
        }
    }
}
