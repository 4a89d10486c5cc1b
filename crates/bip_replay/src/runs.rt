//! A position in a run: the state and the used numbers to which grants lead, without the grants.
ghost use Rattle.std.specs.Prelude.{◌≡◌, ◌↔◌, ◌==◌, ◌<◌, ℕ, [], length, find, IsTrue, IfOk};
ghost use Rattle.std.specs.Prelude.{IfErr, OnOk, OnErr, All, ◌+◌, if◌then◌else◌};
ghost use Rattle.std.specs.List.Sorted.{IsStrictlyIncreasing};
ghost use Rattle.bip_model.specs.Numbering.{last_number};
ghost use Rattle.bip_model.specs.Wants.{components_of, is_moved, raised, used_up};
ghost use Rattle.bip_model.specs.declared.wants.Want.{Want};
ghost use Rattle.bip_model.specs.Parts.{Participant, components_in};
ghost use Rattle.bip_replay.specs.Expected.{HasNextIn, takes_part};
ghost use Rattle.bip_replay.specs.Runs.{AreEnough, AreMovedWithin, StandsAfter};
ghost use Rattle.bip_replay.specs.Runs.{standing_of, used_in};

use crate::{GrantRef, StepFault};
use bip_model::{CompId, InterId, Model, Number, PortId, Role, Seq, State, Want};
use std::alloc::{AllocError, Global};
use std::marker;

/// A position in a run of a model: the state, and for each component its used number. Its next move
/// has one more, or it is spent. It keeps no grants (docs/DEFINITIONS.md, "Runs with exact
/// numbers"). Contracts see where the run stands.
#[derive(Drop)]
pub struct Position<'m> {
    model: &'m Model,
    base: Number,
    state: State,
    used: Seq<Number>,
}

impl<'m> marker::Model for Position<'m> {
    ghost use Rattle.std.specs.Prelude.{◌≡◌, length};
    ghost use Rattle.bip_replay.specs.Runs.{Kept};

    ghost Value = { Kept };

    ghost view = { λ p.
        record { model = p.model.now; base = p.base; locals = p.state; used = p.used } };

    ghost invariant = { λ p. length p.used ≡ length p.model.now.components };
}

impl<'m> Position<'m> {
    ghost use Rattle.bip_model.specs.Steps.{MayRun};
    ghost use Rattle.bip_model.specs.declared.grants.Grant.{Grant};
    ghost use Rattle.bip_replay.specs.Expected.{HasExpected, IsExpectedGrant};
    ghost use Rattle.bip_model.specs.States.{state_of};
    ghost use Rattle.bip_replay.specs.Faults.{IsFaultAt};
    ghost use Rattle.bip_replay.specs.Runs.{IsNextAt, NothingMayRun, standing_on};

    /// The position of the empty run above a base.
    pub fn start(alloc: Global, model: &'m Model, base: Number) -> Result<Position<'m>, AllocError>
        requires { base < last_number }
        ensures { IfOk result (λ p. StandsAfter model.now base [] (standing_of p)) }
    {
        let state = model.start(alloc)?;
        let used = vec![in alloc; base; model.components().len()]?;
        Ok(Position {
            model,
            base,
            state,
            used: Seq::of(used),
        })
    }

    /// The model that the run is of.
    pub fn model(&self) -> &'m Model
        ensures { result.now ≡ self.now.model }
    {
        self.model
    }

    /// The base of the numbers.
    pub fn base(&self) -> Number
        ensures { result ≡ self.now.base }
    {
        self.base
    }

    /// The state to which the run leads.
    pub fn state(&self) -> &State
        ensures { state_of result.now ≡ (standing_of self.now).state }
    {
        &self.state
    }

    /// Whether an interaction may run in that state, whatever the numbers are.
    pub fn allows(&self, inter: InterId) -> bool
        ensures { IsTrue result
            ↔ MayRun self.now.model (standing_of self.now).state inter.0 }
    {
        self.model.enabled(&self.state, inter)
            && self.model.blocked_by(&self.state, inter).is_none()
    }

    /// Whether no interaction may run in that state.
    pub fn nothing_may_run(&self) -> bool
        ensures { IsTrue result ↔ NothingMayRun self.now.model (standing_of self.now).state }
    {
        for number in 0..self.model.interactions().len() {
            if self.allows(InterId(number as u16)) {
                return false;
            }
        }
        true
    }

    /// Goes on by a grant that can be next; any other is refused with its fault, and the position
    /// stays.
    pub fn step(&mut self, grant: &GrantRef<'_>) -> Result<(), StepFault>
        ensures next { OnOk result (IsNextAt (standing_of self.old) grant.now) }
        ensures on { OnOk result (standing_of self.new
            ≡ standing_on (standing_of self.old) grant.now) }
        ensures fault { IfErr result (λ e. IsFaultAt (standing_of self.old) grant.now e) }
        ensures err { OnErr result (self.new ≡ self.old) }
    {
        self.check(grant)?;
        self.go_on(grant);
        Ok(())
    }

    /// Whether a grant can be next, or why not.
    pub(crate) fn check(&self, grant: &GrantRef<'_>) -> Result<(), StepFault>
        ensures next { OnOk result (IsNextAt (standing_of self.now) grant.now) }
        ensures fault { IfErr result (λ e. IsFaultAt (standing_of self.now) grant.now e) }
    {
        let model = self.model;
        let inter = grant.inter();
        let wants = grant.wants();
        self.may_run(inter)?;
        if let Some(want) = self.first_wrong(model.components().len(), wants) {
            return Err(StepFault::Number(want.comp, self.expected(want.comp)));
        }
        if !self.are_enough(inter, wants) {
            return Err(StepFault::Parties);
        }
        Ok(())
    }

    /// Whether wants are of an interaction's parties, and cover what is above it.
    fn are_enough(&self, inter: InterId, wants: &[Want]) -> bool
        requires { inter.0 < length self.now.model.interactions }
        ensures { IsTrue result
            ↔ AreEnough self.now.model (standing_of self.now).state inter.0 wants.now }
    {
        self.model.are_parties(inter, wants) && self.model.cover_above(&self.state, inter, wants)
    }

    /// Goes on by the grant that is expected of an interaction. Where that may not run, this is
    /// refused with the grant's fault, and the position stays.
    pub(crate) fn step_expected(&mut self, inter: InterId) -> Result<(), StepFault>
        requires { HasExpected (standing_of self.old) inter.0 }
        ensures next { OnOk result ((g : Grant) → IsExpectedGrant (standing_of self.old) inter.0 g
            → IsNextAt (standing_of self.old) g) }
        ensures on { OnOk result ((g : Grant) → IsExpectedGrant (standing_of self.old) inter.0 g
            → standing_of self.new ≡ standing_on (standing_of self.old) g) }
        ensures fault { IfErr result (λ e. (g : Grant)
            → g.inter.0 ≡ inter.0 → IsFaultAt (standing_of self.old) g e) }
        ensures err { OnErr result (self.new ≡ self.old) }
    {
        self.may_run(inter)?;
        self.go_on_expected(inter);
        Ok(())
    }

    /// Whether an interaction may run, or why none of its grants can be next.
    fn may_run(&self, inter: InterId) -> Result<(), StepFault>
        ensures may { OnOk result
            (MayRun self.now.model (standing_of self.now).state inter.0) }
        ensures fault { IfErr result (λ e. (g : Grant)
            → g.inter.0 ≡ inter.0 → IsFaultAt (standing_of self.now) g e) }
    {
        if !self.model.enabled(&self.state, inter) {
            return Err(StepFault::NotEnabled);
        }
        match self.model.blocked_by(&self.state, inter) {
            Some(higher) => Err(StepFault::Below(higher)),
            None => Ok(()),
        }
    }

    /// Makes the step of the grant that is expected of an interaction that may run.
    fn go_on_expected(&mut self, inter: InterId)
        requires expected { HasExpected (standing_of self.old) inter.0 }
        requires may { MayRun self.old.model (standing_of self.old).state inter.0 }
        ensures { (g : Grant) → IsExpectedGrant (standing_of self.old) inter.0 g
            → standing_of self.new ≡ standing_on (standing_of self.old) g }
    {
        let participants = self.model.participants(inter);
        self.model.run(&mut self.state, inter);
        use_next(&mut self.used, participants);
    }

    /// Makes the step of a grant that can be next.
    pub(crate) fn go_on(&mut self, grant: &GrantRef<'_>)
        requires { IsNextAt (standing_of self.old) grant.now }
        ensures { standing_of self.new ≡ standing_on (standing_of self.old) grant.now }
    {
        self.model.recall();
        self.model.run(&mut self.state, grant.inter());
        use_up(&mut self.used, grant.wants());
    }
}

impl<'m> Position<'m> {
    ghost use Rattle.bip_replay.specs.Faults.{expected_after};
    ghost use Rattle.bip_replay.specs.Runs.{has_next_number, is_wrong};

    /// The first want of one of so many components whose number isn't the one that its next move
    /// has.
    fn first_wrong(&self, known: usize, wants: &[Want]) -> Option<Want>
        ensures { result ≡ find (is_wrong known (standing_of self.now).used) wants.now }
    {
        wants.iter().copied().find(|want| (want.comp.0 as usize) < known
            && !self.has_next_number(*want))
    }

    fn has_next_number(&self, want: Want) -> bool
        ensures { result ≡ has_next_number (standing_of self.now).used want }
    {
        self.used(want.comp).checked_add(1) == Some(want.number)
    }

    /// The number that a component's next move has; 0 where it is spent.
    pub fn expected(&self, comp: CompId) -> Number
        ensures { result ≡ expected_after ((standing_of self.now).used comp.0) }
    {
        self.used(comp).checked_add(1).unwrap_or(0)
    }

    /// The used number of a component; the base where the model has no such component.
    pub fn used(&self, comp: CompId) -> Number
        ensures { result ≡ (standing_of self.now).used comp.0 }
    {
        self.used
            .as_slice()
            .get(comp.0 as usize)
            .copied()
            .unwrap_or(self.base)
    }
}

/// Uses up the numbers of the wants that move their components.
#[tactic(auto, using(bip_model::proofs::RaiseLemmas::raised_more))]
fn use_up(used: &mut Seq<Number>, wants: &[Want])
    requires rising { IsStrictlyIncreasing (components_of wants.now) }
    requires known { AreMovedWithin (length used.old) wants.now }
    ensures used { (base c : ℕ) → used_in used.new base c
        ≡ raised (used_in used.old base) wants.now c }
    ensures counted { length used.new ≡ length used.old }
{
    for want in wants {
        use_one(used, *want);
    }
}

fn use_one(used: &mut Seq<Number>, want: Want)
    requires { IsTrue (is_moved want.role) → want.comp.0 < length used.old }
    ensures used { (base c : ℕ) → used_in used.new base c ≡ used_up want (used_in used.old base) c }
    ensures counted { length used.new ≡ length used.old }
{
    if want.role == Role::Moved {
        let place = want.comp.0 as usize;
        let before = used.as_slice()[place];
        used.set(place, before.max(want.number));
    }
}

/// Uses up the next number of each participant.
fn use_next(used: &mut Seq<Number>, participants: &[(CompId, PortId)])
    requires rising { IsStrictlyIncreasing (components_in participants.now) }
    requires next { All (λ (q : Participant). HasNextIn used.old q.0) participants.now }
    ensures used { (base c : ℕ) → used_in used.new base c
        ≡ (if takes_part participants.now c then used_in used.old base c + 1
        else used_in used.old base c) }
    ensures counted { length used.new ≡ length used.old }
{
    for participant in participants {
        let place = participant.0.0 as usize;
        let number = used.as_slice()[place] + 1;
        used.set(place, number);
    }
}
