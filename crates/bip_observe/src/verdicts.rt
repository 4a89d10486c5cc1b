//! The decision of a class on an interaction, by the offers that it holds.
ghost use Rattle.std.specs.Prelude.{◌≡◌, ℕ, ◌<◌, ◌≤◌, [], All, find, length, map, not};
ghost use Rattle.std.specs.Prelude.{slice_index_or, take};
ghost use Rattle.std.specs.List.{list_all, list_any};
ghost use Rattle.std.specs.Option.{option_map};
ghost use Rattle.bip_model.specs.Parts.{Participant};
ghost use Rattle.bip_model.specs.declared.numbering.CompId.{CompId};
ghost use Rattle.bip_model.specs.declared.numbering.InterId.{InterId};
ghost use Rattle.bip_model.specs.declared.parts.TheConstants.{MOST_PARTICIPANTS};
ghost use Rattle.bip_observe.specs.Offers.{observed};
ghost use Rattle.bip_observe.specs.Verdicts.{CanBeJudged, IsLackingAbove, IsVerdict, excludes};
ghost use Rattle.bip_observe.specs.Verdicts.{first_missing};
ghost use Rattle.bip_observe.specs.Verdicts.{guard_holds, is_counted, is_known_off, offers_of};
ghost use Rattle.bip_observe.specs.Verdicts.{port_on};

use crate::Offers;
use bip_model::{CompId, InterId, MOST_PARTICIPANTS, PortId, Values, has_port};
use bip_partition::Plan;

/// The decision on an interaction, by the offers that a class holds. Of components and interactions
/// it names the lowest.
#[derive(Clone, Copy, Debug, PartialEq, Eq)]
pub enum Verdict {
    /// The interaction may run, as far as the offers show.
    Ready,
    /// The class holds no offer that counts of this component, which the interaction moves, or one
    /// above it that the offers don't exclude.
    NotReady(CompId),
    /// This component's port for the interaction is off.
    PortOff(CompId),
    /// The interaction's guard doesn't hold of the offered values.
    GuardFalse,
    /// This interaction is above, and the offers enable it.
    Below(InterId),
}

/// The verdict of a class on an interaction of its plan, by the offers that it holds: the first
/// that applies of NotReady, PortOff, GuardFalse; then by the first interaction above it that the
/// offers don't exclude NotReady or Below; else Ready (docs/PROTOCOL.md, "Verdicts").
pub fn decide(plan: &Plan, offers: &Offers<'_>, inter: InterId) -> Verdict
    requires of_plan { offers.now.plan ≡ plan.now }
    requires declared { inter.0 < length plan.now.model.interactions }
    ensures { IsVerdict (observed offers.now) inter.0 result }
{
    offers.recall();
    let model = plan.model();
    let participants = model.participants(inter);
    if let Some(comp) = offers.first_missing(participants) {
        return Verdict::NotReady(comp);
    }
    if let Some(comp) = offers.first_off(participants) {
        return Verdict::PortOff(comp);
    }
    if !offers.guard_holds(inter) {
        return Verdict::GuardFalse;
    }
    let Some(higher) = offers.first_open(model.above(inter)) else {
        return Verdict::Ready;
    };
    match offers.first_missing(model.participants(higher)) {
        Some(comp) => Verdict::NotReady(comp),
        None => Verdict::Below(higher),
    }
}

/// The interaction above another for whose sake that one isn't ready: the first above it that the
/// offers don't exclude, where a component of it has no offer that counts. None where the verdict
/// isn't NotReady, or is so for what the interaction itself moves (docs/PROTOCOL.md, "Verdicts").
pub fn lacking_above(plan: &Plan, offers: &Offers<'_>, inter: InterId) -> Option<InterId>
    requires of_plan { offers.now.plan ≡ plan.now }
    requires declared { inter.0 < length plan.now.model.interactions }
    ensures { IsLackingAbove (observed offers.now) inter.0 result }
{
    let model = plan.model();
    let Verdict::NotReady(comp) = decide(plan, offers, inter) else {
        return None;
    };
    if model.moves(inter, comp) {
        return None;
    }
    offers.first_open(model.above(inter))
}

impl<'p> Offers<'p> {
    /// The component of the first of these participants of which no offer counts.
    fn first_missing(&self, participants: &[(CompId, PortId)]) -> Option<CompId>
        ensures { result ≡ first_missing (observed self.now) participants.now }
    {
        participants
            .iter()
            .find(|participant| !self.is_counted(participant.0))
            .map(|participant| participant.0)
    }

    /// The component of the first of these participants whose port is off.
    fn first_off(&self, participants: &[(CompId, PortId)]) -> Option<CompId>
        ensures { result ≡ option_map (λ (q : Participant). q.0)
            (find (λ q. not (port_on (offers_of (observed self.now)) q)) participants.now) }
    {
        participants
            .iter()
            .find(|participant| !self.port_on(participant))
            .map(|participant| participant.0)
    }

    fn port_on(&self, participant: &(CompId, PortId)) -> bool
        ensures { result
            ≡ port_on (offers_of (observed self.now)) (participant.now.0, participant.now.1) }
    {
        match self.held(participant.0) {
            Some(offer) => has_port(offer.ports, participant.1),
            None => false,
        }
    }

    /// The first of these interactions that the offers that count don't exclude.
    fn first_open(&self, inters: &[InterId]) -> Option<InterId>
        requires { All (λ (a : InterId). a.0 < length self.now.plan.model.interactions) inters.now }
        ensures { result
            ≡ find (λ (a : InterId). not (excludes (observed self.now) a.0)) inters.now }
    {
        inters.iter().copied().find(|inter| !self.exclude(*inter))
    }

    /// Whether the offers that count exclude an interaction: one shows that a participant's port is
    /// off, or all participants' count, and its guard is false.
    fn exclude(&self, inter: InterId) -> bool
        requires { inter.0 < length self.now.plan.model.interactions }
        ensures { result ≡ excludes (observed self.now) inter.0 }
    {
        let participants = self.plan().moves(inter);
        self.know_off(participants) || (self.all_count(participants) && !self.guard_holds(inter))
    }

    fn know_off(&self, participants: &[(CompId, PortId)]) -> bool
        ensures { result ≡ list_any (is_known_off (observed self.now)) participants.now }
    {
        participants
            .iter()
            .any(|participant| self.is_known_off(participant))
    }

    /// Whether an offer counts by which a participant's port is off.
    pub(crate) fn is_known_off(&self, participant: &(CompId, PortId)) -> bool
        ensures { result
            ≡ is_known_off (observed self.now) (participant.now.0, participant.now.1) }
    {
        self.is_counted(participant.0) && !self.port_on(participant)
    }

    fn all_count(&self, participants: &[(CompId, PortId)]) -> bool
        ensures { result ≡ list_all (λ (q : Participant). is_counted (observed self.now) q.0.0)
            participants.now }
    {
        participants
            .iter()
            .all(|participant| self.is_counted(participant.0))
    }

    /// Whether the guard of an interaction holds of the offered values.
    fn guard_holds(&self, inter: InterId) -> bool
        requires { CanBeJudged (observed self.now) inter.0 }
        ensures { result
            ≡ guard_holds self.now.plan.model (offers_of (observed self.now)) inter.0 }
    {
        let model = self.plan().model();
        let participants = model.participants(inter);
        let values = self.values_of(participants);
        model.guard(inter, &values[..participants.len()])
    }

    /// The values that participants offer, in front of as many empty ones as make eight; those of
    /// one of which no offer is held are empty.
    pub fn values_of(&self, participants: &[(CompId, PortId)]) -> [Values; MOST_PARTICIPANTS]
        requires { length participants.now ≤ MOST_PARTICIPANTS }
        ensures values { take (length participants.now) result
            ≡ map (λ (q : Participant). (offers_of (observed self.now) q.0.0).values)
            participants.now }
        ensures empty { (k : ℕ) → length participants.now ≤ k → slice_index_or result k [] ≡ [] }
    {
        let mut values = [Values::none(); MOST_PARTICIPANTS];
        for (place, participant) in participants.iter().enumerate() {
            values[place] = self.values(participant.0);
        }
        values
    }

    fn values(&self, comp: CompId) -> Values
        ensures { result ≡ (offers_of (observed self.now) comp.0).values }
    {
        match self.held(comp) {
            Some(offer) => offer.values,
            None => Values::none(),
        }
    }
}
