//! The parties of an interaction: what it moves and what it looks at, wants of these, and which of
//! them are enough.
ghost use Rattle.std.specs.Prelude.{◌≡◌, ◌↔◌, ◌==◌, ◌<◌, ◌&&◌, not, length, All, IsTrue};
ghost use Rattle.std.specs.List.{list_all, list_any};
ghost use Rattle.bip_model.specs.Parties.{AreParties, CoverAbove, SeeAll, are_parties};
ghost use Rattle.bip_model.specs.Parties.{has_want_of, is_covered, is_moving, is_party};
ghost use Rattle.bip_model.specs.Parties.{is_seeing, see_all};
ghost use Rattle.bip_model.specs.Parts.{Participant};
ghost use Rattle.bip_model.specs.States.{state_of};
ghost use Rattle.bip_model.specs.Steps.{IsLookedAt, offered};
ghost use Rattle.bip_model.specs.declared.numbering.CompId.{CompId};
ghost use Rattle.bip_model.specs.declared.numbering.InterId.{InterId};
ghost use Rattle.bip_model.specs.declared.wants.Want.{Want};

use crate::looks::takes_part;
use crate::{CompId, InterId, Model, PortId, Role, State, Want};

impl Model {
    /// Whether an interaction looks at a component; false for numbers that the model lacks.
    pub fn is_looked_at(&self, inter: InterId, comp: CompId) -> bool
        ensures { IsTrue result ↔ IsLookedAt self.now inter.0 comp.0 }
    {
        if self.interactions().len() <= inter.0 as usize {
            return false;
        }
        is_among(self.looks(inter), comp)
    }

    /// Whether wants move just the components that an interaction moves, and see none but such as
    /// it looks at.
    pub fn are_parties(&self, inter: InterId, wants: &[Want]) -> bool
        requires { inter.0 < length self.now.interactions }
        ensures { IsTrue result ↔ AreParties self.now inter.0 wants.now }
    {
        are_parties(wants, self.participants(inter), self.looks(inter))
    }

    /// Whether wants see each component that an interaction looks at.
    pub fn see_all(&self, inter: InterId, wants: &[Want]) -> bool
        requires { inter.0 < length self.now.interactions }
        ensures { IsTrue result ↔ SeeAll self.now inter.0 wants.now }
    {
        see_all(wants, self.looks(inter))
    }

    /// Whether wants cover each interaction above one in a state: they have one of a participant
    /// that doesn't offer its port there, or of all its participants.
    pub fn cover_above(&self, state: &State, inter: InterId, wants: &[Want]) -> bool
        requires { inter.0 < length self.now.interactions }
        ensures { IsTrue result ↔ CoverAbove self.now (state_of state.now) inter.0 wants.now }
    {
        self.cover_all(state, self.above(inter), wants)
    }

    fn cover_all(&self, state: &State, inters: &[InterId], wants: &[Want]) -> bool
        requires { All (λ (b : InterId). b.0 < length self.now.interactions) inters.now }
        ensures { result ≡ list_all (λ (b : InterId).
            is_covered self.now (state_of state.now) wants.now b.0) inters.now }
    {
        inters.iter().all(|inter| self.cover(state, *inter, wants))
    }

    fn cover(&self, state: &State, inter: InterId, wants: &[Want]) -> bool
        requires { inter.0 < length self.now.interactions }
        ensures { result ≡ is_covered self.now (state_of state.now) wants.now inter.0 }
    {
        let participants = self.participants(inter);
        self.want_idle(state, participants, wants) || want_each(wants, participants)
    }

    /// Whether wants have one of a participant that doesn't offer its port.
    fn want_idle(&self, state: &State, participants: &[(CompId, PortId)], wants: &[Want]) -> bool
        ensures { result ≡ list_any (λ (q : Participant). has_want_of wants.now q.0.0
            && not (offered self.now (state_of state.now) q)) participants.now }
    {
        participants.iter().any(|q| has_want_of(wants, q.0) && !self.offered(state, q.0, q.1))
    }
}

/// Whether wants have one of each of these participants.
pub fn want_each(wants: &[Want], participants: &[(CompId, PortId)]) -> bool
    ensures { result
        ≡ list_all (λ (q : Participant). has_want_of wants.now q.0.0) participants.now }
{
    participants.iter().all(|q| has_want_of(wants, q.0))
}

/// Whether wants have one of a component.
pub fn has_want_of(wants: &[Want], comp: CompId) -> bool
    ensures { result ≡ has_want_of wants.now comp.0 }
{
    wants.iter().any(|want| want.comp == comp)
}

/// Whether wants move just the participants, and see none but what is looked at.
fn are_parties(wants: &[Want], participants: &[(CompId, PortId)], looks: &[CompId]) -> bool
    ensures { result ≡ are_parties wants.now participants.now looks.now }
{
    name_parties(wants, participants, looks) && move_all(wants, participants)
}

fn name_parties(wants: &[Want], participants: &[(CompId, PortId)], looks: &[CompId]) -> bool
    ensures { result ≡ list_all (is_party participants.now looks.now) wants.now }
{
    wants
        .iter()
        .all(|want| is_party(*want, participants, looks))
}

fn is_party(want: Want, participants: &[(CompId, PortId)], looks: &[CompId]) -> bool
    ensures { result ≡ is_party participants.now looks.now want }
{
    match want.role {
        Role::Moved => takes_part(participants, want.comp),
        Role::Seen => is_among(looks, want.comp),
    }
}

fn is_among(comps: &[CompId], comp: CompId) -> bool
    ensures { result ≡ list_any (λ (c : CompId). c.0 == comp.0) comps.now }
{
    comps.iter().any(|c| *c == comp)
}

fn move_all(wants: &[Want], participants: &[(CompId, PortId)]) -> bool
    ensures { result ≡ list_all (λ (q : Participant).
        list_any (is_moving q.0.0) wants.now) participants.now }
{
    participants.iter().all(|q| is_moving(wants, q.0))
}

fn see_all(wants: &[Want], looks: &[CompId]) -> bool
    ensures { result ≡ see_all wants.now looks.now }
{
    looks.iter().all(|comp| is_seeing(wants, *comp))
}

/// Whether wants have one that moves a component.
pub fn is_moving(wants: &[Want], comp: CompId) -> bool
    ensures { result ≡ list_any (is_moving comp.0) wants.now }
{
    wants
        .iter()
        .any(|want| want.comp == comp && want.role == Role::Moved)
}

/// Whether wants have one that sees a component.
pub fn is_seeing(wants: &[Want], comp: CompId) -> bool
    ensures { result ≡ list_any (is_seeing comp.0) wants.now }
{
    wants
        .iter()
        .any(|want| want.comp == comp && want.role != Role::Moved)
}
