//! The reasons for an interaction: why nothing above it is enabled, by the offers that a class
//! holds.
ghost use Rattle.std.specs.Prelude.{◌≡◌, ◌<◌, length};
ghost use Rattle.bip_observe.specs.Offers.{observed};
ghost use Rattle.bip_observe.specs.Verdicts.{AreReasonsBy, IsVerdict, cause_by};
ghost use Rattle.bip_observe.specs.Verdicts.{first_known_off, first_moved_off, why_by};
ghost use Rattle.bip_observe.specs.declared.verdicts.Verdict.TheVariants.{Ready};

use crate::Offers;
use bip_model::{Cause, CompId, InterId, MOST_REASONS, PortId, Reasons, Why};
use bip_partition::Plan;

/// The reasons for an interaction that is ready, one for each interaction above it, in order of
/// number: that the port is off of its lowest participant that the ready one moves, or else of its
/// lowest participant, by an offer that counts; or that its guard is false
/// (docs/PROTOCOL.md, "Verdicts").
pub fn reasons(plan: &Plan, offers: &Offers<'_>, inter: InterId) -> Reasons
    requires of_plan { offers.now.plan ≡ plan.now }
    requires ready { IsVerdict (observed offers.now) inter.0 Ready }
    ensures { AreReasonsBy (observed offers.now) inter.0 result }
{
    offers.recall();
    let above = plan.model().above(inter);
    if above.is_empty() {
        return Reasons::none();
    }
    reasons_above(plan, offers, inter)
}

/// It stands alone, so that its room isn't made where nothing is above.
#[inline(never)]
fn reasons_above(plan: &Plan, offers: &Offers<'_>, inter: InterId) -> Reasons
    requires of_plan { offers.now.plan ≡ plan.now }
    requires ready { IsVerdict (observed offers.now) inter.0 Ready }
    ensures { AreReasonsBy (observed offers.now) inter.0 result }
{
    offers.recall();
    let above = plan.model().above(inter);
    let mut whys = [Why::default(); MOST_REASONS];
    for (place, higher) in above.iter().enumerate() {
        whys[place] = offers.why(inter, *higher);
    }
    match Reasons::of(&whys[..above.len()]) {
        Some(reasons) => reasons,
        None => unreachable!(),
    }
}

impl<'p> Offers<'p> {
    /// Why the offers exclude an interaction above another, where they do.
    fn why(&self, inter: InterId, higher: InterId) -> Why
        requires { higher.0 < length self.now.plan.model.interactions }
        ensures { result ≡ why_by (observed self.now) inter.0 higher }
    {
        Why {
            inter: higher,
            cause: self.cause(inter, higher),
        }
    }

    fn cause(&self, inter: InterId, higher: InterId) -> Cause
        requires { higher.0 < length self.now.plan.model.interactions }
        ensures { result ≡ cause_by (observed self.now) inter.0 higher.0 }
    {
        let participants = self.plan().moves(higher);
        if let Some(comp) = self.first_moved_off(inter, participants) {
            return Cause::Port(comp);
        }
        match self.first_known_off(participants) {
            Some(comp) => Cause::Port(comp),
            None => Cause::Guard,
        }
    }

    /// The component of the first of these participants that an interaction moves, and whose port
    /// is off by an offer that counts.
    fn first_moved_off(&self, inter: InterId, participants: &[(CompId, PortId)]) -> Option<CompId>
        ensures { result ≡ first_moved_off (observed self.now) inter.0 participants.now }
    {
        let model = self.plan().model();
        participants
            .iter()
            .find(|q| model.moves(inter, q.0) && self.is_known_off(q))
            .map(|q| q.0)
    }

    /// The component of the first of these participants whose port is off by an offer that counts.
    fn first_known_off(&self, participants: &[(CompId, PortId)]) -> Option<CompId>
        ensures { result ≡ first_known_off (observed self.now) participants.now }
    {
        participants
            .iter()
            .find(|participant| self.is_known_off(participant))
            .map(|participant| participant.0)
    }
}
