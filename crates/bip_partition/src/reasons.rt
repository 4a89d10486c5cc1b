//! Whether a request says enough: that it sees all, or has reasons for what stands above.
ghost use Rattle.std.specs.Prelude.{◌≡◌, ◌↔◌, ◌<◌, length, IsTrue};
ghost use Rattle.bip_model.specs.Parties.{AreExplained};
ghost use Rattle.bip_model.specs.Reasons.{IsReasons};
ghost use Rattle.bip_partition.specs.Reasons.{AreInTurn, IsReasonFor, is_cause_borne};

use bip_model::{Cause, InterId, Model, Reasons, Want, Why, has_want_of, want_each};

/// Whether wants with reasons say enough for an interaction: without reasons, that the wants see
/// all that it looks at; else, that there is a reason for each interaction above it and for no
/// other, and that what a reason names is a participant of its interaction, and wanted.
pub(crate) fn are_explained(
    model: &Model,
    inter: InterId,
    wants: &[Want],
    reasons: &Reasons,
) -> bool
    requires { inter.0 < length model.now.interactions }
    ensures { IsTrue result ↔ AreExplained model.now inter.0 wants.now reasons.now }
{
    if reasons.is_empty() {
        return model.see_all(inter, wants);
    }
    are_in_turn(model, model.above(inter), wants, reasons)
}

/// Whether reasons are as many as these interactions, each for the one at its place, and what it
/// names is a participant of that one, and wanted.
fn are_in_turn(model: &Model, above: &[InterId], wants: &[Want], reasons: &Reasons) -> bool
    ensures exact { IsTrue result ↔ AreInTurn model.now above.now wants.now reasons.now }
    ensures valid { IsReasons reasons.now }
{
    if reasons.len() != above.len() {
        return false;
    }
    for (place, inter) in above.iter().enumerate() {
        if !is_reason_for(model, wants, *inter, reasons.get(place)) {
            return false;
        }
    }
    true
}

#[tactic(auto, using(crate::proofs::ReasonLemmas::borne_is_tested))]
fn is_reason_for(model: &Model, wants: &[Want], inter: InterId, reason: Option<Why>) -> bool
    ensures { IsTrue result ↔ IsReasonFor model.now wants.now inter.0 reason }
{
    match reason {
        Some(why) => why.inter == inter && is_borne(model, wants, why.inter, why.cause),
        None => false,
    }
}

/// Whether what a reason names is a participant of its interaction, and wanted.
fn is_borne(model: &Model, wants: &[Want], inter: InterId, cause: Cause) -> bool
    ensures { result ≡ is_cause_borne model.now wants.now inter.0 cause }
{
    match cause {
        Cause::Port(comp) => model.moves(inter, comp) && has_want_of(wants, comp),
        Cause::Guard => {
            model.interactions().len() <= inter.0 as usize
                || want_each(wants, model.participants(inter))
        }
    }
}
