//! The trace of a world: the bank's list of grants, as long as none is local.
ghost use Rattle.std.specs.Prelude.{◌≡◌, ◌<◌, ◌≤◌, ◌⊎◌, IfErr, None, OnErr, OnOk};
ghost use Rattle.std.specs.Prelude.{false, length, true};
ghost use Rattle.std.specs.Prelude.{vec_capacity, vec_len};
ghost use Rattle.bip_partition.specs.Plans.{IsReserved};
ghost use Rattle.bip_core.specs.Events.{grant_acted, grant_tried, is_serving, trace_with};
ghost use Rattle.bip_core.specs.Traces.{own_with, trace_by};

use bip_bank::{Acted, BankStep, Decision};
use bip_ip::Tried;
use bip_model::{Grant, InterId};
use bip_partition::Plan;
use std::alloc::AllocError;

/// The grants of a world, in order: those of its own list, where it has more than the bank.
#[tactic(auto, unfolding(crate::specs::Traces::trace_by))]
pub(crate) fn trace_by<'a>(own: &'a [Grant], granted: &'a [Grant]) -> &'a [Grant]
    ensures { result.now ≡ trace_by own.now granted.now }
{
    if granted.len() < own.len() {
        own
    } else {
        granted
    }
}

/// Makes room in the world's own list for the grant of an interaction, if it is local: for all that
/// the bank has granted too, where that list begins with it.
pub(crate) fn make_room(
    plan: &Plan,
    own: &mut Vec<Grant>,
    granted: &[Grant],
    inter: InterId,
) -> Result<(), AllocError>
    ensures same { own.new.items ≡ own.old.items }
    ensures room { OnOk result (IsReserved plan.now inter.0
        ⊎ (length (trace_by own.new.items granted.now) < vec_capacity own.new)) }
    ensures local { IfErr result (λ e. ¬ IsReserved plan.now inter.0) }
    ensures full { IfErr result (λ e. vec_capacity own.old
        ≤ length (trace_by own.old.items granted.now)) }
    ensures stays { OnErr result (vec_capacity own.new ≡ vec_capacity own.old) }
{
    if plan.reserved(inter) {
        return Ok(());
    }
    own.reserve(granted.len().saturating_sub(own.len()) + 1)?;
    Ok(())
}

/// Makes room in the world's own list for the grant that a step of the bank can give, if it serves
/// a station and the list has more than the so many that the bank has granted.
pub(crate) fn make_room_to_serve(
    own: &mut Vec<Grant>,
    granted: usize,
    step: BankStep,
) -> Result<(), AllocError>
    ensures same { own.new.items ≡ own.old.items }
    ensures room { OnOk result ((is_serving step ≡ false)
        ⊎ (granted < length own.new.items → vec_len own.new < vec_capacity own.new)) }
    ensures serves { IfErr result (λ e. is_serving step ≡ true) }
    ensures longer { IfErr result (λ e. granted < length own.old.items) }
    ensures full { IfErr result (λ e. vec_capacity own.old ≤ vec_len own.old) }
{
    match step {
        BankStep::Serve(_) if granted < own.len() => own.reserve(1),
        _ => Ok(()),
    }
}

/// The grant that a try gives joins the trace, if there is one. There is room for it, and for those
/// of the bank.
pub(crate) fn join_tried(own: &mut Vec<Grant>, granted: &[Grant], did: &Tried)
    requires { (grant_tried did.now ≡ None)
        ⊎ (length (trace_by own.old.items granted.now) < vec_capacity own.old) }
    ensures { trace_by own.new.items granted.now
        ≡ trace_with (trace_by own.old.items granted.now) (grant_tried did.now) }
{
    match did {
        Tried::Local(grant, _) => {
            copy_all(own, granted);
            own.push_reserved(grant.copy());
        }
        _ => {}
    }
}

/// Copies what the bank has granted into the world's own list, unless that has more. There is room.
fn copy_all(own: &mut Vec<Grant>, granted: &[Grant])
    requires { length (trace_by own.old.items granted.now) < vec_capacity own.old }
    ensures all { own.new.items ≡ trace_by own.old.items granted.now }
    ensures room { vec_len own.new < vec_capacity own.new }
{
    if granted.len() < own.len() {
        return;
    }
    own.clear();
    for grant in granted {
        own.push_reserved(grant.copy());
    }
}

/// The grant that a step of a bank gives joins the world's own list, if there is one, and the list
/// has more than the so many that the bank had granted before. There is room for it.
#[inline(always)]
#[tactic(auto, unfolding(crate::specs::Traces::own_with))]
pub(crate) fn join_acted(own: &mut Vec<Grant>, granted: usize, did: &Acted)
    requires { (grant_acted did.now ≡ None)
        ⊎ (granted < length own.old.items → vec_len own.old < vec_capacity own.old) }
    ensures { own.new.items ≡ own_with granted own.old.items (grant_acted did.now) }
{
    if granted >= own.len() {
        return;
    }
    match did {
        Acted::Answered { request, decision } => match decision {
            Decision::Granted(_) => own.push_reserved(Grant {
                inter: request.inter,
                wants: request.wants.copy(),
            }),
            Decision::Refused { .. } => {}
        },
        _ => {}
    }
}
