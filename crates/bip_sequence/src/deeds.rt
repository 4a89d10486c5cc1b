//! What events did, in a word.
ghost use Rattle.std.specs.Prelude.{◌≡◌, ◌++◌, OnOk};
ghost use Rattle.bip_sequence.specs.Deeds.{acted_deed, deed_of, deed_text, deed_word, learned_deed};
ghost use Rattle.bip_sequence.specs.Deeds.{notified_deed, receipt_deed, tried_deed, verdict_deed};
ghost use Rattle.bip_sequence.specs.Deeds.{what_deed};

use bip_bank::{Acted, Decision};
use bip_component::Notified;
use bip_core::{Did, What};
use bip_ip::{Answered, Tried};
use bip_model::{InterId, Model};
use bip_observe::{Receipt, Verdict};
use bip_tell::write_inter;
use std::alloc::AllocError;

/// What an event did, in a word: the answer of the node that it addressed (docs/TELL.md,
/// "Answers"); a grant and a refusal name their interaction.
#[derive(Clone, Copy)]
pub enum Deed {
    NothingThere,
    Held,
    Old,
    Stranger,
    Submitted,
    Told,
    Dropped,
    Stale,
    Moved,
    Spent,
    Foreign,
    Pending,
    Ready,
    NotReady,
    PortOff,
    GuardFalse,
    Below,
    Ended,
    Sent,
    /// A local grant, or the bank's.
    Granted(InterId),
    Refused(InterId),
    /// What stations share went on, or arrived.
    Shared,
    NothingToDo,
    /// There was no memory for it.
    Skipped,
}

/// What an event did.
pub(crate) fn deed_of(did: &Option<Did>) -> Deed
    ensures { result ≡ deed_of did.now }
{
    match did {
        None => Deed::Skipped,
        Some(did) => what_deed(&did.what),
    }
}

fn what_deed(what: &What) -> Deed
    ensures { result ≡ what_deed what.now }
{
    match what {
        What::Nothing => Deed::NothingThere,
        What::Hears(receipt) => receipt_deed(receipt),
        What::Submits => Deed::Submitted,
        What::Learns(answer) => learned_deed(answer),
        What::Moves(answer) => notified_deed(answer),
        What::Tries(answer) => tried_deed(answer),
        What::Acts(answer) => acted_deed(answer),
    }
}

fn receipt_deed(receipt: &Receipt) -> Deed
    ensures { result ≡ receipt_deed receipt.now }
{
    match receipt {
        Receipt::Held => Deed::Held,
        Receipt::Old => Deed::Old,
        Receipt::Stranger => Deed::Stranger,
    }
}

fn learned_deed(answer: &Answered) -> Deed
    ensures { result ≡ learned_deed answer.now }
{
    match answer {
        Answered::Told(_) => Deed::Told,
        Answered::Dropped => Deed::Dropped,
        Answered::Stale => Deed::Stale,
    }
}

fn notified_deed(answer: &Notified) -> Deed
    ensures { result ≡ notified_deed answer.now }
{
    match answer {
        Notified::Moved(_) => Deed::Moved,
        Notified::Spent => Deed::Spent,
        Notified::Stale => Deed::Stale,
    }
}

fn tried_deed(answer: &Tried) -> Deed
    ensures { result ≡ tried_deed answer.now }
{
    match answer {
        Tried::Foreign => Deed::Foreign,
        Tried::Pending(_) => Deed::Pending,
        Tried::Not(verdict) => verdict_deed(*verdict),
        Tried::Local(grant, _) => Deed::Granted(grant.inter),
        Tried::Ended => Deed::Ended,
        Tried::Sent(_) => Deed::Sent,
    }
}

fn verdict_deed(verdict: Verdict) -> Deed
    ensures { result ≡ verdict_deed verdict }
{
    match verdict {
        Verdict::Ready => Deed::Ready,
        Verdict::NotReady(_) => Deed::NotReady,
        Verdict::PortOff(_) => Deed::PortOff,
        Verdict::GuardFalse => Deed::GuardFalse,
        Verdict::Below(_) => Deed::Below,
    }
}

fn acted_deed(answer: &Acted) -> Deed
    ensures { result ≡ acted_deed answer.now }
{
    match answer {
        Acted::Nothing => Deed::NothingToDo,
        Acted::Moved => Deed::Shared,
        Acted::Answered { request, decision } => match decision {
            Decision::Granted(_) => Deed::Granted(request.inter),
            Decision::Refused { .. } => Deed::Refused(request.inter),
        },
    }
}

/// Writes what an event did, with the interaction of a grant or of a refusal.
pub(crate) fn write_deed(text: &mut Vec<u8>, model: &Model, deed: Deed) -> Result<(), AllocError>
    ensures { OnOk result (text.new.items ≡ text.old.items ++ deed_text model.now deed) }
{
    match deed {
        Deed::Granted(inter) => write_inter(text, b"granted", model, inter),
        Deed::Refused(inter) => write_inter(text, b"refused", model, inter),
        other => text.extend_from_slice(deed_word(other)),
    }
}

fn deed_word(deed: Deed) -> &'static [u8]
    ensures { result.now ≡ deed_word deed }
{
    match deed {
        Deed::NothingThere => b"nothing there",
        Deed::Held => b"held",
        Deed::Old => b"old",
        Deed::Stranger => b"stranger",
        Deed::Submitted => b"submitted",
        Deed::Told => b"told",
        Deed::Dropped => b"dropped",
        Deed::Stale => b"stale",
        Deed::Moved | Deed::Shared => b"moved",
        Deed::Spent => b"spent",
        Deed::Foreign => b"foreign",
        Deed::Pending => b"pending",
        Deed::Ready => b"ready",
        Deed::NotReady => b"not ready",
        Deed::PortOff => b"port off",
        Deed::GuardFalse => b"guard false",
        Deed::Below => b"below",
        Deed::Ended => b"ended",
        Deed::Sent => b"sent",
        Deed::Granted(_) => b"granted",
        Deed::Refused(_) => b"refused",
        Deed::NothingToDo => b"nothing to do",
        Deed::Skipped => b"skipped",
    }
}
