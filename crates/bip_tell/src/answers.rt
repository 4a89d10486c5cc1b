//! Answers of nodes to events, told.
ghost use Rattle.std.specs.Prelude.{◌≡◌, ◌++◌, OnOk};
ghost use Rattle.bip_tell.specs.Answers.{above_text, acted_text, decision_text, idle_words};
ghost use Rattle.bip_tell.specs.Answers.{learned_text, notified_text, receipt_text, tried_text};
ghost use Rattle.bip_tell.specs.Answers.{what_text};
ghost use Rattle.bip_tell.specs.Answers.{why_not_text};

use crate::hints::Hint;
use crate::reasons::write_reasons;
use crate::words::{write_comp, write_count, write_inter, write_wants};
use bip_bank::{Acted, Decision, WhyIdle};
use bip_component::Notified;
use bip_core::What;
use bip_ip::{Answered, Tried};
use bip_model::{InterId, Model, Want};
use bip_observe::{Receipt, Verdict};
use std::alloc::AllocError;

/// Writes the answer of the node that an event addressed, with what was known before it of why it
/// does nothing.
pub(crate) fn write_what(
    text: &mut Vec<u8>,
    model: &Model,
    hint: Hint,
    what: &What,
) -> Result<(), AllocError>
    ensures { OnOk result (text.new.items ≡ text.old.items ++ what_text model.now hint what.now) }
{
    match what {
        What::Nothing => text.extend_from_slice(b" nothing there"),
        What::Hears(receipt) => text.extend_from_slice(receipt_text(receipt)),
        What::Submits => text.extend_from_slice(b" submitted"),
        What::Learns(answer) => text.extend_from_slice(learned_text(answer)),
        What::Moves(answer) => text.extend_from_slice(notified_text(answer)),
        What::Tries(answer) => write_tried(text, model, hint.above, answer),
        What::Acts(answer) => write_acted(text, model, hint.idle, answer),
    }
}

fn receipt_text(receipt: &Receipt) -> &'static [u8]
    ensures { result.now ≡ receipt_text receipt.now }
{
    match receipt {
        Receipt::Held => b" held",
        Receipt::Old => b" old",
        Receipt::Stranger => b" stranger",
    }
}

fn learned_text(answer: &Answered) -> &'static [u8]
    ensures { result.now ≡ learned_text answer.now }
{
    match answer {
        Answered::Told(_) => b" told",
        Answered::Dropped => b" dropped",
        Answered::Stale => b" stale",
    }
}

fn notified_text(answer: &Notified) -> &'static [u8]
    ensures { result.now ≡ notified_text answer.now }
{
    match answer {
        Notified::Moved(_) => b" moved",
        Notified::Spent => b" spent",
        Notified::Stale => b" stale",
    }
}

fn write_tried(
    text: &mut Vec<u8>,
    model: &Model,
    above: Option<InterId>,
    answer: &Tried,
) -> Result<(), AllocError>
    ensures { OnOk result
        (text.new.items ≡ text.old.items ++ tried_text model.now above answer.now) }
{
    match answer {
        Tried::Foreign => text.extend_from_slice(b" foreign"),
        Tried::Pending(other) => write_inter(text, b" pending", model, *other),
        Tried::Not(why) => write_verdict(text, model, above, *why),
        Tried::Local(grant, _) => {
            text.extend_from_slice(b" granted")?;
            write_wants(text, model, grant.wants.as_slice())
        }
        Tried::Ended => text.extend_from_slice(b" ended"),
        Tried::Sent(request) => {
            text.extend_from_slice(b" sent")?;
            write_count(text, request.request)?;
            write_wants(text, model, request.wants.as_slice())?;
            write_reasons(text, model, &request.reasons)
        }
    }
}

/// Writes why an interaction isn't ready, and for which component or interaction.
fn write_verdict(
    text: &mut Vec<u8>,
    model: &Model,
    above: Option<InterId>,
    verdict: Verdict,
) -> Result<(), AllocError>
    ensures { OnOk result
        (text.new.items ≡ text.old.items ++ why_not_text model.now above verdict) }
{
    match verdict {
        Verdict::Ready => text.extend_from_slice(b" ready"),
        Verdict::NotReady(comp) => {
            write_comp(text, b" not ready for", model, comp)?;
            write_above(text, model, above)
        }
        Verdict::PortOff(comp) => write_comp(text, b" port off at", model, comp),
        Verdict::GuardFalse => text.extend_from_slice(b" guard false"),
        Verdict::Below(other) => write_inter(text, b" below", model, other),
    }
}

/// Writes for the sake of which interaction above one isn't ready, if it is so for the sake of one.
fn write_above(text: &mut Vec<u8>, model: &Model, above: Option<InterId>) -> Result<(), AllocError>
    ensures { OnOk result (text.new.items ≡ text.old.items ++ above_text model.now above) }
{
    let Some(inter) = above else {
        return Ok(());
    };
    write_inter(text, b" of", model, inter)?;
    text.extend_from_slice(b" above")
}

fn write_acted(
    text: &mut Vec<u8>,
    model: &Model,
    idle: Option<WhyIdle>,
    answer: &Acted,
) -> Result<(), AllocError>
    ensures { OnOk result
        (text.new.items ≡ text.old.items ++ acted_text model.now idle answer.now) }
{
    match answer {
        Acted::Nothing => {
            text.extend_from_slice(b" nothing to do: ")?;
            text.extend_from_slice(idle_words(idle))
        }
        Acted::Moved => text.extend_from_slice(b" moved"),
        Acted::Answered { request, decision } => {
            write_decision(text, model, request.wants.as_slice(), decision)
        }
    }
}

/// Why a step of the bank does nothing; where there is no reason no serial is left.
fn idle_words(idle: Option<WhyIdle>) -> &'static [u8]
    ensures { result.now ≡ idle_words idle }
{
    let Some(why) = idle else {
        return b"no serial left";
    };
    match why {
        WhyIdle::NoneOfIt => b"this resolver has none of it",
        WhyIdle::NothingThere => b"nothing in flight there",
        WhyIdle::NothingOpen => b"nothing open",
        WhyIdle::Lacking => b"a fork isn't here",
        WhyIdle::TokenInFlight => b"the token is in flight",
        WhyIdle::TokenElsewhere => b"the token isn't here",
        WhyIdle::NotNext => b"that station isn't next",
        WhyIdle::NoFork => b"no such fork",
        WhyIdle::ForkElsewhere => b"the fork isn't here",
        WhyIdle::ForkClean => b"the fork is clean",
        WhyIdle::NotAskedFor => b"the fork wasn't asked for",
        WhyIdle::ForkHere => b"the fork is here",
        WhyIdle::NoRequestToken => b"the request token isn't here",
    }
}

/// Writes the decision on wants: a grant has a serial, a refusal a component and its used number.
fn write_decision(
    text: &mut Vec<u8>,
    model: &Model,
    wants: &[Want],
    decision: &Decision,
) -> Result<(), AllocError>
    ensures { OnOk result
        (text.new.items ≡ text.old.items ++ decision_text model.now wants.now decision.now) }
{
    match *decision {
        Decision::Granted(serial) => {
            text.extend_from_slice(b" granted")?;
            write_count(text, serial)?;
            write_wants(text, model, wants)
        }
        Decision::Refused { comp, used } => {
            text.extend_from_slice(b" refused")?;
            write_wants(text, model, wants)?;
            write_comp(text, b" since", model, comp)?;
            text.extend_from_slice(b" used")?;
            write_count(text, used)
        }
    }
}
