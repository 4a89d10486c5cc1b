//! The reasons of a request, told.
ghost use Rattle.std.specs.Prelude.{◌≡◌, ◌++◌, OnOk};
ghost use Rattle.std.specs.List.{flat_map};
ghost use Rattle.bip_tell.specs.Reasons.{cause_text, port_for, port_in, told_reason};

use crate::words::{write_comp, write_inter, write_port};
use bip_model::{Cause, CompId, InterId, Model, PortId, Reasons, Why};
use std::alloc::AllocError;

/// Writes the reasons of a request, in their order.
pub(crate) fn write_reasons(
    text: &mut Vec<u8>,
    model: &Model,
    reasons: &Reasons,
) -> Result<(), AllocError>
    ensures { OnOk result (text.new.items
        ≡ text.old.items ++ flat_map (told_reason model.now) reasons.now) }
{
    for place in 0..reasons.len() {
        let Some(why) = reasons.get(place) else {
            unreachable!();
        };
        write_reason(text, model, why)?;
    }
    Ok(())
}

/// Writes which interaction can't run, and why.
fn write_reason(text: &mut Vec<u8>, model: &Model, why: Why) -> Result<(), AllocError>
    ensures { OnOk result (text.new.items ≡ text.old.items ++ told_reason model.now why) }
{
    write_inter(text, b";", model, why.inter)?;
    text.extend_from_slice(b" can't:")?;
    write_cause(text, model, why.inter, why.cause)
}

/// Writes why an interaction can't run: whose port is off, or that its guard is false.
fn write_cause(
    text: &mut Vec<u8>,
    model: &Model,
    inter: InterId,
    cause: Cause,
) -> Result<(), AllocError>
    ensures { OnOk result (text.new.items ≡ text.old.items ++ cause_text model.now inter.0 cause) }
{
    match cause {
        Cause::Port(comp) => {
            write_comp(text, b"", model, comp)?;
            text.extend_from_slice(b" lacks")?;
            write_port_for(text, model, inter, comp)
        }
        Cause::Guard => text.extend_from_slice(b" its guard is false"),
    }
}

/// Writes the port by which an interaction moves a component.
fn write_port_for(
    text: &mut Vec<u8>,
    model: &Model,
    inter: InterId,
    comp: CompId,
) -> Result<(), AllocError>
    ensures { OnOk result (text.new.items ≡ text.old.items ++ port_for model.now inter.0 comp.0) }
{
    let Some(interaction) = model.interactions().get(inter.0 as usize) else {
        return Ok(());
    };
    match port_in(interaction.participants.as_slice(), comp) {
        Some(port) => write_port(text, model, comp, port),
        None => Ok(()),
    }
}

/// The port by which an interaction of these participants moves a component.
fn port_in(participants: &[(CompId, PortId)], comp: CompId) -> Option<PortId>
    ensures { result ≡ port_in participants.now comp.0 }
{
    participants
        .iter()
        .find(|participant| participant.0 == comp)
        .map(|participant| participant.1)
}
