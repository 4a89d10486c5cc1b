//! The words that lines are made of.
ghost use Rattle.std.specs.Prelude.{◌≡◌, ◌++◌, ◌∷◌, [], OnOk};
ghost use Rattle.std.specs.List.{flat_map, list_any};
ghost use Rattle.bip_model.specs.Texts.{spaced};
ghost use Rattle.bip_model.specs.declared.wants.Role.TheVariants.{Seen};
ghost use Rattle.bip_replay.specs.Writing.{has_role, want_words};
ghost use Rattle.bip_tell.specs.Words.{asked_text, counted, named, move_named, port_named};
ghost use Rattle.bip_tell.specs.Words.{each_want_text};

use bip_model::{ClassId, CompId, InterId, Model, Name, Number, PortId, Role, Want, write_word};
use bip_partition::Plan;
use itoa::Buffer;
use std::alloc::AllocError;

/// Writes the name with a number; none has a number past the last.
fn write_name(text: &mut Vec<u8>, names: &[Name], number: u16) -> Result<(), AllocError>
    ensures { OnOk result (text.new.items ≡ text.old.items ++ named names.now number) }
{
    match names.get(number as usize) {
        Some(name) => write_word(text, name.as_bytes()),
        None => write_word(text, b""),
    }
}

/// Writes a number.
pub(crate) fn write_count(text: &mut Vec<u8>, count: u64) -> Result<(), AllocError>
    ensures { OnOk result (text.new.items ≡ text.old.items ++ counted count) }
{
    write_word(text, Buffer::new().format(count).as_bytes())
}

/// Writes a component behind some words.
pub fn write_comp(
    text: &mut Vec<u8>,
    words: &[u8],
    model: &Model,
    comp: CompId,
) -> Result<(), AllocError>
    ensures { OnOk result (text.new.items
        ≡ text.old.items ++ (words.now ++ named model.now.component_names comp.0)) }
{
    text.extend_from_slice(words)?;
    write_name(text, model.component_names(), comp.0)
}

/// Writes an interaction behind some words.
pub fn write_inter(
    text: &mut Vec<u8>,
    words: &[u8],
    model: &Model,
    inter: InterId,
) -> Result<(), AllocError>
    ensures { OnOk result (text.new.items
        ≡ text.old.items ++ (words.now ++ named model.now.interaction_names inter.0)) }
{
    text.extend_from_slice(words)?;
    write_name(text, model.interaction_names(), inter.0)
}

pub fn write_class(text: &mut Vec<u8>, plan: &Plan, class: ClassId) -> Result<(), AllocError>
    ensures { OnOk result
        (text.new.items ≡ text.old.items ++ named plan.now.classes.names class.0) }
{
    write_name(text, plan.classes().names(), class.0)
}

/// Writes a component with a number of its.
pub fn write_numbered(
    text: &mut Vec<u8>,
    model: &Model,
    comp: CompId,
    number: Number,
) -> Result<(), AllocError>
    ensures { OnOk result
        (text.new.items ≡ text.old.items ++ move_named model.now comp.0 number) }
{
    write_name(text, model.component_names(), comp.0)?;
    text.push(b':')?;
    text.extend_from_slice(Buffer::new().format(number).as_bytes())
}

/// Writes the port of a component.
pub fn write_port(
    text: &mut Vec<u8>,
    model: &Model,
    comp: CompId,
    port: PortId,
) -> Result<(), AllocError>
    ensures { OnOk result
        (text.new.items ≡ text.old.items ++ port_named model.now comp.0 port.0) }
{
    match model.components().get(comp.0 as usize) {
        Some(component) => write_name(text, component.ports.as_slice(), u16::from(port.0)),
        None => write_word(text, b""),
    }
}

/// Writes wants as a trace spells them: what is moved, and behind `see` what is only looked at.
pub(crate) fn write_wants(
    text: &mut Vec<u8>,
    model: &Model,
    wants: &[Want],
) -> Result<(), AllocError>
    ensures { OnOk result (text.new.items ≡ text.old.items ++ each_want_text model.now wants.now) }
{
    write_role(text, model, wants, Role::Moved)?;
    if looks_at_any(wants) {
        write_word(text, b"see")?;
        write_role(text, model, wants, Role::Seen)?;
    }
    Ok(())
}

fn looks_at_any(wants: &[Want]) -> bool
    ensures { result ≡ list_any (has_role Seen) wants.now }
{
    wants.iter().any(|want| want.role == Role::Seen)
}

fn write_role(
    text: &mut Vec<u8>,
    model: &Model,
    wants: &[Want],
    role: Role,
) -> Result<(), AllocError>
    ensures { OnOk result
        (text.new.items ≡ text.old.items ++ flat_map spaced (want_words model.now role wants.now)) }
{
    for want in wants {
        write_want(text, model, want, role)?;
    }
    Ok(())
}

fn write_want(text: &mut Vec<u8>, model: &Model, want: &Want, role: Role) -> Result<(), AllocError>
    ensures { OnOk result (text.new.items
        ≡ text.old.items ++ flat_map spaced (want_words model.now role (want.now ∷ []))) }
{
    if want.role == role {
        write_numbered(text, model, want.comp, want.number)?;
    }
    Ok(())
}

/// Writes the class, the interaction and the number of a request.
pub fn write_asked(
    text: &mut Vec<u8>,
    plan: &Plan,
    class: ClassId,
    inter: InterId,
    request: u64,
) -> Result<(), AllocError>
    ensures { OnOk result
        (text.new.items ≡ text.old.items ++ asked_text plan.now class.0 inter.0 request) }
{
    write_class(text, plan, class)?;
    write_name(text, plan.model().interaction_names(), inter.0)?;
    write_count(text, request)
}
