//! Where a run leads, as text: what each component is in, and what may run there.
ghost use Rattle.std.specs.Fmt.{decimal};
ghost use Rattle.std.specs.Prelude.{◌≡◌, ◌<◌, ◌++◌, IfOk, OnOk, length};
ghost use Rattle.bip_model.specs.Parts.{IsComponent};
ghost use Rattle.bip_model.specs.States.{state_of};
ghost use Rattle.bip_model.specs.Steps.{IsEnabled, IsLowestAbove};
ghost use Rattle.bip_model.specs.Texts.{spaced};
ghost use Rattle.bip_replay.specs.Runs.{standing_of};
ghost use Rattle.bip_draw.specs.Ends.{AddsMayLine, AddsMayLines, AddsRunnable, IsEndText};
ghost use Rattle.bip_draw.specs.Ends.{below_line, may_line, place_line, standing_line};
ghost use Rattle.bip_draw.specs.Ends.{standing_lines, value_word, value_words};

use crate::locals::{location_at, value_at};
use crate::lookups::{component_at, count_of, name_at};
use bip_model::{CompId, Component, InterId, Model, Number, State, write_word};
use bip_replay::Position;
use itoa::Buffer;
use std::alloc::{AllocError, Global};

/// The text of where a run stands: for each component the number of its next move, its location and
/// its values; then for each enabled interaction whether it may run, or else which one is above it;
/// or that nothing may run (docs/ANSWERS.md, "The end of a run").
pub fn write_end(alloc: Global, position: &Position<'_>) -> Result<Vec<u8>, AllocError>
    ensures { IfOk result (λ text. IsEndText (standing_of position.now) text.items) }
{
    let mut text = Vec::new(alloc);
    write_components(&mut text, position)?;
    write_runnable(&mut text, position)?;
    Ok(text)
}

fn write_components(text: &mut Vec<u8>, position: &Position<'_>) -> Result<(), AllocError>
    ensures { OnOk result
        (text.new.items ≡ text.old.items ++ standing_lines (standing_of position.now)) }
{
    for comp in 0..count_of(position.model()) {
        write_component(text, position, comp)?;
    }
    Ok(())
}

fn write_component(text: &mut Vec<u8>, position: &Position<'_>, comp: u16) -> Result<(), AllocError>
    requires { comp < length position.now.model.components }
    ensures { OnOk result
        (text.new.items ≡ text.old.items ++ standing_line (standing_of position.now) comp) }
{
    let model = position.model();
    let name = name_at(model.component_names(), comp as usize);
    let next = position.expected(CompId(comp));
    let component = component_at(model, comp);
    write_place(text, name, next, component, comp, position.state())?;
    Ok(())
}

#[tactic(auto, unfolding(crate::specs::Ends::place_line))]
fn write_place(
    text: &mut Vec<u8>,
    name: &[u8],
    next: Number,
    component: &Component,
    comp: u16,
    state: &State,
) -> Result<(), AllocError>
    requires { IsComponent component.now }
    ensures { OnOk result (text.new.items ≡ text.old.items
        ++ place_line name.now next component.now comp (state_of state.now)) }
{
    let location = location_at(state, comp) as usize;
    text.extend_from_slice(b"at")?;
    write_word(text, name)?;
    write_number_word(text, next)?;
    write_word(text, name_at(component.locations.as_slice(), location))?;
    write_values(text, component, comp, state)?;
    text.push(b'\n')?;
    Ok(())
}

/// Puts a number last in a text, behind a space.
pub(crate) fn write_number_word(text: &mut Vec<u8>, number: u64) -> Result<(), AllocError>
    ensures { OnOk result (text.new.items ≡ text.old.items ++ spaced (decimal number)) }
{
    write_word(text, Buffer::new().format(number).as_bytes())
}

fn write_values(
    text: &mut Vec<u8>,
    component: &Component,
    comp: u16,
    state: &State,
) -> Result<(), AllocError>
    requires { IsComponent component.now }
    ensures { OnOk result (text.new.items ≡ text.old.items
        ++ value_words component.now comp (state_of state.now)) }
{
    for number in 0..component.variables.len() {
        write_value(text, component, number, value_at(state, comp, number))?;
    }
    Ok(())
}

fn write_value(
    text: &mut Vec<u8>,
    component: &Component,
    number: usize,
    value: u32,
) -> Result<(), AllocError>
    ensures { OnOk result
        (text.new.items ≡ text.old.items ++ value_word component.now number value) }
{
    write_word(text, name_at(component.variables.as_slice(), number))?;
    text.push(b'=')?;
    text.extend_from_slice(Buffer::new().format(value).as_bytes())?;
    Ok(())
}

/// Puts last in a text what may run where a run stands: for each enabled interaction whether it may
/// run, or else which one is above it; or that nothing may run (docs/ANSWERS.md, "The end of a
/// run"). Without memory the text may have a part of it.
pub fn write_runnable(text: &mut Vec<u8>, position: &Position<'_>) -> Result<(), AllocError>
    ensures { OnOk result (AddsRunnable position.now.model (standing_of position.now).state
        text.old.items text.new.items) }
{
    if position.nothing_may_run() {
        text.extend_from_slice(b"nothing may run\n")?;
        return Ok(());
    }
    write_interactions(text, position.model(), position.state())?;
    Ok(())
}

fn write_interactions(text: &mut Vec<u8>, model: &Model, state: &State) -> Result<(), AllocError>
    ensures { OnOk result (AddsMayLines model.now (state_of state.now) text.old.items
        (length model.now.interactions) text.new.items) }
{
    for number in 0..model.interactions().len() {
        write_interaction(text, model, state, InterId(number as u16))?;
    }
    Ok(())
}

fn write_interaction(
    text: &mut Vec<u8>,
    model: &Model,
    state: &State,
    inter: InterId,
) -> Result<(), AllocError>
    ensures { OnOk result (AddsMayLine model.now (state_of state.now) inter.0
        text.old.items text.new.items) }
{
    if !model.enabled(state, inter) {
        return Ok(());
    }
    match model.blocked_by(state, inter) {
        Some(higher) => write_below(text, model, inter, higher)?,
        None => write_may(text, model, inter)?,
    }
    Ok(())
}

fn write_may(text: &mut Vec<u8>, model: &Model, inter: InterId) -> Result<(), AllocError>
    ensures { OnOk result (text.new.items ≡ text.old.items ++ may_line model.now inter.0) }
{
    text.extend_from_slice(b"may")?;
    write_word(text, name_at(model.interaction_names(), inter.0 as usize))?;
    text.push(b'\n')?;
    Ok(())
}

fn write_below(
    text: &mut Vec<u8>,
    model: &Model,
    inter: InterId,
    higher: InterId,
) -> Result<(), AllocError>
    ensures { OnOk result
        (text.new.items ≡ text.old.items ++ below_line model.now inter.0 higher.0) }
{
    let names = model.interaction_names();
    text.extend_from_slice(b"below")?;
    write_word(text, name_at(names, inter.0 as usize))?;
    write_word(text, name_at(names, higher.0 as usize))?;
    text.push(b'\n')?;
    Ok(())
}
