//! What the components are in, beside their lanes.
ghost use Rattle.std.specs.Prelude.{◌≡◌, ◌<◌, ◌+◌, ◌*◌, ◌++◌, OnOk, codes, if◌then◌else◌, length};
ghost use Rattle.std.specs.List.{flat_map, range_with_len};
ghost use Rattle.bip_model.specs.Parts.{IsComponent};
ghost use Rattle.bip_model.specs.States.{state_of};
ghost use Rattle.bip_reader.specs.Writing.{component_in};
ghost use Rattle.bip_draw.specs.Layout.{IsLayout, lane_x};
ghost use Rattle.bip_draw.specs.Locals.{change_part, changes_text, local_change, local_part};
ghost use Rattle.bip_draw.specs.Locals.{local_text, locals_text};
ghost use Rattle.bip_draw.specs.Locals.{location_at, location_change, location_label, state_text};
ghost use Rattle.bip_draw.specs.Locals.{value_at, value_change, value_changes, value_label};
ghost use Rattle.bip_draw.specs.Locals.{values_text};

use crate::escaping::write_escaped;
use crate::layout::Layout;
use crate::lookups::{component_at, count_of, name_at};
use crate::shapes::{
    write_below_front, write_ended, write_front_end, write_group_end, write_last_number,
    write_place,
};
use bip_model::{CompId, Component, Model, State};
use std::alloc::AllocError;

/// What each component with a lane is in, above the first row.
#[tactic(auto, unfolding(crate::specs::Locals::state_text))]
pub(crate) fn write_state(
    text: &mut Vec<u8>,
    layout: &Layout<'_>,
    model: &Model,
    state: &State,
) -> Result<(), AllocError>
    requires { IsLayout layout.now }
    ensures { OnOk result (text.new.items ≡ text.old.items
        ++ state_text layout.now model.now (state_of state.now)) }
{
    write_place(text, 0, layout.top)?;
    write_front_end(text)?;
    write_locals(text, layout, model, state)?;
    write_group_end(text)
}

fn write_locals(
    text: &mut Vec<u8>,
    layout: &Layout<'_>,
    model: &Model,
    state: &State,
) -> Result<(), AllocError>
    requires { IsLayout layout.now }
    ensures { OnOk result (text.new.items ≡ text.old.items
        ++ locals_text layout.now model.now (state_of state.now)) }
{
    for comp in 0..count_of(model) {
        write_local_part(text, layout, model, comp, state)?;
    }
    Ok(())
}

fn write_local_part(
    text: &mut Vec<u8>,
    layout: &Layout<'_>,
    model: &Model,
    comp: u16,
    state: &State,
) -> Result<(), AllocError>
    requires layout { IsLayout layout.now }
    requires component { comp < length model.now.components }
    ensures { OnOk result (text.new.items ≡ text.old.items
        ++ local_part layout.now model.now (state_of state.now) comp) }
{
    if !layout.has_lane(comp) {
        return Ok(());
    }
    write_local(text, layout, component_at(model, comp), comp, state)
}

#[tactic(auto, unfolding(crate::specs::Locals::local_text))]
fn write_local(
    text: &mut Vec<u8>,
    layout: &Layout<'_>,
    component: &Component,
    comp: u16,
    state: &State,
) -> Result<(), AllocError>
    requires layout { IsLayout layout.now }
    requires component { IsComponent component.now }
    ensures { OnOk result (text.new.items ≡ text.old.items
        ++ local_text layout.now component.now comp (state_of state.now)) }
{
    write_location_label(text, layout, component, comp, location_at(state, comp))?;
    if layout.values {
        write_values(text, layout, component, comp, state)?;
    }
    Ok(())
}

fn write_values(
    text: &mut Vec<u8>,
    layout: &Layout<'_>,
    component: &Component,
    comp: u16,
    state: &State,
) -> Result<(), AllocError>
    requires layout { IsLayout layout.now }
    requires component { IsComponent component.now }
    ensures { OnOk result (text.new.items ≡ text.old.items
        ++ values_text layout.now component.now comp (state_of state.now)) }
{
    for number in 0..component.variables.len() {
        let value = value_at(state, comp, number);
        write_value_label(text, layout, component, comp, number, value)?;
    }
    Ok(())
}

/// What changes of each component with a lane from one state to another.
#[tactic(auto, unfolding(crate::specs::Locals::changes_text))]
pub(crate) fn write_changes(
    text: &mut Vec<u8>,
    layout: &Layout<'_>,
    model: &Model,
    before: &State,
    after: &State,
) -> Result<(), AllocError>
    requires { IsLayout layout.now }
    ensures { OnOk result (text.new.items ≡ text.old.items
        ++ changes_text layout.now model.now (state_of before.now) (state_of after.now)) }
{
    for comp in 0..count_of(model) {
        write_change_part(text, layout, model, comp, before, after)?;
    }
    Ok(())
}

fn write_change_part(
    text: &mut Vec<u8>,
    layout: &Layout<'_>,
    model: &Model,
    comp: u16,
    before: &State,
    after: &State,
) -> Result<(), AllocError>
    requires layout { IsLayout layout.now }
    requires component { comp < length model.now.components }
    ensures { OnOk result (text.new.items ≡ text.old.items
        ++ change_part layout.now model.now (state_of before.now) (state_of after.now) comp) }
{
    if !layout.has_lane(comp) {
        return Ok(());
    }
    let component = component_at(model, comp);
    write_local_change(text, layout, component, comp, before, after)
}

#[tactic(auto, unfolding(crate::specs::Locals::local_change))]
fn write_local_change(
    text: &mut Vec<u8>,
    layout: &Layout<'_>,
    component: &Component,
    comp: u16,
    before: &State,
    after: &State,
) -> Result<(), AllocError>
    requires layout { IsLayout layout.now }
    requires component { IsComponent component.now }
    ensures { OnOk result (text.new.items ≡ text.old.items
        ++ local_change layout.now component.now comp (state_of before.now) (state_of after.now)) }
{
    write_location_change(text, layout, component, comp, before, after)?;
    if layout.values {
        write_value_changes(text, layout, component, comp, before, after)?;
    }
    Ok(())
}

fn write_location_change(
    text: &mut Vec<u8>,
    layout: &Layout<'_>,
    component: &Component,
    comp: u16,
    before: &State,
    after: &State,
) -> Result<(), AllocError>
    requires { IsLayout layout.now }
    ensures { OnOk result (text.new.items ≡ text.old.items ++ location_change layout.now
        component.now comp (state_of before.now) (state_of after.now)) }
{
    let location = location_at(after, comp);
    if location_at(before, comp) == location {
        return Ok(());
    }
    write_location_label(text, layout, component, comp, location)
}

fn write_value_changes(
    text: &mut Vec<u8>,
    layout: &Layout<'_>,
    component: &Component,
    comp: u16,
    before: &State,
    after: &State,
) -> Result<(), AllocError>
    requires layout { IsLayout layout.now }
    requires component { IsComponent component.now }
    ensures { OnOk result (text.new.items ≡ text.old.items ++ value_changes layout.now
        component.now comp (state_of before.now) (state_of after.now)) }
{
    for number in 0..component.variables.len() {
        write_value_change(text, layout, component, comp, number, before, after)?;
    }
    Ok(())
}

fn write_value_change(
    text: &mut Vec<u8>,
    layout: &Layout<'_>,
    component: &Component,
    comp: u16,
    number: usize,
    before: &State,
    after: &State,
) -> Result<(), AllocError>
    requires layout { IsLayout layout.now }
    requires number { number < 8 }
    ensures { OnOk result (text.new.items ≡ text.old.items ++ value_change layout.now
        component.now comp (state_of before.now) (state_of after.now) number) }
{
    let value = value_at(after, comp, number);
    if value_at(before, comp, number) == value {
        return Ok(());
    }
    write_value_label(text, layout, component, comp, number, value)
}

/// A location of a component, beside its lane.
fn write_location_label(
    text: &mut Vec<u8>,
    layout: &Layout<'_>,
    component: &Component,
    comp: u16,
    number: u8,
) -> Result<(), AllocError>
    requires { IsLayout layout.now }
    ensures { OnOk result (text.new.items ≡ text.old.items
        ++ location_label layout.now component.now comp number) }
{
    write_below_front(text, layout.lane_x(comp) + 6, 14)?;
    write_ended(
        text,
        name_at(component.locations.as_slice(), number as usize),
    )
}

/// A variable of a component with a value, beside its lane.
fn write_value_label(
    text: &mut Vec<u8>,
    layout: &Layout<'_>,
    component: &Component,
    comp: u16,
    number: usize,
    value: u32,
) -> Result<(), AllocError>
    requires layout { IsLayout layout.now }
    requires number { number < 8 }
    ensures { OnOk result (text.new.items ≡ text.old.items
        ++ value_label layout.now component.now comp number value) }
{
    write_below_front(text, layout.lane_x(comp) + 6, 11 * number as u64 + 25)?;
    write_escaped(text, name_at(component.variables.as_slice(), number))?;
    write_last_number(text, b"=", value as u64)
}

/// Where a component is, and the value of a variable of it; 0 where the state lacks it.
pub(crate) fn location_at(state: &State, comp: u16) -> u8
    ensures { result ≡ location_at (state_of state.now) comp }
{
    match state.local(CompId(comp)) {
        Some(local) => local.location.0,
        None => 0,
    }
}

pub(crate) fn value_at(state: &State, comp: u16, variable: usize) -> u32
    ensures { result ≡ value_at (state_of state.now) comp variable }
{
    match state.local(CompId(comp)) {
        Some(local) => local.values.as_slice().get(variable).copied().unwrap_or(0),
        None => 0,
    }
}
