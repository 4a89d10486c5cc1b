//! Writing plans.
ghost use Rattle.std.specs.Prelude.{◌≡◌, ◌<◌, ◌++◌, ◌↔◌, All, IfOk, IsTrue, OnOk, length};
ghost use Rattle.std.specs.Option.{ForSome};
ghost use Rattle.bip_model.specs.Naming.{name_in};
ghost use Rattle.bip_model.specs.Partitions.{class_in};
ghost use Rattle.bip_model.specs.Parts.{components_in};
ghost use Rattle.bip_model.specs.Steps.{participants_of};
ghost use Rattle.bip_model.specs.Texts.{spaced};
ghost use Rattle.bip_model.specs.declared.numbering.ClassId.{ClassId};
ghost use Rattle.bip_model.specs.declared.numbering.CompId.{CompId};
ghost use Rattle.bip_partition.specs.Plans.{IsReserved};
ghost use Rattle.bip_review.specs.Writing.{AddsConflicts, AddsLine, AddsLines, AddsLooks};
ghost use Rattle.bip_review.specs.Writing.{AddsStations, ConflictsWith, IsComponentLine};
ghost use Rattle.bip_review.specs.Writing.{IsInteractionLine, IsOfPlan, IsPlanText, IsStationLine};
ghost use Rattle.bip_review.specs.Writing.{classes_text, look_text, moved_text, names_text};
ghost use Rattle.bip_review.specs.Writing.{reason_text, reserving_text, standing_text};

use crate::{RowReason, cause_of_look, reserving, row_reason};
use bip_model::{ClassId, CompId, InterId, Name, write_word};
use bip_partition::Plan;
use std::alloc::{AllocError, Global};

/// The text in which a plan shows itself to its reviewers: a line for each interaction and then one
/// for each component, each with the reasons for what it says, and then one for each station, with
/// the stations in conflict with it; all in order of their numbers (docs/REVIEW.md).
pub fn write_plan(alloc: Global, plan: &Plan) -> Result<Vec<u8>, AllocError>
    ensures { IfOk result (λ text. IsPlanText plan.now text.items) }
{
    let mut text = Vec::new(alloc);
    write_interactions(&mut text, plan)?;
    write_components(&mut text, plan)?;
    write_stations(&mut text, plan)?;
    Ok(text)
}

fn write_interactions(text: &mut Vec<u8>, plan: &Plan) -> Result<(), AllocError>
    ensures { OnOk result (AddsLines (IsInteractionLine plan.now)
        text.old.items (length plan.now.model.interactions) text.new.items) }
{
    for number in 0..plan.model().interactions().len() {
        write_interaction(text, plan, InterId(number as u16))?;
    }
    Ok(())
}

fn write_components(text: &mut Vec<u8>, plan: &Plan) -> Result<(), AllocError>
    ensures { OnOk result (AddsLines (IsComponentLine plan.now)
        text.old.items (length plan.now.model.components) text.new.items) }
{
    for number in 0..plan.model().components().len() {
        write_component(text, plan, CompId(number as u16))?;
    }
    Ok(())
}

fn write_stations(text: &mut Vec<u8>, plan: &Plan) -> Result<(), AllocError>
    ensures { OnOk result (AddsStations plan.now text.old.items text.new.items) }
{
    let stations = plan.stations();
    for station in stations {
        write_station(text, plan, *station)?;
    }
    Ok(())
}

fn write_interaction(text: &mut Vec<u8>, plan: &Plan, inter: InterId) -> Result<(), AllocError>
    requires { inter.0 < length plan.now.model.interactions }
    ensures { OnOk result
        (AddsLine (IsInteractionLine plan.now inter.0) text.old.items text.new.items) }
{
    plan.recall();
    text.extend_from_slice(b"interaction")?;
    write_inter_name(text, plan, inter)?;
    write_moved(text, plan, inter)?;
    write_looks(text, plan, inter)?;
    write_reserving(text, plan, reserving(plan, inter))?;
    text.push(b'\n')?;
    Ok(())
}

fn write_component(text: &mut Vec<u8>, plan: &Plan, comp: CompId) -> Result<(), AllocError>
    requires { comp.0 < length plan.now.model.components }
    ensures { OnOk result
        (AddsLine (IsComponentLine plan.now comp.0) text.old.items text.new.items) }
{
    plan.recall();
    text.extend_from_slice(b"component")?;
    write_comp_name(text, plan, comp)?;
    write_standing(text, plan, plan.classes_of(comp), row_reason(plan, comp))?;
    text.push(b'\n')?;
    Ok(())
}

/// Writes the line of the station that decides for an interaction.
fn write_station(text: &mut Vec<u8>, plan: &Plan, inter: InterId) -> Result<(), AllocError>
    requires { IsReserved plan.now inter.0 }
    ensures { OnOk result
        (AddsLine (IsStationLine plan.now inter.0) text.old.items text.new.items) }
{
    plan.recall();
    text.extend_from_slice(b"station")?;
    write_inter_name(text, plan, inter)?;
    text.extend_from_slice(b" conflicts")?;
    write_conflicts(text, plan, inter)?;
    text.push(b'\n')?;
    Ok(())
}

/// Writes the interactions of the stations that are in conflict with that of an interaction.
fn write_conflicts(text: &mut Vec<u8>, plan: &Plan, inter: InterId) -> Result<(), AllocError>
    ensures { OnOk result (AddsConflicts plan.now inter.0 text.old.items text.new.items) }
{
    for number in 0..plan.model().interactions().len() {
        let other = InterId(number as u16);
        if conflicts_with(plan, inter, other) {
            write_inter_name(text, plan, other)?;
        }
    }
    Ok(())
}

pub(crate) fn conflicts_with(plan: &Plan, inter: InterId, other: InterId) -> bool
    ensures { IsTrue result ↔ ConflictsWith plan.now inter.0 other.0 }
{
    if other == inter || !plan.reserved(other) {
        return false;
    }
    plan.conflict(inter, other)
}

/// Writes the class of an interaction and what it moves.
fn write_moved(text: &mut Vec<u8>, plan: &Plan, inter: InterId) -> Result<(), AllocError>
    requires { inter.0 < length plan.now.model.interactions }
    ensures { OnOk result (text.new.items ≡ text.old.items
        ++ moved_text plan.now (class_in plan.now.classes inter.0)
        (components_in (participants_of plan.now.model inter.0))) }
{
    plan.recall();
    text.extend_from_slice(b" class")?;
    write_class_name(text, plan, plan.class_of(inter))?;
    text.extend_from_slice(b" moves")?;
    write_participants(text, plan, inter)
}

fn write_participants(text: &mut Vec<u8>, plan: &Plan, inter: InterId) -> Result<(), AllocError>
    requires { inter.0 < length plan.now.model.interactions }
    ensures { OnOk result (text.new.items ≡ text.old.items
        ++ names_text plan.now.model.component_names
        (components_in (participants_of plan.now.model inter.0))) }
{
    plan.recall();
    let moved = plan.moves(inter);
    for participant in moved {
        write_comp_name(text, plan, participant.0)?;
    }
    Ok(())
}

/// Writes what an interaction looks at, and for whose sake.
fn write_looks(text: &mut Vec<u8>, plan: &Plan, inter: InterId) -> Result<(), AllocError>
    requires { inter.0 < length plan.now.model.interactions }
    ensures { OnOk result
        (AddsLooks plan.now.model inter.0 text.old.items text.new.items) }
{
    plan.recall();
    let seen = plan.looks(inter);
    for comp in seen {
        let Some(cause) = cause_of_look(plan, inter, *comp) else {
            unreachable!();
        };
        write_look(text, plan, *comp, cause)?;
    }
    Ok(())
}

fn write_look(
    text: &mut Vec<u8>,
    plan: &Plan,
    comp: CompId,
    cause: InterId,
) -> Result<(), AllocError>
    requires comp { comp.0 < length plan.now.model.components }
    requires cause { cause.0 < length plan.now.model.interactions }
    ensures { OnOk result (text.new.items ≡ text.old.items
        ++ look_text plan.now.model (record { comp = comp; cause = cause })) }
{
    text.extend_from_slice(b" looks")?;
    write_comp_name(text, plan, comp)?;
    text.extend_from_slice(b" for")?;
    write_inter_name(text, plan, cause)
}

fn write_reserving(
    text: &mut Vec<u8>,
    plan: &Plan,
    through: Option<CompId>,
) -> Result<(), AllocError>
    requires { ForSome through (λ c. c.0 < length plan.now.model.components) }
    ensures { OnOk result (text.new.items
        ≡ text.old.items ++ reserving_text plan.now.model through) }
{
    match through {
        None => text.extend_from_slice(b" local"),
        Some(comp) => {
            text.extend_from_slice(b" reserved through")?;
            write_comp_name(text, plan, comp)
        }
    }
}

/// Writes whether a component has a row, and why; these classes touch it.
fn write_standing(
    text: &mut Vec<u8>,
    plan: &Plan,
    classes: &[ClassId],
    reason: Option<RowReason>,
) -> Result<(), AllocError>
    requires classes { All (λ (k : ClassId). k.0 < length plan.now.classes.members) classes.now }
    requires reason { ForSome reason (IsOfPlan plan.now) }
    ensures { OnOk result (text.new.items
        ≡ text.old.items ++ standing_text plan.now classes.now reason) }
{
    match reason {
        None => text.extend_from_slice(b" untabled"),
        Some(reason) => {
            text.extend_from_slice(b" tabled")?;
            write_reason(text, plan, classes, reason)
        }
    }
}

fn write_reason(
    text: &mut Vec<u8>,
    plan: &Plan,
    classes: &[ClassId],
    reason: RowReason,
) -> Result<(), AllocError>
    requires classes { All (λ (k : ClassId). k.0 < length plan.now.classes.members) classes.now }
    requires reason { IsOfPlan plan.now reason }
    ensures { OnOk result (text.new.items
        ≡ text.old.items ++ reason_text plan.now classes.now reason) }
{
    match reason {
        RowReason::LookedAt(inter) => {
            text.extend_from_slice(b" looked at by")?;
            write_inter_name(text, plan, inter)
        }
        RowReason::Shared => {
            text.extend_from_slice(b" touched from")?;
            write_classes(text, plan, classes)
        }
        RowReason::Beside(inter, other) => {
            text.extend_from_slice(b" beside")?;
            write_comp_name(text, plan, other)?;
            text.extend_from_slice(b" in")?;
            write_inter_name(text, plan, inter)
        }
    }
}

fn write_classes(text: &mut Vec<u8>, plan: &Plan, classes: &[ClassId]) -> Result<(), AllocError>
    requires { All (λ (k : ClassId). k.0 < length plan.now.classes.members) classes.now }
    ensures { OnOk result (text.new.items
        ≡ text.old.items ++ classes_text plan.now classes.now) }
{
    for class in classes {
        write_class_name(text, plan, *class)?;
    }
    Ok(())
}

fn write_comp_name(text: &mut Vec<u8>, plan: &Plan, comp: CompId) -> Result<(), AllocError>
    requires { comp.0 < length plan.now.model.components }
    ensures { OnOk result (text.new.items
        ≡ text.old.items ++ spaced (name_in plan.now.model.component_names comp.0)) }
{
    write_name(text, plan.model().component_names(), comp.0)
}

fn write_inter_name(text: &mut Vec<u8>, plan: &Plan, inter: InterId) -> Result<(), AllocError>
    requires { inter.0 < length plan.now.model.interactions }
    ensures { OnOk result (text.new.items
        ≡ text.old.items ++ spaced (name_in plan.now.model.interaction_names inter.0)) }
{
    write_name(text, plan.model().interaction_names(), inter.0)
}

fn write_class_name(text: &mut Vec<u8>, plan: &Plan, class: ClassId) -> Result<(), AllocError>
    requires { class.0 < length plan.now.classes.members }
    ensures { OnOk result (text.new.items
        ≡ text.old.items ++ spaced (name_in plan.now.classes.names class.0)) }
{
    write_name(text, plan.classes().names(), class.0)
}

/// Writes the name with a number behind a space.
fn write_name(text: &mut Vec<u8>, names: &[Name], number: u16) -> Result<(), AllocError>
    requires { number < length names.now }
    ensures { OnOk result (text.new.items
        ≡ text.old.items ++ spaced (name_in names.now number)) }
{
    write_word(text, names[number as usize].as_bytes())
}
