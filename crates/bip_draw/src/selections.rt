//! A part of the drawing of a model: some components and classes, and what stands around them.
ghost use Rattle.std.specs.Prelude.{◌≡◌, ◌<◌, ◌==◌, ◌&&◌, ◌++◌, IfOk, OnOk, length};
ghost use Rattle.std.specs.List.{flat_map, list_any, range_with_len};
ghost use Rattle.bip_model.specs.Partitions.{AreClassesOf};
ghost use Rattle.bip_model.specs.Parts.{IsInteraction, Participant};
ghost use Rattle.bip_model.specs.Steps.{moves};
ghost use Rattle.bip_draw.specs.Selections.{class_part, classes_part, component_part};
ghost use Rattle.bip_draw.specs.Selections.{components_part, drawing_of_part, end_node};
ghost use Rattle.bip_draw.specs.Selections.{has_class, has_component, interaction_part};
ghost use Rattle.bip_draw.specs.Selections.{interactions_part, is_class_shown, is_moved_by_class};
ghost use Rattle.bip_draw.specs.Selections.{is_moved_by_shown, is_of_class, is_shown, is_whole};
ghost use Rattle.bip_draw.specs.Selections.{participant_part, priorities_part, priority_part};
ghost use Rattle.bip_draw.specs.Selections.{shown_node, stub_front, stub_node, stub_text};

use crate::drawing::{
    write_arrow, write_class, write_component, write_front, write_interaction_box,
    write_interaction_node, write_label_end, write_legend_front, write_no_arrow, write_part_node,
    write_priority,
};
use crate::escaping::write_number;
use crate::hues::class_of;
use crate::lookups::{component_at, count_of, interaction_at, is_among, the_name};
use bip_model::{ClassId, Classes, CompId, InterId, Interaction, Model, Name, Pair, PortId};
use std::alloc::{AllocError, Global};

/// Components and classes of a model, of which a part is drawn: by number, in any order; a number
/// that the model lacks selects nothing.
#[derive(Clone, Copy, Debug)]
pub struct Selection<'a> {
    pub components: &'a [CompId],
    pub classes: &'a [ClassId],
}

impl Selection<'_> {
    fn has_component(&self, comp: CompId) -> bool
        ensures { result ≡ has_component self.now comp.0 }
    {
        is_among(self.components, comp.0)
    }

    fn has_class(&self, class: u16) -> bool
        ensures { result ≡ has_class self.now class }
    {
        self.classes.iter().any(|c| c.0 == class)
    }
}

/// A model with its classes, and what is selected of it.
#[derive(Clone, Copy)]
struct Cut<'a> {
    model: &'a Model,
    classes: &'a Classes,
    selection: &'a Selection<'a>,
}

impl Cut<'_> {
    /// Whether an interaction is of a class that is selected.
    fn is_of_class(&self, inter: InterId) -> bool
        ensures { result ≡ is_of_class self.now.classes.now self.now.selection.now inter.0 }
    {
        self.selection.has_class(class_of(self.classes, inter))
    }

    /// Whether an interaction is shown.
    fn shows(&self, inter: InterId) -> bool
        requires { inter.0 < length self.now.model.now.interactions }
        ensures { result
            ≡ is_shown self.now.model.now self.now.classes.now self.now.selection.now inter.0 }
    {
        let interaction = interaction_at(self.model, inter);
        self.moves_selected(interaction) || self.is_of_class(inter)
    }

    /// Whether an interaction moves a component that is selected.
    fn moves_selected(&self, interaction: &Interaction) -> bool
        ensures { result ≡ list_any (λ (q : Participant).
            has_component self.now.selection.now q.0.0) interaction.now.participants }
    {
        let participants = interaction.participants.as_slice();
        participants
            .iter()
            .any(|q| self.selection.has_component(q.0))
    }

    /// Whether some interaction of a class that is selected moves a component.
    fn is_moved_by_class(&self, comp: CompId) -> bool
        ensures { result ≡ is_moved_by_class self.now.model.now self.now.classes.now
            self.now.selection.now comp.0 }
    {
        (0..self.model.interactions().len()).any(|a| self.is_of_class(InterId(a as u16))
            && self.model.moves(InterId(a as u16), comp))
    }

    /// Whether some shown interaction moves a component.
    fn is_moved_by_shown(&self, comp: CompId) -> bool
        ensures { result ≡ is_moved_by_shown self.now.model.now self.now.classes.now
            self.now.selection.now comp.0 }
    {
        (0..self.model.interactions().len()).any(|a| self.shows(InterId(a as u16))
            && self.model.moves(InterId(a as u16), comp))
    }

    /// Whether a component is drawn whole.
    fn is_whole(&self, comp: CompId) -> bool
        ensures { result ≡ is_whole self.now.model.now self.now.classes.now
            self.now.selection.now comp.0 }
    {
        self.selection.has_component(comp) || self.is_moved_by_class(comp)
    }

    /// Whether a class has an interaction that is shown.
    fn shows_class(&self, class: u16) -> bool
        ensures { result ≡ is_class_shown self.now.model.now self.now.classes.now
            self.now.selection.now class }
    {
        (0..self.model.interactions().len()).any(|a| self.shows(InterId(a as u16))
            && class_of(self.classes, InterId(a as u16)) == class)
    }
}

/// The drawing of what is selected of a model and its classes, in the language of Graphviz: the
/// interactions that move a component that is selected, and those of the classes that are; these
/// components and those that such a class moves, whole; each other component that a shown
/// interaction moves, as a stub; the classes of shown interactions, and the priorities between
/// them. Order and nodes are those of the whole drawing (docs/DRAW.md, "A part of a drawing").
pub fn draw_part(
    alloc: Global,
    model: &Model,
    classes: &Classes,
    selection: &Selection<'_>,
) -> Result<Vec<u8>, AllocError>
    requires { AreClassesOf model.now classes.now }
    ensures { IfOk result (λ text.
        text.items ≡ drawing_of_part model.now classes.now selection.now) }
{
    let cut = Cut {
        model,
        classes,
        selection,
    };
    let mut text = Vec::new(alloc);
    write_front(&mut text)?;
    write_components(&mut text, &cut)?;
    write_classes(&mut text, &cut)?;
    write_interactions(&mut text, &cut)?;
    write_priorities(&mut text, &cut)?;
    text.extend_from_slice(b"}\n")?;
    Ok(text)
}

fn write_components(text: &mut Vec<u8>, cut: &Cut<'_>) -> Result<(), AllocError>
    ensures { OnOk result (text.new.items ≡ text.old.items
        ++ components_part cut.now.model.now cut.now.classes.now cut.now.selection.now) }
{
    for comp in 0..count_of(cut.model) {
        write_component_part(text, cut, comp)?;
    }
    Ok(())
}

fn write_component_part(text: &mut Vec<u8>, cut: &Cut<'_>, comp: u16) -> Result<(), AllocError>
    requires { comp < length cut.now.model.now.components }
    ensures { OnOk result (text.new.items ≡ text.old.items
        ++ component_part cut.now.model.now cut.now.classes.now cut.now.selection.now comp) }
{
    let names = cut.model.component_names();
    let name = the_name(names, comp as usize);
    if cut.is_whole(CompId(comp)) {
        return write_component(text, comp as usize, name, component_at(cut.model, comp));
    }
    if cut.is_moved_by_shown(CompId(comp)) {
        return write_stub(text, comp, name);
    }
    Ok(())
}

/// A stub of a component.
fn write_stub(text: &mut Vec<u8>, comp: u16, name: &Name) -> Result<(), AllocError>
    ensures { OnOk result (text.new.items ≡ text.old.items ++ stub_text comp name.now) }
{
    write_stub_node(text, comp)?;
    write_stub_front(text)?;
    text.extend_from_slice(name.as_bytes())?;
    write_label_end(text)
}

#[tactic(auto, unfolding(crate::specs::Selections::stub_node))]
fn write_stub_node(text: &mut Vec<u8>, comp: u16) -> Result<(), AllocError>
    ensures { OnOk result (text.new.items ≡ text.old.items ++ stub_node comp) }
{
    text.extend_from_slice(b"c")?;
    write_number(text, comp as u64)
}

#[tactic(auto, unfolding(crate::specs::Selections::stub_front))]
fn write_stub_front(text: &mut Vec<u8>) -> Result<(), AllocError>
    ensures { OnOk result (text.new.items ≡ text.old.items ++ stub_front) }
{
    text.extend_from_slice(b" [style=dashed,label=\"")
}

fn write_classes(text: &mut Vec<u8>, cut: &Cut<'_>) -> Result<(), AllocError>
    ensures { OnOk result (text.new.items ≡ text.old.items
        ++ classes_part cut.now.model.now cut.now.classes.now cut.now.selection.now) }
{
    write_legend_front(text)?;
    write_each_class(text, cut)?;
    text.extend_from_slice(b"}\n")
}

fn write_each_class(text: &mut Vec<u8>, cut: &Cut<'_>) -> Result<(), AllocError>
    ensures { OnOk result (text.new.items ≡ text.old.items
        ++ flat_map (class_part cut.now.model.now cut.now.classes.now cut.now.selection.now)
        (range_with_len 0 (length cut.now.classes.now.names))) }
{
    for number in 0..cut.classes.len() {
        write_class_part(text, cut, number as u16)?;
    }
    Ok(())
}

fn write_class_part(text: &mut Vec<u8>, cut: &Cut<'_>, class: u16) -> Result<(), AllocError>
    requires { class < length cut.now.classes.now.names }
    ensures { OnOk result (text.new.items ≡ text.old.items
        ++ class_part cut.now.model.now cut.now.classes.now cut.now.selection.now class) }
{
    if !cut.shows_class(class) {
        return Ok(());
    }
    write_class(text, cut.classes, class)
}

fn write_interactions(text: &mut Vec<u8>, cut: &Cut<'_>) -> Result<(), AllocError>
    ensures { OnOk result (text.new.items ≡ text.old.items
        ++ interactions_part cut.now.model.now cut.now.classes.now cut.now.selection.now) }
{
    for number in 0..cut.model.interactions().len() {
        write_interaction_part(text, cut, InterId(number as u16))?;
    }
    Ok(())
}

fn write_interaction_part(
    text: &mut Vec<u8>,
    cut: &Cut<'_>,
    inter: InterId,
) -> Result<(), AllocError>
    requires { inter.0 < length cut.now.model.now.interactions }
    ensures { OnOk result (text.new.items ≡ text.old.items
        ++ interaction_part cut.now.model.now cut.now.classes.now cut.now.selection.now inter.0) }
{
    if !cut.shows(inter) {
        return Ok(());
    }
    write_shown(text, cut, inter, interaction_at(cut.model, inter))
}

/// A shown interaction, with its participants.
fn write_shown(
    text: &mut Vec<u8>,
    cut: &Cut<'_>,
    inter: InterId,
    interaction: &Interaction,
) -> Result<(), AllocError>
    requires number { inter.0 < length cut.now.model.now.interactions }
    requires interaction { IsInteraction cut.now.model.now.components interaction.now }
    ensures { OnOk result (text.new.items ≡ text.old.items
        ++ shown_node cut.now.model.now cut.now.classes.now cut.now.selection.now inter.0
        interaction.now) }
{
    let names = cut.model.interaction_names();
    let name = the_name(names, inter.0 as usize);
    write_interaction_box(text, cut.model, cut.classes, inter, name, interaction)?;
    write_label_end(text)?;
    write_participants(text, cut, inter, interaction.participants.as_slice())
}

fn write_participants(
    text: &mut Vec<u8>,
    cut: &Cut<'_>,
    inter: InterId,
    participants: &[(CompId, PortId)],
) -> Result<(), AllocError>
    ensures { OnOk result (text.new.items ≡ text.old.items
        ++ flat_map (participant_part cut.now.model.now cut.now.classes.now
        cut.now.selection.now inter.0) participants.now) }
{
    for participant in participants {
        write_participant(text, cut, inter, *participant)?;
    }
    Ok(())
}

fn write_participant(
    text: &mut Vec<u8>,
    cut: &Cut<'_>,
    inter: InterId,
    participant: (CompId, PortId),
) -> Result<(), AllocError>
    ensures { OnOk result (text.new.items ≡ text.old.items
        ++ participant_part cut.now.model.now cut.now.classes.now cut.now.selection.now inter.0
        participant) }
{
    write_interaction_node(text, inter)?;
    write_arrow(text)?;
    write_end_node(text, cut, participant)?;
    write_no_arrow(text)
}

/// The port of a participant, or the stub of its component.
#[tactic(auto, unfolding(crate::specs::Selections::end_node))]
fn write_end_node(
    text: &mut Vec<u8>,
    cut: &Cut<'_>,
    participant: (CompId, PortId),
) -> Result<(), AllocError>
    ensures { OnOk result (text.new.items ≡ text.old.items
        ++ end_node cut.now.model.now cut.now.classes.now cut.now.selection.now participant) }
{
    let (comp, port) = participant;
    if cut.is_whole(comp) {
        write_part_node(text, comp.0 as usize, b"p", port.0 as usize)
    } else {
        write_stub_node(text, comp.0)
    }
}

fn write_priorities(text: &mut Vec<u8>, cut: &Cut<'_>) -> Result<(), AllocError>
    ensures { OnOk result (text.new.items ≡ text.old.items
        ++ priorities_part cut.now.model.now cut.now.classes.now cut.now.selection.now) }
{
    let priorities = cut.model.priorities();
    for pair in priorities {
        write_priority_part(text, cut, *pair)?;
    }
    Ok(())
}

fn write_priority_part(text: &mut Vec<u8>, cut: &Cut<'_>, pair: Pair) -> Result<(), AllocError>
    requires low { pair.low.0 < length cut.now.model.now.interactions }
    requires high { pair.high.0 < length cut.now.model.now.interactions }
    ensures { OnOk result (text.new.items ≡ text.old.items
        ++ priority_part cut.now.model.now cut.now.classes.now cut.now.selection.now pair) }
{
    if !cut.shows(pair.low) || !cut.shows(pair.high) {
        return Ok(());
    }
    write_priority(text, pair)
}
