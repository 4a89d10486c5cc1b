//! The drawing of a model in the language of Graphviz.
ghost use Rattle.std.specs.Prelude.{◌≡◌, ◌<◌, ◌++◌, ◌==◌, ◌&&◌, [], All, IfOk, OnOk, length};
ghost use Rattle.std.specs.Prelude.{if◌then◌else◌};
ghost use Rattle.std.specs.List.{flat_map, list_any, range_with_len};
ghost use Rattle.bip_model.specs.Partitions.{AreClassesOf};
ghost use Rattle.bip_model.specs.Parts.{IsComponent, IsInteraction, IsTransitionOf, Participant};
ghost use Rattle.bip_draw.specs.Drawing.{are_parallel, arrow, box_of, box_text, class_text};
ghost use Rattle.bip_draw.specs.Drawing.{cluster_front, cluster_text, clusters_text, dashed};
ghost use Rattle.bip_draw.specs.Drawing.{drawing_of, edge_text, ellipse_front, ends_text};
ghost use Rattle.bip_draw.specs.Drawing.{firsts_of, front_text, gap_text, has_clauses, head_text};
ghost use Rattle.bip_draw.specs.Drawing.{interaction_node, label_end, label_front, label_text};
ghost use Rattle.bip_draw.specs.Drawing.{legend_front, legend_text, location_text, longest_line};
ghost use Rattle.bip_draw.specs.Drawing.{no_arrow, node_text, nodes_text, parallel_to, part_node};
ghost use Rattle.bip_draw.specs.Drawing.{participant_text, port_text, priority_text, start_text};
ghost use Rattle.bip_draw.specs.Drawing.{transition_text, two_borders, variable_text, width_end};
ghost use Rattle.bip_draw.specs.Drawing.{width_front, width_text};

use crate::clauses::{write_clauses, write_mark};
use crate::escaping::write_number;
use crate::hues::{class_of, hue_of};
use bip_model::{
    Classes, CompId, Component, InterId, Interaction, LocId, Model, Name, Pair, PortId, Transition,
};
use bip_reader::Speller;
use std::alloc::{AllocError, Global};

/// The drawing of a model and its classes in the language of Graphviz: a cluster for each component
/// with its locations and ports, and an edge with all transitions from a location to another or to
/// itself; a box for each interaction with an edge to each of its ports, a dashed edge for each
/// priority, a box for each class with its colour. Each declared thing is drawn once (docs/DRAW.md,
/// "Drawings").
pub fn draw_model(alloc: Global, model: &Model, classes: &Classes) -> Result<Vec<u8>, AllocError>
    requires { AreClassesOf model.now classes.now }
    ensures { IfOk result (λ text. text.items ≡ drawing_of model.now classes.now) }
{
    let mut text = Vec::new(alloc);
    write_front(&mut text)?;
    write_components(&mut text, model)?;
    write_classes(&mut text, classes)?;
    write_interactions(&mut text, model, classes)?;
    write_priorities(&mut text, model.priorities())?;
    text.extend_from_slice(b"}\n")?;
    Ok(text)
}

fn write_components(text: &mut Vec<u8>, model: &Model) -> Result<(), AllocError>
    ensures { OnOk result (text.new.items ≡ text.old.items ++ clusters_text model.now) }
{
    let names = model.component_names();
    for number in 0..model.components().len() {
        write_component(text, number, &names[number], &model.components()[number])?;
    }
    Ok(())
}

pub(crate) fn write_component(
    text: &mut Vec<u8>,
    number: usize,
    name: &Name,
    component: &Component,
) -> Result<(), AllocError>
    requires { IsComponent component.now }
    ensures { OnOk result
        (text.new.items ≡ text.old.items ++ cluster_text number name.now component.now) }
{
    write_head(text, number, name, component)?;
    write_locations(text, number, component)?;
    write_start(text, number)?;
    write_ports(text, number, component)?;
    write_edges(text, number, component)?;
    text.extend_from_slice(b"}\n")
}

#[tactic(auto, unfolding(crate::specs::Drawing::start_text))]
fn write_start(text: &mut Vec<u8>, comp: usize) -> Result<(), AllocError>
    ensures { OnOk result (text.new.items ≡ text.old.items ++ start_text comp) }
{
    write_part_node(text, comp, b"l", 0)?;
    write_two_borders(text)
}

/// The label of a component: its name, and its variables with their values at the start.
#[tactic(auto, unfolding(crate::specs::Drawing::head_text))]
fn write_head(
    text: &mut Vec<u8>,
    comp: usize,
    name: &Name,
    component: &Component,
) -> Result<(), AllocError>
    requires { IsComponent component.now }
    ensures { OnOk result
        (text.new.items ≡ text.old.items ++ head_text comp name.now component.now) }
{
    write_cluster_front(text, comp)?;
    text.extend_from_slice(name.as_bytes())?;
    write_variables(text, component)?;
    text.extend_from_slice(b"\";\n")
}

fn write_cluster_front(text: &mut Vec<u8>, comp: usize) -> Result<(), AllocError>
    ensures { OnOk result (text.new.items ≡ text.old.items ++ cluster_front comp) }
{
    text.extend_from_slice(b"subgraph cluster_c")?;
    write_number(text, comp as u64)?;
    text.extend_from_slice(b" {\nlabel=\"")?;
    Ok(())
}

fn write_variables(text: &mut Vec<u8>, component: &Component) -> Result<(), AllocError>
    requires { length component.now.start ≡ length component.now.variables }
    ensures { OnOk result (text.new.items ≡ text.old.items
        ++ flat_map (variable_text component.now)
        (range_with_len 0 (length component.now.variables))) }
{
    for number in 0..component.variables.len() {
        write_variable(text, component, number)?;
    }
    Ok(())
}

fn write_variable(
    text: &mut Vec<u8>,
    component: &Component,
    number: usize,
) -> Result<(), AllocError>
    requires name { number < length component.now.variables }
    requires value { number < length component.now.start }
    ensures { OnOk result
        (text.new.items ≡ text.old.items ++ variable_text component.now number) }
{
    text.extend_from_slice(b"\\n")?;
    text.extend_from_slice(component.variables.as_slice()[number].as_bytes())?;
    text.extend_from_slice(b" = ")?;
    write_number(text, component.start.as_slice()[number] as u64)
}

/// The node of a location or a port: its component, a letter, and its own number.
#[tactic(auto, unfolding(crate::specs::Drawing::part_node))]
pub(crate) fn write_part_node(
    text: &mut Vec<u8>,
    comp: usize,
    letter: &[u8],
    number: usize,
) -> Result<(), AllocError>
    ensures { OnOk result
        (text.new.items ≡ text.old.items ++ part_node comp letter.now number) }
{
    text.extend_from_slice(b"c")?;
    write_number(text, comp as u64)?;
    text.extend_from_slice(letter)?;
    write_number(text, number as u64)
}

fn write_locations(text: &mut Vec<u8>, comp: usize, component: &Component) -> Result<(), AllocError>
    ensures { OnOk result (text.new.items ≡ text.old.items
        ++ flat_map (location_text comp component.now)
        (range_with_len 0 (length component.now.locations))) }
{
    for number in 0..component.locations.len() {
        write_location(text, comp, component, number)?;
    }
    Ok(())
}

fn write_location(
    text: &mut Vec<u8>,
    comp: usize,
    component: &Component,
    number: usize,
) -> Result<(), AllocError>
    requires { number < length component.now.locations }
    ensures { OnOk result
        (text.new.items ≡ text.old.items ++ location_text comp component.now number) }
{
    write_part_node(text, comp, b"l", number)?;
    write_ellipse(text)?;
    text.extend_from_slice(component.locations.as_slice()[number].as_bytes())?;
    write_label_end(text)
}

fn write_ports(text: &mut Vec<u8>, comp: usize, component: &Component) -> Result<(), AllocError>
    ensures { OnOk result (text.new.items ≡ text.old.items
        ++ flat_map (port_text comp component.now)
        (range_with_len 0 (length component.now.ports))) }
{
    for number in 0..component.ports.len() {
        write_port(text, comp, component, number)?;
    }
    Ok(())
}

fn write_port(
    text: &mut Vec<u8>,
    comp: usize,
    component: &Component,
    number: usize,
) -> Result<(), AllocError>
    requires { number < length component.now.ports }
    ensures { OnOk result
        (text.new.items ≡ text.old.items ++ port_text comp component.now number) }
{
    write_part_node(text, comp, b"p", number)?;
    write_label(text)?;
    text.extend_from_slice(component.ports.as_slice()[number].as_bytes())?;
    write_label_end(text)
}

fn write_edges(text: &mut Vec<u8>, comp: usize, component: &Component) -> Result<(), AllocError>
    requires { All (IsTransitionOf component.now) component.now.transitions }
    ensures { OnOk result (text.new.items ≡ text.old.items
        ++ flat_map (edge_text comp component.now) (firsts_of component.now.transitions)) }
{
    let transitions = component.transitions.as_slice();
    for (index, transition) in transitions.iter().enumerate() {
        if !has_parallel(transition, &transitions[..index]) {
            write_edge(text, comp, component, transition)?;
        }
    }
    Ok(())
}

/// Whether a transition is parallel to one of the others.
fn has_parallel(transition: &Transition, others: &[Transition]) -> bool
    ensures { result ≡ list_any (λ t. are_parallel t transition.now) others.now }
{
    others.iter().any(|t| are_parallel(t, transition))
}

/// Whether two transitions have the same source and the same target.
fn are_parallel(first: &Transition, second: &Transition) -> bool
    ensures { result ≡ are_parallel first.now second.now }
{
    first.source == second.source && first.target == second.target
}

/// The edge of a transition, with all that are parallel to it; the location of a loop has room for
/// the label.
fn write_edge(
    text: &mut Vec<u8>,
    comp: usize,
    component: &Component,
    transition: &Transition,
) -> Result<(), AllocError>
    requires { All (IsTransitionOf component.now) component.now.transitions }
    ensures { OnOk result
        (text.new.items ≡ text.old.items ++ edge_text comp component.now transition.now) }
{
    write_ends(text, comp, transition)?;
    let start = text.len();
    write_edge_label(text, component, transition)?;
    let bytes = longest_line(&text[start..]);
    write_label_end(text)?;
    if transition.source == transition.target {
        write_width(text, comp, transition.source, bytes)?;
    }
    Ok(())
}

/// The transitions that are parallel to this one, one below the other.
#[tactic(auto, unfolding(crate::specs::Drawing::label_text))]
fn write_edge_label(
    text: &mut Vec<u8>,
    component: &Component,
    transition: &Transition,
) -> Result<(), AllocError>
    requires { All (IsTransitionOf component.now) component.now.transitions }
    ensures { OnOk result (text.new.items ≡ text.old.items
        ++ label_text component.now (parallel_to component.now transition.now)) }
{
    let gap = gap_of(component, transition);
    let mut count = 0;
    for other in component.transitions.as_slice() {
        if are_parallel(transition, other) {
            write_next_transition(text, component, other, count, gap)?;
            count += 1;
        }
    }
    Ok(())
}

/// A transition of a label, below so many others, with the gap between two of them.
fn write_next_transition(
    text: &mut Vec<u8>,
    component: &Component,
    transition: &Transition,
    count: usize,
    gap: &[u8],
) -> Result<(), AllocError>
    requires { IsTransitionOf component.now transition.now }
    ensures { OnOk result (text.new.items ≡ (text.old.items
        ++ (if count == 0 then [] else gap.now)) ++ transition_text component.now transition.now) }
{
    write_mark(text, count, b"", gap)?;
    write_transition(text, component, transition)
}

/// What stands between two of the transitions that are parallel to this one.
fn gap_of(component: &Component, transition: &Transition) -> &'static [u8]
    ensures { result.now ≡ gap_text (parallel_to component.now transition.now) }
{
    if any_has_clauses(component, transition) {
        b"\\n\\n"
    } else {
        b"\\n"
    }
}

fn any_has_clauses(component: &Component, transition: &Transition) -> bool
    ensures { result ≡ list_any (λ t. are_parallel transition.now t && has_clauses t)
        component.now.transitions }
{
    let transitions = component.transitions.as_slice();
    transitions
        .iter()
        .any(|t| are_parallel(transition, t) && has_clauses(t))
}

fn has_clauses(transition: &Transition) -> bool
    ensures { result ≡ has_clauses transition.now }
{
    !transition.guard.is_empty() || !transition.update.is_empty()
}

fn write_transition(
    text: &mut Vec<u8>,
    component: &Component,
    transition: &Transition,
) -> Result<(), AllocError>
    requires { IsTransitionOf component.now transition.now }
    ensures { OnOk result
        (text.new.items ≡ text.old.items ++ transition_text component.now transition.now) }
{
    let speller = Speller::Own(component);
    text.extend_from_slice(component.ports.as_slice()[transition.port.0 as usize].as_bytes())?;
    write_clauses(
        text,
        &speller,
        transition.guard.as_slice(),
        transition.update.as_slice(),
    )?;
    Ok(())
}

/// How many bytes the longest line of a label has, each with the `n` of the mark before it, and the
/// first one with one more, too.
fn longest_line(label: &[u8]) -> usize
    ensures { result ≡ longest_line 1 label.now }
{
    let mut most = 0;
    let mut bytes = 1;
    for byte in label {
        if *byte == b'\\' {
            most = most.max(bytes);
            bytes = 0;
        } else {
            bytes += 1;
        }
    }
    most.max(bytes)
}

/// Makes a location so wide that a line of so many bytes has room above it.
#[tactic(auto, unfolding(crate::specs::Drawing::width_text))]
fn write_width(
    text: &mut Vec<u8>,
    comp: usize,
    location: LocId,
    bytes: usize,
) -> Result<(), AllocError>
    ensures { OnOk result (text.new.items ≡ text.old.items ++ width_text comp location.0 bytes) }
{
    write_part_node(text, comp, b"l", location.0 as usize)?;
    write_width_front(text)?;
    write_number(text, 75 * bytes.min(2000).max(10) as u64)?;
    write_width_end(text)
}

/// The source and the target of a transition.
#[tactic(auto, unfolding(crate::specs::Drawing::ends_text))]
fn write_ends(text: &mut Vec<u8>, comp: usize, transition: &Transition) -> Result<(), AllocError>
    ensures { OnOk result (text.new.items ≡ text.old.items ++ ends_text comp transition.now) }
{
    write_part_node(text, comp, b"l", transition.source.0 as usize)?;
    write_arrow(text)?;
    write_part_node(text, comp, b"l", transition.target.0 as usize)?;
    write_label(text)
}

/// The front of a box with the colour of a class.
#[tactic(auto, unfolding(crate::specs::Drawing::box_text))]
fn write_box(text: &mut Vec<u8>, class: u16) -> Result<(), AllocError>
    ensures { OnOk result (text.new.items ≡ text.old.items ++ box_text class) }
{
    text.extend_from_slice(b" [style=filled,fillcolor=\"")?;
    write_number(text, 25 * hue_of(class))?;
    text.extend_from_slice(b"e-3 0.3 1\",label=\"")
}

fn write_classes(text: &mut Vec<u8>, classes: &Classes) -> Result<(), AllocError>
    ensures { OnOk result (text.new.items ≡ text.old.items ++ legend_text classes.now) }
{
    write_legend_front(text)?;
    write_each_class(text, classes)?;
    text.extend_from_slice(b"}\n")
}

fn write_each_class(text: &mut Vec<u8>, classes: &Classes) -> Result<(), AllocError>
    ensures { OnOk result (text.new.items ≡ text.old.items
        ++ flat_map (class_text classes.now) (range_with_len 0 (length classes.now.names))) }
{
    for number in 0..classes.len() {
        write_class(text, classes, number as u16)?;
    }
    Ok(())
}

pub(crate) fn write_class(
    text: &mut Vec<u8>,
    classes: &Classes,
    number: u16,
) -> Result<(), AllocError>
    requires { number < length classes.now.names }
    ensures { OnOk result (text.new.items ≡ text.old.items ++ class_text classes.now number) }
{
    text.extend_from_slice(b"k")?;
    write_number(text, number as u64)?;
    write_box(text, number)?;
    text.extend_from_slice(classes.names()[number as usize].as_bytes())?;
    write_label_end(text)
}

fn write_interactions(
    text: &mut Vec<u8>,
    model: &Model,
    classes: &Classes,
) -> Result<(), AllocError>
    ensures { OnOk result
        (text.new.items ≡ text.old.items ++ nodes_text model.now classes.now) }
{
    let names = model.interaction_names();
    for number in 0..model.interactions().len() {
        let interaction = &model.interactions()[number];
        write_interaction(
            text,
            model,
            classes,
            InterId(number as u16),
            &names[number],
            interaction,
        )?;
    }
    Ok(())
}

fn write_interaction(
    text: &mut Vec<u8>,
    model: &Model,
    classes: &Classes,
    inter: InterId,
    name: &Name,
    interaction: &Interaction,
) -> Result<(), AllocError>
    requires { IsInteraction model.now.components interaction.now }
    ensures { OnOk result (text.new.items ≡ text.old.items
        ++ node_text model.now classes.now inter.0 name.now interaction.now) }
{
    write_interaction_box(text, model, classes, inter, name, interaction)?;
    write_label_end(text)?;
    write_participants(text, inter, interaction.participants.as_slice())
}

#[tactic(auto, unfolding(crate::specs::Drawing::box_of))]
pub(crate) fn write_interaction_box(
    text: &mut Vec<u8>,
    model: &Model,
    classes: &Classes,
    inter: InterId,
    name: &Name,
    interaction: &Interaction,
) -> Result<(), AllocError>
    requires { IsInteraction model.now.components interaction.now }
    ensures { OnOk result (text.new.items ≡ text.old.items
        ++ box_of model.now classes.now inter.0 name.now interaction.now) }
{
    let participants = interaction.participants.as_slice();
    let speller = Speller::Shared(model, participants);
    write_interaction_node(text, inter)?;
    write_box(text, class_of(classes, inter))?;
    text.extend_from_slice(name.as_bytes())?;
    write_clauses(
        text,
        &speller,
        interaction.guard.as_slice(),
        interaction.transfer.as_slice(),
    )?;
    Ok(())
}

#[tactic(auto, unfolding(crate::specs::Drawing::interaction_node))]
pub(crate) fn write_interaction_node(text: &mut Vec<u8>, inter: InterId) -> Result<(), AllocError>
    ensures { OnOk result (text.new.items ≡ text.old.items ++ interaction_node inter.0) }
{
    text.extend_from_slice(b"i")?;
    write_number(text, inter.0 as u64)
}

fn write_participants(
    text: &mut Vec<u8>,
    inter: InterId,
    participants: &[(CompId, PortId)],
) -> Result<(), AllocError>
    ensures { OnOk result (text.new.items
        ≡ text.old.items ++ flat_map (participant_text inter.0) participants.now) }
{
    for participant in participants {
        write_participant(text, inter, *participant)?;
    }
    Ok(())
}

fn write_participant(
    text: &mut Vec<u8>,
    inter: InterId,
    participant: (CompId, PortId),
) -> Result<(), AllocError>
    ensures { OnOk result
        (text.new.items ≡ text.old.items ++ participant_text inter.0 participant) }
{
    write_interaction_node(text, inter)?;
    write_arrow(text)?;
    write_part_node(
        text,
        participant.0.0 as usize,
        b"p",
        participant.1.0 as usize,
    )?;
    write_no_arrow(text)
}

fn write_priorities(text: &mut Vec<u8>, priorities: &[Pair]) -> Result<(), AllocError>
    ensures { OnOk result (text.new.items
        ≡ text.old.items ++ flat_map priority_text priorities.now) }
{
    for pair in priorities {
        write_priority(text, *pair)?;
    }
    Ok(())
}

pub(crate) fn write_priority(text: &mut Vec<u8>, pair: Pair) -> Result<(), AllocError>
    ensures { OnOk result (text.new.items ≡ text.old.items ++ priority_text pair) }
{
    write_interaction_node(text, pair.low)?;
    write_arrow(text)?;
    write_interaction_node(text, pair.high)?;
    write_dashed(text)
}

#[tactic(auto, unfolding(crate::specs::Drawing::ellipse_front))]
fn write_ellipse(text: &mut Vec<u8>) -> Result<(), AllocError>
    ensures { OnOk result (text.new.items ≡ text.old.items ++ ellipse_front) }
{
    text.extend_from_slice(b" [shape=ellipse,label=\"")
}

#[tactic(auto, unfolding(crate::specs::Drawing::label_front))]
fn write_label(text: &mut Vec<u8>) -> Result<(), AllocError>
    ensures { OnOk result (text.new.items ≡ text.old.items ++ label_front) }
{
    text.extend_from_slice(b" [label=\"")
}

#[tactic(auto, unfolding(crate::specs::Drawing::label_end))]
pub(crate) fn write_label_end(text: &mut Vec<u8>) -> Result<(), AllocError>
    ensures { OnOk result (text.new.items ≡ text.old.items ++ label_end) }
{
    text.extend_from_slice(b"\"];\n")
}

#[tactic(auto, unfolding(crate::specs::Drawing::width_front))]
fn write_width_front(text: &mut Vec<u8>) -> Result<(), AllocError>
    ensures { OnOk result (text.new.items ≡ text.old.items ++ width_front) }
{
    text.extend_from_slice(b" [width=\"")
}

#[tactic(auto, unfolding(crate::specs::Drawing::width_end))]
fn write_width_end(text: &mut Vec<u8>) -> Result<(), AllocError>
    ensures { OnOk result (text.new.items ≡ text.old.items ++ width_end) }
{
    text.extend_from_slice(b"e-3\"];\n")
}

#[tactic(auto, unfolding(crate::specs::Drawing::arrow))]
pub(crate) fn write_arrow(text: &mut Vec<u8>) -> Result<(), AllocError>
    ensures { OnOk result (text.new.items ≡ text.old.items ++ arrow) }
{
    text.extend_from_slice(b" -> ")
}

#[tactic(auto, unfolding(crate::specs::Drawing::no_arrow))]
pub(crate) fn write_no_arrow(text: &mut Vec<u8>) -> Result<(), AllocError>
    ensures { OnOk result (text.new.items ≡ text.old.items ++ no_arrow) }
{
    text.extend_from_slice(b" [dir=none];\n")
}

#[tactic(auto, unfolding(crate::specs::Drawing::dashed))]
fn write_dashed(text: &mut Vec<u8>) -> Result<(), AllocError>
    ensures { OnOk result (text.new.items ≡ text.old.items ++ dashed) }
{
    text.extend_from_slice(b" [style=dashed,constraint=false];\n")
}

#[tactic(auto, unfolding(crate::specs::Drawing::two_borders))]
fn write_two_borders(text: &mut Vec<u8>) -> Result<(), AllocError>
    ensures { OnOk result (text.new.items ≡ text.old.items ++ two_borders) }
{
    text.extend_from_slice(b" [peripheries=2];\n")
}

#[tactic(auto, unfolding(crate::specs::Drawing::legend_front))]
pub(crate) fn write_legend_front(text: &mut Vec<u8>) -> Result<(), AllocError>
    ensures { OnOk result (text.new.items ≡ text.old.items ++ legend_front) }
{
    text.extend_from_slice(b"subgraph cluster_classes {\nlabel=\"classes\";\n")
}

/// How all is drawn.
#[tactic(auto, unfolding(crate::specs::Drawing::front_text))]
pub(crate) fn write_front(text: &mut Vec<u8>) -> Result<(), AllocError>
    ensures { OnOk result (text.new.items ≡ text.old.items ++ front_text) }
{
    text.extend_from_slice(b"digraph model {\nrankdir=LR;\nfontname=\"sans-serif\";\n")?;
    text.extend_from_slice(b"node [fontname=\"sans-serif\",fontsize=11,shape=box,height=0.3];\n")?;
    text.extend_from_slice(b"edge [fontname=\"sans-serif\",fontsize=10];\n")
}
