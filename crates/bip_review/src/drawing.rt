//! The drawing of a plan in the language of Graphviz.
ghost use Rattle.std.specs.Prelude.{◌≡◌, ◌<◌, ◌++◌, IfOk, OnOk, length, slice_index};
ghost use Rattle.std.specs.Fmt.{decimal};
ghost use Rattle.std.specs.List.{flat_map, range_with_len};
ghost use Rattle.bip_model.specs.Naming.{name_in};
ghost use Rattle.bip_model.specs.Parts.{components_in};
ghost use Rattle.bip_model.specs.Partitions.{class_in, numbers_in};
ghost use Rattle.bip_model.specs.Steps.{participants_of};
ghost use Rattle.bip_partition.specs.Plans.{AreStations, IsReserved};
ghost use Rattle.bip_review.specs.Drawing.{AddsFact, AddsFacts, AddsStationEdges, IsPlanDrawing};
ghost use Rattle.bip_review.specs.Drawing.{borders_text, class_cluster, component_ellipse};
ghost use Rattle.bip_review.specs.Drawing.{conflict_text, conflicts_text, edge_from, edges_text};
ghost use Rattle.bip_review.specs.Drawing.{ellipse_text, interaction_box, label_of, looked_edge};
ghost use Rattle.bip_review.specs.Drawing.{member_text, members_text, moved_edge, node_name};
ghost use Rattle.bip_review.specs.Drawing.{station_label, numbers_text, plan_front};
ghost use Rattle.bip_review.specs.Writing.{AreLooks, IsComponentShown, IsInteractionShown};
ghost use Rattle.bip_review.specs.Writing.{IsListConflicting, Look};

use crate::writing::conflicts_with;
use crate::{RowReason, reserving, row_reason};
use bip_model::{CompId, InterId, Name};
use bip_partition::Plan;
use itoa::Buffer;
use std::alloc::{AllocError, Global};

/// The drawing of a plan in the language of Graphviz: a cluster for each class with a box for each
/// of its interactions, which has two borders where it is reserved; an ellipse for each component,
/// filled where it has a row; an edge from an interaction to each component that it moves, and a
/// dashed one to each that it looks at; an edge between two stations in conflict; and the number of
/// each station in its label. Fails only where memory is wanting (docs/DRAW.md, "Plans").
pub fn draw_plan(alloc: Global, plan: &Plan) -> Result<Vec<u8>, AllocError>
    ensures { IfOk result (λ text. IsPlanDrawing plan.now text.items) }
{
    let stations = plan.stations();
    let mut text = Vec::new(alloc);
    write_front(&mut text)?;
    draw_classes(&mut text, plan)?;
    draw_components(&mut text, plan)?;
    draw_interactions(&mut text, plan)?;
    draw_conflicts(&mut text, plan, stations)?;
    number_stations(&mut text, plan, stations)?;
    text.extend_from_slice(b"}\n")?;
    Ok(text)
}

fn draw_classes(text: &mut Vec<u8>, plan: &Plan) -> Result<(), AllocError>
    ensures { OnOk result (text.new.items ≡ text.old.items
        ++ flat_map (λ k. class_cluster plan.now k (members_text plan.now k))
        (range_with_len 0 (length plan.now.classes.names))) }
{
    for number in 0..plan.classes().len() {
        draw_class(text, plan, number as u16)?;
    }
    Ok(())
}

fn draw_class(text: &mut Vec<u8>, plan: &Plan, class: u16) -> Result<(), AllocError>
    requires { class < length plan.now.classes.names }
    ensures { OnOk result (text.new.items ≡ text.old.items
        ++ class_cluster plan.now class (members_text plan.now class)) }
{
    text.extend_from_slice(b"subgraph cluster_k")?;
    write_number(text, class)?;
    text.extend_from_slice(b" {\nlabel=\"")?;
    write_plain_name(text, plan.classes().names(), class)?;
    text.extend_from_slice(b"\";\n")?;
    draw_members(text, plan, class)?;
    text.extend_from_slice(b"}\n")?;
    Ok(())
}

/// Draws the interactions of a class.
fn draw_members(text: &mut Vec<u8>, plan: &Plan, class: u16) -> Result<(), AllocError>
    ensures { OnOk result (text.new.items ≡ text.old.items ++ members_text plan.now class) }
{
    for number in 0..plan.model().interactions().len() {
        draw_member(text, plan, class, InterId(number as u16))?;
    }
    Ok(())
}

/// Draws an interaction, if it stands in a class.
fn draw_member(
    text: &mut Vec<u8>,
    plan: &Plan,
    class: u16,
    inter: InterId,
) -> Result<(), AllocError>
    requires { inter.0 < length plan.now.model.interactions }
    ensures { OnOk result (text.new.items ≡ text.old.items
        ++ member_text plan.now class inter.0 (class_in plan.now.classes inter.0)) }
{
    if plan.class_of(inter).0 == class {
        draw_box(text, plan, inter)
    } else {
        Ok(())
    }
}

fn draw_box(text: &mut Vec<u8>, plan: &Plan, inter: InterId) -> Result<(), AllocError>
    requires { inter.0 < length plan.now.model.interactions }
    ensures { OnOk result (text.new.items ≡ text.old.items ++ interaction_box plan.now inter.0) }
{
    write_node(text, b"i", inter.0)?;
    text.extend_from_slice(b" [label=\"")?;
    write_label(text, plan.model().interaction_names(), inter.0)
}

fn draw_components(text: &mut Vec<u8>, plan: &Plan) -> Result<(), AllocError>
    ensures { OnOk result (AddsFacts (IsComponentShown plan.now) (component_ellipse plan.now)
        (length plan.now.model.components) text.old.items text.new.items) }
{
    for number in 0..plan.model().components().len() {
        draw_component(text, plan, CompId(number as u16))?;
    }
    Ok(())
}

fn draw_component(text: &mut Vec<u8>, plan: &Plan, comp: CompId) -> Result<(), AllocError>
    requires { comp.0 < length plan.now.model.components }
    ensures { OnOk result (AddsFact (IsComponentShown plan.now comp.0)
        (component_ellipse plan.now comp.0) text.old.items text.new.items) }
{
    // What is shown of a component has its classes, too.
    let _classes = plan.classes_of(comp);
    write_node(text, b"c", comp.0)?;
    write_ellipse(text, row_reason(plan, comp))?;
    write_label(text, plan.model().component_names(), comp.0)?;
    Ok(())
}

fn write_ellipse(text: &mut Vec<u8>, reason: Option<RowReason>) -> Result<(), AllocError>
    ensures { OnOk result (text.new.items ≡ text.old.items ++ ellipse_text reason) }
{
    match reason {
        None => text.extend_from_slice(b" [shape=ellipse,label=\""),
        Some(_) => text.extend_from_slice(b" [shape=ellipse,style=filled,label=\""),
    }
}

fn draw_interactions(text: &mut Vec<u8>, plan: &Plan) -> Result<(), AllocError>
    ensures { OnOk result (AddsFacts (IsInteractionShown plan.now) edges_text
        (length plan.now.model.interactions) text.old.items text.new.items) }
{
    for number in 0..plan.model().interactions().len() {
        draw_interaction(text, plan, InterId(number as u16))?;
    }
    Ok(())
}

/// Draws the second border of an interaction, and its edges to components.
fn draw_interaction(text: &mut Vec<u8>, plan: &Plan, inter: InterId) -> Result<(), AllocError>
    requires { inter.0 < length plan.now.model.interactions }
    ensures { OnOk result (AddsFact (IsInteractionShown plan.now inter.0) (edges_text inter.0)
        text.old.items text.new.items) }
{
    draw_borders(text, inter, reserving(plan, inter))?;
    draw_moved(text, plan, inter)?;
    draw_looks(text, plan, inter)?;
    Ok(())
}

/// Draws the second border of an interaction that is reserved through a component.
fn draw_borders(
    text: &mut Vec<u8>,
    inter: InterId,
    through: Option<CompId>,
) -> Result<(), AllocError>
    ensures { OnOk result (text.new.items ≡ text.old.items ++ borders_text inter.0 through) }
{
    match through {
        None => Ok(()),
        Some(_) => {
            write_node(text, b"i", inter.0)?;
            text.extend_from_slice(b" [peripheries=2];\n")
        }
    }
}

fn draw_moved(text: &mut Vec<u8>, plan: &Plan, inter: InterId) -> Result<(), AllocError>
    requires { inter.0 < length plan.now.model.interactions }
    ensures { OnOk result (text.new.items ≡ text.old.items ++ flat_map (moved_edge inter.0)
        (components_in (participants_of plan.now.model inter.0))) }
{
    let moved = plan.moves(inter);
    for participant in moved {
        write_edge(text, inter, b"c", participant.0.0, b"")?;
    }
    Ok(())
}

fn draw_looks(text: &mut Vec<u8>, plan: &Plan, inter: InterId) -> Result<(), AllocError>
    requires { inter.0 < length plan.now.model.interactions }
    ensures { OnOk result (AddsFact (AreLooks plan.now.model inter.0)
        (flat_map (λ (look : Look). looked_edge inter.0 look.comp))
        text.old.items text.new.items) }
{
    // What is shown of a look has its cause, which is one of these.
    let _above = plan.model().above(inter);
    let seen = plan.looks(inter);
    for comp in seen {
        write_edge(text, inter, b"c", comp.0, b" [style=dashed]")?;
    }
    Ok(())
}

/// Draws the conflicts of the stations.
fn draw_conflicts(text: &mut Vec<u8>, plan: &Plan, stations: &[InterId]) -> Result<(), AllocError>
    requires { AreStations plan.now stations.now }
    ensures { OnOk result
        (AddsStationEdges plan.now stations.now text.old.items text.new.items) }
{
    plan.recall();
    for station in stations {
        draw_conflicts_of(text, plan, *station)?;
    }
    Ok(())
}

/// Draws the conflicts of a station with higher ones.
fn draw_conflicts_of(text: &mut Vec<u8>, plan: &Plan, inter: InterId) -> Result<(), AllocError>
    ensures { OnOk result (AddsFact (IsListConflicting plan.now inter.0)
        (conflicts_text inter.0) text.old.items text.new.items) }
{
    for number in 0..plan.model().interactions().len() {
        let other = InterId(number as u16);
        if conflicts_with(plan, inter, other) {
            draw_conflict(text, inter, other)?;
        }
    }
    Ok(())
}

/// Draws a conflict where the other one is higher.
fn draw_conflict(text: &mut Vec<u8>, inter: InterId, other: InterId) -> Result<(), AllocError>
    ensures { OnOk result
        (text.new.items ≡ text.old.items ++ conflict_text inter.0 other.0) }
{
    if inter.0 < other.0 {
        write_edge(text, inter, b"i", other.0, b" [dir=none,constraint=false]")
    } else {
        Ok(())
    }
}

/// Writes the numbers of all stations into their labels.
fn number_stations(text: &mut Vec<u8>, plan: &Plan, stations: &[InterId]) -> Result<(), AllocError>
    requires { AreStations plan.now stations.now }
    ensures { OnOk result
        (text.new.items ≡ text.old.items ++ numbers_text plan.now stations.now) }
{
    plan.recall();
    for number in 0..stations.len() {
        number_station(text, plan, stations, number)?;
    }
    Ok(())
}

fn number_station(
    text: &mut Vec<u8>,
    plan: &Plan,
    stations: &[InterId],
    number: usize,
) -> Result<(), AllocError>
    requires within { number < length stations.now }
    requires known { slice_index (numbers_in stations.now) number
        < length plan.now.model.interactions }
    ensures { OnOk result
        (text.new.items ≡ text.old.items ++ station_label plan.now stations.now number) }
{
    let inter = stations[number];
    write_node(text, b"i", inter.0)?;
    text.extend_from_slice(b" [label=\"")?;
    write_plain_name(text, plan.model().interaction_names(), inter.0)?;
    text.extend_from_slice(b"\\nstation ")?;
    text.extend_from_slice(Buffer::new().format(number).as_bytes())?;
    text.extend_from_slice(b"\"];\n")
}

/// An edge from an interaction to the node with a letter and a number, and how it is drawn.
fn write_edge(
    text: &mut Vec<u8>,
    inter: InterId,
    letter: &[u8],
    number: u16,
    style: &[u8],
) -> Result<(), AllocError>
    ensures { OnOk result (text.new.items
        ≡ text.old.items ++ edge_from inter.0 letter.now number style.now) }
{
    write_node(text, b"i", inter.0)?;
    text.extend_from_slice(b" -> ")?;
    write_node(text, letter, number)?;
    text.extend_from_slice(style)?;
    text.extend_from_slice(b";\n")
}

fn write_node(text: &mut Vec<u8>, letter: &[u8], number: u16) -> Result<(), AllocError>
    ensures { OnOk result (text.new.items ≡ text.old.items ++ node_name letter.now number) }
{
    text.extend_from_slice(letter)?;
    write_number(text, number)
}

/// The name with a number, and the end of a label.
fn write_label(text: &mut Vec<u8>, names: &[Name], number: u16) -> Result<(), AllocError>
    requires { number < length names.now }
    ensures { OnOk result (text.new.items ≡ text.old.items ++ label_of names.now number) }
{
    write_plain_name(text, names, number)?;
    text.extend_from_slice(b"\"];\n")
}

fn write_plain_name(text: &mut Vec<u8>, names: &[Name], number: u16) -> Result<(), AllocError>
    requires { number < length names.now }
    ensures { OnOk result (text.new.items ≡ text.old.items ++ name_in names.now number) }
{
    text.extend_from_slice(names[number as usize].as_bytes())
}

fn write_number(text: &mut Vec<u8>, number: u16) -> Result<(), AllocError>
    ensures { OnOk result (text.new.items ≡ text.old.items ++ decimal number) }
{
    text.extend_from_slice(Buffer::new().format(number).as_bytes())
}

/// How all is drawn.
#[tactic(auto, unfolding(crate::specs::Drawing::plan_front))]
fn write_front(text: &mut Vec<u8>) -> Result<(), AllocError>
    ensures { OnOk result (text.new.items ≡ text.old.items ++ plan_front) }
{
    text.extend_from_slice(b"digraph plan {\nrankdir=LR;\nfontname=\"sans-serif\";\n")?;
    text.extend_from_slice(b"node [fontname=\"sans-serif\",fontsize=11,shape=box,height=0.3];\n")?;
    text.extend_from_slice(b"edge [fontname=\"sans-serif\",fontsize=10];\n")
}
