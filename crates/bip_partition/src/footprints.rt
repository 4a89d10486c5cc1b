//! What a plan keeps of each interaction and each class, so that questions search nothing.
ghost use Rattle.std.specs.Prelude.{◌≡◌, ◌<◌, ◌==◌, ℕ, All, IfOk, length, position};
ghost use Rattle.std.specs.List.{list_any};
ghost use Rattle.bip_model.specs.Partitions.{AreClassesOf, IsClasses, class_in};
ghost use Rattle.bip_model.specs.Parts.{Participant};
ghost use Rattle.bip_model.specs.Sets.{has};
ghost use Rattle.bip_model.specs.declared.numbering.CompId.{CompId};
ghost use Rattle.bip_model.specs.declared.numbering.InterId.{InterId};
ghost use Rattle.bip_partition.specs.Plans.{IsListTouched};
ghost use Rattle.bip_partition.specs.Tables.{AreFootprints, AreListsTouched, AreSetsTouched};
ghost use Rattle.bip_partition.specs.Tables.{HaveBits, IsFootprint, touched_among};

use crate::sets::{joined, with_comp};
use bip_model::{ClassId, Classes, CompId, InterId, Model, PortId, Seq};
use std::alloc::{AllocError, Global};

/// What a plan keeps of an interaction: the sets of the components that it moves and that it
/// touches, its class, and its place among the members of that.
#[derive(Clone, Copy)]
pub(crate) struct Footprint {
    pub moved: u64,
    pub touched: u64,
    pub class: ClassId,
    pub place: usize,
}

impl Footprint {
    /// What is kept of an interaction that touches these components.
    fn of(model: &Model, classes: &Classes, inter: InterId, touched: &[CompId]) -> Footprint
        requires parted { AreClassesOf model.now classes.now }
        requires declared { inter.0 < length model.now.interactions }
        requires touched { IsListTouched model.now inter.0 touched.now }
        ensures { IsFootprint (record { model = model.now; classes = classes.now }) inter.0
            result }
    {
        let class = class_of(classes, inter);
        Footprint {
            moved: set_moved(model.participants(inter)),
            touched: set_of(touched),
            class,
            place: place_among(classes.members(class), inter).unwrap_or(0),
        }
    }
}

/// The class of an interaction.
fn class_of(classes: &Classes, inter: InterId) -> ClassId
    ensures class { result.0 ≡ class_in classes.now inter.0 }
    ensures valid { IsClasses classes.now }
{
    classes.class_of(inter).unwrap_or(ClassId(0))
}

/// The set of these components.
fn set_of(comps: &[CompId]) -> u64
    requires { HaveBits comps.now }
    ensures { (c : ℕ) → has result c ≡ list_any (λ (d : CompId). d.0 == c) comps.now }
{
    let mut set = 0;
    for comp in comps {
        set = with_comp(set, *comp);
    }
    set
}

/// The set of the components of these participants.
fn set_moved(participants: &[(CompId, PortId)]) -> u64
    requires { All (λ (q : Participant). q.0.0 < 64) participants.now }
    ensures { (c : ℕ) → has result c
        ≡ list_any (λ (q : Participant). q.0.0 == c) participants.now }
{
    let mut set = 0;
    for participant in participants {
        set = with_comp(set, participant.0);
    }
    set
}

/// The place of an interaction among these, if it is one of them.
fn place_among(members: &[InterId], inter: InterId) -> Option<usize>
    ensures { result ≡ position (λ (b : InterId). b.0 == inter.0) members.now }
{
    members.iter().position(|one| *one == inter)
}

/// The set of the components that some interactions touch.
fn set_touched(footprints: &[Footprint], members: &[InterId]) -> u64
    requires { All (λ (a : InterId). a.0 < length footprints.now) members.now }
    ensures { (c : ℕ) → has result c ≡ touched_among footprints.now members.now c }
{
    let mut set = 0;
    for member in members {
        set = joined(set, footprints[member.0 as usize].touched);
    }
    set
}

/// What is kept of each interaction in turn; each has a list of the components that it touches.
pub(crate) fn list_footprints(
    alloc: Global,
    model: &Model,
    classes: &Classes,
    touches: &[Seq<CompId>],
) -> Result<Seq<Footprint>, AllocError>
    requires parted { AreClassesOf model.now classes.now }
    requires touched { AreListsTouched model.now (length model.now.interactions) touches.now }
    ensures { IfOk result (AreFootprints (record { model = model.now; classes = classes.now })
        (length model.now.interactions)) }
{
    let mut list = Seq::of(Vec::new(alloc));
    for number in 0..model.interactions().len() {
        let inter = InterId(number as u16);
        list.push(Footprint::of(model, classes, inter, touches[number].as_slice()))?;
    }
    Ok(list)
}

/// For each class in turn the set of the components that its members touch.
pub(crate) fn list_class_sets(
    alloc: Global,
    classes: &Classes,
    footprints: &[Footprint],
) -> Result<Seq<u64>, AllocError>
    requires { classes.now.count ≡ length footprints.now }
    ensures sets { IfOk result (AreSetsTouched footprints.now classes.now.members
        (length classes.now.members)) }
    ensures valid { IsClasses classes.now }
{
    let mut sets = Seq::of(Vec::new(alloc));
    for number in 0..classes.len() {
        sets.push(set_touched(footprints, classes.members(ClassId(number as u16))))?;
    }
    Ok(sets)
}
