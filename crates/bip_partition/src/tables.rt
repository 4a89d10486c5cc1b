//! What a plan keeps, made from a model and its classes.
ghost use Rattle.std.specs.Prelude.{◌≡◌, ◌<◌, ◌≤◌, ◌↔◌, ℕ, All, Any, IfNone, IfOk, IfSome, IsTrue};
ghost use Rattle.std.specs.Prelude.{None, Some, find, length, not};
ghost use Rattle.std.specs.List.{list_any};
ghost use Rattle.bip_model.specs.Partitions.{AreClassesOf, IsClasses};
ghost use Rattle.bip_model.specs.Parts.{IsSystem};
ghost use Rattle.bip_model.specs.Sets.{has};
ghost use Rattle.bip_model.specs.Steps.{IsLookedAt};
ghost use Rattle.bip_model.specs.declared.numbering.CompId.{CompId};
ghost use Rattle.bip_model.specs.declared.numbering.InterId.{InterId};
ghost use Rattle.bip_partition.specs.Plans.{AreStations, IsListTouched, IsListTouching, IsReserved};
ghost use Rattle.bip_partition.specs.Plans.{Planned, Touches};
ghost use Rattle.bip_partition.specs.Tables.{AreListsTouched, AreListsTouching, AreSeedsBelow};
ghost use Rattle.bip_partition.specs.Tables.{ArePlanTables, AreTabled, HaveBits, IsLinked};
ghost use Rattle.bip_partition.specs.Tables.{IsListReservedBy, IsSeed, meets, outside_beside};

use crate::footprints::{Footprint, list_class_sets, list_footprints};
use crate::sets::{has_comp, with_comp};
use bip_model::{ClassId, Classes, CompId, InterId, Model, Seq};
use std::alloc::{AllocError, Global};

/// What a plan keeps: for each interaction the components that it touches, for each component the
/// classes that touch it, the set of the components with a row in the table, the stations; and for
/// each interaction and each class what answers a question about it at once.
#[derive(Drop)]
pub(crate) struct Tables {
    pub touches: Seq<Seq<CompId>>,
    pub touching: Seq<Seq<ClassId>>,
    pub tabled: u64,
    pub stations: Seq<InterId>,
    pub footprints: Seq<Footprint>,
    pub class_sets: Seq<u64>,
}

/// Whether an interaction touches a component; false for numbers that the model lacks.
pub(crate) fn touches(model: &Model, inter: InterId, comp: CompId) -> bool
    ensures { IsTrue result ↔ Touches model.now inter.0 comp.0 }
{
    model.moves(inter, comp) || model.is_looked_at(inter, comp)
}

/// The components that an interaction touches, in order of their numbers.
fn list_touched(alloc: Global, model: &Model, inter: InterId) -> Result<Seq<CompId>, AllocError>
    ensures { IfOk result (IsListTouched model.now inter.0) }
{
    let mut list = Seq::of(Vec::new(alloc));
    for number in 0..model.components().len() {
        let comp = CompId(number as u16);
        if touches(model, inter, comp) {
            list.push(comp)?;
        }
    }
    Ok(list)
}

fn lists_touched(alloc: Global, model: &Model) -> Result<Seq<Seq<CompId>>, AllocError>
    ensures lists { IfOk result (AreListsTouched model.now (length model.now.interactions)) }
    ensures valid { IsSystem model.now }
{
    let mut lists = Seq::of(Vec::new(alloc));
    for number in 0..model.interactions().len() {
        let list = list_touched(alloc, model, InterId(number as u16))?;
        lists.push(list)?;
    }
    Ok(lists)
}

/// Whether one of some interactions touches a component.
fn touch_it(model: &Model, inters: &[InterId], comp: CompId) -> bool
    ensures { IsTrue result
        ↔ Any (λ (a : InterId). Touches model.now a.0 comp.0) inters.now }
{
    inters.iter().any(|inter| touches(model, *inter, comp))
}

/// The classes that touch a component, in order of their numbers.
fn list_touching(
    alloc: Global,
    model: &Model,
    classes: &Classes,
    comp: CompId,
) -> Result<Seq<ClassId>, AllocError>
    ensures { IfOk result (IsListTouching
        (record { model = model.now; classes = classes.now }) comp.0) }
{
    let mut list = Seq::of(Vec::new(alloc));
    for number in 0..classes.len() {
        let class = ClassId(number as u16);
        if touch_it(model, classes.members(class), comp) {
            list.push(class)?;
        }
    }
    Ok(list)
}

fn lists_touching(
    alloc: Global,
    model: &Model,
    classes: &Classes,
) -> Result<Seq<Seq<ClassId>>, AllocError>
    ensures { IfOk result (AreListsTouching
        (record { model = model.now; classes = classes.now }) (length model.now.components)) }
{
    let mut lists = Seq::of(Vec::new(alloc));
    for number in 0..model.components().len() {
        let list = list_touching(alloc, model, classes, CompId(number as u16))?;
        lists.push(list)?;
    }
    Ok(lists)
}

/// Whether some interaction looks at a component.
fn is_looked_at(model: &Model, comp: CompId) -> bool
    ensures { IsTrue result ↔ ((a : ℕ) × IsLookedAt model.now a comp.0) }
{
    for number in 0..model.interactions().len() {
        if model.is_looked_at(InterId(number as u16), comp) {
            return true;
        }
    }
    false
}

/// Whether a component has a row whatever is beside it: more than one class touches it, or some
/// interaction looks at it.
fn is_seed(model: &Model, touching: &[Seq<ClassId>], comp: CompId) -> bool
    requires { comp.0 < length touching.now }
    ensures { IsTrue result ↔ IsSeed model.now touching.now comp.0 }
{
    1 < touching[comp.0 as usize].len() || is_looked_at(model, comp)
}

/// The set of these components.
fn seeds(model: &Model, touching: &[Seq<ClassId>]) -> u64
    requires { length touching.now ≡ length model.now.components }
    ensures { AreSeedsBelow model.now touching.now (length model.now.components) result }
{
    let mut set = 0;
    for number in 0..model.components().len() {
        let comp = CompId(number as u16);
        if is_seed(model, touching, comp) {
            set = with_comp(set, comp);
        }
    }
    set
}

/// The components of a set, and with each all that an interaction touches beside it.
fn linked(touches: &[Seq<CompId>], seeds: u64) -> u64
    requires { All HaveBits touches.now }
    ensures { (c : ℕ) → IsTrue (has result c) ↔ IsLinked touches.now seeds c }
{
    let mut set = seeds;
    while let Some(comp) = missing(touches, set) {
        set = with_comp(set, comp);
    }
    set
}

/// A component outside of the set that an interaction touches beside one inside.
fn missing(touches: &[Seq<CompId>], set: u64) -> Option<CompId>
    requires { All HaveBits touches.now }
    ensures some { IfSome result (λ c.
        Any (λ touched. outside_beside set touched ≡ Some c) touches.now) }
    ensures none { IfNone result
        (All (λ touched. outside_beside set touched ≡ None) touches.now) }
{
    for touched in touches {
        if let Some(comp) = outside_beside(touched.as_slice(), set) {
            return Some(comp);
        }
    }
    None
}

fn outside_beside(touched: &[CompId], set: u64) -> Option<CompId>
    requires { HaveBits touched.now }
    ensures { result ≡ outside_beside set touched.now }
{
    if meets(touched, set) {
        outside(touched, set)
    } else {
        None
    }
}

/// Whether a list has a component of a set.
fn meets(touched: &[CompId], set: u64) -> bool
    requires { HaveBits touched.now }
    ensures { result ≡ meets set touched.now }
{
    touched.iter().any(|comp| has_comp(set, *comp))
}

fn outside(touched: &[CompId], set: u64) -> Option<CompId>
    requires { HaveBits touched.now }
    ensures { result ≡ find (λ (c : CompId). not (has set c.0)) touched.now }
{
    touched.iter().copied().find(|comp| !has_comp(set, *comp))
}

/// The interactions whose lists have a component of a set, in order of their numbers.
fn list_reserved(
    alloc: Global,
    touches: &[Seq<CompId>],
    set: u64,
) -> Result<Seq<InterId>, AllocError>
    requires bits { All HaveBits touches.now }
    requires few { length touches.now ≤ 128 }
    ensures { IfOk result (IsListReservedBy touches.now set (length touches.now)) }
{
    let mut list = Seq::of(Vec::new(alloc));
    for number in 0..touches.len() {
        if meets(touches[number].as_slice(), set) {
            list.push(InterId(number as u16))?;
        }
    }
    Ok(list)
}

impl Tables {
    /// All that the plan of a model with classes keeps.
    pub(crate) fn of(alloc: Global, model: &Model, classes: &Classes) -> Result<Tables, AllocError>
        requires { AreClassesOf model.now classes.now }
        ensures { IfOk result (ArePlanTables
            (record { model = model.now; classes = classes.now })) }
    {
        let touches = lists_touched(alloc, model)?;
        let touching = lists_touching(alloc, model, classes)?;
        let tabled = linked(touches.as_slice(), seeds(model, touching.as_slice()));
        let stations = list_reserved(alloc, touches.as_slice(), tabled)?;
        let footprints = list_footprints(alloc, model, classes, touches.as_slice())?;
        let class_sets = list_class_sets(alloc, classes, footprints.as_slice())?;
        Ok(Tables {
            touches,
            touching,
            tabled,
            stations,
            footprints,
            class_sets,
        })
    }
}
