//! Partitions: the classes into which a model's interactions are parted.
ghost use Rattle.std.specs.Prelude.{◌≡◌, ◌<◌, ◌≤◌, ◌+◌, ◌==◌, ◌↔◌, ℕ, IfOk, IsTrue, OnOk, Err};
ghost use Rattle.std.specs.Prelude.{All, length, map, position, slice_get, slice_index, min};
ghost use Rattle.std.specs.Prelude.{sum_by, Some};
ghost use Rattle.std.specs.List.{list_any};
ghost use Rattle.std.specs.Option.{option_map};
ghost use Rattle.bip_model.specs.Naming.{AreApart, same_text};
ghost use Rattle.bip_model.specs.Partitions.{AreDifferent, IsPartition, in_order, is_member};
ghost use Rattle.bip_model.specs.Partitions.{times_in};
ghost use Rattle.bip_model.specs.declared.numbering.InterId.{InterId};
ghost use Rattle.bip_model.specs.declared.faults.ClassFault.TheVariants.{NotAPartition, Memory};
ghost use Rattle.bip_model.specs.declared.parts.TheConstants.{MOST_INTERACTIONS};

use crate::parts::MOST_INTERACTIONS;
use crate::{ClassFault, ClassId, InterId, Model, Name, Names, Seq};
use std::alloc::{AllocError, Global};
use std::marker;

/// How many classes a partition has at most.
pub const MOST_CLASSES: usize = 32;

/// How many interactions are parted, the names of the classes, and the interactions of each; a
/// name's place is the number of its class.
#[derive(Drop)]
pub struct Partition {
    pub count: u16,
    pub names: Names,
    pub members: Seq<Seq<InterId>>,
}

/// A partition of a model's interactions into classes, each numbered by its place. The interactions
/// of a class stand in order of their numbers. It is always a partition
/// (docs/DEFINITIONS.md, "Partitions"), and contracts see it as its count, names and members.
#[derive(Drop)]
pub struct Classes {
    partition: Partition,
}

impl marker::Model for Classes {
    ghost use Rattle.bip_model.specs.declared.partitions.Partition.{Partition};
    ghost use Rattle.bip_model.specs.Partitions.{IsClasses};

    ghost Value = { Partition };

    ghost view = { λ c. c.partition };

    ghost invariant = { λ c. IsClasses c.partition };
}

impl Classes {
    ghost use Rattle.bip_model.specs.Partitions.{AreClassesOf, IsClasses};

    /// The classes of a model, each a name with its interactions. NotAPartition: they are no
    /// partition (docs/DEFINITIONS.md, "Partitions"); Memory only where they are one.
    pub fn of(
        alloc: Global,
        model: &Model,
        classes: Vec<(Name, Vec<InterId>)>,
    ) -> Result<Classes, ClassFault>
        ensures partition { OnOk result (IsPartition (λ c. c.0) (λ c. c.1.items)
            (length model.now.interactions) classes.items) }
        ensures names { IfOk result (λ made. made.names ≡ map (λ c. c.0) classes.items) }
        ensures members { IfOk result (λ made. made.members
            ≡ map (λ c. in_order c.1.items) classes.items) }
        ensures of_model { IfOk result (AreClassesOf model.now) }
        ensures refused { result ≡ Err NotAPartition
            → ¬ IsPartition (λ c. c.0) (λ c. c.1.items)
            (length model.now.interactions) classes.items }
        ensures memory { result ≡ Err Memory
            → IsPartition (λ c. c.0) (λ c. c.1.items)
            (length model.now.interactions) classes.items }
    {
        let count = model.interactions().len() as u16;
        if !are_partition(classes.as_slice(), count) {
            return Err(ClassFault::NotAPartition);
        }
        let Ok(names) = names_of(alloc, classes.as_slice()) else {
            return Err(ClassFault::Memory);
        };
        let Ok(members) = members_of(alloc, classes.as_slice()) else {
            return Err(ClassFault::Memory);
        };
        Ok(Classes {
            partition: Partition {
                count,
                names,
                members,
            },
        })
    }

    /// How many classes there are.
    pub fn len(&self) -> usize
        ensures members { result ≡ length self.now.members }
        ensures names { result ≡ length self.now.names }
        ensures few { result ≤ MOST_CLASSES }
        ensures valid { IsClasses self.now }
    {
        self.partition.members.len()
    }

    /// The names of the classes, in order of their numbers.
    pub fn names(&self) -> &[Name]
        ensures { result.now ≡ self.now.names }
    {
        self.partition.names.as_slice()
    }

    /// The number of the class with this name, if there is one.
    pub fn number(&self, name: &Name) -> Option<ClassId>
        ensures { option_map (λ k. k.0) result ≡ position (same_text name.now) self.now.names }
    {
        let number = self.partition.names.number_of(name)?;
        Some(ClassId(number as u16))
    }

    /// The class in which an interaction stands; none where it is none of those that are parted.
    pub fn class_of(&self, inter: InterId) -> Option<ClassId>
        ensures class { option_map (λ k. k.0) result
            ≡ position (is_member inter.0) self.now.members }
        ensures valid { IsClasses self.now }
    {
        let number = class_with(self.partition.members.as_slice(), inter)?;
        Some(ClassId(number as u16))
    }

    /// The interactions of a class, in order of their numbers.
    pub fn members(&self, class: ClassId) -> &[InterId]
        requires { class.0 < length self.now.members }
        ensures members { slice_get self.now.members class.0 ≡ Some result.now }
        ensures valid { IsClasses self.now }
    {
        self.partition.members.as_slice()[class.0 as usize].as_slice()
    }
}

/// The number of the class in which an interaction stands.
fn class_with(classes: &[Seq<InterId>], inter: InterId) -> Option<usize>
    ensures { result ≡ position (is_member inter.0) classes.now }
{
    classes
        .iter()
        .position(|class| is_member(class.as_slice(), inter))
}

/// Whether an interaction is in a list.
fn is_member(list: &[InterId], inter: InterId) -> bool
    ensures { result ≡ is_member inter.0 list.now }
{
    list.iter().any(|other| *other == inter)
}

/// Whether classes are a partition of so many interactions. Takes no memory.
pub(crate) fn are_partition(classes: &[(Name, Vec<InterId>)], count: u16) -> bool
    requires { count ≤ MOST_INTERACTIONS }
    ensures { IsTrue result ↔ IsPartition (λ c. c.0) (λ c. c.1.items) count classes.now }
{
    if MOST_CLASSES < classes.len() {
        return false;
    }
    if !are_apart(classes) {
        return false;
    }
    if !are_filled(classes) {
        return false;
    }
    are_known(classes, count) && stand_once(classes, count)
}

fn are_filled(classes: &[(Name, Vec<InterId>)]) -> bool
    ensures { IsTrue result ↔ All (λ c. 0 < length c.1.items) classes.now }
{
    classes.iter().all(|class| !class.1.is_empty())
}

fn are_known(classes: &[(Name, Vec<InterId>)], count: u16) -> bool
    ensures { IsTrue result ↔ All (λ c. All (λ (a : InterId). a.0 < count) c.1.items) classes.now }
{
    classes
        .iter()
        .all(|class| are_below(class.1.as_slice(), count))
}

fn are_apart(classes: &[(Name, Vec<InterId>)]) -> bool
    ensures { IsTrue result ↔ AreApart (map (λ c. c.0) classes.now) }
{
    let Some((first, rest)) = classes.split_first() else {
        return true;
    };
    if is_name_of_one(rest, &first.0) {
        return false;
    }
    are_apart(rest)
}

fn is_name_of_one(classes: &[(Name, Vec<InterId>)], name: &Name) -> bool
    ensures { result ≡ list_any (λ c. same_text name.now c.0) classes.now }
{
    classes.iter().any(|class| *name == class.0)
}

fn are_below(class: &[InterId], count: u16) -> bool
    ensures { IsTrue result ↔ All (λ (a : InterId). a.0 < count) class.now }
{
    class.iter().all(|inter| inter.0 < count)
}

fn stand_once(classes: &[(Name, Vec<InterId>)], count: u16) -> bool
    requires few { count ≤ MOST_INTERACTIONS }
    requires known { All (λ c. All (λ (a : InterId). a.0 < count) c.1.items) classes.now }
    ensures { IsTrue result ↔ ((a : ℕ) → a < count
        → sum_by (λ c. times_in c.1.items a) classes.now ≡ 1) }
{
    let times = times_of_each(classes);
    times[..count as usize].iter().all(|n| *n == 1)
}

/// How often each interaction stands in the classes, up to 255 times.
fn times_of_each(classes: &[(Name, Vec<InterId>)]) -> [u8; MOST_INTERACTIONS]
    requires { All (λ c. All (λ (a : InterId). a.0 < MOST_INTERACTIONS) c.1.items) classes.now }
    ensures { (a : ℕ) → a < MOST_INTERACTIONS → slice_index result a
        ≡ min (sum_by (λ c. times_in c.1.items a) classes.now) 255 }
{
    let mut times = [0; MOST_INTERACTIONS];
    for class in classes {
        add_times(&mut times, class.1.as_slice());
    }
    times
}

/// Adds how often each interaction stands in a class.
fn add_times(times: &mut [u8], class: &[InterId])
    requires { All (λ (a : InterId). a.0 < length times.old) class.now }
    ensures { (a : ℕ) → a < length times.old → slice_index times.new a
        ≡ min (slice_index times.old a + times_in class.now a) 255 }
{
    for inter in class {
        let number = inter.0 as usize;
        times[number] = times[number].saturating_add(1);
    }
}

fn names_of(alloc: Global, classes: &[(Name, Vec<InterId>)]) -> Result<Names, AllocError>
    requires { AreApart (map (λ c. c.0) classes.now) }
    ensures { IfOk result (λ names. names ≡ map (λ c. c.0) classes.now) }
{
    let mut names = Names::new(alloc);
    for class in classes {
        names.push(class.0)?;
    }
    Ok(names)
}

fn members_of(
    alloc: Global,
    classes: &[(Name, Vec<InterId>)],
) -> Result<Seq<Seq<InterId>>, AllocError>
    requires { All (λ c. AreDifferent c.1.items) classes.now }
    ensures { IfOk result (λ members. members ≡ map (λ c. in_order c.1.items) classes.now) }
{
    let mut members = Seq::of(Vec::new(alloc));
    for class in classes {
        members.push(in_order(alloc, class.1.as_slice())?)?;
    }
    Ok(members)
}

fn in_order(alloc: Global, class: &[InterId]) -> Result<Seq<InterId>, AllocError>
    requires { AreDifferent class.now }
    ensures { IfOk result (λ ordered. ordered ≡ in_order class.now) }
{
    let mut ordered = Vec::from_slice(alloc, class)?;
    ordered.sort_unstable_by_key(|inter| inter.0);
    Ok(Seq::of(ordered))
}
