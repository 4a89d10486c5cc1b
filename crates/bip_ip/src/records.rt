//! The records of a class's open requests.
ghost use Rattle.std.specs.Prelude.{◌≡◌, ◌<◌, ℕ, IfOk, None, Some, length, map, slice_index_or};
ghost use Rattle.std.specs.Prelude.{slice_set};
ghost use Rattle.std.specs.List.{range_with_len};
ghost use Rattle.std.specs.Option.{option_map};
ghost use Rattle.bip_model.specs.Partitions.{class_in};
ghost use Rattle.bip_ip.specs.Records.{members_of, place_among};
ghost use Rattle.bip_ip.specs.declared.nodes.OpenRecord.{OpenRecord};

use crate::nodes::OpenRecord;
use bip_model::{ClassId, InterId};
use bip_partition::Plan;
use std::alloc::{AllocError, Global};
use std::marker;

/// The records of a class: it has a place for one of each interaction of the class, and of no
/// other. Contracts see a list by the numbers of all interactions.
#[derive(Drop)]
pub(crate) struct Records<'p> {
    plan: &'p Plan,
    class: ClassId,
    places: Vec<Option<OpenRecord>>,
}

impl<'p> marker::Model for Records<'p> {
    ghost use Rattle.std.specs.Prelude.{◌≡◌, length};
    ghost use Rattle.bip_ip.specs.Records.{KeptRecords, members_of, spread};

    ghost Value = { KeptRecords };

    ghost view = { λ r. record {
      plan = r.plan.now;
      class = r.class.0;
      pending = spread (members_of r.plan.now r.class.0) r.places.items
          (length r.plan.now.model.interactions);
    } };

    ghost invariant = { λ r.
        length r.places.items ≡ length (members_of r.plan.now r.class.0) };
}

impl<'p> Records<'p> {
    /// Room for the records of a class, of which none is there.
    pub(crate) fn new(
        alloc: Global,
        plan: &'p Plan,
        class: ClassId,
    ) -> Result<Records<'p>, AllocError>
        ensures { IfOk result (λ records. records ≡ record {
          plan = plan.now;
          class = class.0;
          pending = map (λ k. None) (range_with_len 0 (length plan.now.model.interactions));
        }) }
    {
        let places = no_records(alloc, count_members(plan, class))?;
        Ok(Records {
            plan,
            class,
            places,
        })
    }

    /// The record of an interaction, if there is one.
    pub(crate) fn get(&self, inter: InterId) -> Option<&OpenRecord>
        ensures { option_map (λ e. e.now) result ≡ slice_index_or self.now.pending inter.0 None }
    {
        self.plan.recall();
        let Some(place) = self.place(inter) else {
            return None;
        };
        self.places[place].as_ref()
    }

    /// Puts in the record of an interaction of the class.
    pub(crate) fn put(&mut self, inter: InterId, entry: OpenRecord)
        requires declared { inter.0 < length self.old.plan.model.interactions }
        requires own { class_in self.old.plan.classes inter.0 ≡ self.old.class }
        ensures { self.new ≡ record self.old {
          pending = slice_set self.old.pending inter.0 (Some entry);
        } }
    {
        self.plan.recall();
        let place = self.plan.place_of(inter);
        self.places[place] = Some(entry);
    }

    /// Takes out the record of an interaction of the class, if there is one.
    pub(crate) fn take(&mut self, inter: InterId) -> Option<OpenRecord>
        requires declared { inter.0 < length self.old.plan.model.interactions }
        requires own { class_in self.old.plan.classes inter.0 ≡ self.old.class }
        ensures taken { result ≡ slice_index_or self.old.pending inter.0 None }
        ensures left { self.new ≡ record self.old {
          pending = slice_set self.old.pending inter.0 None;
        } }
    {
        self.plan.recall();
        let place = self.plan.place_of(inter);
        self.places[place].take()
    }

    /// The place of an interaction among those of the class; none where it isn't one of them.
    fn place(&self, inter: InterId) -> Option<usize>
        ensures { result ≡ place_among (members_of self.now.plan self.now.class) inter.0 }
    {
        self.plan.recall();
        if self.plan.model().interactions().len() <= inter.0 as usize {
            return None;
        }
        if self.plan.class_of(inter) != self.class {
            return None;
        }
        Some(self.plan.place_of(inter))
    }
}

/// How many interactions a class has.
fn count_members(plan: &Plan, class: ClassId) -> usize
    ensures { result ≡ length (members_of plan.now class.0) }
{
    let classes = plan.classes();
    if classes.len() <= class.0 as usize {
        return 0;
    }
    classes.members(class).len()
}

/// Room for so many records, of which none is there.
fn no_records(alloc: Global, count: usize) -> Result<Vec<Option<OpenRecord>>, AllocError>
    ensures { IfOk result (λ v. v.items ≡ map (λ k. None) (range_with_len 0 count)) }
{
    (0..count).map(|_| None).collect(alloc)
}
