//! What a class holds of the components that it touches: the used numbers that it knows, and
//! offers.
ghost use Rattle.std.specs.Prelude.{◌≡◌, ◌↔◌, ◌<◌, ℕ, IfOk, IsTrue, None, map, true};
ghost use Rattle.std.specs.List.{range_with_len};
ghost use Rattle.std.specs.Option.{option_map};
ghost use Rattle.bip_model.specs.Messages.{IsOfferOf};
ghost use Rattle.bip_model.specs.Numbering.{last_number};
ghost use Rattle.bip_model.specs.Sets.{has};
ghost use Rattle.bip_observe.specs.Offers.{nothing_held, observed};

use bip_model::{ClassId, CompId, Component, Number, Offer, Seq};
use bip_partition::Plan;
use std::alloc::{AllocError, Global};
use std::marker;

/// What a class answers to an offer.
#[derive(Clone, Copy, Debug, PartialEq, Eq)]
pub enum Receipt {
    /// The class holds it from now on.
    Held,
    /// It is no newer than what the class has: its number isn't above that of the offer that is
    /// held, or not above the used one that is known.
    Old,
    /// The class doesn't touch its component, or that one can't make it.
    Stranger,
}

/// What a class has of the components that it touches: of each the greatest used number that it
/// knows, and at most one offer (docs/PROTOCOL.md, "Held offers"). Contracts see what is kept.
#[derive(Drop)]
pub struct Offers<'p> {
    plan: &'p Plan,
    class: ClassId,
    base: Number,
    known: Seq<Number>,
    held: Seq<Option<Offer>>,
}

impl<'p> marker::Model for Offers<'p> {
    ghost use Rattle.bip_observe.specs.Offers.{AreKept, KeptOffers};

    ghost Value = { KeptOffers };

    ghost view = { λ o. record {
      plan = o.plan.now;
      class = o.class.0;
      base = o.base;
      known = o.known;
      held = o.held;
    } };

    ghost invariant = { λ o. AreKept (record {
      plan = o.plan.now;
      class = o.class.0;
      base = o.base;
      known = o.known;
      held = o.held;
    }) };
}

impl<'p> Offers<'p> {
    ghost use Rattle.bip_partition.specs.Plans.{ClassTouches};
    ghost use Rattle.bip_observe.specs.Offers.{AreOwn, IsExpected, IsLeftBy, IsNew, IsReceipt};
    ghost use Rattle.bip_observe.specs.Offers.{with_known};
    ghost use Rattle.bip_observe.specs.Verdicts.{is_counted};

    /// What a class has at first: all used numbers that it knows are the base, and it holds no
    /// offer. It makes room for one of each component, so no later call takes memory.
    pub fn new(
        alloc: Global,
        plan: &'p Plan,
        class: ClassId,
        base: Number,
    ) -> Result<Offers<'p>, AllocError>
        requires { base < last_number }
        ensures { IfOk result (λ offers. observed offers ≡ nothing_held plan.now class.0 base) }
    {
        let count = plan.model().components().len();
        let known = vec![in alloc; base; count]?;
        let held = no_offers(alloc, count)?;
        Ok(Offers {
            plan,
            class,
            base,
            known: Seq::of(known),
            held: Seq::of(held),
        })
    }

    /// Does nothing, and costs nothing: it reminds the prover that each offer that is held is its
    /// component's own.
    #[inline(always)]
    pub fn recall(&self)
        ensures own { AreOwn (observed self.now) }
    {
        let _plan = self.plan();
    }

    /// The plan of which the class is one. Each offer that is held is its component's own.
    pub fn plan(&self) -> &'p Plan
        ensures plan { result.now ≡ self.now.plan }
        ensures own { AreOwn (observed self.now) }
    {
        self.plan
    }

    /// The class.
    pub fn class(&self) -> ClassId
        ensures { result.0 ≡ self.now.class }
    {
        self.class
    }

    /// The greatest used number of a component that the class knows.
    pub fn known(&self, comp: CompId) -> Number
        ensures { result ≡ (observed self.now).known comp.0 }
    {
        self.known
            .as_slice()
            .get(comp.0 as usize)
            .copied()
            .unwrap_or(self.base)
    }

    /// The offer of a component that the class holds, if any. It counts while its number is above
    /// the used one that is known.
    pub fn held(&self, comp: CompId) -> Option<&Offer>
        ensures { option_map (λ offer. offer.now) result ≡ (observed self.now).held comp.0 }
    {
        match self.held.as_slice().get(comp.0 as usize) {
            Some(Some(offer)) => Some(offer),
            _ => None,
        }
    }

    /// Whether the class holds an offer of a component that counts.
    pub fn is_counted(&self, comp: CompId) -> bool
        ensures { result ≡ is_counted (observed self.now) comp.0 }
    {
        match self.held(comp) {
            Some(offer) => self.known(comp) < offer.number,
            None => false,
        }
    }

    /// Takes an offer, and holds it in place of the one before, where it is one that the class can
    /// get and newer than what it has. Else all stays as it was.
    pub fn hold(&mut self, offer: Offer) -> Receipt
        ensures receipt { IsReceipt (observed self.old) offer result }
        ensures left { IsLeftBy offer result self.old self.new }
    {
        if !self.is_expected(&offer) {
            return Receipt::Stranger;
        }
        if !self.is_new(&offer) {
            return Receipt::Old;
        }
        self.held.set(offer.comp.0 as usize, Some(offer));
        Receipt::Held
    }

    /// Learns that a number of a component is used: what the class knows is this number from now
    /// on, where it is greater. Nothing happens where the class doesn't touch the component.
    pub fn spend(&mut self, comp: CompId, number: Number)
        ensures touched { ClassTouches self.old.plan self.old.class comp.0
            → observed self.new ≡ with_known comp.0 number (observed self.old) }
        ensures others { (¬ ClassTouches self.old.plan self.old.class comp.0)
            → self.new ≡ self.old }
        ensures plan { self.new.plan ≡ self.old.plan }
        ensures class { self.new.class ≡ self.old.class }
        ensures held { self.new.held ≡ self.old.held }
    {
        if self.plan.class_touches(self.class, comp) && self.known(comp) < number {
            self.known.set(comp.0 as usize, number);
        }
    }

    /// Whether the class can get an offer.
    fn is_expected(&self, offer: &Offer) -> bool
        ensures { IsTrue result ↔ IsExpected self.now.plan self.now.class offer.now }
    {
        if !self.plan.class_touches(self.class, offer.comp) {
            return false;
        }
        match self.plan.model().components().get(offer.comp.0 as usize) {
            Some(component) => can_make(component, offer),
            None => false,
        }
    }

    /// Whether an offer is newer than what the class has.
    fn is_new(&self, offer: &Offer) -> bool
        ensures { IsTrue result ↔ IsNew (observed self.now) offer.now }
    {
        if offer.number <= self.known(offer.comp) {
            return false;
        }
        match self.held(offer.comp) {
            Some(held) => held.number < offer.number,
            None => true,
        }
    }
}

/// Room for so many offers, of which none is there.
fn no_offers(alloc: Global, count: usize) -> Result<Vec<Option<Offer>>, AllocError>
    ensures { IfOk result (λ v. v.items ≡ map (λ k. None) (range_with_len 0 count)) }
{
    (0..count).map(|_| None).collect(alloc)
}

/// Whether an offer has a value for each variable of a component, and is on for none but its ports.
fn can_make(component: &Component, offer: &Offer) -> bool
    ensures { IsTrue result ↔ IsOfferOf component.now offer.now }
{
    offer.values.as_slice().len() == component.variables.len()
        && are_ports(offer.ports, component.ports.len())
}

/// Whether no port is on from a number on: so no component with as many ports lacks one.
pub fn are_ports(ports: u16, count: usize) -> bool
    ensures { IsTrue result ↔ ((p : ℕ) → has ports p ≡ true → p < count) }
{
    16 <= count || ports >> count == 0
}
