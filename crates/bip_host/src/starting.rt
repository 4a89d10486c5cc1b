//! How the nodes of a host begin: the inboxes, and each node with its ends.
ghost use Rattle.std.specs.Prelude.{◌≡◌, ◌≤◌, IfOk, IfSome, length};
ghost use Rattle.bip_host.specs.Classes.{IsFirstClassActor};
ghost use Rattle.bip_host.specs.Starting.{AreClassNodes, AreComponentNodes, IsStationAt};
ghost use Rattle.bip_host.specs.Tables.{form_of, form_of_layers, most_of};
ghost use Rattle.bip_model.specs.Partitions.{class_in};

use crate::addressed::Addressed;
use crate::classes::ClassActor;
use crate::components::ComponentActor;
use crate::ends::{Intake, Outlets};
use crate::gates::Gate;
use crate::hands::{ClassHands, ComponentHands};
use crate::inboxes::Inbox;
use crate::keepers::{BookKeeper, BookLock};
use crate::layers::{Layers, ThirdLayer};
use crate::mailboxes::Mailbox;
use crate::messages::{ToClass, ToStation};
use crate::rests::Strides;
use crate::tables::CommonTable;
use crate::waiting::WaitingBook;
use bip_model::{ClassId, CompId, InterId, Notify};
use bip_partition::Plan;
use std::alloc::{AllocError, Global};
use std::sync::ledger::Ledger;

/// What the nodes of a host share, in one place, so that they borrow it for one lifetime.
#[derive(Drop)]
pub(crate) struct Commons<'m, L: Ledger> {
    /// The table that all classes ask, where one decides.
    pub(crate) table: CommonTable<L>,
    pub(crate) book: BookLock<'m>,
    /// By class: what components offer it, and stations answer it.
    pub(crate) offers: Vec<Inbox<ToClass>>,
    /// By component: what classes notify it of.
    pub(crate) notices: Vec<Inbox<Notify>>,
    /// By station: what its class asks it, and stations hand on to it.
    pub(crate) shares: Vec<Inbox<ToStation>>,
    /// How many turns they make.
    pub(crate) strides: Strides,
}

impl<'m, L: Ledger> Commons<'m, L> {
    /// The book, once nobody shares them.
    pub(crate) fn into_book(self) -> WaitingBook<'m> {
        let Commons {
            table,
            book,
            offers,
            notices,
            shares,
            strides,
        } = self;
        // By calls: what is let go without takes the prover long (CONTRIBUTING, "Proving").
        drop(table);
        drop(offers);
        drop(notices);
        drop(shares);
        drop(strides);
        book.into_book()
    }
}

/// The inboxes of all classes: each has a writer for each component that the class touches, and for
/// each of its interactions, if these have stations.
pub(crate) fn class_mailboxes(
    alloc: Global,
    plan: &Plan,
    has_stations: bool,
) -> Result<Vec<Mailbox<ToClass>>, AllocError>
    ensures { IfOk result (λ boxes. length boxes.items ≡ length plan.now.classes.members) }
{
    let mut mailboxes = Vec::new(alloc);
    for number in 0..plan.classes().len() {
        let class = ClassId(number as u16);
        let answering = if has_stations {
            plan.classes().members(class).len()
        } else {
            0
        };
        let count = count_touched(plan, class).saturating_add(answering);
        mailboxes.push(Mailbox::new(alloc, count)?)?;
    }
    Ok(mailboxes)
}

/// How many components a class touches.
fn count_touched(plan: &Plan, class: ClassId) -> usize
    ensures { result ≤ length plan.now.model.components }
{
    let mut count: usize = 0;
    for number in 0..plan.model().components().len() {
        if plan.class_touches(class, CompId(number as u16)) {
            count += 1;
        }
    }
    count
}

/// The interaction that the station with a number decides for, and its class, if there is one.
pub(crate) fn decided_at(plan: &Plan, number: usize) -> Option<(InterId, ClassId)>
    ensures station { IfSome result (λ found. IsStationAt plan.now number found.0) }
    ensures class { IfSome result (λ found. found.1.0 ≡ class_in plan.now.classes found.0.0) }
{
    let inter = *plan.stations().get(number)?;
    if plan.model().interactions().len() <= usize::from(inter.0) {
        return None;
    }
    Some((inter, plan.class_of(inter)))
}

/// The inboxes of all components: each has a writer for each class that touches the component.
pub(crate) fn component_mailboxes(
    alloc: Global,
    plan: &Plan,
) -> Result<Vec<Mailbox<Notify>>, AllocError>
    ensures { IfOk result (λ boxes. length boxes.items ≡ length plan.now.model.components) }
{
    let mut mailboxes = Vec::new(alloc);
    for number in 0..plan.model().components().len() {
        let count = plan.classes_of(CompId(number as u16)).len();
        mailboxes.push(Mailbox::new(alloc, count)?)?;
    }
    Ok(mailboxes)
}

/// The nodes of all components, each with its own inbox: they stand by component.
#[tactic(auto, using(crate::proofs::StartingLemmas::no_component))]
pub(crate) fn start_components<'h, 'p>(
    alloc: Global,
    plan: &'p Plan,
    intakes: Vec<Intake<'h, Notify>>,
    offers: &mut Outlets<'h, ToClass>,
) -> Result<Vec<(ComponentActor<'p>, ComponentHands<'h>)>, AllocError>
    ensures { IfOk result (λ nodes. AreComponentNodes plan.now nodes.items) }
{
    let mut nodes = Vec::with_capacity(alloc, intakes.len())?;
    for intake in intakes {
        let number = nodes.len();
        if number >= plan.model().components().len() {
            return Ok(nodes);
        }
        let comp = CompId(number as u16);
        let classes = class_outlets(alloc, plan.classes_of(comp), offers)?;
        nodes.push((
            ComponentActor::new(plan, comp),
            ComponentHands { intake, classes },
        ))?;
    }
    Ok(nodes)
}

/// An outlet to each of these classes.
fn class_outlets<'h>(
    alloc: Global,
    classes: &[ClassId],
    offers: &mut Outlets<'h, ToClass>,
) -> Result<Addressed<'h, ToClass>, AllocError>
    ensures { IfOk result (λ outlets. outlets.inboxes.now ≡ offers.old.inboxes.now) }
{
    let mut outlets = Addressed::new(alloc, offers.inboxes());
    for class in classes {
        let number = class.0 as usize;
        if let Some(outlet) = offers.take(number) {
            outlets.add(number, outlet)?;
        }
    }
    Ok(outlets)
}

/// The nodes of all classes, each with its own inbox and of whom it asks: they stand by class.
#[tactic(auto, using(crate::proofs::StartingLemmas::no_class))]
pub(crate) fn start_classes<'h, 'p, 'm, 'g, L: Ledger, G: Gate>(
    alloc: Global,
    plan: &'p Plan,
    book: &'h BookLock<'m>,
    intakes: Vec<Intake<'h, ToClass>>,
    notices: &mut Outlets<'h, Notify>,
    mut layers: Layers<'h, 'p, L>,
    gate: &'g G,
) -> Result<Vec<(ClassActor<'p>, ClassHands<'h, 'm, 'g, 'p, L, G>)>, AllocError>
    ensures { IfOk result (λ nodes.
        AreClassNodes plan.now (form_of_layers layers.entry) nodes.items) }
{
    let mut nodes = match Vec::with_capacity(alloc, intakes.len()) {
        Ok(nodes) => nodes,
        Err(refused) => {
            drop(intakes);
            drop(layers);
            return Err(refused);
        }
    };
    for intake in intakes {
        match class_parts(alloc, plan, nodes.len(), notices, &mut layers) {
            Ok(Some((actor, components, layer))) => {
                let hands = ClassHands {
                    intake,
                    components,
                    layer,
                    keeper: BookKeeper::of(book),
                    gate,
                    class: ClassId(nodes.len() as u16),
                };
                nodes.push((actor, hands))?;
            }
            Ok(None) => {
                drop(intake);
                break;
            }
            Err(refused) => {
                drop(intake);
                drop(layers);
                drop(nodes);
                return Err(refused);
            }
        }
    }
    drop(layers);
    Ok(nodes)
}

/// The actor of the class with a number, an outlet to each component that it touches, and its third
/// layer, if there is such a class and what it takes.
fn class_parts<'h, 'p, L: Ledger>(
    alloc: Global,
    plan: &'p Plan,
    number: usize,
    notices: &mut Outlets<'h, Notify>,
    layers: &mut Layers<'h, 'p, L>,
) -> Result<Option<(ClassActor<'p>, Addressed<'h, Notify>, ThirdLayer<'h, 'p, L>)>, AllocError>
    ensures actor { IfOk result (λ made. IfSome made (λ parts.
        IsFirstClassActor plan.now number (most_of (form_of_layers layers.old)) parts.0)) }
    ensures form { IfOk result (λ made. IfSome made (λ parts.
        form_of parts.2 ≡ form_of_layers layers.old)) }
    ensures layers { form_of_layers layers.new ≡ form_of_layers layers.old }
{
    if number >= plan.classes().len() {
        return Ok(None);
    }
    let class = ClassId(number as u16);
    let most = layers.most();
    let Some(layer) = layers.of_class(alloc, plan, class)? else {
        return Ok(None);
    };
    let components = match component_outlets(alloc, plan, class, notices) {
        Ok(components) => components,
        Err(refused) => {
            drop(layer);
            return Err(refused);
        }
    };
    match ClassActor::new(alloc, plan, class, most) {
        Ok(actor) => Ok(Some((actor, components, layer))),
        Err(refused) => {
            drop(layer);
            drop(components);
            Err(refused)
        }
    }
}

/// An outlet to each component that a class touches, by component.
fn component_outlets<'h>(
    alloc: Global,
    plan: &Plan,
    class: ClassId,
    notices: &mut Outlets<'h, Notify>,
) -> Result<Addressed<'h, Notify>, AllocError>
    ensures { IfOk result (λ outlets. outlets.inboxes.now ≡ notices.old.inboxes.now) }
{
    let mut outlets = Addressed::new(alloc, notices.inboxes());
    for number in 0..plan.model().components().len() {
        if plan.class_touches(class, CompId(number as u16)) {
            if let Some(outlet) = notices.take(number) {
                outlets.add(number, outlet)?;
            }
        }
    }
    Ok(outlets)
}
