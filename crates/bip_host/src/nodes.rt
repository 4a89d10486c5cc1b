//! The nodes of a host, each an actor with its hands, which has a thread of its own.
ghost use Rattle.std.specs.Prelude.{◌≡◌, ◌+◌, ◌≤◌, IfOk, OnOk, length};
ghost use Rattle.bip_host.specs.Nodes.{count_nodes, count_stations, kind_of};

use crate::actors::{NodeEnd, run_actor};
use crate::aims::{Aim, Watch};
use crate::classes::ClassActor;
use crate::components::ComponentActor;
use crate::forks::ForkActor;
use crate::gates::Gate;
use crate::hands::{ClassHands, ComponentHands, StationHands};
use crate::hosts::Kind;
use crate::noting::{NotingClass, NotingComponent, NotingStation};
use crate::rests::Strides;
use crate::rings::RingActor;
use std::alloc::{AllocError, Global};
use std::sync::Wait;
use std::sync::ledger::Ledger;

/// All nodes of a host.
#[derive(Drop)]
pub(crate) struct Nodes<'h, 'p, 'm, 'g, L: Ledger, G> {
    pub(crate) components: Vec<(ComponentActor<'p>, ComponentHands<'h>)>,
    pub(crate) classes: Vec<(ClassActor<'p>, ClassHands<'h, 'm, 'g, 'p, L, G>)>,
    pub(crate) stations: Stations<'h, 'm>,
}

/// The stations of a host: those of its kind.
#[derive(Drop)]
pub(crate) enum Stations<'h, 'm> {
    /// There are none: one table decides.
    Central,
    Ring(Vec<(RingActor, StationHands<'h, 'm>)>),
    Forks(Vec<(ForkActor, StationHands<'h, 'm>)>),
}

/// A node, whichever it is.
#[derive(Drop)]
pub(crate) enum Node<'h, 'p, 'm, 'g, L: Ledger, G> {
    Component(ComponentActor<'p>, ComponentHands<'h>),
    Class(ClassActor<'p>, ClassHands<'h, 'm, 'g, 'p, L, G>),
    Ring(RingActor, StationHands<'h, 'm>),
    Forks(ForkActor, StationHands<'h, 'm>),
}

impl<'h, 'p, 'm, 'g, L: Ledger, G: Gate> Node<'h, 'p, 'm, 'g, L, G> {
    /// What its thread sees of an aim, beside threads that make such turns. Stations don't count: a
    /// ring's token goes round all the time, and what else they do is for a class whose request is
    /// open.
    pub(crate) fn watch(&self, aim: Option<&'h Aim>, strides: &'h Strides) -> Watch<'h> {
        match self {
            Node::Component(..) => Watch::counted(aim, Some(strides)),
            Node::Class(..) => Watch::counted(aim, Some(strides)),
            Node::Ring(..) => Watch::beside(aim, Some(strides)),
            Node::Forks(..) => Watch::beside(aim, Some(strides)),
        }
    }

    /// Makes so many turns, or fewer where the node ends before, or the host is over (docs/HOST.md,
    /// "Turns"). A gate that listens is told what it does.
    pub(crate) fn run<R: Wait>(self, rt: &R, turns: u32, watch: Watch<'h>, gate: &'g G) -> NodeEnd
        ensures { result.turns ≤ turns }
    {
        if gate.listens() {
            return self.run_noting(rt, turns, watch, gate);
        }
        match self {
            Node::Component(actor, hands) => run_actor(rt, actor, hands, turns, watch),
            Node::Class(actor, hands) => run_actor(rt, actor, hands, turns, watch),
            Node::Ring(actor, hands) => run_actor(rt, actor, hands, turns, watch),
            Node::Forks(actor, hands) => run_actor(rt, actor, hands, turns, watch),
        }
    }

    /// The same where the gate is told what the node does.
    fn run_noting<R: Wait>(self, rt: &R, turns: u32, watch: Watch<'h>, gate: &'g G) -> NodeEnd
        ensures { result.turns ≤ turns }
    {
        match self {
            Node::Component(actor, hands) => {
                run_actor(rt, actor, NotingComponent { hands, gate }, turns, watch)
            }
            Node::Class(actor, hands) => {
                let noting = NotingClass { hands, waits: None };
                run_actor(rt, actor, noting, turns, watch)
            }
            Node::Ring(actor, hands) => {
                run_actor(rt, actor, NotingStation { hands, gate }, turns, watch)
            }
            Node::Forks(actor, hands) => {
                run_actor(rt, actor, NotingStation { hands, gate }, turns, watch)
            }
        }
    }
}

impl<'h, 'm> Stations<'h, 'm> {
    /// Which kind of third layer they are of.
    pub(crate) fn kind(&self) -> Kind
        ensures { result ≡ kind_of self.now }
    {
        match self {
            Stations::Central => Kind::Central,
            Stations::Ring(_) => Kind::Ring,
            Stations::Forks(_) => Kind::Forks,
        }
    }
}

impl<'h, 'p, 'm, 'g, L: Ledger, G: Gate> Nodes<'h, 'p, 'm, 'g, L, G> {
    /// All nodes, one behind another.
    pub(crate) fn into_list(
        self,
        alloc: Global,
    ) -> Result<Vec<Node<'h, 'p, 'm, 'g, L, G>>, AllocError>
        ensures { IfOk result (λ nodes. length nodes.items ≡ count_nodes self.entry) }
    {
        let Nodes {
            components,
            classes,
            stations,
        } = self;
        // By calls: what is let go without takes the prover long (CONTRIBUTING, "Proving").
        let mut nodes = match Vec::with_capacity(alloc, components.len()) {
            Ok(nodes) => nodes,
            Err(refused) => {
                drop(components);
                drop(classes);
                drop(stations);
                return Err(refused);
            }
        };
        if let Err(refused) = add_components(&mut nodes, components) {
            drop(classes);
            drop(stations);
            drop(nodes);
            return Err(refused);
        }
        if let Err(refused) = add_classes(&mut nodes, classes) {
            drop(stations);
            drop(nodes);
            return Err(refused);
        }
        match add_stations(&mut nodes, stations) {
            Ok(()) => Ok(nodes),
            Err(refused) => {
                drop(nodes);
                Err(refused)
            }
        }
    }
}

/// Nodes join others, behind them.
fn add_components<'h, 'p, 'm, 'g, L: Ledger, G: Gate>(
    nodes: &mut Vec<Node<'h, 'p, 'm, 'g, L, G>>,
    components: Vec<(ComponentActor<'p>, ComponentHands<'h>)>,
) -> Result<(), AllocError>
    ensures { OnOk result (length nodes.new.items
        ≡ length nodes.old.items + length components.entry.items) }
{
    for (actor, hands) in components {
        if let Err(refused) = nodes.push(Node::Component(actor, hands)) {
            drop(refused);
            return Err(AllocError);
        }
    }
    Ok(())
}

/// Nodes join others, behind them.
fn add_classes<'h, 'p, 'm, 'g, L: Ledger, G: Gate>(
    nodes: &mut Vec<Node<'h, 'p, 'm, 'g, L, G>>,
    classes: Vec<(ClassActor<'p>, ClassHands<'h, 'm, 'g, 'p, L, G>)>,
) -> Result<(), AllocError>
    ensures { OnOk result (length nodes.new.items
        ≡ length nodes.old.items + length classes.entry.items) }
{
    for (actor, hands) in classes {
        if let Err(refused) = nodes.push(Node::Class(actor, hands)) {
            drop(refused);
            return Err(AllocError);
        }
    }
    Ok(())
}

/// Nodes join others, behind them.
fn add_stations<'h, 'p, 'm, 'g, L: Ledger, G: Gate>(
    nodes: &mut Vec<Node<'h, 'p, 'm, 'g, L, G>>,
    stations: Stations<'h, 'm>,
) -> Result<(), AllocError>
    ensures { OnOk result (length nodes.new.items
        ≡ length nodes.old.items + count_stations stations.entry) }
{
    match stations {
        Stations::Central => Ok(()),
        Stations::Ring(stations) => add_ring(nodes, stations),
        Stations::Forks(stations) => add_forks(nodes, stations),
    }
}

/// Nodes join others, behind them.
fn add_ring<'h, 'p, 'm, 'g, L: Ledger, G: Gate>(
    nodes: &mut Vec<Node<'h, 'p, 'm, 'g, L, G>>,
    stations: Vec<(RingActor, StationHands<'h, 'm>)>,
) -> Result<(), AllocError>
    ensures { OnOk result (length nodes.new.items
        ≡ length nodes.old.items + length stations.entry.items) }
{
    for (actor, hands) in stations {
        if let Err(refused) = nodes.push(Node::Ring(actor, hands)) {
            drop(refused);
            return Err(AllocError);
        }
    }
    Ok(())
}

/// Nodes join others, behind them.
fn add_forks<'h, 'p, 'm, 'g, L: Ledger, G: Gate>(
    nodes: &mut Vec<Node<'h, 'p, 'm, 'g, L, G>>,
    stations: Vec<(ForkActor, StationHands<'h, 'm>)>,
) -> Result<(), AllocError>
    ensures { OnOk result (length nodes.new.items
        ≡ length nodes.old.items + length stations.entry.items) }
{
    for (actor, hands) in stations {
        if let Err(refused) = nodes.push(Node::Forks(actor, hands)) {
            drop(refused);
            return Err(AllocError);
        }
    }
    Ok(())
}
