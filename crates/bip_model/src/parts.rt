//! The declared parts of a model: components with their variables, locations, ports and
//! transitions, and interactions.
use crate::{Assignment, CompId, Comparison, InterId, LocId, Names, PortId, Seq, Values, Variable};

/// How many components a model has at most.
pub const MOST_COMPONENTS: usize = 64;
/// How many locations a component has at most.
pub const MOST_LOCATIONS: usize = 64;
/// How many ports a component has at most.
pub const MOST_PORTS: usize = 16;
/// How many transitions a component has at most.
pub const MOST_TRANSITIONS: usize = 256;
/// How many interactions a model has at most.
pub const MOST_INTERACTIONS: usize = 128;
/// How many participants an interaction has at most.
pub const MOST_PARTICIPANTS: usize = 8;
/// How many terms a sum has at most.
pub const MOST_TERMS: usize = 16;
/// How many comparisons a guard has at most, and how many assignments an update or a transfer.
pub const MOST_CLAUSES: usize = 16;

/// A transition: where its guard holds, the component goes with its port from the source to the
/// target, and its update is done. An empty guard holds.
#[derive(Drop)]
pub struct Transition {
    pub port: PortId,
    pub source: LocId,
    pub target: LocId,
    pub guard: Seq<Comparison<Variable>>,
    pub update: Seq<Assignment<Variable>>,
}

/// What a model declares of one component. Its variables, locations and ports share one space of
/// names; each variable has a value at the start, and the first location is the start.
#[derive(Drop)]
pub struct Component {
    pub variables: Names,
    pub start: Values,
    pub locations: Names,
    pub ports: Names,
    pub transitions: Seq<Transition>,
}

/// What a model declares of one interaction: the port of each component that takes part, by
/// component; a guard over the variables of all of them, and a transfer between them.
#[derive(Drop)]
pub struct Interaction {
    pub participants: Seq<(CompId, PortId)>,
    pub guard: Seq<Comparison<Variable>>,
    pub transfer: Seq<Assignment<Variable>>,
}

/// A priority: the second interaction stands above the first.
#[derive(Clone, Copy, Debug, PartialEq, Eq)]
pub struct Pair {
    pub low: InterId,
    pub high: InterId,
}

/// All that a model declares. A name's place in its list is the number of the component or
/// interaction. Priorities stand by low, then high number.
#[derive(Drop)]
pub struct System {
    pub component_names: Names,
    pub components: Seq<Component>,
    pub interaction_names: Names,
    pub interactions: Seq<Interaction>,
    pub priorities: Seq<Pair>,
}
