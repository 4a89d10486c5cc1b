//! The acts of nodes, each node's in its order.
use bip_host::{Kind, NodeAct, Parcel};
use bip_model::InterId;
use bip_partition::Plan;
use std::alloc::{AllocError, Global};

/// The acts of each node that aren't events yet, the next one last: components, then classes, then
/// stations.
#[derive(Drop)]
pub(crate) struct Queues {
    acts: Vec<Vec<NodeAct>>,
}

impl Queues {
    /// These acts of the nodes of a plan, with a third layer of a kind.
    pub(crate) fn of(
        alloc: Global,
        plan: &Plan,
        kind: Kind,
        acts: &[NodeAct],
    ) -> Result<Queues, AllocError> {
        let mut queues = Vec::new(alloc);
        for _ in 0..count_nodes(plan) {
            queues.push(Vec::new(alloc))?;
        }
        for act in acts.iter().rev() {
            if let Some(queue) = queues.get_mut(node_of(plan, kind, *act)) {
                queue.push(*act)?;
            }
        }
        Ok(Queues { acts: queues })
    }

    /// How many nodes there are.
    pub(crate) fn len(&self) -> usize {
        self.acts.len()
    }

    /// What a node did next.
    pub(crate) fn next(&self, node: usize) -> Option<NodeAct> {
        self.acts.get(node)?.last().copied()
    }

    /// That is an event now.
    pub(crate) fn take(&mut self, node: usize) {
        if let Some(queue) = self.acts.get_mut(node) {
            let _act = queue.pop();
        }
    }
}

/// How many nodes a plan can have.
fn count_nodes(plan: &Plan) -> usize {
    let components = plan.model().components().len();
    let classes = plan.classes().len();
    components
        .saturating_add(classes)
        .saturating_add(plan.stations().len())
}

/// The place among all nodes of the one that did an act.
fn node_of(plan: &Plan, kind: Kind, act: NodeAct) -> usize {
    let components = plan.model().components().len();
    let classes = components.saturating_add(plan.classes().len());
    match act {
        NodeAct::Takes(Parcel::Notice(comp, _)) => comp.0 as usize,
        NodeAct::Takes(Parcel::Offer(class, _, _) | Parcel::Reply(class, _, _)) => {
            components.saturating_add(class.0 as usize)
        }
        NodeAct::Takes(Parcel::Request(class, inter, _)) => match kind {
            Kind::Central => components.saturating_add(class.0 as usize),
            _ => classes.saturating_add(station_of(plan, inter)),
        },
        NodeAct::Takes(Parcel::Fork(_, to) | Parcel::Ask(_, to)) => {
            classes.saturating_add(to.0 as usize)
        }
        NodeAct::Sends(Parcel::Fork(from, _) | Parcel::Ask(from, _)) => {
            classes.saturating_add(from.0 as usize)
        }
        NodeAct::Sends(_) => usize::MAX,
        NodeAct::Asks(class, _) | NodeAct::Grants(class, _) => {
            components.saturating_add(class.0 as usize)
        }
        NodeAct::Serves(inter) | NodeAct::Refuses(inter, _, _) => match kind {
            Kind::Central => components.saturating_add(class_of(plan, inter)),
            _ => classes.saturating_add(station_of(plan, inter)),
        },
    }
}

/// The number of an interaction's class.
fn class_of(plan: &Plan, inter: InterId) -> usize {
    if (inter.0 as usize) < plan.model().interactions().len() {
        plan.class_of(inter).0 as usize
    } else {
        usize::MAX
    }
}

/// The number of the station that decides for an interaction; past the last one, if none does.
pub(crate) fn station_of(plan: &Plan, inter: InterId) -> usize {
    let stations = plan.stations();
    stations
        .iter()
        .position(|one| *one == inter)
        .unwrap_or(stations.len())
}
