//! Gates: what happens between two steps of a class's thread, and who is told what nodes do.
use crate::acts::NodeAct;
use bip_model::{ClassId, InterId};
use std::sync::{MutexGuard, Wait};

/// Where the thread of a class stands when it passes the gate (docs/HOST.md, "Gates").
#[derive(Clone, Copy, Debug, PartialEq, Eq)]
pub enum Point {
    /// Before the class's request for this interaction is handed on.
    Asked(ClassId, InterId),
    /// Before the notifications of a grant of this interaction are sent, which stands in the book.
    Told(ClassId, InterId),
}

/// What happens between two steps of a class's thread: nothing in a host that serves, waiting or
/// counting in one that is tried. A gate that listens is told what each node does, by the thread
/// that did it, and in its order (docs/HOST.md, "Gates").
pub trait Gate {
    /// Is passed at a point, by the thread that stands there.
    fn pass<R: Wait>(&self, rt: &R, at: Point);

    /// Whether it is told what nodes do.
    fn listens(&self) -> bool {
        false
    }

    /// Is told what a node did.
    fn note<R: Wait>(&self, _rt: &R, _act: NodeAct) {}

    /// What a class's thread holds while it asks one table, until it has told what came of it; by
    /// none several ask at once.
    fn hold<R: Wait>(&self, _rt: &R) -> Option<MutexGuard<'_, ()>> {
        None
    }
}

/// The gate at which nothing happens.
#[derive(Clone, Copy, Debug)]
pub struct Open;

impl Gate for Open {
    fn pass<R: Wait>(&self, _rt: &R, _at: Point) {}
}
