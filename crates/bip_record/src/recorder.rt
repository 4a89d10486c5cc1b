//! The gate that writes down what nodes do.
use bip_host::{Gate, NodeAct, Point, Tables};
use std::alloc::Global;
use std::sync::{Mutex, MutexGuard, Wait};

/// How many acts are noted at most: each is an event or more, whose line has seven bytes or more,
/// so the schedule of more acts is longer than any that is read.
const MOST_ACTS: usize = 16_777_216 / 7;

/// Why there are no notes.
#[derive(Clone, Copy, Debug, PartialEq, Eq)]
pub enum RecordFault {
    /// Their schedule would be longer than any that is read.
    TooLong,
    /// Want of memory.
    Memory,
}

/// A gate that nobody waits at, and that notes what nodes do: those of each thread in its order.
#[derive(Drop)]
pub struct Recorder {
    notes: Mutex<Notes>,
    /// With row words, what a class holds from before it asks until it has told what came of it.
    asking: Option<Mutex<()>>,
}

/// What is noted so far, or why no more is.
#[derive(Drop)]
struct Notes {
    acts: Vec<NodeAct>,
    fault: Option<RecordFault>,
}

impl Notes {
    fn note(&mut self, act: NodeAct) {
        if self.fault.is_some() {
            return;
        }
        if self.acts.len() >= MOST_ACTS {
            self.fault = Some(RecordFault::TooLong);
            return;
        }
        if self.acts.push(act).is_err() {
            self.fault = Some(RecordFault::Memory);
        }
    }
}

impl Recorder {
    /// A recorder of a host whose tables are shared so, with nothing noted.
    pub fn new(alloc: Global, tables: Tables) -> Recorder {
        let asking = match tables {
            Tables::Locked => None,
            Tables::Words => Some(Mutex::new(())),
        };
        Recorder {
            notes: Mutex::new(Notes {
                acts: Vec::new(alloc),
                fault: None,
            }),
            asking,
        }
    }

    /// What was noted, once nobody notes any more; else why there are no notes.
    pub fn into_acts(self) -> Result<Vec<NodeAct>, RecordFault> {
        let Recorder { notes, .. } = self;
        let Notes { acts, fault } = notes.into_inner();
        match fault {
            None => Ok(acts),
            Some(fault) => {
                drop(acts);
                Err(fault)
            }
        }
    }
}

impl Gate for Recorder {
    fn pass<R: Wait>(&self, _rt: &R, _at: Point) {}

    fn listens(&self) -> bool {
        true
    }

    fn note<R: Wait>(&self, rt: &R, act: NodeAct) {
        self.notes.lock(rt).note(act);
    }

    fn hold<R: Wait>(&self, rt: &R) -> Option<MutexGuard<'_, ()>> {
        match &self.asking {
            Some(asking) => Some(asking.lock(rt)),
            None => None,
        }
    }
}
