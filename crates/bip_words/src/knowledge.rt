//! What a seat knows. Values of these types stand in contracts alone.
use bip_model::{Grant, Request};
use std::collections::LinkedList;

/// A claim on a row, with the row's number. It is due once the call has its ticket.
pub struct Claim {
    pub row: u64,
    pub used: u64,
    pub due: bool,
}

/// How a row's word was learned: by a look, by an exchange that found another one, or as it was
/// written.
pub enum Learned {
    Look,
    Changed,
    Wrote,
}

/// A word that was found or written in a row, and how many claims the seat had on the row then.
pub struct Note {
    pub row: u64,
    pub word: u64,
    pub own: u64,
    pub learned: Learned,
}

/// What a seat knows: its claims, the one made last first; what it saw, the newest first; what it
/// asked for last; its grants with their serials, the newest first; and how many grants there were
/// when it counted them, the newest count first.
pub struct Knowledge {
    pub claims: LinkedList<Claim>,
    pub notes: LinkedList<Note>,
    pub asked: Request,
    pub grants: LinkedList<(u64, Grant)>,
    pub counts: LinkedList<u64>,
}
