//! The locked book, and the keeper of a class, which appends its grants to that.
ghost use Rattle.std.specs.Prelude.{◌≡◌, IfOk, IfSome, None};
ghost use Rattle.bip_host.specs.Keepers.{IsEntryOf};
ghost use Rattle.bip_host.specs.Waiting.{IsOutcomeOf};

use crate::aims::Aim;
use crate::books::Entry;
use crate::drawn::Drawn;
use crate::waiting::{Outcome, WaitingBook};
use bip_model::Grant;
use bip_table::Keep;
use std::sync::{Mutex, Wait};

/// The book that threads share, behind a lock, and what its host runs for, where that is so many
/// grants.
#[derive(Drop)]
pub(crate) struct BookLock<'m> {
    book: Mutex<WaitingBook<'m>>,
    aim: Option<Aim>,
}

impl<'m> BookLock<'m> {
    pub(crate) fn of(book: WaitingBook<'m>, aim: Option<Aim>) -> BookLock<'m> {
        BookLock {
            book: Mutex::new(book),
            aim,
        }
    }

    /// What its host runs for.
    pub(crate) fn aim(&self) -> Option<&Aim> {
        self.aim.as_ref()
    }

    /// Notes how many grants the book has, where threads look for that.
    fn note(&self, book: &WaitingBook<'m>) {
        if let Some(aim) = &self.aim {
            aim.note_grants(book.count_grants());
        }
    }

    /// The book, once nobody shares it.
    pub(crate) fn into_book(self) -> WaitingBook<'m> {
        let BookLock { book, .. } = self;
        book.into_inner()
    }
}

/// A class's way to the locked book, with the entry of the last grant that it kept, until that is
/// taken.
#[derive(Drop)]
pub(crate) struct BookKeeper<'h, 'm> {
    lock: &'h BookLock<'m>,
    pub(crate) entry: Option<Entry>,
}

impl<'h, 'm> BookKeeper<'h, 'm> {
    pub(crate) fn of(lock: &'h BookLock<'m>) -> BookKeeper<'h, 'm>
        ensures { result.entry ≡ None }
    {
        BookKeeper { lock, entry: None }
    }

    /// Appends a grant to the locked book; none where that doesn't take it.
    pub(crate) fn append<R: Wait>(&self, rt: &R, grant: Grant) -> Option<Entry>
        ensures { IfSome result (IsEntryOf grant) }
    {
        let mut book = self.lock.book.lock(rt);
        let entry = book.append(grant);
        self.lock.note(&book);
        entry
    }

    /// Lays a grant beside the locked book at this place, and says what has become of it.
    pub(crate) fn enter<R: Wait>(
        &self,
        rt: &R,
        place: usize,
        drawn: Drawn,
    ) -> Result<Outcome, Drawn>
        ensures { IfOk result (IsOutcomeOf drawn.grant) }
    {
        let mut book = self.lock.book.lock(rt);
        let outcome = book.enter(place, drawn);
        self.lock.note(&book);
        outcome
    }

    /// Says what has become of the grant that was laid at this place.
    pub(crate) fn look<R: Wait>(&self, rt: &R, place: usize) -> Outcome {
        let mut book = self.lock.book.lock(rt);
        let outcome = book.look(place);
        self.lock.note(&book);
        outcome
    }
}

impl<'h, 'm> Keep for BookKeeper<'h, 'm> {
    ghost use Rattle.bip_host.specs.Keepers.{HasEntry};

    ghost keeps = { λ old grant kept new. HasEntry grant kept new.entry };

    /// Keeps a grant by appending it to the locked book.
    fn keep<R: Wait>(&mut self, rt: &R, grant: &Grant) -> bool {
        self.entry = self.append(rt, grant.copy());
        self.entry.is_some()
    }
}
