//! The book that threads share, with the places beside it where grants wait for their turn.
ghost use Rattle.std.specs.Prelude.{◌≡◌, ◌↔◌, ◌++◌, ◌∷◌, [], false, IfErr, IfNone, IfOk, IfSome};
ghost use Rattle.std.specs.Prelude.{IsTrue, OnSome, length, replicate};
ghost use Rattle.bip_host.specs.Books.{IsKeptOf};
ghost use Rattle.bip_host.specs.Keepers.{IsEntryOf};
ghost use Rattle.bip_host.specs.Waiting.{CanBeLaid, ComesNext, HasNoEntry, IsDrained, IsEntered};
ghost use Rattle.bip_host.specs.Waiting.{IsLookedFor, IsOutcomeOf, IsStuck, IsTaken, Queued, laid};
ghost use Rattle.bip_host.specs.declared.places.Place.TheVariants.{Free};

use crate::books::{Entry, SharedBook};
use crate::drawn::Drawn;
use crate::places::{Place, has_entry, is_free, is_waiting, waiting_with};
use bip_model::Grant;
use std::alloc::{AllocError, Global};
use std::marker::Model;
use std::mem;

/// What has become of a grant that a class has drawn from a word table.
#[derive(Drop)]
pub enum Outcome {
    /// It stands in the book.
    Entered(Entry),
    /// It waits for those with lower serials.
    Waits,
    /// It is the next one, and the book doesn't take it.
    Refused,
}

/// The book that threads share, the serial of the grant that it takes next, and by class what
/// stands at its place beside it. No grant that waits has a lower serial, and no two have one
/// (docs/HOST.md, "Row words"). Contracts see all three.
#[derive(Drop)]
pub struct WaitingBook<'m> {
    book: SharedBook<'m>,
    next: u64,
    places: Vec<Place>,
}

impl<'m> Model for WaitingBook<'m> {
    ghost use Rattle.bip_host.specs.Waiting.{WaitInOrder, Queued};

    ghost Value = { Queued };

    ghost view = { λ w. record { book = w.book; next = w.next; places = w.places.items } };

    ghost invariant = { λ w. WaitInOrder w.next w.places.items };
}

impl<'m> WaitingBook<'m> {
    /// A book beside which so many places are free, and whose next grant is the first.
    pub fn of(
        alloc: Global,
        book: SharedBook<'m>,
        classes: usize,
    ) -> Result<WaitingBook<'m>, AllocError>
        ensures { IfOk result (λ w. w ≡ record {
          book = book.entry;
          next = 0;
          places = replicate classes Free;
        }) }
    {
        let mut places = Vec::with_capacity(alloc, classes)?;
        for _ in 0..classes {
            places.push(Place::Free)?;
        }
        Ok(WaitingBook {
            book,
            next: 0,
            places,
        })
    }

    /// Appends a grant that waits for nothing: a local one, or that of a table that is still held.
    /// The book does as `SharedBook::append` says, and what stands beside it stays.
    pub fn append(&mut self, grant: Grant) -> Option<Entry>
        ensures entry { IfSome result (IsEntryOf grant) }
        ensures some { OnSome result (self.new.book ≡ record self.old.book {
          book = record self.old.book.book {
            grants = self.old.book.book.grants ++ grant ∷ [];
          };
        }) }
        ensures none { IfNone result (IsKeptOf self.old.book grant self.new.book) }
        ensures beside { (self.new.next ≡ self.old.next) × (self.new.places ≡ self.old.places) }
    {
        self.book.append(grant)
    }

    /// Lays a class's grant at its place. It comes back where the place isn't there or isn't free,
    /// where the book is past its serial, and where another one waits with it: nothing changes.
    pub fn lay(&mut self, place: usize, drawn: Drawn) -> Result<(), Drawn>
        ensures ok { IfOk result (λ _. CanBeLaid self.old place drawn.serial
            × (self.new ≡ laid place drawn.serial drawn.grant self.old)) }
        ensures err { IfErr result (λ back. ¬ CanBeLaid self.old place drawn.serial
            × (back ≡ drawn) × (self.new ≡ self.old)) }
    {
        if drawn.serial() < self.next
            || !is_free(self.places.as_slice(), place)
            || waiting_with(self.places.as_slice(), drawn.serial()).is_some()
        {
            return Err(drawn);
        }
        let (serial, grant) = drawn.into_parts();
        self.places[place] = Place::Waiting { serial, grant };
        Ok(())
    }

    /// Appends what waits in order of serial, from the next one on: none is skipped. It ends where
    /// the next one isn't there, or the book doesn't take it, which stays at its place then.
    pub fn drain(&mut self)
        ensures { IsDrained self.old self.new }
    {
        if self.enter_next() {
            self.drain();
        }
    }

    /// Appends the grant with the next serial, if it waits and the book takes it.
    fn enter_next(&mut self) -> bool
        ensures entered { IsTrue result → IsEntered self.old self.new }
        ensures stuck { result ≡ false → IsStuck self.old self.new }
    {
        match waiting_with(self.places.as_slice(), self.next) {
            Some((place, grant)) => match self.book.append(grant) {
                Some(entry) => {
                    self.places[place] = Place::Entered(entry);
                    self.next += 1;
                    true
                }
                None => false,
            },
            None => false,
        }
    }

    /// Takes the entry of the grant that a class laid, once it is in the book: the place is free
    /// then. Else nothing changes.
    pub fn take(&mut self, place: usize) -> Option<Entry>
        ensures some { IfSome result (λ entry. IsTaken place entry self.old self.new) }
        ensures none { IfNone result (HasNoEntry self.old.places place × (self.new ≡ self.old)) }
    {
        if !has_entry(self.places.as_slice(), place) {
            return None;
        }
        match mem::replace(&mut self.places[place], Place::Free) {
            Place::Entered(entry) => Some(entry),
            _ => unreachable!(),
        }
    }

    /// Whether the grant that a class laid is the next one.
    pub fn is_next(&self, place: usize) -> bool
        ensures { IsTrue result ↔ ComesNext self.now place }
    {
        is_waiting(self.places.as_slice(), place, self.next)
    }

    /// Appends all that can be, and says what has become of the grant that a class laid: where it
    /// is in the book its entry is taken, and the place is free.
    pub fn look(&mut self, place: usize) -> Outcome
        ensures { IsLookedFor place result self.old self.new }
    {
        self.drain();
        match self.take(place) {
            Some(entry) => Outcome::Entered(entry),
            None if self.is_next(place) => Outcome::Refused,
            None => Outcome::Waits,
        }
    }

    /// Lays a class's grant at its place, and looks for it.
    pub fn enter(&mut self, place: usize, drawn: Drawn) -> Result<Outcome, Drawn>
        ensures ok { IfOk result (λ found. CanBeLaid self.old place drawn.serial
            × IsLookedFor place found (laid place drawn.serial drawn.grant self.old) self.new) }
        ensures own { IfOk result (IsOutcomeOf drawn.grant) }
        ensures err { IfErr result (λ back. ¬ CanBeLaid self.old place drawn.serial
            × (back ≡ drawn) × (self.new ≡ self.old)) }
    {
        self.lay(place, drawn)?;
        Ok(self.look(place))
    }

    /// How many grants the book has.
    pub fn count_grants(&self) -> u64
        ensures { result ≡ length self.now.book.book.grants }
    {
        self.book.count_grants()
    }

    /// The serial of the grant that the book takes next: how many it took by serial.
    pub fn next(&self) -> u64
        ensures { result ≡ self.now.next }
    {
        self.next
    }

    /// The book, once nobody shares it, with all appended that can be, and the serial of the grant
    /// that it would take next.
    pub fn close(mut self) -> (SharedBook<'m>, u64)
        ensures { (w : Queued) × IsDrained self.entry w × (result.0 ≡ w.book)
            × (result.1 ≡ w.next) }
    {
        self.drain();
        let WaitingBook { book, next, .. } = self;
        (book, next)
    }
}
