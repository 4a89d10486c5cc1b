//! The locked book, entries in it, and the report's grants.
ghost use Rattle.std.specs.Prelude.{◌≡◌, ◌↔◌, ◌++◌, ◌∷◌, [], false, IfErr, IfOk, IfNone, IfSome};
ghost use Rattle.std.specs.Prelude.{IsTrue, None, OnSome, Some, length};
ghost use Rattle.bip_host.specs.Books.{IsKeptOf, blames_grant};
ghost use Rattle.bip_host.specs.Keepers.{IsEntryOf};
ghost use Rattle.bip_host.specs.Movers.{CanTell, mover_in};
ghost use Rattle.bip_host.specs.Reports.{IsWhyNoRun};
ghost use Rattle.bip_host.specs.declared.faults.HostFault.TheVariants.{NotARun};
ghost use Rattle.bip_model.specs.Messages.{IsNotifies};
ghost use Rattle.bip_replay.specs.Runs.{IsModelRun};
ghost use Rattle.bip_replay.specs.declared.faults.BookFault.{BookFault};

use crate::faults::HostFault;
use bip_model::{CompId, Grant, InterId, Model, Notifies, Number, Role, Wants};
use bip_replay::{Book, BookFault, run_laws};
use std::alloc::Global;
use std::marker;

/// The first component that a grant moves, with its number there. A run has one such grant.
#[derive(Clone, Copy)]
pub(crate) struct Mover {
    comp: CompId,
    number: Number,
}

impl Mover {
    /// The mover of a grant with these wants.
    pub(crate) fn of(wants: &Wants) -> Option<Mover>
        ensures { result ≡ mover_in wants.now }
    {
        let first = wants
            .as_slice()
            .iter()
            .find(|want| want.role == Role::Moved)?;
        Some(Mover {
            comp: first.comp,
            number: first.number,
        })
    }
}

/// That a grant of an interaction, with this mover, was appended to a book that threads share.
/// Nothing else makes one, so what asks for an entry is done for grants alone that stand in a book:
/// in a host there is one.
#[derive(Drop)]
pub struct Entry {
    inter: InterId,
    mover: Option<Mover>,
}

impl Entry {
    /// The interaction of the grant.
    pub fn inter(&self) -> InterId
        ensures { result ≡ self.now.inter }
    {
        self.inter
    }

    /// Whether notifications can be those of the grant: the first is for its mover.
    pub fn can_tell(&self, notifies: &Notifies) -> bool
        ensures can { IsTrue result ↔ CanTell self.now notifies.now }
        ensures valid { IsNotifies notifies.now }
    {
        match (self.mover, notifies.as_slice().first()) {
            (Some(mover), Some(first)) => {
                mover.comp == first.comp && mover.number == first.number
            }
            _ => false,
        }
    }
}

/// The book of all grants, with the fault of the first that couldn't be next, and whether memory
/// was wanted for one. Contracts see all three.
#[derive(Drop)]
pub struct SharedBook<'m> {
    book: Book<'m>,
    refused: Option<BookFault>,
    wanted_memory: bool,
}

impl<'m> marker::Model for SharedBook<'m> {
    ghost use Rattle.std.specs.Prelude.{IfSome, IsTrue};
    ghost use Rattle.bip_host.specs.Books.{SharedContent, blames_grant};

    ghost Value = { SharedContent };

    ghost view = { λ b. record {
      book = b.book;
      refused = b.refused;
      wanted_memory = b.wanted_memory;
    } };

    ghost invariant = { λ b. IfSome b.refused (λ fault. IsTrue (blames_grant fault)) };
}

impl<'m> SharedBook<'m> {
    /// A book that threads share, of which nothing was refused so far.
    pub fn of(book: Book<'m>) -> SharedBook<'m>
        ensures { result ≡ record { book = book.entry; refused = None; wanted_memory = false } }
    {
        SharedBook {
            book,
            refused: None,
            wanted_memory: false,
        }
    }

    /// Appends a grant where it can be next. Else the book stays as it was, and its fault is kept
    /// where it is the first, or that memory was wanted.
    pub fn append(&mut self, grant: Grant) -> Option<Entry>
        ensures entry { IfSome result (IsEntryOf grant) }
        ensures some { OnSome result (self.new ≡ record self.old {
          book = record self.old.book { grants = self.old.book.grants ++ grant ∷ [] };
        }) }
        ensures none { IfNone result (IsKeptOf self.old grant self.new) }
    {
        let inter = grant.inter;
        let mover = Mover::of(&grant.wants);
        match self.book.append(grant) {
            Ok(_) => Some(Entry { inter, mover }),
            Err(BookFault::Memory) => {
                self.wanted_memory = true;
                None
            }
            Err(fault) => {
                if self.refused.is_none() {
                    self.refused = Some(fault);
                }
                None
            }
        }
    }

    /// How many grants the book has.
    pub fn count_grants(&self) -> u64
        ensures { result ≡ length self.now.book.grants }
    {
        self.book.grants().len() as u64
    }

    /// Whether memory was wanted for a grant.
    pub fn wanted_memory(&self) -> bool
        ensures { result ≡ self.now.wanted_memory }
    {
        self.wanted_memory
    }

    /// The grants of the book; or the fault of the first that couldn't be next.
    pub fn into_grants(self) -> Result<Vec<Grant>, HostFault>
        ensures ok { IfOk result (λ grants. (grants.items ≡ self.entry.book.grants)
            × (self.entry.refused ≡ None)) }
        ensures refused { IfErr result (λ why. (fault : BookFault) × (why ≡ NotARun fault)
            × IsTrue (blames_grant fault) × (self.entry.refused ≡ Some fault)) }
    {
        let SharedBook { book, refused, .. } = self;
        match refused {
            Some(fault) => Err(HostFault::NotARun(fault)),
            None => Ok(book.into_grants()),
        }
    }
}

/// These grants, where a new book of the model takes them all: they are a run of it then. Else that
/// they are none, or want of memory.
pub(crate) fn as_run(
    alloc: Global,
    model: &Model,
    grants: Vec<Grant>,
) -> Result<Vec<Grant>, HostFault>
    ensures same { IfOk result (λ run. run.items ≡ grants.items) }
    ensures run { IfOk result (λ run. IsModelRun model.now 0 run.items) }
    ensures none { IfErr result (IsWhyNoRun model.now grants.items) }
{
    run_laws();
    let mut book = Book::start(alloc, model, 0)?;
    for grant in grants {
        book.append(grant)?;
    }
    Ok(book.into_grants())
}
