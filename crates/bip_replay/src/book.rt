//! The book of a run: its grants, with the position to which they lead.
ghost use Rattle.std.specs.Prelude.{◌≡◌, ◌<◌, [], ◌∷◌, ◌++◌, length, IfOk, IfErr, OnOk, OnErr};
ghost use Rattle.bip_replay.specs.Book.{IsRunWith, IsAppendFault};
ghost use Rattle.bip_replay.specs.declared.faults.BookFault.TheVariants.{Memory};
ghost use Rattle.bip_model.specs.Numbering.{last_number};
ghost use Rattle.bip_replay.specs.Runs.{IsModelRun, StandsAfter, standing_of};

use crate::{BookFault, GrantRef, Position};
use bip_model::{Grant, Model, Number};
use std::alloc::{AllocError, Global};
use std::marker;

/// The grants of a run with exact numbers, and where they lead: whatever a book holds is a run of
/// its model from the model's start (docs/DEFINITIONS.md, "Runs with exact numbers"). Contracts see
/// the model, the base of the numbers and the grants.
#[derive(Drop)]
pub struct Book<'m> {
    position: Position<'m>,
    grants: Vec<Grant>,
}

impl<'m> marker::Model for Book<'m> {
    ghost use Rattle.bip_replay.specs.Book.{Content};
    ghost use Rattle.bip_replay.specs.Runs.{StandsAfter, standing_of};

    ghost Value = { Content };

    ghost view = { λ b. record {
      model = b.position.model;
      base = b.position.base;
      grants = b.grants.items;
    } };

    ghost invariant = { λ b. StandsAfter b.position.model b.position.base b.grants.items
        (standing_of b.position) };
}

impl<'m> Book<'m> {
    /// The book of the empty run above a base.
    pub fn start(alloc: Global, model: &'m Model, base: Number) -> Result<Book<'m>, AllocError>
        requires { base < last_number }
        ensures { IfOk result (λ book. book
            ≡ record { model = model.now; base = base; grants = [] }) }
    {
        let position = Position::start(alloc, model, base)?;
        Ok(Book {
            position,
            grants: Vec::new(alloc),
        })
    }

    /// The grants, the first one first.
    pub fn grants(&self) -> &[Grant]
        ensures grants { result.now ≡ self.now.grants }
        ensures run { IsModelRun self.now.model self.now.base self.now.grants }
    {
        let _opened = &self.position;
        self.grants.as_slice()
    }

    /// Where the grants lead.
    pub fn position(&self) -> &Position<'m>
        ensures { StandsAfter self.now.model self.now.base self.now.grants
            (standing_of result.now) }
    {
        &self.position
    }

    /// The grants, the first one first, without the book.
    pub fn into_grants(self) -> Vec<Grant>
        ensures grants { result.items ≡ self.entry.grants }
        ensures run { IsModelRun self.entry.model self.entry.base result.items }
    {
        let _opened = &self.position;
        self.grants
    }

    /// Appends a grant that can be next, and says how many stood before. Any other grant is refused
    /// with its fault, and the book stays as it was; so it does without memory, which is asked for
    /// last. Nothing else keeps a grant out that can be next.
    pub fn append(&mut self, grant: Grant) -> Result<u64, BookFault>
        ensures count { IfOk result (λ before. before ≡ length self.old.grants) }
        ensures ok { OnOk result (self.new
            ≡ record self.old { grants = self.old.grants ++ grant ∷ [] }) }
        ensures run { OnOk result (IsRunWith self.old grant) }
        ensures only { IsRunWith self.old grant → IfErr result (λ e. e ≡ Memory) }
        ensures fault { IfErr result (λ e. IsAppendFault self.old grant e) }
        ensures err { OnErr result (self.new ≡ self.old) }
    {
        let before = self.grants.len() as u64;
        self.position.check(&GrantRef::of(&grant))?;
        if self.grants.reserve(1).is_err() {
            return Err(BookFault::Memory);
        }
        self.position.go_on(&GrantRef::of(&grant));
        let _pushed = self.grants.push(grant);
        Ok(before)
    }

    /// The same for who knows already that the grant can be next: the only error is want of
    /// memory, and then the book stays as it was.
    pub fn push(&mut self, grant: Grant) -> Result<(), AllocError>
        requires { IsRunWith self.old grant }
        ensures ok { OnOk result (self.new
            ≡ record self.old { grants = self.old.grants ++ grant ∷ [] }) }
        ensures err { OnErr result (self.new ≡ self.old) }
    {
        match self.append(grant) {
            Ok(_) => Ok(()),
            Err(fault) => match fault {
                BookFault::Memory => Err(AllocError),
                _ => unreachable!(),
            },
        }
    }
}
