//! Positions that follow a trace: with them stand the words that its lines are expected to have.
ghost use Rattle.std.specs.Prelude.{◌≡◌, ◌+◌, ◌++◌, ◌<◌, length, IfErr, IfSome, OnErr, OnOk};
ghost use Rattle.bip_model.specs.Numbering.{last_number};
ghost use Rattle.bip_model.specs.declared.grants.Grant.{Grant};
ghost use Rattle.bip_replay.specs.Expected.{HasExpected, HasNextWord, IsExpectedGrant, next_word};
ghost use Rattle.bip_replay.specs.Faults.{IsFaultAt};
ghost use Rattle.bip_replay.specs.KeptWords.{IsKeptBy};
ghost use Rattle.bip_replay.specs.Runs.{IsNextAt, standing_of, standing_on};

use crate::expected::strip_anew;
use crate::fronts::strip;
use crate::kept_words::KeptWord;
use crate::{GrantRef, Position, StepFault};
use bip_model::{CompId, InterId, MOST_COMPONENTS, Model, Number};
use std::marker;

/// A position, and for each component the word of its next move, as text. Contracts see the
/// position; a word counts only where it has the number of that move.
#[derive(Drop)]
pub(crate) struct Follower<'m> {
    position: Position<'m>,
    words: [KeptWord; MOST_COMPONENTS],
}

impl<'m> marker::Model for Follower<'m> {
    ghost use Rattle.bip_replay.specs.Runs.{Kept};
    ghost use Rattle.bip_replay.specs.KeptWords.{AreKeptWords};

    ghost Value = { Kept };

    ghost view = { λ f. f.position };

    ghost invariant = { λ f. AreKeptWords f.position.model.component_names f.words };
}

impl<'m> Follower<'m> {
    /// Follows from a position on, with no words yet.
    pub fn of(position: Position<'m>) -> Follower<'m>
        ensures { result ≡ position.entry }
    {
        let words = [KeptWord::none(); MOST_COMPONENTS];
        Follower { position, words }
    }

    /// Where it stands.
    pub fn into_position(self) -> Position<'m>
        ensures { result ≡ self.entry }
    {
        self.position
    }

    /// The model that the run is of.
    pub fn model(&self) -> &'m Model
        ensures { result.now ≡ self.now.model }
    {
        self.position.model()
    }

    /// What follows a component by the number of its next move, at the front of a text.
    #[inline(always)]
    pub fn strip_word<'t>(&self, comp: CompId, text: &'t [u8]) -> Option<&'t [u8]>
        requires { comp.0 < length self.now.model.component_names }
        ensures word { IfSome result (λ rest.
            text.now ≡ next_word (standing_of self.now) comp ++ rest.now) }
        ensures has { IfSome result (λ rest. HasNextWord (standing_of self.now) comp) }
    {
        let number = self.expected_number(comp)?;
        match self.kept_word(comp, number) {
            Some(word) => strip(text, word.as_bytes()),
            None => strip_anew(&self.position, comp, text),
        }
    }

    // The number of a component's next move, if it has one.
    fn expected_number(&self, comp: CompId) -> Option<Number>
        ensures next { IfSome result (λ n. n ≡ (standing_of self.now).used comp.0 + 1) }
        ensures fits { IfSome result (λ n. (standing_of self.now).used comp.0 < last_number) }
    {
        self.position.used(comp).checked_add(1)
    }

    // The word of a component by a number, if it is kept.
    fn kept_word(&self, comp: CompId, number: Number) -> Option<&KeptWord>
        ensures { IfSome result (λ w.
            IsKeptBy self.now.model.component_names comp.0 number w.now) }
    {
        let place = comp.0 as usize;
        if place >= MOST_COMPONENTS {
            return None;
        }
        let word = &self.words[place];
        if word.number() != number {
            return None;
        }
        Some(word)
    }

    /// Goes on by a grant that can be next; any other is refused with its fault, and the position
    /// stays.
    pub fn step(&mut self, grant: &GrantRef<'_>) -> Result<(), StepFault>
        ensures next { OnOk result (IsNextAt (standing_of self.old) grant.now) }
        ensures on { OnOk result (standing_of self.new
            ≡ standing_on (standing_of self.old) grant.now) }
        ensures fault { IfErr result (λ e. IsFaultAt (standing_of self.old) grant.now e) }
        ensures err { OnErr result (self.new ≡ self.old) }
    {
        self.position.step(grant)
    }

    /// Goes on by the grant that is expected of an interaction, and counts the words of those that
    /// it moves. Where it may not run, this is refused with the grant's fault, and the position
    /// stays.
    pub fn step_expected(&mut self, inter: InterId) -> Result<(), StepFault>
        requires { HasExpected (standing_of self.old) inter.0 }
        ensures next { OnOk result ((g : Grant) → IsExpectedGrant (standing_of self.old) inter.0 g
            → IsNextAt (standing_of self.old) g) }
        ensures on { OnOk result ((g : Grant) → IsExpectedGrant (standing_of self.old) inter.0 g
            → standing_of self.new ≡ standing_on (standing_of self.old) g) }
        ensures fault { IfErr result (λ e. (g : Grant)
            → g.inter.0 ≡ inter.0 → IsFaultAt (standing_of self.old) g e) }
        ensures err { OnErr result (self.new ≡ self.old) }
    {
        self.move_on(inter)?;
        self.count_moved(inter);
        Ok(())
    }

    // The same step of the position alone.
    fn move_on(&mut self, inter: InterId) -> Result<(), StepFault>
        requires { HasExpected (standing_of self.old) inter.0 }
        ensures next { OnOk result ((g : Grant) → IsExpectedGrant (standing_of self.old) inter.0 g
            → IsNextAt (standing_of self.old) g) }
        ensures on { OnOk result ((g : Grant) → IsExpectedGrant (standing_of self.old) inter.0 g
            → standing_of self.new ≡ standing_on (standing_of self.old) g) }
        ensures fault { IfErr result (λ e. (g : Grant)
            → g.inter.0 ≡ inter.0 → IsFaultAt (standing_of self.old) g e) }
        ensures err { OnErr result (self.new ≡ self.old) }
    {
        self.position.step_expected(inter)
    }

    // Counts the words of an interaction's participants.
    #[inline(never)]
    fn count_moved(&mut self, inter: InterId)
        requires { inter.0 < length self.old.model.interactions }
        ensures { self.new ≡ self.old }
    {
        for participant in self.model().participants(inter) {
            self.count_one(participant.0);
        }
    }

    // Makes the word of a component that of its next move.
    #[inline(always)]
    fn count_one(&mut self, comp: CompId)
        ensures { self.new ≡ self.old }
    {
        let place = comp.0 as usize;
        let Some(number) = self.expected_number(comp) else {
            return;
        };
        let names = self.position.model().component_names();
        if place < names.len() && place < MOST_COMPONENTS {
            self.words[place].count_to(names[place].as_bytes(), number);
        }
    }
}
