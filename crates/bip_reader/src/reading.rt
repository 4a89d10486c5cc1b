//! Reading the text of a model, line after line.
ghost use Rattle.std.specs.Prelude.{◌≡◌, ◌≢◌, ◌∷◌, ◌++◌, [], length, map, true};
ghost use Rattle.std.specs.Prelude.{Err, IfErr, IfOk, IfSome, OnOk, IsTrue, Some};
ghost use Rattle.std.specs.List.{list_any};
ghost use Rattle.std.specs.Option.{ok_or};
ghost use Rattle.bip_model.specs.Naming.{same_text};
ghost use Rattle.bip_model.specs.Faults.{Answers, new_or_fault};
ghost use Rattle.bip_model.specs.Priorities.{IsCyclic};
ghost use Rattle.bip_model.specs.Texts.{says_something, words, words_said};
ghost use Rattle.bip_reader.specs.declared.faults.Why.{Why};
ghost use Rattle.bip_reader.specs.declared.faults.Why.TheVariants.{Memory, Syntax};
ghost use Rattle.bip_reader.specs.Reading.{are_interactions, can_follow, class_line};
ghost use Rattle.bip_reader.specs.Reading.{draft_of, empty_reading, has_place};
ghost use Rattle.bip_reader.specs.Reading.{interaction_named, interactions_named, reading_after};
ghost use Rattle.bip_reader.specs.Reading.{reading_after_words};
ghost use Rattle.bip_reader.specs.Reading.{reading_with, statement_in};
ghost use Rattle.bip_reader.specs.Statements.{keyword_in};
ghost use Rattle.bip_reader.specs.Texts.{IsFaultAtEnd, IsWholeReading, system_of};

use crate::Why;
use crate::building::build;
use crate::statements::{Keyword, Statement, keyword_of, read_statement};
use bip_model::{
    Builder, Each, InterId, Line, MOST_CLASSES, Model, Name, OneOrMore, Seq, Words, read_words,
};
use std::alloc::{AllocError, Global};
use std::marker;

/// Classes as a text names them, each a name with numbers of interactions. Contracts see the list
/// of them.
#[derive(Drop)]
pub(crate) struct ClassLines {
    classes: Vec<(Name, Vec<InterId>)>,
}

impl marker::Model for ClassLines {
    ghost use Rattle.std.specs.Prelude.{List, ℕ, map};
    ghost use Rattle.bip_model.specs.declared.numbering.InterId.{InterId};

    ghost Value = { List (List ℕ × List InterId) };

    ghost view = { λ c. map (λ class. (class.0, class.1.items)) c.classes.items };
}

impl ClassLines {
    fn new(alloc: Global) -> ClassLines
        ensures { result ≡ [] }
    {
        ClassLines {
            classes: Vec::new(alloc),
        }
    }

    fn len(&self) -> usize
        ensures { result ≡ length self.now }
    {
        self.classes.len()
    }

    fn contains(&self, name: &Name) -> bool
        ensures { result ≡ list_any (λ class. same_text name.now class.0) self.now }
    {
        is_class(self.classes.as_slice(), name)
    }

    fn push(&mut self, name: Name, interactions: Seq<InterId>) -> Result<(), AllocError>
        ensures { OnOk result (self.new ≡ self.old ++ (name, interactions) ∷ []) }
    {
        self.classes.push((name, interactions.into_vec()))?;
        Ok(())
    }

    pub(crate) fn into_vec(self) -> Vec<(Name, Vec<InterId>)>
        ensures { map (λ class. (class.0, class.1.items)) result.items ≡ self }
    {
        self.classes
    }
}

/// What the lines so far have said: what the builder made of those behind `bip 1`, none where that
/// hasn't stood, and the classes.
#[derive(Drop)]
pub(crate) struct Reading {
    builder: Option<Builder>,
    classes: ClassLines,
}

impl Reading {
    /// Nothing has been read yet.
    pub(crate) fn new(alloc: Global) -> Reading
        ensures { result ≡ empty_reading }
    {
        Reading {
            builder: None,
            classes: ClassLines::new(alloc),
        }
    }

    /// Reads one more line. Want of memory hides none of its faults: nothing is stored before all
    /// is looked up. A line that says nothing wants none.
    #[tactic(auto, unfolding(crate::specs::Reading::reading_after))]
    pub(crate) fn read_line(&mut self, alloc: Global, line: &[u8]) -> Result<(), Why>
        ensures said { Answers Memory (reading_after line.now self.old)
            (new_or_fault result self.new) }
        ensures says { result ≡ Err Memory → IsTrue (says_something (words_said line.now)) }
    {
        match read_words(line) {
            Line::BadByte => Err(Why::Syntax),
            Line::Nothing => Ok(()),
            Line::Words(word, rest) => self.take_words(alloc, word, rest),
        }
    }

    /// Takes what the words of a line say.
    #[tactic(auto, using(crate::proofs::FaultLemmas::reading_faults))]
    fn take_words(&mut self, alloc: Global, word: &[u8], rest: &[u8]) -> Result<(), Why>
        ensures { let said = reading_after_words (Some (word.now ∷ words rest.now)) self.old
            in Answers Memory said (new_or_fault result self.new) }
    {
        let Some(statement) = self.statement_in(word, rest) else {
            return Err(Why::Syntax);
        };
        self.take(alloc, statement)
    }

    /// What a line states in its place, by its first word and the rest; none where it has no form,
    /// or no place now.
    fn statement_in<'a>(&self, word: &[u8], rest: &'a [u8]) -> Option<Statement<'a>>
        ensures said { result ≡ statement_in word.now (words rest.now) self.now }
        ensures place { IfSome result (λ s. IsTrue (has_place (keyword_in s) self.now)) }
    {
        let keyword = keyword_of(word)?;
        if !self.has_place(keyword) {
            return None;
        }
        read_statement(keyword, &Words::of(rest))
    }

    /// Whether a line with this keyword can stand now.
    fn has_place(&self, keyword: Keyword) -> bool
        ensures { result ≡ has_place keyword self.now }
    {
        match &self.builder {
            None => matches!(keyword, Keyword::Bip),
            Some(builder) => can_follow(builder, keyword),
        }
    }

    /// Takes a statement in its place.
    fn take(&mut self, alloc: Global, statement: Statement<'_>) -> Result<(), Why>
        requires { IsTrue (has_place (keyword_in statement) self.old) }
        ensures { let said = reading_with statement.entry self.old
            in Answers Memory said (new_or_fault result self.new) }
    {
        match statement {
            Statement::Header => {
                drop(self.builder.replace(Builder::new(alloc)?));
                Ok(())
            }
            Statement::Class { name, interactions } => { self.class(alloc, name, &interactions) }
            statement => match &mut self.builder {
                None => unreachable!(),
                Some(builder) => Ok(build(builder, statement)?),
            },
        }
    }

    #[tactic(auto, unfolding(crate::specs::Reading::class_line))]
    fn class(
        &mut self,
        alloc: Global,
        name: Name,
        interactions: &OneOrMore<'_, Name>,
    ) -> Result<(), Why>
        ensures { let said = class_line name interactions.now self.old
            in Answers Memory said (new_or_fault result self.new) }
    {
        if self.classes.contains(&name) {
            return Err(Why::Twice);
        }
        if !self.are_interactions(interactions.each()) {
            return Err(Why::Unknown);
        }
        if MOST_CLASSES <= self.classes.len() {
            return Err(Why::TooMany);
        }
        let numbers = self.interaction_numbers(alloc, interactions.each())?;
        self.classes.push(name, numbers)?;
        Ok(())
    }

    /// Whether each name is that of an interaction, which takes no memory.
    fn are_interactions(&self, mut names: Each<'_, Name>) -> bool
        ensures { result ≡ are_interactions self.now names.entry }
    {
        names.all(|name| self.interaction_number(&name).is_some())
    }

    /// Their numbers, in room that is taken once.
    fn interaction_numbers(&self, alloc: Global, names: Each<'_, Name>) -> Result<Seq<InterId>, Why>
        requires { are_interactions self.now names ≡ true }
        ensures { Answers Memory (interactions_named self.now names.entry) result }
    {
        let mut numbers = Vec::with_capacity(alloc, names.len())?;
        for name in names {
            numbers.push(self.interaction_number(&name).ok_or(Why::Unknown)?)?;
        }
        Ok(Seq::of(numbers))
    }

    fn interaction_number(&self, name: &Name) -> Option<InterId>
        ensures { result ≡ interaction_named (draft_of self.now) name.now }
    {
        match &self.builder {
            None => None,
            Some(builder) => builder.interaction_number(name),
        }
    }

    /// The lines end: the model that they declare, and their classes. Want of memory hides nothing
    /// here.
    pub(crate) fn finish(self) -> Result<(Model, ClassLines), Why>
        ensures model { IfOk result (λ read. read.0 ≡ system_of self) }
        ensures classes { IfOk result (λ read. read.1 ≡ self.classes) }
        ensures whole { OnOk result (IsWholeReading self) }
        ensures acyclic { OnOk result (¬ IsCyclic (system_of self).priorities) }
        ensures fault { IfErr result (λ why. why ≢ Memory → IsFaultAtEnd self why) }
        ensures memory { result ≡ Err Memory
            → IsWholeReading self × ¬ IsCyclic (system_of self).priorities }
    {
        let Reading { builder, classes } = self;
        let Some(builder) = builder else {
            return Err(Why::Missing);
        };
        match builder.finish() {
            Ok(model) => Ok((model, classes)),
            Err(fault) => Err(Why::from(fault)),
        }
    }
}

/// Whether a line with this keyword can stand behind what the builder was given.
fn can_follow(builder: &Builder, keyword: Keyword) -> bool
    ensures { result ≡ can_follow keyword builder.now }
{
    match keyword {
        Keyword::Bip => false,
        Keyword::Var | Keyword::Loc | Keyword::Port | Keyword::Trans | Keyword::End => {
            builder.is_inside()
        }
        Keyword::Component | Keyword::Interaction | Keyword::Priority | Keyword::Class => {
            !builder.is_inside()
        }
    }
}

fn is_class(classes: &[(Name, Vec<InterId>)], name: &Name) -> bool
    ensures { result ≡ list_any (λ class. same_text name.now class.0) classes.now }
{
    classes.iter().any(|class| *name == class.0)
}
