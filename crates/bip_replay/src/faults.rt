//! Why a call of this crate refuses.
ghost use Rattle.std.specs.Prelude.{◌≡◌, Some};
ghost use Rattle.bip_replay.specs.Faults.{number_of_book, number_of_replay, number_of_step};
ghost use Rattle.bip_replay.specs.Faults.{number_of_trace, text_of_book, text_of_replay};
ghost use Rattle.bip_replay.specs.Faults.{text_of_step, text_of_trace};

use bip_model::{CompId, InterId, Number};
use std::fmt;
use thiserror::Error;

/// Why a grant can't be the next step of a run: the first of these that applies.
#[derive(Debug, Drop, Error)]
pub enum StepFault {
    /// A participant's port is not offered, the interaction's guard doesn't hold, or the model has
    /// no such interaction.
    NotEnabled,
    /// This interaction, the lowest-numbered one, is above it and enabled.
    Below(InterId),
    /// The lowest component of the model whose number isn't the one that its next move has, and
    /// that number; 0 where the component is spent.
    Number(CompId, Number),
    /// The moved wants aren't the participants, or the seen ones aren't what the interaction looks
    /// at.
    Parties,
}

impl fmt::Display for StepFault {
    ghost output = { λ fault. Some (text_of_step fault) };

    fn fmt<W: fmt::Write>(&self, f: &mut fmt::Formatter<W>) -> fmt::Result {
        match self {
            StepFault::NotEnabled => write!(f, "not enabled"),
            StepFault::Below(inter) => write!(f, "below interaction {}", inter.0),
            StepFault::Number(comp, expected) => {
                write!(f, "component {} expected {}", comp.0, expected)
            }
            StepFault::Parties => write!(f, "parties"),
        }
    }
}

impl StepFault {
    /// The fault's number.
    pub fn number(&self) -> u8
        ensures { result ≡ number_of_step self.now }
    {
        match self {
            StepFault::NotEnabled => 1,
            StepFault::Below(_) => 2,
            StepFault::Number(_, _) => 3,
            StepFault::Parties => 4,
        }
    }
}

/// Why a book takes no grant: the first of these that applies.
#[derive(Debug, Drop, Error)]
pub enum BookFault {
    /// A participant's port is not offered, the interaction's guard doesn't hold, or the model has
    /// no such interaction.
    NotEnabled,
    /// This interaction, the lowest-numbered one, is above it and enabled.
    Below(InterId),
    /// The lowest component of the model whose number isn't the one that its next move has, and
    /// that number; 0 where the component is spent.
    Number(CompId, Number),
    /// The moved wants aren't the participants, or the seen ones aren't what the interaction looks
    /// at.
    Parties,
    /// Want of memory.
    Memory,
}

impl fmt::Display for BookFault {
    ghost output = { λ fault. Some (text_of_book fault) };

    fn fmt<W: fmt::Write>(&self, f: &mut fmt::Formatter<W>) -> fmt::Result {
        match self {
            BookFault::NotEnabled => write!(f, "not enabled"),
            BookFault::Below(inter) => write!(f, "below interaction {}", inter.0),
            BookFault::Number(comp, expected) => {
                write!(f, "component {} expected {}", comp.0, expected)
            }
            BookFault::Parties => write!(f, "parties"),
            BookFault::Memory => write!(f, "no memory"),
        }
    }
}

impl BookFault {
    /// The fault's number.
    pub fn number(&self) -> u8
        ensures { result ≡ number_of_book self.now }
    {
        match self {
            BookFault::NotEnabled => 1,
            BookFault::Below(_) => 2,
            BookFault::Number(_, _) => 3,
            BookFault::Parties => 4,
            BookFault::Memory => 5,
        }
    }
}

impl From<StepFault> for BookFault {
    ghost use Rattle.bip_replay.specs.Faults.{of_step};

    ghost from_gives = { λ fault e. e ≡ of_step fault };

    fn from(fault: StepFault) -> BookFault {
        match fault {
            StepFault::NotEnabled => BookFault::NotEnabled,
            StepFault::Below(inter) => BookFault::Below(inter),
            StepFault::Number(comp, expected) => BookFault::Number(comp, expected),
            StepFault::Parties => BookFault::Parties,
        }
    }
}

/// Why a line of a text says no item of it.
#[derive(Debug, Drop)]
pub enum LineFault {
    /// The line hasn't the form of an item.
    Syntax,
    /// A name that the model lacks.
    Unknown,
}

/// Why bytes are no trace of a model.
#[derive(Debug, Drop, Error)]
pub enum TraceFault {
    /// The line hasn't the form of a grant.
    Syntax,
    /// An interaction or a component that the model lacks.
    Unknown,
    /// Want of memory.
    Memory,
}

impl fmt::Display for TraceFault {
    ghost output = { λ fault. Some (text_of_trace fault) };

    fn fmt<W: fmt::Write>(&self, f: &mut fmt::Formatter<W>) -> fmt::Result {
        match self {
            TraceFault::Syntax => write!(f, "syntax"),
            TraceFault::Unknown => write!(f, "unknown name"),
            TraceFault::Memory => write!(f, "no memory"),
        }
    }
}

impl TraceFault {
    /// The fault's number.
    pub fn number(&self) -> u8
        ensures { result ≡ number_of_trace self.now }
    {
        match self {
            TraceFault::Syntax => 1,
            TraceFault::Unknown => 2,
            TraceFault::Memory => 3,
        }
    }
}

impl From<LineFault> for TraceFault {
    ghost use Rattle.bip_replay.specs.Faults.{trace_of_line};

    ghost from_gives = { λ fault e. e ≡ trace_of_line fault };

    fn from(fault: LineFault) -> TraceFault {
        match fault {
            LineFault::Syntax => TraceFault::Syntax,
            LineFault::Unknown => TraceFault::Unknown,
        }
    }
}

/// Why a trace can't be replayed.
#[derive(Debug, Drop, Error)]
pub enum ReplayFault {
    /// The line hasn't the form of a grant.
    Syntax,
    /// An interaction or a component that the model lacks.
    Unknown,
    /// The line's grant can't be next after those before it. It is never for want of memory.
    NotARun(BookFault),
    /// Want of memory.
    Memory,
}

impl fmt::Display for ReplayFault {
    ghost output = { λ fault. Some (text_of_replay fault) };

    fn fmt<W: fmt::Write>(&self, f: &mut fmt::Formatter<W>) -> fmt::Result {
        match self {
            ReplayFault::Syntax => write!(f, "syntax"),
            ReplayFault::Unknown => write!(f, "unknown name"),
            ReplayFault::NotARun(fault) => write!(f, "{}", fault),
            ReplayFault::Memory => write!(f, "no memory"),
        }
    }
}

impl ReplayFault {
    /// The fault's number.
    pub fn number(&self) -> u8
        ensures { result ≡ number_of_replay self.now }
    {
        match self {
            ReplayFault::Syntax => 1,
            ReplayFault::Unknown => 2,
            ReplayFault::NotARun(_) => 3,
            ReplayFault::Memory => 4,
        }
    }
}

impl From<LineFault> for ReplayFault {
    ghost use Rattle.bip_replay.specs.Faults.{replay_of_line};

    ghost from_gives = { λ fault e. e ≡ replay_of_line fault };

    fn from(fault: LineFault) -> ReplayFault {
        match fault {
            LineFault::Syntax => ReplayFault::Syntax,
            LineFault::Unknown => ReplayFault::Unknown,
        }
    }
}

impl From<StepFault> for ReplayFault {
    ghost use Rattle.bip_replay.specs.Faults.{of_step};
    ghost use Rattle.bip_replay.specs.declared.faults.ReplayFault.TheVariants.{NotARun};

    ghost from_gives = { λ fault e. e ≡ NotARun (of_step fault) };

    fn from(fault: StepFault) -> ReplayFault {
        ReplayFault::NotARun(BookFault::from(fault))
    }
}
