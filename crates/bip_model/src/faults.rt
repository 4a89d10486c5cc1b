//! Why a call of this crate refuses.
ghost use Rattle.std.specs.Prelude.{◌≡◌, Some};
ghost use Rattle.bip_model.specs.Faults.{number_of_not_now, text_of_not_now, number_of_build};
ghost use Rattle.bip_model.specs.Faults.{text_of_build, number_of_class, text_of_class};
ghost use Rattle.bip_model.specs.declared.faults.BuildFault.TheVariants.{Memory};

use crate::InterId;
use std::alloc::{AllocError, AllocFailed};
use std::fmt;
use thiserror::Error;

/// Why an interaction can't run now.
#[derive(Debug, Drop, Error)]
pub enum NotNow {
    /// A participant's port is not offered, the interaction's guard doesn't hold, or the model has
    /// no such interaction.
    NotEnabled,
    /// This interaction, the lowest-numbered one, is above it and enabled.
    Below(InterId),
}

impl fmt::Display for NotNow {
    ghost output = { λ fault. Some (text_of_not_now fault) };

    fn fmt<W: fmt::Write>(&self, f: &mut fmt::Formatter<W>) -> fmt::Result {
        match self {
            NotNow::NotEnabled => write!(f, "not enabled"),
            NotNow::Below(inter) => write!(f, "below interaction {}", inter.0),
        }
    }
}

impl NotNow {
    /// The fault's number.
    pub fn number(&self) -> u8
        ensures { result ≡ number_of_not_now self.now }
    {
        match self {
            NotNow::NotEnabled => 1,
            NotNow::Below(_) => 2,
        }
    }
}

/// Why a line of a model's text can't stand where it is, or a model can't end.
#[derive(Debug, Drop, Error)]
pub enum BuildFault {
    /// A name that nothing of its kind has.
    Unknown,
    /// A name that is there, a component that takes part twice, a variable that a transfer assigns
    /// to twice, or a priority that is declared already.
    Twice,
    /// A limit would be passed.
    TooMany,
    /// A component without a location or without an end, or a model without a component.
    Missing,
    /// A second transition for a location and a port.
    TwoTransitions,
    /// An interaction above itself.
    PriorityCycle,
    /// Want of memory.
    Memory,
}

impl fmt::Display for BuildFault {
    ghost output = { λ fault. Some (text_of_build fault) };

    fn fmt<W: fmt::Write>(&self, f: &mut fmt::Formatter<W>) -> fmt::Result {
        match self {
            BuildFault::Unknown => write!(f, "unknown name"),
            BuildFault::Twice => write!(f, "named twice"),
            BuildFault::TooMany => write!(f, "too many"),
            BuildFault::Missing => write!(f, "missing"),
            BuildFault::TwoTransitions => write!(f, "two transitions"),
            BuildFault::PriorityCycle => write!(f, "priority cycle"),
            BuildFault::Memory => write!(f, "no memory"),
        }
    }
}

impl BuildFault {
    /// The fault's number.
    pub fn number(&self) -> u8
        ensures { result ≡ number_of_build self.now }
    {
        match self {
            BuildFault::Unknown => 2,
            BuildFault::Twice => 3,
            BuildFault::TooMany => 4,
            BuildFault::Missing => 5,
            BuildFault::TwoTransitions => 6,
            BuildFault::PriorityCycle => 7,
            BuildFault::Memory => 9,
        }
    }
}

impl From<AllocError> for BuildFault {
    ghost from_gives = { λ _ fault. fault ≡ Memory };

    fn from(_error: AllocError) -> BuildFault {
        BuildFault::Memory
    }
}

impl<T: Drop> From<AllocFailed<T>> for BuildFault {
    ghost from_gives = { λ _ fault. fault ≡ Memory };

    fn from(_error: AllocFailed<T>) -> BuildFault {
        BuildFault::Memory
    }
}

/// Why lists of interactions are no classes of a model.
#[derive(Debug, Drop, Error)]
pub enum ClassFault {
    /// An interaction in no class, in two or twice in one, one that the model lacks, an empty
    /// class, two classes of one name, or more than 32.
    NotAPartition,
    /// Want of memory.
    Memory,
}

impl fmt::Display for ClassFault {
    ghost output = { λ fault. Some (text_of_class fault) };

    fn fmt<W: fmt::Write>(&self, f: &mut fmt::Formatter<W>) -> fmt::Result {
        match self {
            ClassFault::NotAPartition => write!(f, "not a partition"),
            ClassFault::Memory => write!(f, "no memory"),
        }
    }
}

impl ClassFault {
    /// The fault's number.
    pub fn number(&self) -> u8
        ensures { result ≡ number_of_class self.now }
    {
        match self {
            ClassFault::NotAPartition => 1,
            ClassFault::Memory => 2,
        }
    }
}
