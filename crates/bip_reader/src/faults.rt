//! Why a text is no model.
ghost use Rattle.std.specs.Prelude.{◌≡◌, Some};
ghost use Rattle.bip_reader.specs.declared.faults.Why.TheVariants.{Memory};
ghost use Rattle.bip_reader.specs.Faults.{number_of_why, text_of_why, text_of_fault, why_of_build};
ghost use Rattle.bip_reader.specs.Faults.{why_of_class};

use bip_model::{BuildFault, ClassFault};
use std::alloc::{AllocError, AllocFailed};
use std::fmt;
use thiserror::Error;

/// What is wrong with a line of a text (docs/ANSWERS.md, "Model texts").
#[derive(Clone, Copy, Debug, Error, PartialEq, Eq)]
pub enum Why {
    /// The line has no form of a line, or not one that can stand in its place.
    Syntax,
    /// A name that nothing of its kind has.
    Unknown,
    /// A name or a priority that is there, or a component that takes part twice, or a second
    /// assignment of a transfer to one target.
    Twice,
    /// A limit would be passed.
    TooMany,
    /// A component without a location or without an end, or a text without its first line or
    /// without a component.
    Missing,
    /// A second transition for a location and a port.
    TwoTransitions,
    /// An interaction above itself.
    PriorityCycle,
    /// An interaction that stands in no class, in two, or twice in one.
    NotAPartition,
    /// Want of memory.
    Memory,
}

impl fmt::Display for Why {
    ghost output = { λ why. Some (text_of_why why) };

    fn fmt<W: fmt::Write>(&self, f: &mut fmt::Formatter<W>) -> fmt::Result {
        match self {
            Why::Syntax => write!(f, "syntax"),
            Why::Unknown => write!(f, "unknown name"),
            Why::Twice => write!(f, "named twice"),
            Why::TooMany => write!(f, "too many"),
            Why::Missing => write!(f, "missing"),
            Why::TwoTransitions => write!(f, "two transitions"),
            Why::PriorityCycle => write!(f, "priority cycle"),
            Why::NotAPartition => write!(f, "not a partition"),
            Why::Memory => write!(f, "no memory"),
        }
    }
}

impl Why {
    /// The fault's number.
    pub fn number(&self) -> u8
        ensures { result ≡ number_of_why self.now }
    {
        match self {
            Why::Syntax => 1,
            Why::Unknown => 2,
            Why::Twice => 3,
            Why::TooMany => 4,
            Why::Missing => 5,
            Why::TwoTransitions => 6,
            Why::PriorityCycle => 7,
            Why::NotAPartition => 8,
            Why::Memory => 9,
        }
    }
}

impl From<BuildFault> for Why {
    ghost from_gives = { λ fault why. why ≡ why_of_build fault };

    fn from(fault: BuildFault) -> Why {
        match fault {
            BuildFault::Unknown => Why::Unknown,
            BuildFault::Twice => Why::Twice,
            BuildFault::TooMany => Why::TooMany,
            BuildFault::Missing => Why::Missing,
            BuildFault::TwoTransitions => Why::TwoTransitions,
            BuildFault::PriorityCycle => Why::PriorityCycle,
            BuildFault::Memory => Why::Memory,
        }
    }
}

impl From<ClassFault> for Why {
    ghost from_gives = { λ fault why. why ≡ why_of_class fault };

    fn from(fault: ClassFault) -> Why {
        match fault {
            ClassFault::NotAPartition => Why::NotAPartition,
            ClassFault::Memory => Why::Memory,
        }
    }
}

impl From<AllocError> for Why {
    ghost from_gives = { λ _ why. why ≡ Memory };

    fn from(_error: AllocError) -> Why {
        Why::Memory
    }
}

impl<T: Drop> From<AllocFailed<T>> for Why {
    ghost from_gives = { λ _ why. why ≡ Memory };

    fn from(_error: AllocFailed<T>) -> Why {
        Why::Memory
    }
}

/// The first fault of a text, with the number of its line. Lines are counted from 1, and what a
/// text lacks as a whole is a fault of its last line.
#[derive(Clone, Copy, Debug, Error, PartialEq, Eq)]
pub struct ReadFault {
    pub line: u64,
    pub why: Why,
}

impl fmt::Display for ReadFault {
    ghost output = { λ fault. Some (text_of_fault fault) };

    fn fmt<W: fmt::Write>(&self, f: &mut fmt::Formatter<W>) -> fmt::Result {
        write!(f, "line {}: {}", self.line, self.why)
    }
}
