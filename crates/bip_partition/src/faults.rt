//! Why a model with classes has no plan.
ghost use Rattle.std.specs.Prelude.{◌≡◌, Some};
ghost use Rattle.bip_partition.specs.Faults.{number_of_plan, text_of_plan};

use bip_model::InterId;
use std::fmt;
use thiserror::Error;

/// Why a model with classes has no plan (docs/PROTOCOL.md, "Plans").
#[derive(Clone, Copy, Debug, Error, PartialEq, Eq)]
pub enum PlanFault {
    /// This interaction, the lowest-numbered one, touches more components than a grant can want.
    TooManyTouched(InterId),
    /// Want of memory.
    Memory,
}

impl fmt::Display for PlanFault {
    ghost output = { λ fault. Some (text_of_plan fault) };

    fn fmt<W: fmt::Write>(&self, f: &mut fmt::Formatter<W>) -> fmt::Result {
        match self {
            PlanFault::TooManyTouched(inter) => {
                write!(f, "interaction {} touches too many", inter.0)
            }
            PlanFault::Memory => write!(f, "no memory"),
        }
    }
}

impl PlanFault {
    /// The fault's number.
    pub fn number(&self) -> u8
        ensures { result ≡ number_of_plan self.now }
    {
        match self {
            PlanFault::TooManyTouched(_) => 1,
            PlanFault::Memory => 2,
        }
    }
}
