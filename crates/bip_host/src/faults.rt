//! Why a host gives no report.
ghost use Rattle.std.specs.Prelude.{◌≡◌};
ghost use Rattle.bip_host.specs.declared.faults.HostFault.TheVariants.{Memory};

use bip_replay::BookFault;
use std::alloc::{AllocError, AllocFailed};

/// Why a host gives no report: the first of these that applies (docs/HOST.md, "Faults").
#[derive(Debug, Drop)]
pub enum HostFault {
    /// A grant couldn't be next in the book: the first that was refused. It is never for want of
    /// memory.
    NotARun(BookFault),
    /// Want of memory: of a table, of the book, before any thread was started, or for the report.
    Memory,
    /// A thread couldn't be started.
    Thread,
}

impl From<AllocError> for HostFault {
    ghost from_gives = { λ _ why. why ≡ Memory };

    fn from(_refused: AllocError) -> HostFault {
        HostFault::Memory
    }
}

impl From<BookFault> for HostFault {
    ghost use Rattle.bip_host.specs.Reports.{of_book};

    ghost from_gives = { λ fault why. why ≡ of_book fault };

    fn from(fault: BookFault) -> HostFault {
        match fault {
            BookFault::Memory => HostFault::Memory,
            fault => HostFault::NotARun(fault),
        }
    }
}
