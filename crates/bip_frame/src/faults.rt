//! Why bytes are no frame.
ghost use Rattle.std.specs.Prelude.{◌≡◌, Some};
ghost use Rattle.bip_frame.specs.Faults.{number_of_frame, text_of_frame};

use std::fmt;
use thiserror::Error;

/// Why bytes are no frame: the first fault from left to right. Each field is tested first for being
/// there; a request without a mover is told of behind its entries and reasons, and bytes past the
/// end last (docs/FRAMES.md, "Faults").
#[derive(Clone, Copy, Debug, Error, PartialEq, Eq)]
pub enum FrameFault {
    /// The first byte is that of no kind.
    Kind,
    /// A field passes the end.
    Short,
    /// More than eight values; no entry, or more than 32; a count of no reasons, or above 127.
    Count,
    /// A role is neither 0 nor 1.
    Role,
    /// The component of an entry, or the interaction of a reason, isn't above the one before.
    Order,
    /// No entry moves its component.
    NoMover,
    /// The number of a move, a request, or a used number is 0.
    ZeroNumber,
    /// The number of a port is above 15.
    PortNo,
    /// Bytes stand behind the last field.
    Long,
}

impl fmt::Display for FrameFault {
    ghost output = { λ fault. Some (text_of_frame fault) };

    fn fmt<W: fmt::Write>(&self, f: &mut fmt::Formatter<W>) -> fmt::Result {
        match self {
            FrameFault::Kind => write!(f, "no kind of frame"),
            FrameFault::Short => write!(f, "too short"),
            FrameFault::Count => write!(f, "wrong count"),
            FrameFault::Role => write!(f, "no role"),
            FrameFault::Order => write!(f, "out of order"),
            FrameFault::NoMover => write!(f, "nothing moves"),
            FrameFault::ZeroNumber => write!(f, "number 0"),
            FrameFault::PortNo => write!(f, "no port number"),
            FrameFault::Long => write!(f, "too long"),
        }
    }
}

impl FrameFault {
    /// The fault's number.
    pub fn number(&self) -> u8
        ensures { result ≡ number_of_frame self.now }
    {
        match self {
            FrameFault::Kind => 1,
            FrameFault::Short => 2,
            FrameFault::Count => 3,
            FrameFault::Role => 4,
            FrameFault::Order => 5,
            FrameFault::NoMover => 6,
            FrameFault::ZeroNumber => 7,
            FrameFault::PortNo => 8,
            FrameFault::Long => 9,
        }
    }
}
