//! What stops a command before it has an answer.
ghost use Rattle.std.specs.Prelude.{◌≡◌, IfOk};
ghost use Rattle.bipr.specs.Stops.{answer_of_stop, unread, unread_text};
ghost use Rattle.bipr.specs.declared.stops.Stop.TheVariants.{OutOfMemory};

use crate::inputs::InputFault;
use bip_answers::shown_word;
use std::alloc::{AllocError, Global};

/// Why a command has no answer.
#[derive(Clone, Copy, Debug, PartialEq, Eq)]
pub enum Stop<'a> {
    /// The text that this path names can't be read, or is longer than the limit.
    CannotRead(&'a str),
    /// What is told on the way can't be written.
    CannotWrite,
    /// The base is out of range, or nothing is asked for.
    BaseOutOfRange,
    /// The rows of a chart end before they begin.
    RowsOutOfOrder,
    /// Not just one of a seed and of how many seeds is said.
    SeedOrSeeds,
    /// Not just one of turns and of grants is said.
    TurnsOrGrants,
    /// Row words are asked for without the central bank.
    WordsNeedCentral,
    /// A record is asked for on standard output.
    RecordOnOutput,
    /// A part of a plan is to be drawn.
    PlanOfPart,
    /// Steps are to be drawn and told.
    DrawnAndTold,
    /// A picture of steps is asked for on standard output.
    ChartOnOutput,
    /// More components have a row than row words can.
    TooManyRows,
    /// A host's book refused a grant.
    GrantRefused,
    /// The system makes no thread for a host.
    ThreadRefused,
    /// The schedule of a seed is longer than any text that is read.
    ScheduleTooLong,
    /// The trace of the seed with this number is no run of the model.
    SeedNotARun(u32),
    /// Want of memory.
    OutOfMemory,
}

/// The complaint where memory is out, which has to be told without memory.
pub const NO_MEMORY: &[u8] = b"bipr: no memory\n";

/// The complaint where what the command says can't be written, which takes no memory either.
pub const CANNOT_WRITE: &[u8] = b"bipr: cannot write\n";

/// The complaint where a host's book refused a grant; and where a thread couldn't be made. Want of
/// memory isn't told in their place.
pub const NOT_A_RUN: &[u8] = b"bipr: not a run\n";

pub const NO_THREAD: &[u8] = b"bipr: no thread\n";

/// The complaint where the base is out of range; and where the rows of a chart end before they
/// begin.
pub const BAD_BASE: &[u8] = b"bipr: bad command line\nerror: --base is 0 to 18446744073709551614\n";

pub const BAD_RANGE: &[u8] = b"bipr: bad command line\nerror: --from is 1 to --to\n";

/// The complaint where not just one of a seed and of how many seeds is said.
pub const BAD_SEEDS: &[u8] = b"bipr: bad command line\nerror: a walk has --seed or --seeds\n";

/// The complaint where not just one of turns and of grants is said.
pub const BAD_LIMITS: &[u8] = b"bipr: bad command line\nerror: a run has --turns or --grants\n";

/// The complaint where a record is asked for on standard output.
pub const BAD_RECORD: &[u8] = b"bipr: bad command line\nerror: --record is a file\n";

/// The complaint where a part of a plan is to be drawn.
pub const BAD_PART: &[u8] = b"bipr: bad command line\nerror: --plan is of a whole model\n";

/// The complaint where steps are to be drawn and told; and where they are to be drawn on standard
/// output.
pub const BAD_SHOWING: &[u8] = b"bipr: bad command line\nerror: steps have --tell or --chart\n";

pub const BAD_CHART: &[u8] = b"bipr: bad command line\nerror: --chart is a file\n";

/// The complaint where row words are asked for without the central bank; and where more components
/// have a row than these can.
pub const WORDS_NEED_CENTRAL: &[u8] = b"bipr: words need central\n";

pub const TOO_MANY_ROWS: &[u8] = b"bipr: too many rows\n";

/// The complaint where a schedule is longer than any text that is read.
pub const SCHEDULE_TOO_LONG: &[u8] = b"bipr: a schedule has at most 16777216 bytes\n";

/// The complaint where a run isn't recorded, since messages were lost for want of memory; and where
/// what threads did leads elsewhere.
pub const LOST: &[u8] = b"bipr: messages were lost, nothing is recorded\n";

pub const OTHER_RUN: &[u8] = b"bipr: not the same run\n";

impl<'a> Stop<'a> {
    /// Why the text of this path isn't read.
    pub fn unread(path: &'a str, fault: InputFault) -> Stop<'a>
        ensures { answer_of_stop result ≡ unread path.now fault }
    {
        match fault {
            InputFault::Failed => Stop::CannotRead(path),
            InputFault::TooLong => Stop::CannotRead(path),
            InputFault::NoMemory => Stop::OutOfMemory,
        }
    }
}

/// `bipr: cannot read PATH`, where `?` stands for each character of the path that a terminal would
/// obey. The only error is want of memory.
pub fn unread_text(alloc: Global, path: &str) -> Result<Vec<u8>, AllocError>
    ensures { IfOk result (λ text. text.items ≡ unread_text path.now) }
{
    let shown = shown_word(alloc, path)?;
    let mut text = Vec::from_slice(alloc, b"bipr: cannot read ")?;
    text.extend_from_slice(shown.as_bytes())?;
    text.push(b'\n')?;
    Ok(text)
}

impl From<AllocError> for Stop<'_> {
    ghost from_gives = { λ _ why. why ≡ OutOfMemory };

    fn from(_: AllocError) -> Self {
        Stop::OutOfMemory
    }
}
