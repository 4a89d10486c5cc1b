//! Command lines that ask for nothing.
ghost use Rattle.bipr.specs.Endings.{AllOutcomes, Ends, nothing_kept};
ghost use Rattle.bipr.specs.Refusals.{IsErrorAnswer, IsWordsAnswer};
ghost use Rattle.bipr.specs.Streams.{Puts};

use crate::hosting::Hosting;
use crate::invocations::Invocation;
use crate::stops::{NO_MEMORY, Stop};
use crate::streams::Stream;
use bip_answers::{Answer, Status, complained, said};
use clap::Error;
use clap::error::ErrorKind;
use std::alloc::Global;
use std::io;

const BAD_COMMAND_LINE: &[u8] = b"bipr: bad command line\n";

const NO_TEXT: &[u8] = b"bipr: bad command line\nerror: an argument is not UTF-8\n";

impl<R, I, H: Hosting, O: Stream, E: Stream> Invocation<'_, R, I, H, O, E> {
    /// The words of the command line can't be had: there is no memory, or one is no text.
    pub fn refuse_words(&mut self, error: &io::Error) -> Status
        ensures { Ends (IsWordsAnswer error.now) (Puts O.writes self.old.output self.new.output)
            nothing_kept (Puts E.writes self.old.errors self.new.errors) result }
    {
        if error.kind() == io::ErrorKind::OutOfMemory {
            return self.complain(Status::NoMemory, NO_MEMORY);
        }
        self.complain(Status::BadCommandLine, NO_TEXT)
    }
}

/// Help or the version that is asked for, or why the words ask for nothing.
pub fn answer_error(alloc: Global, error: &Error) -> Result<Answer, Stop<'static>>
    ensures { AllOutcomes result (IsErrorAnswer error.now) }
{
    if error.kind() == ErrorKind::OutOfMemory {
        return Err(Stop::OutOfMemory);
    }
    let text = format!(in alloc; "{error}")?;
    if !error.use_stderr() {
        return Ok(said(alloc, Status::Done, text.into_bytes()));
    }
    let mut complaint = Vec::from_slice(alloc, BAD_COMMAND_LINE)?;
    complaint.extend_from_slice(text.as_bytes())?;
    Ok(complained(alloc, Status::BadCommandLine, complaint))
}
