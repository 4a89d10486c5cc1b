//! Inputs: the texts that a command's paths name, read with a limit.
ghost use Rattle.std.specs.Prelude.{ℕ, List, Result};
ghost use Rattle.bipr.specs.Inputs.{IsAll, IsReading, Named, Opens, unknown};
ghost use Rattle.bipr.specs.declared.inputs.InputFault.{InputFault};

use bip_explain::Explanation;
use bip_model::Seq;
use std::alloc::Global;
use std::io::{self, ErrorKind, Read};

/// How many bytes a text has at most.
pub const MOST_BYTES: usize = 16_777_216;

/// How often a reader is called at most for one text.
const MOST_READS: u32 = 33_554_432;

/// Why a text isn't read.
#[derive(Clone, Copy, Debug, PartialEq, Eq)]
pub enum InputFault {
    /// It couldn't be opened, a read failed, or the reader doesn't end.
    Failed,
    /// The text is longer than the limit.
    TooLong,
    /// Want of memory.
    NoMemory,
}

/// The texts that paths name. A command is proved for every such thing: of what a path gives it
/// knows what `read` says.
pub trait Inputs {
    /// Reading the text that a path names may give this.
    ghost gives: { Self → List ℕ → Result (List ℕ) InputFault → Type 0 };

    /// Reads the text that a path names; where it isn't read, the explanation says why.
    fn read(
        &self,
        alloc: Global,
        explanation: &mut Explanation,
        path: &str,
    ) -> Result<Seq<u8>, InputFault>
        ensures { gives self.now path.now result };
}

/// A way to open what paths name.
pub trait Open {
    /// What is opened. It is closed where it is dropped.
    type Source: Read + Drop;

    /// What is known of what a path names.
    ghost named: { Self → List ℕ → Named } = { λ _ _. unknown };

    /// Opens what a path names, to be read from its beginning.
    fn open(&self, path: &str) -> io::Result<Self::Source>
        ensures { Opens Self.Source.remaining (named self.now path.now) result };
}

// A path is opened when its text is read, and closed before the next one is opened.
impl<O: Open> Inputs for O {
    ghost gives = { λ inputs path. IsReading (O.named inputs path) };

    fn read(
        &self,
        alloc: Global,
        explanation: &mut Explanation,
        path: &str,
    ) -> Result<Seq<u8>, InputFault> {
        match self.open(path) {
            Ok(mut source) => read_text(alloc, explanation, &mut source, MOST_BYTES),
            Err(error) => {
                explain_error(explanation, &error);
                Err(InputFault::Failed)
            }
        }
    }
}

/// All that a reader gives, at most so many bytes (docs/ANSWERS.md, "Inputs").
pub fn read_text<R: Read>(
    alloc: Global,
    explanation: &mut Explanation,
    reader: &mut R,
    limit: usize,
) -> Result<Seq<u8>, InputFault>
    ensures { IsAll (R.remaining reader.old) limit result }
{
    let mut text = Vec::new(alloc);
    let mut buffer = [0; 8192];
    for _ in 0..MOST_READS {
        match reader.read(&mut buffer) {
            Ok(0) => return Ok(Seq::of(text)),
            Ok(count) => {
                if count > limit - text.len() {
                    explanation.say(b"it has more than 16777216 bytes");
                    return Err(InputFault::TooLong);
                }
                if text.extend_from_slice(&buffer[..count]).is_err() {
                    return Err(InputFault::NoMemory);
                }
            }
            Err(error) => {
                if error.kind() != ErrorKind::Interrupted {
                    explain_error(explanation, &error);
                    return Err(InputFault::Failed);
                }
            }
        }
    }
    explanation.say(b"it doesn't end");
    Err(InputFault::Failed)
}

// Says why a path can't be opened, or its text not be read.
fn explain_error(explanation: &mut Explanation, error: &io::Error) {
    explanation.say(match error.kind() {
        ErrorKind::NotFound => b"there is no such file",
        ErrorKind::PermissionDenied => b"reading it isn't permitted",
        ErrorKind::IsADirectory => b"it is a folder",
        ErrorKind::NotADirectory => b"a part of the path is no folder",
        ErrorKind::FilesystemLoop => b"its links lead in a circle",
        ErrorKind::InvalidFilename => b"a name in the path is too long",
        _ => b"the system can't open or read it",
    });
}
