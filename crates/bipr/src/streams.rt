//! Streams: what a command writes on.
ghost use Rattle.std.specs.Prelude.{◌≡◌, ℕ, Bool, true, List};
ghost use Rattle.std.specs.Io.KnownBytes.{Appends};
ghost use Rattle.bipr.specs.Streams.{Puts};

use std::io::Write;

/// What a command writes on, as standard output. A command is proved for every such thing: of what
/// becomes of a text it knows what `write_text` says.
pub trait Stream {
    /// Writing a text may lead from one state to another, and succeed or not.
    ghost writes: { Self → List ℕ → Bool → Self → Type 0 };

    /// Writes a text, and says whether all of it is out.
    fn write_text(&mut self, text: &[u8]) -> bool
        ensures { writes self.old text.now result self.new };
}

// A text is written whole, and flushed: no contract tells in how many writes, or what a flush does.
impl<W: Write> Stream for W {
    ghost writes = { λ before text is_out after.
        is_out ≡ true → Appends (W.contents before) (W.contents after) text };

    fn write_text(&mut self, text: &[u8]) -> bool {
        self.write_all(text).is_ok() && self.flush().is_ok()
    }
}

/// Puts a text on a stream, and says whether all of it is out. For an empty text nothing is
/// written.
pub fn put<S: Stream>(stream: &mut S, text: &[u8]) -> bool
    ensures { Puts S.writes stream.old stream.new text.now result }
{
    text.is_empty() || stream.write_text(text)
}
