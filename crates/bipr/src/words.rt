//! The words that ask the program something.
ghost use Rattle.std.specs.Prelude.{List, Ok, Err, IfErr, IfOk, Result, map, ⊤};
ghost use Rattle.std.specs.String.{string_bytes};
ghost use Rattle.std.specs.declared.io.Error.{Error};
ghost use Rattle.clap.specs.Words.{Text};

use std::alloc::Global;
use std::env::{self, Env};
use std::io;

/// Where the program has the words from that it carries out, the first of which is its own name. It
/// is proved for every such thing: of the words it knows what `words` says.
pub trait Words {
    /// Asking for the words may give this.
    ghost says: { Self → Result (List Text) Error → Type 0 };

    /// The words, or why they can't be had.
    fn words(&self, alloc: Global) -> io::Result<Vec<String>>
        ensures ok { IfOk result (λ words. says self.now (Ok (map string_bytes words.items))) }
        ensures err { IfErr result (λ error. says self.now (Err error)) };
}

/// The words that the process was started with: which these are is trusted.
#[derive(Drop)]
pub struct Started<'a, R> {
    rt: &'a R,
}

impl<'a, R> Started<'a, R> {
    pub fn new(rt: &'a R) -> Started<'a, R> {
        Started { rt }
    }
}

impl<R: AllocGlobal + Env> Words for Started<'_, R> {
    ghost says = { λ _ _. ⊤ };

    fn words(&self, alloc: Global) -> io::Result<Vec<String>> {
        env::args(self.rt).and_then(|words| Ok(words.collect(alloc)?))
    }
}
