//! What the paths of a command name: `-` is standard input, any other a file.
ghost use Rattle.std.specs.Prelude.{◌≡◌, IfOk};
ghost use Rattle.bipr.specs.Sources.{is_input, is_on_output, is_standard_input, remaining_in};

use crate::inputs::Open;
use std::fs::{File, Files};
use std::io::{self, Input, Read};

/// What a path names, opened.
#[derive(Drop)]
pub enum Source<I, F> {
    StandardInput(I),
    File(F),
}

impl<I: Read, F: Read> Read for Source<I, F> {
    ghost remaining = { remaining_in I.remaining F.remaining };

    fn read(&mut self, buf: &mut [u8]) -> io::Result<usize> {
        match self {
            Source::StandardInput(input) => input.read(buf),
            Source::File(file) => file.read(buf),
        }
    }
}

/// Opens what paths name. Where standard input is closed, it can't be read: no file is open while
/// it is, that could stand in its place.
#[derive(Drop)]
pub struct Sources<'a, R> {
    rt: &'a R,
}

impl<'a, R> Sources<'a, R> {
    pub fn new(rt: &'a R) -> Sources<'a, R> {
        Sources { rt }
    }
}

impl<R: Files + Input> Open for Sources<'_, R> {
    type Source = Source<R::Reader, R::File>;

    fn open(&self, path: &str) -> io::Result<Self::Source>
        ensures { IfOk result (λ source. is_input source ≡ is_standard_input path.now) }
    {
        if is_standard_input(path) {
            Ok(Source::StandardInput(self.rt.reader()))
        } else {
            Ok(Source::File(File::open(self.rt, path)?))
        }
    }
}

/// Whether a path is standard input.
pub fn is_standard_input(path: &str) -> bool
    ensures { result ≡ is_standard_input path.now }
{
    path == "-"
}

/// Whether what is to be written in a file is asked for on standard output.
pub fn is_on_output(path: Option<&str>) -> bool
    ensures { result ≡ is_on_output path.entry }
{
    match path {
        None => false,
        Some(path) => is_standard_input(path),
    }
}
