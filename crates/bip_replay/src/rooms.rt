//! Room for what a line of a trace says, used again for each line.
ghost use Rattle.std.specs.Prelude.{◌≡◌};
ghost use Rattle.bip_replay.specs.Lines.{grant_on};

use crate::GrantRef;
use crate::faults::LineFault;
use crate::lines::{NamedWant, look_up, read_line};
use arrayvec::ArrayVec;
use bip_model::{MOST_WANTS, Model, Want};

/// Room for the wants of a line, used again for each line. It is kept in place, and takes no
/// memory.
#[derive(Drop)]
pub struct Room {
    named: ArrayVec<NamedWant, MOST_WANTS>,
    wants: ArrayVec<Want, MOST_WANTS>,
}

impl Room {
    /// Room of which nothing is used.
    pub fn new() -> Room {
        Room {
            named: ArrayVec::new(),
            wants: ArrayVec::new(),
        }
    }

    /// The grant of a line, with its wants by component; none of a line that says nothing; or the
    /// line's fault (docs/DEFINITIONS.md, "Traces").
    pub fn read<'r>(
        &'r mut self,
        model: &Model,
        line: &[u8],
    ) -> Result<Option<GrantRef<'r>>, LineFault>
        ensures { result ≡ grant_on model.now line.now }
    {
        let Some(name) = read_line(&mut self.named, line)? else {
            return Ok(None);
        };
        let Some(inter) = model.interaction(&name) else {
            return Err(LineFault::Unknown);
        };
        if !look_up(&mut self.wants, model, self.named.as_slice()) {
            return Err(LineFault::Unknown);
        }
        Ok(Some(GrantRef::new(inter, self.wants.as_slice())))
    }
}
