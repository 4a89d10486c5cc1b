//! Grants: which interaction may run, with what it does to which components.
ghost use Rattle.std.specs.Prelude.{◌≡◌};

use crate::{InterId, Wants};

/// A grant: an interaction, with the components that it moves or looks at.
#[derive(Drop)]
pub struct Grant {
    pub inter: InterId,
    pub wants: Wants,
}

impl Grant {
    /// The same grant once more. Takes no memory.
    pub fn copy(&self) -> Grant
        ensures { result ≡ self.now }
    {
        Grant {
            inter: self.inter,
            wants: self.wants.copy(),
        }
    }
}
