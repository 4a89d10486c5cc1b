//! Grants whose wants are lent.
ghost use Rattle.std.specs.Prelude.{◌≡◌};
ghost use Rattle.bip_model.specs.Wants.{IsWants};

use bip_model::{Grant, InterId, Want};
use std::marker::Model;

/// A grant whose wants stand elsewhere: an interaction, and a slice of wants that can be those of
/// one grant (docs/DEFINITIONS.md, "Wants"). Contracts see the grant.
#[derive(Drop)]
pub struct GrantRef<'w> {
    inter: InterId,
    wants: &'w [Want],
}

impl<'w> Model for GrantRef<'w> {
    ghost use Rattle.bip_model.specs.Wants.{IsWants};
    ghost use Rattle.bip_model.specs.declared.grants.Grant.{Grant};

    ghost Value = { Grant };

    ghost view = { λ g. record { inter = g.inter; wants = g.wants.now } };

    ghost invariant = { λ g. IsWants g.wants.now };
}

impl<'w> GrantRef<'w> {
    /// The grant of an interaction with these wants.
    pub fn new(inter: InterId, wants: &'w [Want]) -> GrantRef<'w>
        requires { IsWants wants.now }
        ensures { result ≡ record { inter = inter; wants = wants.now } }
    {
        GrantRef { inter, wants }
    }

    /// A grant, lent.
    pub fn of(grant: &'w Grant) -> GrantRef<'w>
        ensures { result ≡ grant.now }
    {
        GrantRef::new(grant.inter, grant.wants.as_slice())
    }

    /// The interaction.
    pub fn inter(&self) -> InterId
        ensures { result ≡ self.now.inter }
    {
        self.inter
    }

    /// The wants, by component.
    pub fn wants(&self) -> &'w [Want]
        ensures wants { result.now ≡ self.now.wants }
        ensures valid { IsWants self.now.wants }
    {
        self.wants
    }
}
