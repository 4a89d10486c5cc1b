//! The kinds of step that are made on the words. Each is made by the seat that a call was handed,
//! or by one that `close` opened.
use crate::knowledge::Knowledge;
use atomic_table::{Join, Play, Split};
use bip_model::Request;

/// A row's word is loaded.
pub(crate) struct Look;

impl Play<Request, Knowledge> for Look {
    ghost use Rattle.bip_words.specs.Steps.{Looks};

    ghost then = { Looks };
}

/// A row's word is exchanged for one with a claim.
pub(crate) struct Take;

impl Play<Request, Knowledge> for Take {
    ghost use Rattle.bip_words.specs.Steps.{Claims};

    ghost then = { Claims };
}

/// The ticket is drawn: the moment of the grant.
pub(crate) struct Draw;

impl Play<Request, Knowledge> for Draw {
    ghost use Rattle.bip_words.specs.Steps.{Draws};

    ghost then = { Draws };
}

/// A row's word is stored without the claim.
pub(crate) struct Give;

impl Play<Request, Knowledge> for Give {
    ghost use Rattle.bip_words.specs.Steps.{IsGivenBack};

    ghost then = { IsGivenBack };
}

/// The grants are counted: the ticket is loaded.
pub(crate) struct Count;

impl Play<Request, Knowledge> for Count {
    ghost use Rattle.bip_words.specs.Steps.{Counts};

    ghost then = { Counts };
}

/// A seat opens by a load of the ticket.
pub(crate) struct Open;

impl Play<Request, Knowledge> for Open {
    ghost use Rattle.bip_words.specs.Steps.{OpensSeat};

    ghost then = { OpensSeat };
}

/// A seat opens beside another one.
pub(crate) struct Halves;

impl Split<Knowledge> for Halves {
    ghost use Rattle.bip_words.specs.Knowledge.{nobody};

    ghost left = { λ v. v };

    ghost right = { λ v. nobody };
}

/// A seat opens beside another one, and knows what that one counted.
pub(crate) struct Witness;

impl Split<Knowledge> for Witness {
    ghost use Rattle.bip_words.specs.Knowledge.{that_counted};

    ghost left = { λ v. v };

    ghost right = { λ v. that_counted v.counts };
}

/// A seat takes over what another one saw, and its grants.
pub(crate) struct Both;

impl Join<Knowledge> for Both {
    ghost use Rattle.bip_words.specs.Knowledge.{both_of, nobody};

    ghost both = { both_of };

    ghost spent = { nobody };
}
