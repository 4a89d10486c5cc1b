//! What an event comes to for those who count, and those who look on.
ghost use Rattle.std.specs.Prelude.{◌≡◌};
ghost use Rattle.bip_core.specs.declared.outcomes.Outcome.{Outcome};

use crate::What;
use bip_ip::{Tried, WhyNot};

/// What an event did, for the report of a run.
#[derive(Clone, Copy)]
pub(crate) enum Effect {
    /// It did something, and neither gave a grant nor refused a request.
    Done,
    /// A grant joined the trace.
    Granted,
    /// The bank refused a request.
    Refused,
    /// It did nothing.
    Idle,
}

/// What an event comes to: what it did, and how many of its messages were lost.
#[derive(Clone, Copy)]
pub(crate) struct Outcome {
    pub effect: Effect,
    pub lost: usize,
}

impl Outcome {
    /// An event that did this and lost no message.
    pub fn of(effect: Effect) -> Outcome
        ensures { result ≡ record { effect = effect; lost = 0 } }
    {
        Outcome { effect, lost: 0 }
    }
}

/// Who looks on while an event is done, and sees what it did.
pub(crate) trait Witness {
    ghost use Rattle.bip_ip.specs.Nodes.{tried_of};
    ghost use Rattle.bip_core.specs.declared.events.What.TheVariants.{Tries};
    ghost use Rattle.bip_core.specs.declared.events.What.{What};

    /// That this is what it saw last, so far as it remembers.
    ghost saw: { What → Self → Type 0 };

    fn see(&mut self, what: What)
        ensures { saw what self.new };

    /// Sees a try that asks for nothing.
    fn see_why_not(&mut self, why: WhyNot)
        ensures { saw (Tries (tried_of why)) self.new };
}

impl Witness for What {
    ghost saw = { λ what seen. seen ≡ what };

    fn see(&mut self, what: What) {
        *self = what;
    }

    fn see_why_not(&mut self, why: WhyNot) {
        *self = What::Tries(Tried::from(why));
    }
}

/// No one: what an event did is forgotten at once.
#[derive(Drop)]
pub(crate) struct NoOne;

impl Witness for NoOne {
    ghost use Rattle.std.specs.Prelude.{⊤};

    ghost saw = { λ what seen. ⊤ };

    #[inline(always)]
    fn see(&mut self, _what: What) {}

    fn see_why_not(&mut self, _why: WhyNot) {}
}
