//! What a world knows, before an event, of why that does nothing.
ghost use Rattle.std.specs.Prelude.{◌≡◌};
ghost use Rattle.bip_core.specs.Worlds.{world_of};
ghost use Rattle.bip_tell.specs.Lines.{IsHintOf, IsIdleIn, IsLackedBy};

use bip_bank::{Bank, WhyIdle};
use bip_core::{Event, World};
use bip_model::InterId;

/// Why an event does nothing, as far as the world before it knows.
#[derive(Clone, Copy)]
pub(crate) struct Hint {
    /// The interaction above the one that is tried, for whose sake that one isn't ready.
    pub above: Option<InterId>,
    /// Why a step of the bank does nothing.
    pub idle: Option<WhyIdle>,
}

/// What a world knows of why an event does nothing.
pub(crate) fn hint_of<'p, B: Bank>(world: &World<'p, B>, event: Event) -> Hint
    ensures { IsHintOf (world_of world.now) event result }
{
    Hint {
        above: lacking_above(world, event),
        idle: why_idle(world, event),
    }
}

/// The interaction above the one that an event tries, for whose sake that one isn't ready.
fn lacking_above<'p, B: Bank>(world: &World<'p, B>, event: Event) -> Option<InterId>
    ensures { IsLackedBy (world_of world.now) event result }
{
    match event {
        Event::Try(class, inter) => world.lacking_above(class, inter),
        _ => None,
    }
}

/// Why a step of the bank does nothing.
fn why_idle<'p, B: Bank>(world: &World<'p, B>, event: Event) -> Option<WhyIdle>
    ensures { IsIdleIn (world_of world.now) event result }
{
    match event {
        Event::Bank(step) => world.bank().why_idle(step),
        _ => None,
    }
}
