//! The laws above the definitions: what a reviewer reads to know what they mean. The call does
//! nothing, and has the laws for its contract.
ghost use Rattle.bip_component.specs.Laws.{MovesOnce, SpentStays};

/// A notification that is repeated is stale, and so is each one for a spent component
/// (docs/PROTOCOL.md, "Component nodes").
pub fn component_laws()
    ensures once { MovesOnce }
    ensures spent { SpentStays }
{}
