//! The laws above the definitions: what a reviewer reads to know what they mean. The call does
//! nothing, and has the laws for its contract.
ghost use Rattle.bip_partition.specs.Laws.{ConflictsBothWays, EachMoves, LocalLooksAtNothing};
ghost use Rattle.bip_partition.specs.Laws.{LocalMeansNone, LocalStaysInItsClass};
ghost use Rattle.bip_partition.specs.Laws.{OneClassWithoutRow, ReservedAreListed};
ghost use Rattle.bip_partition.specs.Laws.{ReservedMeansAll, RowsAreClosed, RowsAreLeast, RunApart};
ghost use Rattle.bip_partition.specs.Laws.{StandsInItsClass, TouchesWithItsClass};

/// Each interaction moves something, and stands in one class. The components with a row in the
/// table are the least set that has what is looked at, what two classes touch, and what is touched
/// beside one of them: a reserved interaction touches only these, a local one none, and what
/// touches another component is of one class, so a local interaction shares nothing with another
/// class. What an interaction touches its class touches. Interactions that may run and aren't in
/// conflict run in either order, and lead to one state (docs/PROTOCOL.md, "Plans").
pub fn plan_laws()
    ensures moves { EachMoves }
    ensures stands { StandsInItsClass }
    ensures closed { RowsAreClosed }
    ensures least { RowsAreLeast }
    ensures reserved { ReservedMeansAll }
    ensures local { LocalMeansNone }
    ensures alone { LocalLooksAtNothing }
    ensures one { OneClassWithoutRow }
    ensures in_class { LocalStaysInItsClass }
    ensures with_class { TouchesWithItsClass }
    ensures listed { ReservedAreListed }
    ensures both_ways { ConflictsBothWays }
    ensures apart { RunApart }
{}
