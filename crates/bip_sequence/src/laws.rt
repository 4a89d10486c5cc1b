//! The laws above the definitions: what a reader of charts may rely on. The call does nothing, and
//! has the laws for its contract.
ghost use Rattle.bip_sequence.specs.Laws.{ArrowsAreOfMessages, FlightsAreMessages, GrantsAreMarked};
ghost use Rattle.bip_sequence.specs.Laws.{RefusalsAreMarked, RowsStandApart};

/// Behind each event, up to the last one that is shown, what is noted as in flight is what is in
/// flight in the world, message for message; so the arrow that an event takes is that of the
/// message that it is handed. The mark of a grant stands where an event granted, and that of a
/// refusal where one refused, and nowhere else. Rows stand apart (docs/DRAW.md, "Sequence charts").
pub fn sequence_laws()
    ensures flights { FlightsAreMessages }
    ensures arrows { ArrowsAreOfMessages }
    ensures grants { GrantsAreMarked }
    ensures refusals { RefusalsAreMarked }
    ensures rows { RowsStandApart }
{}
