//! What pictures keep.
ghost use Rattle.bip_draw.specs.Laws.{ColoursDiffer, EdgesDiffer, EscapedTextsAreKept};
ghost use Rattle.bip_draw.specs.Laws.{LanesAreApart, NamesAreInert, NoneIsRed, RowsAreApart};
ghost use Rattle.bip_draw.specs.Laws.{TextsAreInert, TransitionsStandOnce};

/// Classes have colours of their own, none of them near red (docs/DRAW.md, "Colours"), and names
/// stand in a drawing as they are, and end no label there; each transition of a component stands
/// there on one edge, once, and no two edges have the same ends (docs/DRAW.md, "Drawings"). In a
/// chart lanes stand side by side in the order of their components, with room for the names on
/// them; rows stand below one another in the order of their grants; no text of a model or of a
/// caller begins or ends anything; and printable texts that are written alike are the same
/// (docs/DRAW.md, "Charts").
pub fn picture_laws()
    ensures colours { ColoursDiffer }
    ensures red { NoneIsRed }
    ensures names { NamesAreInert }
    ensures once { TransitionsStandOnce }
    ensures edges { EdgesDiffer }
    ensures lanes { LanesAreApart }
    ensures rows { RowsAreApart }
    ensures inert { TextsAreInert }
    ensures escaped { EscapedTextsAreKept }
{}
