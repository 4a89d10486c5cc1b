//! The laws above the definitions: what a reviewer reads to know what they mean. The calls do
//! nothing, and have the laws for their contracts.
ghost use Rattle.bip_observe.specs.Laws.{CountedIsHeld, HeldOnce, MayRunMeansReady, OfferedValues};
ghost use Rattle.bip_observe.specs.Laws.{OldStaysOld, OneOfferEach, OneReceipt, OneVerdict};
ghost use Rattle.bip_observe.specs.Laws.{OneReasonsEach, OwnOffersAreExpected, OwnOffersShow};
ghost use Rattle.bip_observe.specs.Laws.{ReadyMeansMayRun, ReasonsAreSound, ReasonsSuffice};
ghost use Rattle.bip_observe.specs.Laws.{SomeVerdict, UsedNumbersDontCount, VerdictsAreTrue};

/// What a component offers in its local state shows the state, there is one such offer of each
/// number, and no class that touches the component takes it for a stranger's. An offer has no two
/// receipts; one that was held just now is old, and counts; what is old stays so; one whose number
/// is used doesn't count (docs/PROTOCOL.md, "Held offers").
pub fn offer_laws()
    ensures show { OwnOffersShow }
    ensures one { OneOfferEach }
    ensures expected { OwnOffersAreExpected }
    ensures receipt { OneReceipt }
    ensures once { HeldOnce }
    ensures old { OldStaysOld }
    ensures counted { CountedIsHeld }
    ensures used { UsedNumbersDontCount }
{}

/// By offers that show a state an interaction is ready just where it may run there, and each
/// verdict is true of the state; of the verdicts one holds, and no two. The reasons for an
/// interaction are true, and the offers of what it moves and of what they name suffice to say that
/// it is ready (docs/PROTOCOL.md, "Verdicts").
pub fn verdict_laws()
    ensures ready { ReadyMeansMayRun }
    ensures may { MayRunMeansReady }
    ensures values { OfferedValues }
    ensures sound { ReasonsAreSound }
    ensures suffice { ReasonsSuffice }
    ensures reasons { OneReasonsEach }
    ensures true_of { VerdictsAreTrue }
    ensures one { OneVerdict }
    ensures some { SomeVerdict }
{}
