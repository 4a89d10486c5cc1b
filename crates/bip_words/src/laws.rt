//! The law above the definitions: what a reviewer reads to know what they mean. The call does
//! nothing, and has the law for its contract.
ghost use Rattle.bip_words.specs.Laws.{RuleSays};

/// Where the rule holds, the serials that seats have are those below the ticket, each once; the
/// grants in their order are a history above the opening numbers; an even word has no claim, and
/// its half is the used number; an odd word has one claim, and stands for the number that all
/// grants explain but the claimer's own in flight; no row is below what a seat has seen of it, nor
/// the ticket below what a seat has counted (docs/WORDS.md, "The rule").
pub fn word_laws()
    ensures reads { RuleSays }
{}
