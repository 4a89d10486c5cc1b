//! The laws above the definitions: what a reviewer reads to know what they mean. The call does
//! nothing, and has the laws for its contract.
ghost use Rattle.bip_reader.specs.Laws.{CanonicalMeans, FaultsInOrder, FirstFault, FirstLineIsTold};
ghost use Rattle.bip_reader.specs.Laws.{LinesAreRead, MeaningOrFault, MeansValid, NamesAreTaken};
ghost use Rattle.bip_reader.specs.Laws.{NoFault, NoLastLineFeed, NothingPast, NoWantOfMemory};
ghost use Rattle.bip_reader.specs.Laws.{OneFault, OneMeaning, OneStatement, SameMeaning};
ghost use Rattle.bip_reader.specs.Laws.{SaysItsStatement, SyntaxIsNoLine};

/// A text has one meaning or one fault, and never both. What it means is a valid model with a
/// partition of its interactions. Its fault is never want of memory, it is the first, and what
/// stands behind a line at fault counts for nothing. Texts that differ only in skipped lines, in
/// blanks between words or in a last line feed mean the same model and classes. A word is taken as
/// a name exactly where it is one. The canonical text of a model means it (docs/ANSWERS.md, "Model
/// texts").
#[tactic(auto, unfolding(bip_model::specs::Words::name_of))]
pub fn meaning_laws()
    ensures meaning { OneMeaning }
    ensures fault { OneFault }
    ensures either { NoFault }
    ensures some { MeaningOrFault }
    ensures valid { MeansValid }
    ensures whys { NoWantOfMemory }
    ensures first { FirstFault }
    ensures past { NothingPast }
    ensures names { NamesAreTaken }
    ensures same { SameMeaning }
    ensures last { NoLastLineFeed }
    ensures canonical { CanonicalMeans }
{}

/// Words are read as a statement exactly where they are a line of it, and they are a line of at
/// most one. A line says what its statement says, and is a fault of syntax exactly where it states
/// nothing that can stand there. Else its fault is the first of what can be wrong with it: a word
/// is told only where no word before it is at fault, and the line as a whole only where none is.
/// The fault of a text's lines is that of the first line at fault (docs/ANSWERS.md, "Model lines"
/// and "Model texts").
pub fn line_laws()
    ensures read { LinesAreRead }
    ensures one { OneStatement }
    ensures says { SaysItsStatement }
    ensures syntax { SyntaxIsNoLine }
    ensures order { FaultsInOrder }
    ensures first { FirstLineIsTold }
{}
