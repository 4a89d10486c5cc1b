//! What runs, faults and traces mean.
ghost use Rattle.bip_replay.specs.Laws.{AreOfModel, AtMostOneFault, AtMostOneFirstFault};
ghost use Rattle.bip_model.specs.Laws.{EndsAfterItsLast, GoesOnByWhatMayRun, UsedGoesOn};
ghost use Rattle.bip_model.specs.declared.parts.System.{System};
ghost use Rattle.bip_replay.specs.Laws.{BeginningsAreRuns, FaultsAreExact, FirstFaultsAreExact};
ghost use Rattle.bip_replay.specs.Laws.{GrantsFromTheBack, GrantsLineByLine, IsNextOrFaulty};
ghost use Rattle.bip_replay.specs.Laws.{IsRunOrFaulty};
ghost use Rattle.bip_replay.specs.Laws.{MovesAreNumbered, NamesItsInteraction, NumbersCountMoves};
ghost use Rattle.bip_replay.specs.Laws.{ReadsGrantLines, RunsAreHistories, RunsMoveOnceEach};
ghost use Rattle.bip_replay.specs.Laws.{RunsAreOfModel, RunsStepByStep, SameGrants};
ghost use Rattle.bip_replay.specs.Laws.{StatesFromTheBack};
ghost use Rattle.bip_replay.specs.Laws.{StepsAreARun, TellsFirstLine, WrittenReadsBack};

use bip_model::{history_laws, step_laws};

/// Runs from the back: a run goes on by each grant that can be next where it leads, and by no
/// other. Each grant of a run is a next step after those before it. The k-th move of a component
/// has the base and k as its number. A run is a history, and moves no component twice with one
/// number; each grant of it is of the model (docs/DEFINITIONS.md, "Runs with exact numbers").
pub fn run_laws()
    ensures ends { (m : System) → EndsAfterItsLast m }
    ensures runs { (m : System) → GoesOnByWhatMayRun m }
    ensures states { StatesFromTheBack }
    ensures numbers { UsedGoesOn }
    ensures grants { GrantsFromTheBack }
    ensures beginnings { BeginningsAreRuns }
    ensures by_steps { RunsStepByStep }
    ensures steps { StepsAreARun }
    ensures of_model { RunsAreOfModel }
    ensures histories { RunsAreHistories }
    ensures once { RunsMoveOnceEach }
    ensures counts { NumbersCountMoves }
    ensures numbered { MovesAreNumbered }
{
    step_laws();
    history_laws();
}

/// Faults are exact: a grant with a fault can't be next, and a trace with a first fault isn't the
/// trace of a run. A grant has one fault at most, and a trace one first fault. And there is always
/// an answer: a grant can be next or has a fault, a trace is that of a run or has a first fault
/// (docs/DEFINITIONS.md, "Why a grant can't be next" and "The first fault of a trace").
pub fn fault_laws()
    ensures refused { FaultsAreExact }
    ensures one_fault { AtMostOneFault }
    ensures either { IsNextOrFaulty }
    ensures first { FirstFaultsAreExact }
    ensures one { AtMostOneFirstFault }
    ensures answered { IsRunOrFaulty }
{}

/// A line reads as a grant exactly where it is that grant's line: its words are `grant`, the name
/// of the interaction, a word for each moved want, and perhaps `see` with a word for each seen one,
/// in any order. A text is the grants of its lines, and only lines without words are passed over.
/// Texts that say the same words, line by line, are the same grants, whatever blanks
/// and skipped lines are between them; the second word of a grant's line is the name of its
/// interaction; and what is read are grants of the model. The text of grants is these grants; and
/// what is told of a text that isn't grants is its first line at fault (docs/DEFINITIONS.md,
/// "Traces").
pub fn trace_laws()
    ensures lines { ReadsGrantLines }
    ensures line_by_line { GrantsLineByLine }
    ensures same { SameGrants }
    ensures named { NamesItsInteraction }
    ensures of_model { AreOfModel }
    ensures written { WrittenReadsBack }
    ensures first { TellsFirstLine }
{}
