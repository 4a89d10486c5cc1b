//! The laws of answers, of two texts in one, and of the replay of texts that are known.
ghost use Rattle.bipr.specs.Laws.{CheckStatusesTell, HostsReplay, OneAnswer, OneCheckAnswer};
ghost use Rattle.bipr.specs.Laws.{OneRenderingAnswer, OneStepsAnswer};
ghost use Rattle.bipr.specs.Laws.{OneTextDecides, OneTraceOfASeed, PartedByLines};
ghost use Rattle.bipr.specs.Laws.{RecordsAreSteps, SeedsAreSteps};
ghost use Rattle.bipr.specs.Laws.{SomeAnswer, StatusesTell, StepsReplay, StepsStatusesTell};
ghost use Rattle.bipr.specs.Laws.{ToldOrNot, TwoTextsDecide};

use bip_reader::meaning_laws;
use bip_replay::fault_laws;
use bip_schedule::schedule_laws;

/// Two texts and a base have an answer, and no more than one; no text has two answers to its check,
/// to its drawing or to its canonical text; two texts in one are parted by lines; and of what
/// `steps` and `run` write, `replay` says that it is a run (docs/ANSWERS.md, "Answers" and "Two
/// texts in one").
pub fn answer_laws()
    ensures parts { PartedByLines }
    ensures some { SomeAnswer }
    ensures one { OneAnswer }
    ensures one_check { OneCheckAnswer }
    ensures one_rendering { OneRenderingAnswer }
    ensures replays { StepsReplay }
    ensures hosts { HostsReplay }
{
    meaning_laws();
    fault_laws();
}

/// The status of an answer to two texts tells whether the trace is that of a run, and that of a
/// check whether there is a plan; where steps end as done the text is a schedule, and each line
/// that was told is out; a text that is none is refused (docs/ANSWERS.md, "Answers").
pub fn status_laws()
    ensures replay { StatusesTell }
    ensures check { CheckStatusesTell }
    ensures steps { StepsStatusesTell }
{
    meaning_laws();
    fault_laws();
    schedule_laws();
}

/// The same again comes to the same: with each resolver a schedule has one answer, whether its
/// events are told or not, and a seed one trace, which the steps of its schedule have too, as those
/// of a record have the trace that was recorded, where no event was skipped and no message lost
/// (docs/ANSWERS.md, "Answers").
pub fn repeat_laws()
    ensures steps { OneStepsAnswer }
    ensures told { ToldOrNot }
    ensures seeds { OneTraceOfASeed }
    ensures seed_steps { SeedsAreSteps }
    ensures record_steps { RecordsAreSteps }
{}

/// Where the paths of a replay name texts that are known, what is answered is the answer of these
/// texts, or that one of them can't be read, or want of memory (docs/ANSWERS.md, "The replay that
/// is asked for").
pub fn replay_laws()
    ensures two { TwoTextsDecide }
    ensures one { OneTextDecides }
{
    meaning_laws();
}
