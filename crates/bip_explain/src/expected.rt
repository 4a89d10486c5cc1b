//! What can stand at a place of a line.
ghost use Rattle.std.specs.Prelude.{◌≡◌};
ghost use Rattle.bip_explain.specs.Expected.{after_word, after_clause, after_declared, after_head};
ghost use Rattle.bip_explain.specs.Expected.{after_step, can_end, wanted_in_clause};
ghost use Rattle.bip_explain.specs.Expected.{wanted_in_step, wanted_text};

use crate::words::{
    is_name, is_pair, is_relation, is_sign, is_term, is_value, is_variable, is_want,
};
use bip_model::{Spelling, is_text};

/// What a line goes on with.
#[derive(Clone, Copy)]
pub(crate) enum Expected {
    /// `1`, and the end of the line.
    One,
    /// A name, and the end of the line.
    Name,
    VariableName,
    StartValue,
    TransitionPort,
    TransitionSource,
    TransitionTarget,
    TransitionEnd,
    InteractionName,
    FirstParticipant,
    MoreParticipants,
    LowInteraction,
    Below,
    HighInteraction,
    ClassName,
    FirstMember,
    MoreMembers,
    /// A term of a comparison's left sum, and what can stand behind one.
    LeftTerm,
    LeftMore,
    RightTerm,
    RightMore,
    Target,
    Becomes,
    /// A term of an assignment's sum, and what can stand behind one.
    SumTerm,
    SumMore,
    Grant,
    Granted,
    FirstMoved,
    MoreMoved,
    FirstSeen,
    MoreSeen,
    /// A place among things in flight, and the end of the line.
    FlightPlace,
    Class,
    Tried,
    /// Two stations, or the last one.
    FirstStation,
    LastStation,
    End,
}

impl Expected {
    /// What the line goes on with behind a word; none where the word can't stand here.
    pub(crate) fn after(self, spelling: Spelling, word: &[u8]) -> Option<Expected>
        ensures { result ≡ after_word spelling self word.now }
    {
        if let Some(next) = self.after_declared(word) {
            return Some(next);
        }
        if let Some(next) = self.after_clause(spelling, word) {
            return Some(next);
        }
        self.after_step(word)
    }

    // Behind a word of what a line of a model names or declares.
    fn after_declared(self, word: &[u8]) -> Option<Expected>
        ensures { result ≡ after_declared self word.now }
    {
        match self {
            Expected::One => is_text(word, b"1").then_some(Expected::End),
            Expected::Name => is_name(word).then_some(Expected::End),
            Expected::VariableName => is_name(word).then_some(Expected::StartValue),
            Expected::StartValue => is_value(word).then_some(Expected::End),
            Expected::TransitionPort => is_name(word).then_some(Expected::TransitionSource),
            Expected::TransitionSource => is_name(word).then_some(Expected::TransitionTarget),
            Expected::TransitionTarget => is_name(word).then_some(Expected::TransitionEnd),
            Expected::TransitionEnd => after_head(word),
            Expected::InteractionName => is_name(word).then_some(Expected::FirstParticipant),
            Expected::FirstParticipant => is_pair(word).then_some(Expected::MoreParticipants),
            Expected::MoreParticipants if is_pair(word) => Some(Expected::MoreParticipants),
            Expected::MoreParticipants => after_head(word),
            Expected::LowInteraction => is_name(word).then_some(Expected::Below),
            Expected::Below => is_text(word, b"<").then_some(Expected::HighInteraction),
            Expected::HighInteraction => is_name(word).then_some(Expected::End),
            Expected::ClassName => is_name(word).then_some(Expected::FirstMember),
            Expected::FirstMember => is_name(word).then_some(Expected::MoreMembers),
            Expected::MoreMembers => is_name(word).then_some(Expected::MoreMembers),
            _ => None,
        }
    }

    // Behind a word of a guard or of a list of assignments.
    fn after_clause(self, spelling: Spelling, word: &[u8]) -> Option<Expected>
        ensures { result ≡ after_clause spelling self word.now }
    {
        match self {
            Expected::LeftTerm => is_term(spelling, word).then_some(Expected::LeftMore),
            Expected::LeftMore if is_sign(word) => Some(Expected::LeftTerm),
            Expected::LeftMore => is_relation(word).then_some(Expected::RightTerm),
            Expected::RightTerm => is_term(spelling, word).then_some(Expected::RightMore),
            Expected::RightMore if is_sign(word) => Some(Expected::RightTerm),
            Expected::RightMore if is_text(word, b"and") => Some(Expected::LeftTerm),
            Expected::RightMore => is_text(word, b"do").then_some(Expected::Target),
            Expected::Target => is_variable(spelling, word).then_some(Expected::Becomes),
            Expected::Becomes => is_text(word, b":=").then_some(Expected::SumTerm),
            Expected::SumTerm => is_term(spelling, word).then_some(Expected::SumMore),
            Expected::SumMore if is_sign(word) => Some(Expected::SumTerm),
            Expected::SumMore => is_text(word, b";").then_some(Expected::Target),
            _ => None,
        }
    }

    // Behind a word of a trace's line, or of a schedule's.
    fn after_step(self, word: &[u8]) -> Option<Expected>
        ensures { result ≡ after_step self word.now }
    {
        match self {
            Expected::Grant => is_text(word, b"grant").then_some(Expected::Granted),
            Expected::Granted => is_name(word).then_some(Expected::FirstMoved),
            Expected::FirstMoved => is_want(word).then_some(Expected::MoreMoved),
            Expected::MoreMoved if is_text(word, b"see") => Some(Expected::FirstSeen),
            Expected::MoreMoved => is_want(word).then_some(Expected::MoreMoved),
            Expected::FirstSeen => is_want(word).then_some(Expected::MoreSeen),
            Expected::MoreSeen => is_want(word).then_some(Expected::MoreSeen),
            Expected::FlightPlace => is_value(word).then_some(Expected::End),
            Expected::Class => is_name(word).then_some(Expected::Tried),
            Expected::Tried => is_name(word).then_some(Expected::End),
            Expected::FirstStation => is_name(word).then_some(Expected::LastStation),
            Expected::LastStation => is_name(word).then_some(Expected::End),
            _ => None,
        }
    }

    /// Whether the line can end here.
    pub(crate) fn can_end(self) -> bool
        ensures { result ≡ can_end self }
    {
        matches!(
            self,
            Expected::TransitionEnd
                | Expected::MoreParticipants
                | Expected::MoreMembers
                | Expected::RightMore
                | Expected::SumMore
                | Expected::MoreMoved
                | Expected::MoreSeen
                | Expected::End
        )
    }

    /// What is wanted here, in words.
    pub(crate) fn words(self, spelling: Spelling) -> &'static [u8]
        ensures { result.now ≡ wanted_text spelling self }
    {
        match self {
            Expected::One => b"`1`",
            Expected::Name
            | Expected::VariableName
            | Expected::InteractionName
            | Expected::ClassName => b"a name",
            Expected::StartValue => b"a value from 0 to 4294967295",
            Expected::TransitionPort => b"the name of a port",
            Expected::TransitionSource | Expected::TransitionTarget => b"the name of a location",
            Expected::TransitionEnd => b"`when`, `do` or the end of the line",
            Expected::FirstParticipant => b"a component with its port, as `C.p`,",
            Expected::MoreParticipants => {
                b"a component with its port, as `C.p`, or `when`, `do` or the end of the line"
            }
            Expected::LowInteraction
            | Expected::HighInteraction
            | Expected::FirstMember
            | Expected::Granted
            | Expected::Tried => b"the name of an interaction",
            Expected::Below => b"`<`",
            Expected::MoreMembers => b"the name of an interaction or the end of the line",
            _ => self.words_of_clause(spelling),
        }
    }

    fn words_of_clause(self, spelling: Spelling) -> &'static [u8]
        ensures { result.now ≡ wanted_in_clause spelling self }
    {
        match (self, spelling) {
            (Expected::LeftTerm | Expected::RightTerm | Expected::SumTerm, Spelling::Own) => {
                b"a value or a variable, as `v`,"
            }
            (Expected::LeftTerm | Expected::RightTerm | Expected::SumTerm, Spelling::Shared) => {
                b"a value or a component's variable, as `C.v`,"
            }
            (Expected::LeftMore, _) => b"`+`, `-` or a relation, as `<`,",
            (Expected::RightMore, _) => b"`+`, `-`, `and`, `do` or the end of the line",
            (Expected::Target, Spelling::Own) => b"a variable, as `v`,",
            (Expected::Target, Spelling::Shared) => b"a component's variable, as `C.v`,",
            (Expected::Becomes, _) => b"`:=`",
            (Expected::SumMore, _) => b"`+`, `-`, `;` or the end of the line",
            _ => self.words_of_step(),
        }
    }

    fn words_of_step(self) -> &'static [u8]
        ensures { result.now ≡ wanted_in_step self }
    {
        match self {
            Expected::Grant => b"`grant`",
            Expected::FirstMoved | Expected::FirstSeen => {
                b"a component with a number from 1 on, as `C:1`,"
            }
            Expected::MoreMoved => {
                b"a component with a number from 1 on, as `C:1`, or `see` or the end of the line"
            }
            Expected::MoreSeen => {
                b"a component with a number from 1 on, as `C:1`, or the end of the line"
            }
            Expected::FlightPlace => b"a place from 0 to 4294967295",
            Expected::Class => b"the name of a class",
            Expected::FirstStation | Expected::LastStation => {
                b"the name of a reserved interaction"
            }
            _ => b"the end of the line",
        }
    }
}

// What `when` or `do` is followed by.
fn after_head(word: &[u8]) -> Option<Expected>
    ensures { result ≡ after_head word.now }
{
    if is_text(word, b"when") {
        Some(Expected::LeftTerm)
    } else if is_text(word, b"do") {
        Some(Expected::Target)
    } else {
        None
    }
}
