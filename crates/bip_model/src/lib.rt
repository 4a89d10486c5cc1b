//! Flat models of components that move together: their declared parts, their states and the joint
//! step.
#![tactic(auto)]

mod building;
mod clauses;
mod components;
mod drafts;
mod expressions;
mod faults;
mod grants;
mod laws;
mod looks;
mod messages;
mod models;
mod naming;
mod numbering;
mod parties;
mod partitions;
mod parts;
mod places;
mod priorities;
mod reasons;
mod scopes;
mod sequence;
mod sets;
mod states;
mod steps;
mod texts;
mod wants;
mod words;

pub use building::Builder;
pub use clauses::{
    Assignments, Clause, Clauses, Guard, SpelledAssignment, SpelledComparison, Spelling,
    clauses_of, head_of,
};
pub use drafts::Draft;
pub use expressions::{Assignment, Comparison, Expr, Relation, Sign, Term, Variable};
pub use faults::{BuildFault, ClassFault, NotNow};
pub use grants::Grant;
pub use laws::{
    builder_laws, expression_laws, history_laws, partition_laws, priority_laws, step_laws,
};
pub use messages::{MOST_NOTIFIES, Notifies, Notify, Offer, Reply, Request};
pub use models::Model;
pub use naming::{MOST_NAME_BYTES, Name, Names, is_text};
pub use numbering::{ClassId, CompId, InterId, LocId, Number, PortId, VarId};
pub use parties::{has_want_of, is_moving, is_seeing, want_each};
pub use partitions::{Classes, MOST_CLASSES, Partition};
pub use parts::{
    Component, Interaction, MOST_CLAUSES, MOST_COMPONENTS, MOST_INTERACTIONS, MOST_PARTICIPANTS,
    MOST_TERMS, Pair, System, Transition,
};
pub use reasons::{Cause, GUARD_NUMBER, MOST_REASONS, Reasons, Why};
pub use scopes::{MOST_VARIABLES, VariableName};
pub use sequence::Seq;
pub use sets::{has_port, lowest_inter, with_inter, without_inter};
pub use states::{LocalState, MOST_VALUES, State, Values};
pub use texts::{
    Line, NumberedLines, is_plain, line_at, parse_number, parse_value, read_words, split_line,
    split_pair, split_word, write_word,
};
pub use wants::{MOST_WANTS, Role, Want, Wants};
pub use words::{Each, OneOrMore, PORT_MARK, Word, Words};
