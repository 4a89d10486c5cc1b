//! Giving the builder what lines state.
ghost use Rattle.std.specs.Prelude.{IsTrue};
ghost use Rattle.bip_model.specs.Faults.{Answers, new_or_fault};
ghost use Rattle.bip_model.specs.declared.faults.BuildFault.TheVariants.{Memory};
ghost use Rattle.bip_reader.specs.Reading.{can_follow, draft_with};
ghost use Rattle.bip_reader.specs.Statements.{keyword_in};

use crate::statements::Statement;
use bip_model::{BuildFault, Builder};

/// Gives the builder a statement in its place. Want of memory hides no fault.
pub(crate) fn build(builder: &mut Builder, statement: Statement<'_>) -> Result<(), BuildFault>
    requires { IsTrue (can_follow (keyword_in statement) builder.old) }
    ensures { let said = draft_with statement.entry builder.old
        in Answers Memory said (new_or_fault result builder.new) }
{
    match statement {
        Statement::Component(name) => builder.component(name),
        Statement::Var { name, value } => builder.var(name, value),
        Statement::Loc(name) => builder.loc(name),
        Statement::Port(name) => builder.port(name),
        Statement::Trans {
            port,
            source,
            target,
            guard,
            update,
        } => builder.trans(port, source, target, &guard, &update),
        Statement::End => builder.end(),
        Statement::Interaction {
            name,
            participants,
            guard,
            transfer,
        } => builder.interaction(name, &participants, &guard, &transfer),
        Statement::Priority { low, high } => builder.priority(low, high),
        Statement::Header | Statement::Class { .. } => Ok(()),
    }
}
