//! Guards and assignments in drawings.
ghost use Rattle.std.specs.Prelude.{◌≡◌, ◌==◌, ◌++◌, OnOk, if◌then◌else◌};
ghost use Rattle.bip_model.specs.Expressions.{AreAssignmentsIn, AreComparisonsIn};
ghost use Rattle.bip_reader.specs.Writing.{counts_for, variable_word};
ghost use Rattle.bip_draw.specs.Clauses.{assignments_text, clauses_text, guard_text};

use bip_model::{Assignment, Comparison, Variable};
use bip_reader::Speller;
use std::alloc::AllocError;

/// The mark before a part of a list: the first one, or one that is not.
pub(crate) fn write_mark(
    text: &mut Vec<u8>,
    index: usize,
    first: &[u8],
    mark: &[u8],
) -> Result<(), AllocError>
    ensures { OnOk result (text.new.items
        ≡ text.old.items ++ (if index == 0 then first.now else mark.now)) }
{
    if index == 0 {
        text.extend_from_slice(first)
    } else {
        text.extend_from_slice(mark)
    }
}

/// A guard on lines of a label; nothing of an empty one.
fn write_guard(
    text: &mut Vec<u8>,
    speller: &Speller<'_>,
    guard: &[Comparison<Variable>],
) -> Result<(), AllocError>
    requires { AreComparisonsIn (counts_for speller.now) guard.now }
    ensures { OnOk result (text.new.items
        ≡ text.old.items ++ guard_text (variable_word speller.now) guard.now) }
{
    for (index, comparison) in guard.iter().enumerate() {
        write_mark(text, index, b"\\nwhen", b"\\nand")?;
        speller.write_comparison(text, comparison)?;
    }
    Ok(())
}

/// The same of assignments.
fn write_assignments(
    text: &mut Vec<u8>,
    speller: &Speller<'_>,
    assignments: &[Assignment<Variable>],
) -> Result<(), AllocError>
    requires { AreAssignmentsIn (counts_for speller.now) assignments.now }
    ensures { OnOk result (text.new.items
        ≡ text.old.items ++ assignments_text (variable_word speller.now) assignments.now) }
{
    for (index, assignment) in assignments.iter().enumerate() {
        write_mark(text, index, b"\\ndo", b"\\n;")?;
        speller.write_assignment(text, assignment)?;
    }
    Ok(())
}

/// A guard and assignments.
#[tactic(auto, unfolding(crate::specs::Clauses::clauses_text))]
pub(crate) fn write_clauses(
    text: &mut Vec<u8>,
    speller: &Speller<'_>,
    guard: &[Comparison<Variable>],
    assignments: &[Assignment<Variable>],
) -> Result<(), AllocError>
    requires guard { AreComparisonsIn (counts_for speller.now) guard.now }
    requires assignments { AreAssignmentsIn (counts_for speller.now) assignments.now }
    ensures { OnOk result (text.new.items
        ≡ text.old.items ++ clauses_text (variable_word speller.now) guard.now assignments.now) }
{
    write_guard(text, speller, guard)?;
    write_assignments(text, speller, assignments)
}
