//! Tallies as text: how often each interaction is granted, and which traces end.
ghost use Rattle.std.specs.Prelude.{◌≡◌, ◌++◌, IfOk, OnOk};
ghost use Rattle.bip_draw.specs.Tallies.{ended_line, first_words, granted_line, granted_lines};
ghost use Rattle.bip_draw.specs.Tallies.{tally_text};

use crate::ends::write_number_word;
use crate::lookups::name_at;
use bip_model::{Model, write_word};
use bip_walk::{FirstEnd, GrantCount, Tally};
use std::alloc::{AllocError, Global};

/// The text of a tally of traces of a model: for each interaction, in order of number, how many
/// grants of it there are, and in how many seeds' traces; then behind how many of the traces
/// nothing may run, and the first of these (docs/ANSWERS.md, "Tallies").
pub fn write_tally(alloc: Global, model: &Model, tally: &Tally) -> Result<Vec<u8>, AllocError>
    ensures { IfOk result (λ text. text.items ≡ tally_text model.now tally.now) }
{
    let mut text = Vec::new(alloc);
    write_counts(&mut text, model, tally.counts())?;
    write_ended(&mut text, tally.stuck(), tally.first())?;
    Ok(text)
}

fn write_counts(text: &mut Vec<u8>, model: &Model, counts: &[GrantCount]) -> Result<(), AllocError>
    ensures { OnOk result (text.new.items ≡ text.old.items ++ granted_lines model.now counts.now) }
{
    for number in 0..counts.len() {
        let name = name_at(model.interaction_names(), number);
        write_count(text, name, counts[number])?;
    }
    Ok(())
}

#[tactic(auto, unfolding(crate::specs::Tallies::granted_line))]
fn write_count(text: &mut Vec<u8>, name: &[u8], count: GrantCount) -> Result<(), AllocError>
    ensures { OnOk result (text.new.items ≡ text.old.items ++ granted_line name.now count) }
{
    text.extend_from_slice(b"granted")?;
    write_word(text, name)?;
    write_number_word(text, count.grants)?;
    write_word(text, b"seeds")?;
    write_number_word(text, u64::from(count.traces))?;
    text.push(b'\n')?;
    Ok(())
}

fn write_ended(text: &mut Vec<u8>, stuck: u32, first: Option<FirstEnd>) -> Result<(), AllocError>
    ensures { OnOk result (text.new.items ≡ text.old.items ++ ended_line stuck first) }
{
    text.extend_from_slice(b"ended")?;
    write_number_word(text, u64::from(stuck))?;
    if let Some(end) = first {
        write_first(text, end)?;
    }
    text.push(b'\n')?;
    Ok(())
}

#[tactic(auto, unfolding(crate::specs::Tallies::first_words))]
fn write_first(text: &mut Vec<u8>, end: FirstEnd) -> Result<(), AllocError>
    ensures { OnOk result (text.new.items ≡ text.old.items ++ first_words end) }
{
    write_word(text, b"first")?;
    write_number_word(text, u64::from(end.seed))?;
    write_word(text, b"after")?;
    write_number_word(text, end.grants)?;
    Ok(())
}
