//! The texts of answers about models and traces.
ghost use Rattle.std.specs.Prelude.{◌≡◌, ◌++◌, IfOk, OnOk, string_bytes};
ghost use Rattle.bip_model.specs.Naming.{name_in};
ghost use Rattle.bip_answers.specs.Wording.{chart_refusal, counts_text, interaction_on};
ghost use Rattle.bip_answers.specs.Wording.{model_refusal, plan_refusal, run_text, step_text};
ghost use Rattle.bip_answers.specs.Wording.{is_obeyed, shown, shown_word, trace_refusal};
ghost use Rattle.bip_answers.specs.Wording.{unknown_text, verdict_text};

use bip_model::{CompId, InterId, Model, line_at, split_word};
use bip_reader::ReadFault;
use bip_replay::{BookFault, ReplayFault};
use std::alloc::{AllocError, Global};

/// What a check counts: the components, interactions and classes of a model, the components that
/// have a row in the table, and the interactions that are reserved.
#[derive(Clone, Copy, Debug)]
pub struct Counts {
    pub components: usize,
    pub interactions: usize,
    pub classes: usize,
    pub tabled: usize,
    pub reserved: usize,
}

/// `components C interactions I classes K tabled T reserved R`.
pub fn counts_text(alloc: Global, counts: &Counts) -> Result<Vec<u8>, AllocError>
    ensures { IfOk result (λ text. text.items ≡ counts_text counts.now) }
{
    let Counts {
        components,
        interactions,
        classes,
        tabled,
        reserved,
    } = *counts;
    let text = format!(in alloc;
        "components {components} interactions {interactions} classes {classes} \
        tabled {tabled} reserved {reserved}\n"
    )?;
    Ok(text.into_bytes())
}

/// The complaint of a model that has no plan.
pub fn plan_refusal(alloc: Global, model: &Model, inter: InterId) -> Result<Vec<u8>, AllocError>
    ensures { IfOk result (λ text. text.items ≡ plan_refusal model.now inter.0) }
{
    let mut text = Vec::from_slice(alloc, b"bipr: ")?;
    text.extend_from_slice(interaction_name(model, inter))?;
    text.extend_from_slice(b" touches too many\n")?;
    Ok(text)
}

/// `run N`.
pub fn run_text(alloc: Global, count: u64) -> Result<Vec<u8>, AllocError>
    ensures { IfOk result (λ text. text.items ≡ run_text count) }
{
    Ok(format!(in alloc; "run {count}\n")?.into_bytes())
}

/// The complaint of a model's text.
pub fn model_refusal(alloc: Global, fault: &ReadFault) -> Result<Vec<u8>, AllocError>
    ensures { IfOk result (λ text. text.items ≡ model_refusal fault.now) }
{
    Ok(format!(in alloc; "bipr: model {fault}\n")?.into_bytes())
}

/// The complaint of a trace's text.
pub fn trace_refusal(alloc: Global, line: u64, fault: &ReplayFault) -> Result<Vec<u8>, AllocError>
    ensures { IfOk result (λ text. text.items ≡ trace_refusal line fault.now) }
{
    Ok(format!(in alloc; "bipr: trace line {line}: {fault}\n")?.into_bytes())
}

/// The complaint where a chart would have more than so many rows.
pub fn chart_refusal(alloc: Global, most: usize) -> Result<Vec<u8>, AllocError>
    ensures { IfOk result (λ text. text.items ≡ chart_refusal most) }
{
    let text = format!(in alloc; "bipr: a chart has at most {most} rows, see --from and --to\n")?;
    Ok(text.into_bytes())
}

/// The complaint of a word that names no such thing, as `component`: `?` stands for each character
/// of it that a terminal would obey.
pub fn unknown_text(alloc: Global, kind: &[u8], word: &str) -> Result<Vec<u8>, AllocError>
    ensures { IfOk result (λ text. text.items ≡ unknown_text kind.now word.now) }
{
    let shown = shown_word(alloc, word)?;
    let mut text = Vec::from_slice(alloc, b"bipr: no ")?;
    text.extend_from_slice(kind)?;
    text.push(b' ')?;
    text.extend_from_slice(shown.as_bytes())?;
    text.push(b'\n')?;
    Ok(text)
}

/// A word of a command line as it is shown.
pub fn shown_word(alloc: Global, word: &str) -> Result<String, AllocError>
    ensures { IfOk result (λ text. string_bytes text ≡ shown_word word.now) }
{
    word.chars().map(shown).collect(alloc)
}

fn shown(character: char) -> char
    ensures { result ≡ shown character }
{
    if is_obeyed(character) { '?' } else { character }
}

/// Whether a terminal may obey a character: a control, a separator of lines or paragraphs, or a
/// mark that turns the direction of what stands behind it.
fn is_obeyed(character: char) -> bool
    ensures { result ≡ is_obeyed character }
{
    matches!(
        character,
        '\0'..='\u{1f}'
            | '\u{7f}'..='\u{9f}'
            | '\u{61c}'
            | '\u{200e}'..='\u{200f}'
            | '\u{2028}'..='\u{202e}'
            | '\u{2066}'..='\u{2069}'
    )
}

/// The verdict on a trace whose line with this number has a grant that can't be next.
pub fn verdict_text(
    alloc: Global,
    model: &Model,
    trace: &[u8],
    line: u64,
    fault: &BookFault,
) -> Result<Vec<u8>, AllocError>
    ensures { IfOk result (λ text. text.items ≡ verdict_text model.now trace.now line fault.now) }
{
    let mut text = format!(in alloc; "line {line}: ")?.into_bytes();
    write_step(alloc, &mut text, model, interaction_on(trace, line), fault)?;
    text.push(b'\n')?;
    Ok(text)
}

// Puts last why a grant of an interaction can't be next.
fn write_step(
    alloc: Global,
    text: &mut Vec<u8>,
    model: &Model,
    inter: &[u8],
    fault: &BookFault,
) -> Result<(), AllocError>
    ensures { OnOk result (text.new.items
        ≡ text.old.items ++ step_text model.now inter.now fault.now) }
{
    match fault {
        BookFault::NotEnabled => {
            text.extend_from_slice(inter)?;
            text.extend_from_slice(b" not enabled")
        }
        BookFault::Below(above) => {
            text.extend_from_slice(inter)?;
            text.extend_from_slice(b" below ")?;
            text.extend_from_slice(interaction_name(model, *above))
        }
        BookFault::Number(comp, expected) => {
            text.extend_from_slice(component_name(model, *comp))?;
            text.extend_from_slice(format!(in alloc; " expected {expected}")?.as_bytes())
        }
        BookFault::Parties => {
            text.extend_from_slice(inter)?;
            text.extend_from_slice(b" parties")
        }
        BookFault::Memory => text.extend_from_slice(b"no memory"),
    }
}

fn interaction_name(model: &Model, inter: InterId) -> &[u8]
    ensures { result.now ≡ name_in model.now.interaction_names inter.0 }
{
    match model.interaction_names().get(inter.0 as usize) {
        Some(name) => name.as_bytes(),
        None => &[],
    }
}

fn component_name(model: &Model, comp: CompId) -> &[u8]
    ensures { result.now ≡ name_in model.now.component_names comp.0 }
{
    match model.component_names().get(comp.0 as usize) {
        Some(name) => name.as_bytes(),
        None => &[],
    }
}

// The second word of the line with this number: what a grant's line names as its interaction.
fn interaction_on(trace: &[u8], number: u64) -> &[u8]
    ensures { result.now ≡ interaction_on trace.now number }
{
    match split_word(line_at(trace, number)) {
        None => &[],
        Some((_, rest)) => match split_word(rest) {
            None => &[],
            Some((word, _)) => word,
        },
    }
}
