//! What is answered to the drawing of a part of a model, whose components and classes words name.
ghost use Rattle.std.specs.Prelude.{◌≡◌, ◌<◌, ◌^◌, ◌++◌, ◌∷◌, [], List, ℕ, IfErr, IfOk, IfSome};
ghost use Rattle.std.specs.Prelude.{OnOk, length, map};
ghost use Rattle.bip_model.specs.Partitions.{AreClassesOf};
ghost use Rattle.bip_model.specs.declared.numbering.ClassId.{ClassId};
ghost use Rattle.bip_model.specs.declared.numbering.CompId.{CompId};
ghost use Rattle.bip_reader.specs.Texts.{Means};
ghost use Rattle.bip_answers.specs.Answers.{complaining};
ghost use Rattle.bip_answers.specs.Selected.{AreFoundNames, IsPartAnswer, IsUnknownAt};
ghost use Rattle.bip_answers.specs.Selected.{number_named};
ghost use Rattle.bip_answers.specs.Wording.{unknown_text};
ghost use Rattle.bip_answers.specs.declared.answers.Status.TheVariants.{Refused};

use crate::answers::{Answer, Status, answer_fault, complained, said};
use crate::wording::unknown_text;
use bip_draw::{Selection, draw_part};
use bip_explain::Explanation;
use bip_model::{ClassId, Classes, CompId, Model, Name, is_text};
use bip_reader::read_model;
use std::alloc::{AllocError, Global};

// Why words select nothing: the one with this number from 0 is no name, the first such; or want of
// memory.
#[derive(Debug, Drop)]
pub(crate) enum SelectFault {
    Unknown(usize),
    Memory,
}

impl From<AllocError> for SelectFault {
    ghost use Rattle.bip_answers.specs.declared.selected.SelectFault.TheVariants.{Memory};

    ghost from_gives = { λ _ fault. fault ≡ Memory };

    fn from(_: AllocError) -> SelectFault {
        SelectFault::Memory
    }
}

/// The answer to the drawing of a part of a model's text, of the components and the classes that
/// words name: that part in the language of Graphviz; or the first word that names no component, or
/// else no class; or the first fault of the text (docs/ANSWERS.md, "Answers"). The only error is
/// want of memory.
pub fn answer_part(
    alloc: Global,
    explanation: &mut Explanation,
    model: &[u8],
    components: &[&str],
    classes: &[&str],
) -> Result<Answer, AllocError>
    ensures { IfOk result (IsPartAnswer components.now classes.now model.now) }
{
    let (system, kept) = match read_model(alloc, model) {
        Ok(read) => read,
        Err(fault) => return answer_fault(alloc, explanation, model, &fault),
    };
    let answer = answer_selected(alloc, &system, &kept, components, classes);
    drop(system);
    drop(kept);
    answer
}

// The same, where the model's text is one.
fn answer_selected(
    alloc: Global,
    model: &Model,
    kept: &Classes,
    components: &[&str],
    classes: &[&str],
) -> Result<Answer, AllocError>
    requires { AreClassesOf model.now kept.now }
    ensures { IfOk result (λ answer. (text : List ℕ) → Means text model.now kept.now
        → IsPartAnswer components.now classes.now text answer) }
{
    let chosen = match number_components(alloc, model, components) {
        Ok(chosen) => chosen,
        Err(SelectFault::Unknown(at)) => return refuse_word(alloc, b"component", components[at]),
        Err(SelectFault::Memory) => return Err(AllocError),
    };
    let parted = match number_classes(alloc, kept, classes) {
        Ok(parted) => parted,
        Err(SelectFault::Unknown(at)) => return refuse_word(alloc, b"class", classes[at]),
        Err(SelectFault::Memory) => return Err(AllocError),
    };
    let selection = Selection {
        components: chosen.as_slice(),
        classes: parted.as_slice(),
    };
    let text = draw_part(alloc, model, kept, &selection)?;
    Ok(said(alloc, Status::Done, text))
}

// That a word names no such thing. The only error is want of memory.
pub(crate) fn refuse_word(alloc: Global, kind: &[u8], word: &str) -> Result<Answer, AllocError>
    ensures { IfOk result (λ answer.
        answer ≡ complaining Refused (unknown_text kind.now word.now)) }
{
    let complaint = unknown_text(alloc, kind, word)?;
    Ok(complained(alloc, Status::Refused, complaint))
}

// The components that words name.
pub(crate) fn number_components(
    alloc: Global,
    model: &Model,
    words: &[&str],
) -> Result<Vec<CompId>, SelectFault>
    ensures named { IfOk result (λ chosen. AreFoundNames model.now.component_names words.now
        (map (λ (c : CompId). c.0) chosen.items)) }
    ensures fault { IfErr result (IsUnknownAt model.now.component_names words.now) }
{
    let names = model.component_names();
    let mut chosen = Vec::new(alloc);
    for (index, word) in words.iter().enumerate() {
        let Some(number) = number_named(names, *word) else {
            return Err(SelectFault::Unknown(index));
        };
        add_component(&mut chosen, number)?;
    }
    Ok(chosen)
}

fn add_component(chosen: &mut Vec<CompId>, number: usize) -> Result<(), AllocError>
    requires { number < 2 ^ 16 }
    ensures { OnOk result (chosen.new.items ≡ chosen.old.items ++ (record { 0 = number }) ∷ []) }
{
    chosen.push(CompId(number as u16))?;
    Ok(())
}

// The classes that words name.
fn number_classes(
    alloc: Global,
    classes: &Classes,
    words: &[&str],
) -> Result<Vec<ClassId>, SelectFault>
    ensures named { IfOk result (λ parted. AreFoundNames classes.now.names words.now
        (map (λ (k : ClassId). k.0) parted.items)) }
    ensures fault { IfErr result (IsUnknownAt classes.now.names words.now) }
{
    let names = classes.names();
    // They are few, so that their numbers fit.
    let _few = classes.len();
    let mut parted = Vec::new(alloc);
    for (index, word) in words.iter().enumerate() {
        let Some(number) = number_named(names, *word) else {
            return Err(SelectFault::Unknown(index));
        };
        add_class(&mut parted, number)?;
    }
    Ok(parted)
}

fn add_class(parted: &mut Vec<ClassId>, number: usize) -> Result<(), AllocError>
    requires { number < 2 ^ 16 }
    ensures { OnOk result (parted.new.items ≡ parted.old.items ++ (record { 0 = number }) ∷ []) }
{
    parted.push(ClassId(number as u16))?;
    Ok(())
}

// The number of what a word names, in a list of names.
fn number_named(names: &[Name], word: &str) -> Option<usize>
    ensures number { result ≡ number_named names.now word.now }
    ensures there { IfSome result (λ number. number < length names.now) }
{
    names
        .iter()
        .position(|name| is_text(word.as_bytes(), name.as_bytes()))
}
