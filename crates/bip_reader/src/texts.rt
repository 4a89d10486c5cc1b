//! Model texts: a text is a model with its classes, or it has a first fault.
ghost use Rattle.std.specs.Prelude.{◌≡◌, ◌≢◌, Err, IfErr, IfOk, MatchResult, OnOk, Ok};
ghost use Rattle.bip_model.specs.Partitions.{AreClassesOf};
ghost use Rattle.bip_model.specs.Priorities.{IsCyclic};
ghost use Rattle.bip_model.specs.Texts.{last_line};
ghost use Rattle.bip_model.specs.declared.partitions.Partition.{Partition};
ghost use Rattle.bip_model.specs.declared.parts.System.{System};
ghost use Rattle.bip_reader.specs.declared.faults.Why.TheVariants.{Memory, NotAPartition};
ghost use Rattle.bip_reader.specs.Texts.{Declares, HasFault, IsFaultAtEnd, IsParted, MayLackMemory};
ghost use Rattle.bip_reader.specs.Texts.{IsWholeReading, Means, classes_of, reading_of, system_of};

use crate::reading::{ClassLines, Reading};
use crate::{ReadFault, Why};
use bip_model::{Classes, Model, NumberedLines};
use std::alloc::Global;

/// The model and the classes that a text means, or its first fault: the one of the lowest line, and
/// of a line the first by the order of faults (docs/ANSWERS.md, "Model texts"). Nothing is read
/// past a fault. Want of memory hides no fault of a line: it names a line that says something, or
/// the last one for what is made at the end, where neither that line nor one before it has a fault.
/// At the last line it may hide what the text lacks as a whole.
pub fn read_model(alloc: Global, text: &[u8]) -> Result<(Model, Classes), ReadFault>
    // What is read is meant.
    ensures model { IfOk result (λ read. Means text.now read.0 read.1) }
    ensures of_model { IfOk result (λ read. AreClassesOf read.0 read.1) }
    // What is meant is read, unless memory runs out.
    ensures only { (m : System) (c : Partition) → Means text.now m c
        → MatchResult result (λ read. (read.0 ≡ m) × (read.1 ≡ c)) (λ fault. fault.why ≡ Memory) }
    ensures fault { IfErr result (λ fault. fault.why ≢ Memory → HasFault text.now fault) }
    ensures memory { IfErr result (λ f. f.why ≡ Memory → MayLackMemory text.now f.line) }
{
    read_text(alloc, text)
}

/// What `read_model` answers, without what follows of it.
fn read_text(alloc: Global, text: &[u8]) -> Result<(Model, Classes), ReadFault>
    ensures model { IfOk result (λ read. Means text.now read.0 read.1) }
    ensures of_model { IfOk result (λ read. AreClassesOf read.0 read.1) }
    ensures fault { IfErr result (λ fault. fault.why ≢ Memory → HasFault text.now fault) }
    ensures memory { IfErr result (λ f. f.why ≡ Memory → MayLackMemory text.now f.line) }
{
    let (reading, line) = read_lines(alloc, text)?;
    match declared_by(alloc, reading) {
        Ok(declared) => Ok(declared),
        Err(why) => Err(ReadFault { line, why }),
    }
}

/// What the lines declare all in all. Want of memory hides only that the classes are no partition.
fn declared_by(alloc: Global, reading: Reading) -> Result<(Model, Classes), Why>
    ensures declared { IfOk result (λ declared. Declares reading declared.0 declared.1) }
    ensures of_model { IfOk result (λ declared. AreClassesOf declared.0 declared.1) }
    ensures fault { IfErr result (λ why. why ≢ Memory → IsFaultAtEnd reading why) }
    ensures memory { result ≡ Err Memory
        → IsWholeReading reading × ¬ IsCyclic (system_of reading).priorities }
{
    let (model, listed) = reading.finish()?;
    match classes_of(alloc, &model, listed) {
        Ok(classes) => Ok((model, classes)),
        Err(why) => {
            drop(model);
            Err(why)
        }
    }
}

/// The classes that lists of a model's interactions are. Memory comes only where they part them.
fn classes_of(alloc: Global, model: &Model, listed: ClassLines) -> Result<Classes, Why>
    ensures parted { OnOk result (IsParted model.now listed) }
    ensures ordered { IfOk result (λ made. made ≡ classes_of model.now listed) }
    ensures of_model { IfOk result (AreClassesOf model.now) }
    ensures fault { IfErr result (λ why. why ≢ Memory
        → (why ≡ NotAPartition) × ¬ IsParted model.now listed) }
    ensures memory { result ≡ Err Memory → IsParted model.now listed }
{
    match Classes::of(alloc, model, listed.into_vec()) {
        Ok(classes) => Ok(classes),
        Err(fault) => Err(Why::from(fault)),
    }
}

/// What the lines of a text say one after another, and the number of the last one.
fn read_lines(alloc: Global, text: &[u8]) -> Result<(Reading, u64), ReadFault>
    ensures said { IfOk result (λ read. reading_of text.now ≡ Ok read.0) }
    ensures last { IfOk result (λ read. read.1 ≡ last_line text.now) }
    ensures fault { IfErr result (λ fault. fault.why ≢ Memory → reading_of text.now ≡ Err fault) }
    ensures memory { IfErr result (λ f. f.why ≡ Memory → MayLackMemory text.now f.line) }
{
    let mut reading = Reading::new(alloc);
    let mut last = 1;
    for (line, bytes) in NumberedLines::of(text) {
        if let Err(why) = reading.read_line(alloc, bytes) {
            drop(reading);
            return Err(ReadFault { line, why });
        }
        last = line;
    }
    Ok((reading, last))
}
