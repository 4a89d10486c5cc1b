//! `bipr`: says of a trace of grants whether it is an execution of a model.
#![tactic(auto)]

mod ahead;
mod command_line;
mod commands;
mod dividing;
mod draws;
mod endings;
mod explored;
mod hosted;
mod hosting;
mod inputs;
mod invocations;
mod laws;
mod loading;
mod progress;
mod recorded;
mod refusals;
mod resolvers;
mod scheduled;
mod seeds;
mod sequenced;
mod sources;
mod stops;
mod streams;
mod walked;
mod wording;
mod words;

ghost use Rattle.bipr.specs.Commands.{IsExit, IsProgramEnd};
ghost use Rattle.bipr.specs.Streams.{Puts};

use bip_answers::Status;
use bip_explain::Explanation;
use hosting::{Hosting, Threaded};
use inputs::Inputs;
use invocations::Invocation;
use sources::Sources;
use std::io;
use std::process::ExitCode;
use std::sync::Wait;
use std::thread::Threads;
use std::time::Clock;
use streams::Stream;
use words::{Started, Words};

fn main(rt: HostRuntime) -> ExitCode {
    let mut invocation = Invocation {
        rt: &rt,
        alloc: rt.alloc(),
        inputs: &Sources::new(&rt),
        hosting: &Threaded::new(&rt),
        record: None,
        explanation: Explanation::new(false),
        output: io::writer(&rt),
        errors: rt.stderr(),
    };
    ExitCode::from(exit_code(&Started::new(&rt), &mut invocation))
}

// Carries out what words ask, and says the code with which the process ends (docs/ANSWERS.md,
// "Words").
fn exit_code<
    W: Words,
    R: Threads + Wait + Clock + Sync,
    I: Inputs,
    H: Hosting,
    O: Stream,
    E: Stream,
>(words: &W, invocation: &mut Invocation<'_, R, I, H, O, E>) -> u8
    ensures { IsExit (IsProgramEnd (W.says words.now) (I.gives invocation.old.inputs.now)
        (H.hosts invocation.old.hosting.now)
        (Puts O.writes invocation.old.output invocation.new.output) E.writes
        invocation.old.errors invocation.new.errors) result }
{
    end_program(words, invocation).code()
}

// Carries out what words ask, or says that they can't be had.
fn end_program<
    W: Words,
    R: Threads + Wait + Clock + Sync,
    I: Inputs,
    H: Hosting,
    O: Stream,
    E: Stream,
>(words: &W, invocation: &mut Invocation<'_, R, I, H, O, E>) -> Status
    ensures { IsProgramEnd (W.says words.now) (I.gives invocation.old.inputs.now)
        (H.hosts invocation.old.hosting.now)
        (Puts O.writes invocation.old.output invocation.new.output) E.writes
        invocation.old.errors invocation.new.errors result }
{
    match words.words(invocation.alloc) {
        Ok(words) => invocation.carry_out(words.as_slice()),
        Err(error) => invocation.refuse_words(&error),
    }
}
