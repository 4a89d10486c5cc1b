//! What no clause and no text of `cases/` says: each call with ample memory, and calls that no text
//! makes. Tables are constants, and what owns a model, a builder or a book is short: at each step
//! of a function its proof goes over all that it owns.
ghost use Rattle.bip_model.specs.Partitions.{AreClassesOf};

mod accepting;
mod appending;
mod asking;
mod banking;
mod booking;
mod building;
mod charting;
mod damaging;
mod drawing;
mod exploring;
mod framing;
mod keeping;
mod laws;
mod listing;
mod locking;
mod notifying;
mod observing;
mod parting;
mod planning;
mod positions;
mod reading;
mod refusing;
mod reviewing;
mod running;
mod scheduling;
mod slow_addressees;
mod slow_frames;
mod stepping;
mod tabling;
mod taking;
mod walking;
mod worked;
mod writing;

use bip_model::{Classes, CompId, Grant, Model, Name, Number, Role, Want};
use bip_partition::Plan;
use bip_reader::read_model;
use bip_replay::read_trace;
use std::alloc::Global;
use std::process::Abort;

/// Two components that go their own ways, each once.
const OWN_WAYS: &str = "bip 1\n\
    component A\nloc off\nloc on\nport s\ntrans s off on\nend\n\
    component B\nloc off\nloc on\nport s\ntrans s off on\nend\n\
    interaction x A.s\ninteraction y B.s\nclass P x y\n";

/// The same with a third.
const THREE_WAYS: &str = "bip 1\n\
    component A\nloc off\nloc on\nport s\ntrans s off on\nend\n\
    component B\nloc off\nloc on\nport s\ntrans s off on\nend\n\
    component C\nloc off\nloc on\nport s\ntrans s off on\nend\n\
    interaction x A.s\ninteraction y B.s\ninteraction z C.s\nclass P x y z\n";

/// Two components that each move once with a third, which moves once.
const SHARED: &str = "bip 1\n\
    component A\nloc off\nloc on\nport s\ntrans s off on\nend\n\
    component B\nloc off\nloc on\nport s\ntrans s off on\nend\n\
    component R\nloc off\nloc on\nport s\ntrans s off on\nend\n\
    interaction x A.s R.s\ninteraction y B.s R.s\nclass P x y\n";

fn read(rt: &impl Abort, alloc: Global, text: &str) -> (Model, Classes)
    ensures { AreClassesOf result.0 result.1 }
{
    read_model(alloc, text.as_bytes()).expect(rt, "a model")
}

fn model(rt: &impl Abort, alloc: Global, text: &str) -> Model {
    let (model, classes) = read(rt, alloc, text);
    drop(classes);
    model
}

/// Calls a function with the model of a text, and with what else it takes.
fn over<R: Abort, T, F: FnOnce(&R, Global, &Model, T)>(
    rt: &R,
    alloc: Global,
    text: &str,
    given: T,
    then: F,
)
    requires { F.IsAlwaysCallable then }
{
    let model = model(rt, alloc, text);
    then(rt, alloc, &model, given);
    drop(model);
}

fn plan(rt: &impl Abort, alloc: Global, text: &str) -> Plan {
    let (model, classes) = read(rt, alloc, text);
    Plan::of(alloc, model, classes).expect(rt, "a plan")
}

/// Calls a function with the plan of a text, and with what else it takes.
fn over_plan<R: Abort, T, F: FnOnce(&R, Global, &Plan, T)>(
    rt: &R,
    alloc: Global,
    text: &str,
    given: T,
    then: F,
)
    requires { F.IsAlwaysCallable then }
{
    let plan = plan(rt, alloc, text);
    then(rt, alloc, &plan, given);
    drop(plan);
}

/// The grants of a text.
fn grants(rt: &impl Abort, alloc: Global, model: &Model, text: &str) -> Vec<Grant> {
    read_trace(alloc, model, text.as_bytes()).expect(rt, "a trace")
}

fn name(rt: &impl Abort, text: &str) -> Name {
    Name::of(text.as_bytes()).expect(rt, "a name")
}

fn moved(comp: u16, number: Number) -> Want {
    Want {
        comp: CompId(comp),
        number,
        role: Role::Moved,
    }
}

fn seen(comp: u16, number: Number) -> Want {
    Want {
        comp: CompId(comp),
        number,
        role: Role::Seen,
    }
}
