//! What no clause and no text of `cases/` says of nodes as threads and of row words. Tables are
//! constants, and what owns a plan or a book is short: at each step of a function its proof goes
//! over all that it owns.
mod acting;
mod desks;
mod hosting;
mod laws;
mod mailing;
mod refusing;
mod reserving;
mod waiting;

use bip_model::{
    ClassId, CompId, InterId, Notify, Number, Offer, PortId, Reasons, Request, Role, Values, Want,
    Wants,
};
use bip_partition::Plan;
use bip_reader::read_model;
use std::alloc::Global;
use std::process::Abort;

/// Two components that each move once with a third, which moves once, in two classes.
const COMPETE: &str = "bip 1\n\
    component A\nloc a0\nloc a1\nport s\ntrans s a0 a1\nend\n\
    component B\nloc b0\nloc b1\nport s\ntrans s b0 b1\nend\n\
    component R\nvar n 0\nloc r0\nport g\ntrans g r0 r0 when n < 1 do n := n + 1\nend\n\
    interaction x A.s R.g\ninteraction y B.s R.g\nclass P x\nclass Q y\n";

/// The same, where the third moves twice.
const COMPETE_TWICE: &str = "bip 1\n\
    component A\nloc a0\nloc a1\nport s\ntrans s a0 a1\nend\n\
    component B\nloc b0\nloc b1\nport s\ntrans s b0 b1\nend\n\
    component R\nvar n 0\nloc r0\nport g\ntrans g r0 r0 when n < 2 do n := n + 1\nend\n\
    interaction x A.s R.g\ninteraction y B.s R.g\nclass P x\nclass Q y\n";

fn plan(rt: &impl Abort, alloc: Global, text: &str) -> Plan {
    let (model, classes) = read_model(alloc, text.as_bytes()).expect(rt, "a model");
    Plan::of(alloc, model, classes).expect(rt, "a plan")
}

/// Calls a function with the plan of a text, and with what else it takes.
fn over_plan<R: Abort, T, F: FnOnce(&R, Global, &Plan, T)>(
    rt: &R,
    alloc: Global,
    text: &str,
    given: T,
    then: F,
)
    requires { F.IsAlwaysCallable then }
{
    let plan = plan(rt, alloc, text);
    then(rt, alloc, &plan, given);
    drop(plan);
}

fn moved(comp: u16, number: Number) -> Want {
    Want {
        comp: CompId(comp),
        number,
        role: Role::Moved,
    }
}

/// A want: of which component, with which number, and whether it moves it.
type Wanted = (u16, Number, bool);

fn want((comp, number, moves): &Wanted) -> Want {
    let role = if *moves { Role::Moved } else { Role::Seen };
    Want {
        role,
        ..moved(*comp, *number)
    }
}

/// A request of a class for an interaction with these wants.
fn request(
    rt: &impl Abort,
    alloc: Global,
    (class, inter): (u16, u16),
    wanted: &[Wanted],
) -> Request {
    let wants: Vec<Want> = wanted.iter().map(want).collect(alloc).expect(rt, "memory");
    Request {
        wants: Wants::of(&wants).expect(rt, "wants"),
        reasons: Reasons::none(),
        request: 1,
        class: ClassId(class),
        inter: InterId(inter),
    }
}

/// An offer: of which component, with which number, ports and values.
type Offered = (CompId, Number, u16, &'static [u32]);

fn offer(rt: &impl Abort, (comp, number, ports, values): &Offered) -> Offer {
    Offer {
        comp: *comp,
        number: *number,
        ports: *ports,
        values: Values::of(values).expect(rt, "values"),
    }
}

/// What a component is told: of which component, with which number, port and values.
type Told = (u16, Number, u8, &'static [u32]);

fn notify(rt: &impl Abort, (comp, number, port, values): &Told) -> Notify {
    Notify {
        number: *number,
        values: Values::of(values).expect(rt, "values"),
        comp: CompId(*comp),
        port: PortId(*port),
    }
}
