use super::{OWN_WAYS, SHARED, over};
use bip_model::Model;
use bip_reader::{ReadFault, Why, read_model};
use bip_replay::{read_trace, replay};
use std::alloc::Global;
use std::process::Abort;
use std::test::Fail;

#[test]
fn a_models_fault_is_told_with_its_line_and_number(rt: HostRuntime) -> Result<(), Fail> {
    let fault = read_model(rt.alloc(), b"bip 1\nend\n")
        .err()
        .expect(&rt, "a fault");
    let told = format!(in rt.alloc(); "{fault}")?;
    assert_eq!(rt; told.as_str(), "line 2: syntax");
    let ReadFault { line, why } = fault;
    assert_eq!(rt; (line, why, why.number()), (2, Why::Syntax, 1));
    Ok(())
}

/// Reads a trace: how many grants it has, or the first line at fault with the fault.
fn read(rt: &impl Abort, alloc: Global, model: &Model, text: &str) -> String {
    let told = match read_trace(alloc, model, text.as_bytes()) {
        Ok(grants) => format!(in alloc; "{} grants", grants.len()),
        Err((line, fault)) => format!(in alloc; "line {line}: {fault}, {}", fault.number()),
    };
    told.expect(rt, "memory")
}

fn read_all(rt: &impl Abort, alloc: Global, model: &Model, traces: &[(&str, &str)]) {
    for (text, told) in traces {
        assert_eq!(rt; read(rt, alloc, model, text).as_str(), *told);
    }
}

#[test]
fn a_trace_is_refused_by_its_first_line_at_fault(rt: HostRuntime) {
    const TRACES: &[(&str, &str)] = &[
        ("grant y B:1\ngrant w\n", "line 2: syntax, 1"),
        ("grant w A:1\ngrant\n", "line 1: unknown name, 2"),
    ];
    over(&rt, rt.alloc(), OWN_WAYS, TRACES, read_all);
}

/// Replays a trace: how many grants it has, or the first line at fault with the fault.
fn replayed(rt: &impl Abort, alloc: Global, model: &Model, text: &str) -> String {
    let told = match replay(alloc, model, 0, text.as_bytes()) {
        Ok(count) => format!(in alloc; "run {count}"),
        Err((line, fault)) => format!(in alloc; "line {line}: {fault}, {}", fault.number()),
    };
    told.expect(rt, "memory")
}

fn replay_all(rt: &impl Abort, alloc: Global, model: &Model, traces: &[(&str, &str)]) {
    for (text, told) in traces {
        assert_eq!(rt; replayed(rt, alloc, model, text).as_str(), *told);
    }
}

#[test]
fn a_replay_counts_grants_or_tells_the_first_line_at_fault(rt: HostRuntime) {
    const TRACES: &[(&str, &str)] = &[
        ("grant x A:1 R:1\n", "run 1"),
        (
            "grant x A:1 R:1\ngrant y B:1 R:2\n",
            "line 2: not enabled, 3",
        ),
    ];
    over(&rt, rt.alloc(), SHARED, TRACES, replay_all);
}
