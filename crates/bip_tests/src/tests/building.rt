use super::name;
use bip_model::{BuildFault, Builder, Model, Spelling, Words, clauses_of};
use std::alloc::Global;
use std::process::Abort;

/// Says a line inside of a component.
fn say(rt: &impl Abort, builder: &mut Builder, line: &str, text: &str) -> Result<(), BuildFault> {
    assert!(rt; builder.is_inside());
    match line {
        "loc" => builder.loc(name(rt, text)),
        "port" => builder.port(name(rt, text)),
        "trans" => {
            let (port, source) = (name(rt, "p"), name(rt, "l"));
            let clauses = clauses_of(Spelling::Own, &Words::of(b""));
            let (guard, update) = clauses.expect(rt, "no clauses");
            builder.trans(port, source, name(rt, text), &guard, &update)
        }
        _ => builder.end(),
    }
}

/// Says the lines of a component, each of which has a fault with this number, 0 where it has none.
fn say_all(rt: &impl Abort, builder: &mut Builder, lines: &[(&str, &str, u8)]) {
    assert!(rt; !builder.is_inside());
    builder.component(name(rt, "A")).expect(rt, "a component");
    for (line, text, wanted) in lines {
        let told = match say(rt, builder, line, text) {
            Ok(()) => 0,
            Err(fault) => fault.number(),
        };
        assert_eq!(rt; told, *wanted, "{line} {text}");
    }
}

fn build(rt: &impl Abort, alloc: Global, lines: &[(&str, &str, u8)]) -> Model {
    let mut builder = Builder::new(alloc).expect(rt, "memory");
    say_all(rt, &mut builder, lines);
    builder.finish().expect(rt, "a model")
}

/// Compares how many locations, ports and transitions the one component of a model has.
fn has_parts(rt: &impl Abort, model: &Model, wanted: [usize; 3]) {
    assert!(rt; model.components().len() == 1);
    let component = &model.components()[0];
    let (locations, ports) = (component.locations.len(), component.ports.len());
    assert!(rt; [locations, ports, component.transitions.len()] == wanted);
}

#[test]
fn a_refused_line_changes_nothing(rt: HostRuntime) {
    const LINES: &[(&str, &str, u8)] = &[
        ("end", "", 5),
        ("loc", "l", 0),
        ("port", "l", 3),
        ("port", "p", 0),
        ("trans", "k", 2),
        ("end", "", 0),
    ];
    let model = build(&rt, rt.alloc(), LINES);
    has_parts(&rt, &model, [1, 1, 0]);
    drop(model);
}
