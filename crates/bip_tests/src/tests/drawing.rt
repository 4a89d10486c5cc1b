//! Drawings: the worked model, whose drawing is compared whole.
use super::read;
use bip_draw::draw_model;
use std::alloc::Global;
use std::process::Abort;
use std::test::*;

/// A component that counts down, and two interactions that move it, one above the other.
const COUNTED: &str = "bip 1\n\
    component A\nvar n 3\nloc off\nloc on\nport go\n\
    trans go off on when n > 0 do n := n - 1\nend\n\
    interaction x A.go\ninteraction y A.go when A.n < 9\n\
    priority x < y\nclass P x y\n";

/// How all is drawn.
const FRONT: &str = "digraph model {\nrankdir=LR;\nfontname=\"sans-serif\";\n\
    node [fontname=\"sans-serif\",fontsize=11,shape=box,height=0.3];\n\
    edge [fontname=\"sans-serif\",fontsize=10];\n";

const DRAWN: &str = "subgraph cluster_c0 {\nlabel=\"A\\nn = 3\";\n\
    c0l0 [shape=ellipse,label=\"off\"];\nc0l1 [shape=ellipse,label=\"on\"];\n\
    c0l0 [peripheries=2];\nc0p0 [label=\"go\"];\n\
    c0l0 -> c0l1 [label=\"go\\nwhen n > 0\\ndo n := n - 1\"];\n}\n\
    subgraph cluster_classes {\nlabel=\"classes\";\n\
    k0 [style=filled,fillcolor=\"575e-3 0.3 1\",label=\"P\"];\n}\n\
    i0 [style=filled,fillcolor=\"575e-3 0.3 1\",label=\"x\"];\ni0 -> c0p0 [dir=none];\n\
    i1 [style=filled,fillcolor=\"575e-3 0.3 1\",label=\"y\\nwhen A.n < 9\"];\n\
    i1 -> c0p0 [dir=none];\ni0 -> i1 [style=dashed,constraint=false];\n}\n";

fn draw(rt: &impl Abort, alloc: Global, text: &str) -> Vec<u8> {
    let (model, classes) = read(rt, alloc, text);
    let drawn = draw_model(alloc, &model, &classes).expect(rt, "a drawing");
    drop(model);
    drop(classes);
    drawn
}

#[test]
fn a_model_draws_itself(rt: HostRuntime) -> Result<(), Fail> {
    let mut wanted = Vec::new(rt.alloc());
    wanted.extend_from_slice(FRONT.as_bytes())?;
    wanted.extend_from_slice(DRAWN.as_bytes())?;
    let drawn = draw(&rt, rt.alloc(), COUNTED);
    assert_eq!(rt; drawn.as_slice(), wanted.as_slice());
    Ok(())
}
