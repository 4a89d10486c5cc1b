//! Charts: the worked run, whose chart is compared whole.
ghost use Rattle.bip_model.specs.Partitions.{AreClassesOf};

use super::{grants, read};
use bip_draw::{Chart, Excerpt, Foot};
use bip_model::{Classes, Model};
use bip_replay::GrantRef;
use std::alloc::Global;
use std::process::Abort;
use std::test::*;

/// A component that counts up, below another one's move.
const COUNTING: &str = "bip 1\n\
    component A\nvar n 1\nloc off\nloc on\nport s\ntrans s off on do n := n + 1\nend\n\
    component B\nloc off\nloc on\nport s\ntrans s off on\nend\n\
    interaction x A.s\ninteraction y B.s\npriority x < y\nclass P x\nclass Q y\n";

const RUN: &str = "grant y B:1\ngrant x A:1 see B:2\n";

const REASON: &str = "line 3: y isn't enabled";

/// The front of the chart, with its width and its height, and how all is drawn.
const FRONT: &str = "<svg xmlns=\"http://www.w3.org/2000/svg\" width=\"377\" height=\"256\" \
    font-family=\"monospace\" font-size=\"11\">\n\
    <style>\ntext{paint-order:stroke;stroke:white;stroke-width:3px}\n\
    .lane{stroke:#bbb}\n.head{font-weight:bold;text-anchor:middle}\n\
    .guide{stroke:#eee}\n.number{text-anchor:end;fill:#888}\n\
    .bar,.seen{stroke:currentColor;stroke-width:3px}\n\
    .moved{fill:currentColor}\n.seen{fill:white}\n\
    .beside{font-size:9px;fill:#555}\n.below{font-size:10px;font-style:italic}\n\
    .fault{stroke:#c00;fill:#c00}\n</style>\n\
    <rect width=\"100%\" height=\"100%\" fill=\"white\"/>\n";

/// The legend, the lanes, and what the components start in.
const LANES: &str = "<g transform=\"translate(10,10)\" color=\"hsl(207,70%,40%)\">\n\
    <rect width=\"12\" height=\"12\" fill=\"currentColor\"/>\
    <text x=\"18\" y=\"10\">P</text>\n</g>\n\
    <g transform=\"translate(10,28)\" color=\"hsl(297,70%,40%)\">\n\
    <rect width=\"12\" height=\"12\" fill=\"currentColor\"/>\
    <text x=\"18\" y=\"10\">Q</text>\n</g>\n\
    <path class=\"lane\" d=\"M137 76V211\"/>\n<text class=\"head\" x=\"137\" y=\"70\">A</text>\n\
    <path class=\"lane\" d=\"M257 76V211\"/>\n<text class=\"head\" x=\"257\" y=\"70\">B</text>\n\
    <g transform=\"translate(0,76)\">\n\
    <text class=\"below\" x=\"143\" y=\"14\">off</text>\n\
    <text class=\"below\" x=\"143\" y=\"25\">n=1</text>\n\
    <text class=\"below\" x=\"263\" y=\"14\">off</text>\n</g>\n";

/// The rows of the two grants.
const ROWS: &str = "<g transform=\"translate(0,121)\" color=\"hsl(297,70%,40%)\">\n\
    <line class=\"guide\" x2=\"100%\"/>\n\
    <text class=\"number\" x=\"50\" y=\"4\">1</text><text x=\"60\" y=\"4\">y</text>\n\
    <path class=\"bar\" d=\"M257 0H257\"/>\n\
    <circle class=\"moved\" r=\"5\" cx=\"257\"><title>B</title></circle>\
    <text class=\"beside\" x=\"265\" y=\"-5\">1</text>\n\
    <text class=\"below\" x=\"263\" y=\"14\">on</text>\n</g>\n\
    <g transform=\"translate(0,166)\" color=\"hsl(207,70%,40%)\">\n\
    <line class=\"guide\" x2=\"100%\"/>\n\
    <text class=\"number\" x=\"50\" y=\"4\">2</text><text x=\"60\" y=\"4\">x</text>\n\
    <path class=\"bar\" d=\"M137 0H257\"/>\n\
    <circle class=\"moved\" r=\"5\" cx=\"137\"><title>A</title></circle>\
    <text class=\"beside\" x=\"145\" y=\"-5\">1</text>\n\
    <circle class=\"seen\" r=\"5\" cx=\"257\"><title>B</title></circle>\
    <text class=\"beside\" x=\"265\" y=\"-5\">2</text>\n\
    <text class=\"below\" x=\"143\" y=\"14\">on</text>\n\
    <text class=\"below\" x=\"143\" y=\"25\">n=2</text>\n</g>\n";

/// The reason, and the end.
const END: &str = "<g transform=\"translate(0,211)\" class=\"fault\">\n<line x2=\"100%\"/>\n\
    <text x=\"10\" y=\"18\">line 3: y isn&#39;t enabled</text>\n</g>\n</svg>\n";

fn draw<'m>(rt: &impl Abort, alloc: Global, model: &'m Model, classes: &'m Classes) -> Vec<u8>
    requires { AreClassesOf model.now classes.now }
{
    let excerpt = Excerpt {
        first: 0,
        last: None,
        most: 2000,
        values: true,
        only: None,
    };
    let mut chart = Chart::start(alloc, model, classes, 0, excerpt).expect(rt, "memory");
    for grant in grants(rt, alloc, model, RUN) {
        if chart.count() < 2 {
            chart
                .add(&GrantRef::of(&grant))
                .expect(rt, "a grant that can be next");
        }
    }
    if chart.rows() > 2000 {
        return Vec::new(alloc);
    }
    let foot = Foot::Fault(REASON.as_bytes());
    chart.finish(alloc, &foot).expect(rt, "a chart")
}

#[test]
fn a_run_draws_itself(rt: HostRuntime) -> Result<(), Fail> {
    let mut wanted = Vec::new(rt.alloc());
    for part in [FRONT, LANES, ROWS, END] {
        wanted.extend_from_slice(part.as_bytes())?;
    }
    let (model, classes) = read(&rt, rt.alloc(), COUNTING);
    let drawn = draw(&rt, rt.alloc(), &model, &classes);
    drop(model);
    drop(classes);
    assert_eq!(rt; drawn.as_slice(), wanted.as_slice());
    Ok(())
}
