//! The shapes of a chart, as elements of SVG.
ghost use Rattle.std.specs.Prelude.{◌≡◌, ◌++◌, OnOk};
ghost use Rattle.bip_draw.specs.Shapes.{bar_text, below_front, beside_text, between, chart_front};
ghost use Rattle.bip_draw.specs.Shapes.{circle_end, circle_front, circle_text, colour_text, ended};
ghost use Rattle.bip_draw.specs.Shapes.{fault_front, foot_end, foot_front, foot_line, front_end};
ghost use Rattle.bip_draw.specs.Shapes.{group_end, head_front, lane_line, lane_style, mark_style};
ghost use Rattle.bip_draw.specs.Shapes.{number_text, place_text, span_end, span_front, square_text};
ghost use Rattle.bip_draw.specs.Shapes.{style_text, text_end, text_style};

use crate::escaping::{write_escaped, write_number};
use crate::hues::hue_of;
use bip_model::Role;
use std::alloc::AllocError;

/// Puts a text last. It says less than `extend_from_slice` does, so that proofs read less.
fn write_part(text: &mut Vec<u8>, part: &[u8]) -> Result<(), AllocError>
    ensures { OnOk result (text.new.items ≡ text.old.items ++ part.now) }
{
    text.extend_from_slice(part)
}

/// A number between two texts.
#[tactic(auto, unfolding(crate::specs::Shapes::between))]
fn write_between(
    text: &mut Vec<u8>,
    front: &[u8],
    number: u64,
    back: &[u8],
) -> Result<(), AllocError>
    ensures { OnOk result
        (text.new.items ≡ text.old.items ++ between front.now number back.now) }
{
    text.extend_from_slice(front)?;
    write_number(text, number)?;
    text.extend_from_slice(back)
}

#[tactic(auto, unfolding(crate::specs::Shapes::text_end))]
fn write_text_end(text: &mut Vec<u8>) -> Result<(), AllocError>
    ensures { OnOk result (text.new.items ≡ text.old.items ++ text_end) }
{
    text.extend_from_slice(b"</text>\n")
}

/// Words, and the end of their text.
#[tactic(auto, unfolding(crate::specs::Shapes::ended))]
pub(crate) fn write_ended(text: &mut Vec<u8>, words: &[u8]) -> Result<(), AllocError>
    ensures { OnOk result (text.new.items ≡ text.old.items ++ ended words.now) }
{
    write_escaped(text, words)?;
    write_text_end(text)
}

#[tactic(auto, unfolding(crate::specs::Shapes::group_end))]
pub(crate) fn write_group_end(text: &mut Vec<u8>) -> Result<(), AllocError>
    ensures { OnOk result (text.new.items ≡ text.old.items ++ group_end) }
{
    text.extend_from_slice(b"</g>\n")
}

/// The end of a group's front, with the colour of a class.
#[tactic(auto, unfolding(crate::specs::Shapes::colour_text))]
pub(crate) fn write_colour(text: &mut Vec<u8>, class: u16) -> Result<(), AllocError>
    ensures { OnOk result (text.new.items ≡ text.old.items ++ colour_text class) }
{
    write_between(text, b" color=\"hsl(", 9 * hue_of(class), b",70%,40%)\">\n")
}

/// The front of a group at a place, without its end.
#[tactic(auto, unfolding(crate::specs::Shapes::place_text))]
pub(crate) fn write_place(text: &mut Vec<u8>, x: u64, y: u64) -> Result<(), AllocError>
    ensures { OnOk result (text.new.items ≡ text.old.items ++ place_text x y) }
{
    write_between(text, b"<g transform=\"translate(", x, b",")?;
    write_between(text, b"", y, b")\"")
}

#[tactic(auto, unfolding(crate::specs::Shapes::square_text))]
pub(crate) fn write_square(text: &mut Vec<u8>) -> Result<(), AllocError>
    ensures { OnOk result (text.new.items ≡ text.old.items ++ square_text) }
{
    text.extend_from_slice(
        b"<rect width=\"12\" height=\"12\" fill=\"currentColor\"/><text x=\"18\" y=\"10\">",
    )
}

#[tactic(auto, unfolding(crate::specs::Shapes::lane_line))]
pub(crate) fn write_lane_line(
    text: &mut Vec<u8>,
    x: u64,
    top: u64,
    bottom: u64,
) -> Result<(), AllocError>
    ensures { OnOk result (text.new.items ≡ text.old.items ++ lane_line x top bottom) }
{
    write_between(text, b"<path class=\"lane\" d=\"M", x, b" ")?;
    write_between(text, b"", top, b"V")?;
    write_between(text, b"", bottom, b"\"/>\n")
}

/// The front of the name of a lane.
#[tactic(auto, unfolding(crate::specs::Shapes::head_front))]
pub(crate) fn write_head_front(text: &mut Vec<u8>, x: u64, y: u64) -> Result<(), AllocError>
    ensures { OnOk result (text.new.items ≡ text.old.items ++ head_front x y) }
{
    write_between(text, b"<text class=\"head\" x=\"", x, b"\" y=\"")?;
    write_between(text, b"", y, b"\">")
}

/// The number of a row, and the front of its name.
#[tactic(auto, unfolding(crate::specs::Shapes::number_text))]
pub(crate) fn write_row_number(text: &mut Vec<u8>, number: u64) -> Result<(), AllocError>
    ensures { OnOk result (text.new.items ≡ text.old.items ++ number_text number) }
{
    text.extend_from_slice(b"<line class=\"guide\" x2=\"100%\"/>\n")?;
    write_between(
        text,
        b"<text class=\"number\" x=\"50\" y=\"4\">",
        number,
        b"</text><text x=\"60\" y=\"4\">",
    )
}

#[tactic(auto, unfolding(crate::specs::Shapes::bar_text))]
pub(crate) fn write_bar(text: &mut Vec<u8>, from: u64, to: u64) -> Result<(), AllocError>
    ensures { OnOk result (text.new.items ≡ text.old.items ++ bar_text from to) }
{
    write_between(text, b"<path class=\"bar\" d=\"M", from, b" 0H")?;
    write_between(text, b"", to, b"\"/>\n")
}

/// The front of a circle with the name that it shows to who points at it: full for a component that
/// is moved, open for one that is only looked at.
#[tactic(auto, unfolding(crate::specs::Shapes::circle_text))]
pub(crate) fn write_circle(text: &mut Vec<u8>, role: Role, x: u64) -> Result<(), AllocError>
    ensures { OnOk result (text.new.items ≡ text.old.items ++ circle_text role x) }
{
    match role {
        Role::Moved => write_between(
            text,
            b"<circle class=\"moved\" r=\"5\" cx=\"",
            x,
            b"\"><title>",
        ),
        Role::Seen => write_between(
            text,
            b"<circle class=\"seen\" r=\"5\" cx=\"",
            x,
            b"\"><title>",
        ),
    }
}

#[tactic(auto, unfolding(crate::specs::Shapes::circle_end))]
pub(crate) fn write_circle_end(text: &mut Vec<u8>) -> Result<(), AllocError>
    ensures { OnOk result (text.new.items ≡ text.old.items ++ circle_end) }
{
    text.extend_from_slice(b"</title></circle>")
}

/// A number beside a circle.
#[tactic(auto, unfolding(crate::specs::Shapes::beside_text))]
pub(crate) fn write_beside(text: &mut Vec<u8>, x: u64, number: u64) -> Result<(), AllocError>
    ensures { OnOk result (text.new.items ≡ text.old.items ++ beside_text x number) }
{
    write_between(text, b"<text class=\"beside\" x=\"", x, b"\" y=\"-5\">")?;
    write_last_number(text, b"", number)
}

/// A number behind a text, which end what is written.
#[tactic(auto, unfolding(crate::specs::Shapes::text_end))]
pub(crate) fn write_last_number(
    text: &mut Vec<u8>,
    front: &[u8],
    number: u64,
) -> Result<(), AllocError>
    ensures { OnOk result
        (text.new.items ≡ text.old.items ++ between front.now number text_end) }
{
    write_between(text, front, number, b"</text>\n")
}

/// The front of what stands beside a lane, below a bar.
#[tactic(auto, unfolding(crate::specs::Shapes::below_front))]
pub(crate) fn write_below_front(text: &mut Vec<u8>, x: u64, y: u64) -> Result<(), AllocError>
    ensures { OnOk result (text.new.items ≡ text.old.items ++ below_front x y) }
{
    write_between(text, b"<text class=\"below\" x=\"", x, b"\" y=\"")?;
    write_between(text, b"", y, b"\">")
}

#[tactic(auto, unfolding(crate::specs::Shapes::fault_front))]
pub(crate) fn write_fault_front(text: &mut Vec<u8>) -> Result<(), AllocError>
    ensures { OnOk result (text.new.items ≡ text.old.items ++ fault_front) }
{
    text.extend_from_slice(b" class=\"fault\">\n<line x2=\"100%\"/>\n<text x=\"10\" y=\"18\">")
}

/// The front of lines that stand below all rows, in the group of a row.
#[tactic(auto, unfolding(crate::specs::Shapes::foot_front))]
pub(crate) fn write_foot_front(text: &mut Vec<u8>) -> Result<(), AllocError>
    ensures { OnOk result (text.new.items ≡ text.old.items ++ foot_front) }
{
    text.extend_from_slice(b">\n<line class=\"guide\" x2=\"100%\"/>\n<text y=\"4\">\n")
}

/// One of these lines, below the one before.
#[tactic(auto, unfolding(crate::specs::Shapes::foot_line))]
pub(crate) fn write_foot_line(text: &mut Vec<u8>, line: &[u8]) -> Result<(), AllocError>
    ensures { OnOk result (text.new.items ≡ text.old.items ++ foot_line line.now) }
{
    write_span_front(text)?;
    write_escaped(text, line)?;
    write_span_end(text)
}

#[tactic(auto, unfolding(crate::specs::Shapes::span_front))]
fn write_span_front(text: &mut Vec<u8>) -> Result<(), AllocError>
    ensures { OnOk result (text.new.items ≡ text.old.items ++ span_front) }
{
    text.extend_from_slice(b"<tspan x=\"10\" dy=\"14\">")
}

#[tactic(auto, unfolding(crate::specs::Shapes::span_end))]
fn write_span_end(text: &mut Vec<u8>) -> Result<(), AllocError>
    ensures { OnOk result (text.new.items ≡ text.old.items ++ span_end) }
{
    text.extend_from_slice(b"</tspan>\n")
}

/// The end of these lines, and of their group.
#[tactic(auto, unfolding(crate::specs::Shapes::foot_end))]
pub(crate) fn write_foot_end(text: &mut Vec<u8>) -> Result<(), AllocError>
    ensures { OnOk result (text.new.items ≡ text.old.items ++ foot_end) }
{
    write_text_end(text)?;
    write_group_end(text)
}

#[tactic(auto, unfolding(crate::specs::Shapes::front_end))]
pub(crate) fn write_front_end(text: &mut Vec<u8>) -> Result<(), AllocError>
    ensures { OnOk result (text.new.items ≡ text.old.items ++ front_end) }
{
    text.extend_from_slice(b">\n")
}

/// The front of a chart of a width and a height.
#[tactic(auto, unfolding(crate::specs::Shapes::chart_front))]
pub(crate) fn write_chart_front(
    text: &mut Vec<u8>,
    width: u64,
    height: u64,
) -> Result<(), AllocError>
    ensures { OnOk result (text.new.items ≡ text.old.items ++ chart_front width height) }
{
    write_between(
        text,
        b"<svg xmlns=\"http://www.w3.org/2000/svg\" width=\"",
        width,
        b"\" height=\"",
    )?;
    write_between(
        text,
        b"",
        height,
        b"\" font-family=\"monospace\" font-size=\"11\">\n",
    )?;
    write_style(text)?;
    Ok(())
}

/// How all is drawn.
#[tactic(auto, unfolding(crate::specs::Shapes::style_text))]
fn write_style(text: &mut Vec<u8>) -> Result<(), AllocError>
    ensures { OnOk result (text.new.items ≡ text.old.items ++ style_text) }
{
    write_lane_style(text)?;
    write_mark_style(text)?;
    write_part(
        text,
        b"<rect width=\"100%\" height=\"100%\" fill=\"white\"/>\n",
    )
}

#[tactic(auto, unfolding(crate::specs::Shapes::lane_style))]
fn write_lane_style(text: &mut Vec<u8>) -> Result<(), AllocError>
    ensures { OnOk result (text.new.items ≡ text.old.items ++ lane_style) }
{
    write_part(
        text,
        b"<style>\ntext{paint-order:stroke;stroke:white;stroke-width:3px}\n",
    )?;
    write_part(
        text,
        b".lane{stroke:#bbb}\n.head{font-weight:bold;text-anchor:middle}\n",
    )?;
    write_part(
        text,
        b".guide{stroke:#eee}\n.number{text-anchor:end;fill:#888}\n",
    )?;
    Ok(())
}

#[tactic(auto, unfolding(crate::specs::Shapes::mark_style))]
fn write_mark_style(text: &mut Vec<u8>) -> Result<(), AllocError>
    ensures { OnOk result (text.new.items ≡ text.old.items ++ mark_style) }
{
    write_part(text, b".bar,.seen{stroke:currentColor;stroke-width:3px}\n")?;
    write_part(text, b".moved{fill:currentColor}\n.seen{fill:white}\n")?;
    write_text_style(text)?;
    Ok(())
}

#[tactic(auto, unfolding(crate::specs::Shapes::text_style))]
fn write_text_style(text: &mut Vec<u8>) -> Result<(), AllocError>
    ensures { OnOk result (text.new.items ≡ text.old.items ++ text_style) }
{
    write_part(text, b".beside{font-size:9px;fill:#555}\n")?;
    write_part(text, b".below{font-size:10px;font-style:italic}\n")?;
    write_part(text, b".fault{stroke:#c00;fill:#c00}\n</style>\n")
}
