//! How a sequence chart is drawn.
ghost use Rattle.std.specs.Prelude.{◌≡◌, ◌++◌, OnOk};
ghost use Rattle.bip_sequence.specs.Styles.{arrow_style, heads_text, line_style, mark_style};
ghost use Rattle.bip_sequence.specs.Styles.{sequence_style};

use crate::figures::write_part;
use std::alloc::AllocError;

/// How all is drawn.
#[tactic(auto, unfolding(crate::specs::Styles::sequence_style))]
pub(crate) fn write_sequence_style(text: &mut Vec<u8>) -> Result<(), AllocError>
    ensures { OnOk result (text.new.items ≡ text.old.items ++ sequence_style) }
{
    write_line_style(text)?;
    write_arrow_style(text)?;
    write_mark_style(text)?;
    write_heads(text)?;
    Ok(())
}

#[tactic(auto, unfolding(crate::specs::Styles::line_style))]
fn write_line_style(text: &mut Vec<u8>) -> Result<(), AllocError>
    ensures { OnOk result (text.new.items ≡ text.old.items ++ line_style) }
{
    write_part(
        text,
        b"<style>\ntext{paint-order:stroke;stroke:white;stroke-width:3px}\n.class{stroke:#7ac}\n",
    )?;
    write_part(
        text,
        b".guide{stroke:black;stroke-opacity:.06}\n.number{text-anchor:end;fill:#888}\n",
    )?;
    write_part(
        text,
        b".head{text-anchor:middle;font-weight:bold}\n.group{text-anchor:middle;fill:#888}\n",
    )?;
    write_part(
        text,
        b".component{stroke:#bbb}\n.station{stroke:#c93;stroke-dasharray:6 3}\n",
    )?;
    Ok(())
}

#[tactic(auto, unfolding(crate::specs::Styles::arrow_style))]
fn write_arrow_style(text: &mut Vec<u8>) -> Result<(), AllocError>
    ensures { OnOk result (text.new.items ≡ text.old.items ++ arrow_style) }
{
    write_part(
        text,
        b".offer,.request,.granted,.refused,.notify{marker-end:url(#taken)}\n",
    )?;
    write_part(
        text,
        b".offer{stroke:#999}\n.request{stroke:#06c}\n.granted{stroke:#080}\n",
    )?;
    write_part(
        text,
        b".refused{stroke:#c00}\n.notify{stroke:#80c}\n.aim{stroke:#c93}\n",
    )?;
    write_part(
        text,
        b".air path,.aim{stroke-dasharray:3 2;marker-end:url(#air)}\n",
    )?;
    Ok(())
}

#[tactic(auto, unfolding(crate::specs::Styles::mark_style))]
fn write_mark_style(text: &mut Vec<u8>) -> Result<(), AllocError>
    ensures { OnOk result (text.new.items ≡ text.old.items ++ mark_style) }
{
    write_part(
        text,
        b".grant{fill:#080}\n.refusal{fill:white;stroke:#c00;stroke-width:2px}\n",
    )?;
    write_part(
        text,
        b".done{fill:#444}\n.shared{fill:#c93}\n.nothing{stroke:#c00}\n",
    )?;
    write_part(
        text,
        b"g text{font-size:9px;fill:#555;stroke-width:1px}\n</style>\n",
    )?;
    Ok(())
}

/// The heads of arrows that are taken, and the ends of those that aren't.
#[tactic(auto, unfolding(crate::specs::Styles::heads_text))]
fn write_heads(text: &mut Vec<u8>) -> Result<(), AllocError>
    ensures { OnOk result (text.new.items ≡ text.old.items ++ heads_text) }
{
    write_part(
        text,
        b"<marker id=\"taken\" viewBox=\"0 0 8 8\" refX=\"12\" refY=\"4\" markerWidth=\"8\" ",
    )?;
    write_part(
        text,
        b"markerHeight=\"8\" orient=\"auto\"><path d=\"M0 1L8 4L0 7z\" fill=\"#555\"/></marker>\n",
    )?;
    write_part(
        text,
        b"<marker id=\"air\" viewBox=\"0 0 8 8\" refX=\"4\" refY=\"4\" markerWidth=\"7\" ",
    )?;
    write_part(
        text,
        b"markerHeight=\"7\"><circle cx=\"4\" cy=\"4\" r=\"3\" fill=\"white\" ",
    )?;
    write_part(
        text,
        b"stroke=\"#555\"/></marker>\n<rect width=\"100%\" height=\"100%\" fill=\"white\"/>\n",
    )?;
    Ok(())
}
