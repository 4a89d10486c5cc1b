//! Which ways there are to draw the events of seeds, by name.
ghost use Rattle.std.specs.Prelude.{◌≡◌, ◌≢◌, IfNone, IfSome};
ghost use Rattle.bip_schedule.specs.declared.drawing.Draw.{Draw};
ghost use Rattle.bipr.specs.Draws.{draw_name};

use bip_schedule::Draw;

/// The name of the table.
const TABLE: &str = "table";

/// The name of drawing among the events that have something to do.
const BUSY: &str = "busy";

/// The names of all ways.
pub const DRAWS: &[&str] = &[TABLE, BUSY];

/// The way of a name, if it has one.
pub fn draw_named(name: &str) -> Option<Draw>
    ensures some { IfSome result (λ draw. name.now ≡ draw_name draw) }
    ensures none { IfNone result ((draw : Draw) → name.now ≢ draw_name draw) }
{
    if name == TABLE {
        return Some(Draw::Table);
    }
    if name == BUSY {
        return Some(Draw::Busy);
    }
    None
}
