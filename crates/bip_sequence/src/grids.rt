//! Where things stand in a sequence chart.
ghost use Rattle.std.specs.Prelude.{◌≡◌, ◌≤◌, ◌<◌, ◌+◌, ◌-◌, ◌^◌, max};
ghost use Rattle.bip_sequence.specs.Grids.{IsGrid, grid_of, grid_width, lifeline_at};
ghost use Rattle.bip_sequence.specs.Grids.{lifeline_count, lifeline_x};
ghost use Rattle.bip_sequence.specs.Grids.{longest_name, row_y, widest};

use crate::lifelines::Lifeline;
use crate::notes::{MOST_EVENTS_SHOWN, Notes};
use bip_model::{ClassId, CompId, Name};
use bip_partition::Plan;

/// Where things stand in a sequence chart, in points: the x where lifelines begin, half of the
/// distance between two; how many components, classes and stations have one; how many events come
/// before the first row; and the y where lifelines end.
#[derive(Clone, Copy)]
pub(crate) struct Grid {
    pub left: u64,
    pub half: u64,
    pub components: u64,
    pub classes: u64,
    pub stations: u64,
    pub before: u64,
    pub bottom: u64,
}

impl Grid {
    /// The grid of what is noted.
    pub(crate) fn of(notes: &Notes<'_>) -> Grid
        ensures grid { result ≡ grid_of notes.now }
        ensures small { IsGrid result }
    {
        let plan = notes.plan();
        let names = widest(plan);
        Grid {
            left: 14 * names + 130,
            half: 4 * names + 24,
            components: plan.model().component_names().len() as u64,
            classes: plan.classes().len() as u64,
            stations: notes.stations().len().min(128) as u64,
            before: notes.before(),
            bottom: 24 * (notes.rows().len() as u64).min(MOST_EVENTS_SHOWN) + 90,
        }
    }

    /// How many lifelines there are.
    pub(crate) fn lifeline_count(&self) -> u64
        requires { IsGrid self.now }
        ensures count { result ≡ lifeline_count self.now }
        ensures few { result < 512 }
    {
        self.components + self.classes + self.stations
    }

    /// How wide a chart is.
    pub(crate) fn width(&self) -> u64
        requires { IsGrid self.now }
        ensures { result ≡ grid_width self.now }
    {
        self.left + (2 * self.lifeline_count() + 8) * self.half
    }

    /// The lifeline with a number from 0, from left to right.
    pub(crate) fn lifeline_at(&self, number: u64) -> Lifeline
        requires grid { IsGrid self.now }
        requires number { number < 512 }
        ensures { result ≡ lifeline_at self.now number }
    {
        if number < self.components {
            Lifeline::Component(CompId(number as u16))
        } else if number < self.components + self.classes {
            Lifeline::Class(ClassId((number - self.components) as u16))
        } else {
            Lifeline::Station((number - self.components - self.classes) as usize)
        }
    }

    /// The x of a lifeline.
    pub(crate) fn lifeline_x(&self, lifeline: Lifeline) -> u64
        requires { IsGrid self.now }
        ensures x { result ≡ lifeline_x self.now lifeline }
        ensures low { result < 2 ^ 30 }
    {
        let halves = match lifeline {
            Lifeline::Outside => 0,
            Lifeline::Component(comp) => 2 * comp.0 as u64 + 2,
            Lifeline::Class(class) => 2 * (self.components + class.0 as u64) + 3,
            Lifeline::Station(place) => {
                2 * (self.components + self.classes + place.min(128) as u64) + 4
            }
        };
        self.left + halves * self.half
    }

    /// The y of the row of an event with a number from 1; of each event before the first row the
    /// same, above that one.
    pub(crate) fn row_y(&self, number: u64) -> u64
        ensures y { result ≡ row_y self.now number }
        ensures low { result < 2 ^ 17 }
    {
        let row = number.saturating_sub(self.before);
        24 * row.min(MOST_EVENTS_SHOWN + 1) + 66
    }
}

/// How many bytes the longest name has of those that a chart shows.
fn widest(plan: &Plan) -> u64
    ensures widest { result ≡ widest plan.now }
    ensures short { result ≤ 32 }
{
    let model = plan.model();
    let components = longest_name(model.component_names());
    let classes = longest_name(plan.classes().names());
    let interactions = longest_name(model.interaction_names());
    components.max(classes).max(interactions)
}

fn longest_name(names: &[Name]) -> u64
    ensures longest { result ≡ longest_name names.now }
    ensures short { result ≤ 32 }
{
    let mut most = 0;
    for name in names {
        most = most.max(name.as_bytes().len() as u64);
    }
    most
}
