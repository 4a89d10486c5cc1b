//! Where things stand in a chart.
ghost use Rattle.std.specs.Prelude.{◌≡◌, ◌≤◌, ◌<◌, ◌+◌, ◌^◌, All, length};
ghost use Rattle.bip_model.specs.Parts.{IsComponent};
ghost use Rattle.bip_model.specs.declared.parts.Component.{Component};
ghost use Rattle.bip_draw.specs.Layout.{IsLayout, half_of, has_lane, height_of, label_length};
ghost use Rattle.bip_draw.specs.Layout.{lane_x, lanes_before, layout_of, legend_height};
ghost use Rattle.bip_draw.specs.Layout.{legend_width, longest, most_by};
ghost use Rattle.bip_draw.specs.Layout.{reason_width, row_y};

use crate::lookups::is_among;
use bip_model::{CompId, Component, Model, Name};

/// Where things stand in a chart, in points, however many rows it has: where the first lane's room
/// begins, half of the distance between lanes, the top of the lanes, the height of a row, whether
/// values of variables are shown, and which components have a lane, where not all have one.
#[derive(Clone, Copy)]
pub(crate) struct Layout<'a> {
    pub left: u64,
    pub half: u64,
    pub top: u64,
    pub height: u64,
    pub values: bool,
    pub only: Option<&'a [CompId]>,
}

impl<'a> Layout<'a> {
    /// The layout of a chart of a model with so many classes, with values or without, of lanes for
    /// these components or for all.
    pub(crate) fn of(
        model: &Model,
        values: bool,
        only: Option<&'a [CompId]>,
        classes: usize,
    ) -> Layout<'a>
        ensures layout { result ≡ layout_of model.now values only.entry classes }
        ensures small { IsLayout result }
    {
        Layout {
            left: 7 * longest(model.interaction_names()) + 70,
            half: half_of(values, model),
            top: legend_height(classes),
            height: height_of(values, model),
            values,
            only,
        }
    }

    /// The x of the lane of a component.
    pub(crate) fn lane_x(&self, comp: u16) -> u64
        requires { IsLayout self.now }
        ensures x { result ≡ lane_x self.now comp }
        ensures low { result < 2 ^ 26 }
    {
        self.left + (2 * self.lanes_before(comp) + 1) * self.half
    }

    /// Whether a component has a lane.
    pub(crate) fn has_lane(&self, comp: u16) -> bool
        ensures { result ≡ has_lane self.now.only comp }
    {
        match self.only {
            Some(asked) => is_among(asked, comp),
            None => true,
        }
    }

    /// How many of the components with a lower number have one.
    fn lanes_before(&self, comp: u16) -> u64
        ensures before { result ≡ lanes_before self.now.only comp }
        ensures few { result ≤ comp }
    {
        if self.only.is_none() {
            return comp as u64;
        }
        let mut lanes = 0;
        for other in 0..comp {
            if self.has_lane(other) {
                lanes += 1;
            }
        }
        lanes
    }

    /// The y of the row with a number from 0.
    pub(crate) fn row_y(&self, row: u64) -> u64
        requires layout { IsLayout self.now }
        requires row { row < 2 ^ 54 }
        ensures y { result ≡ row_y self.now row }
        ensures low { result < 2 ^ 62 }
    {
        self.top + self.height * (row + 1)
    }
}

fn longest(names: &[Name]) -> u64
    ensures longest { result ≡ longest names.now }
    ensures short { result ≤ 32 }
{
    let mut most = 0;
    for name in names {
        most = most.max(name.as_bytes().len() as u64);
    }
    most
}

fn label_length(values: bool, component: &Component) -> u64
    ensures length { result ≡ label_length values component.now }
    ensures short { result ≤ 43 }
{
    let locations = longest(component.locations.as_slice());
    if values {
        locations.max(longest(component.variables.as_slice()) + 11)
    } else {
        locations
    }
}

fn longest_label(values: bool, components: &[Component]) -> u64
    ensures longest { result ≡ most_by (label_length values) components.now }
    ensures short { result ≤ 43 }
{
    let mut most = 0;
    for component in components {
        most = most.max(label_length(values, component));
    }
    most
}

fn most_variables(components: &[Component]) -> u64
    requires { All IsComponent components.now }
    ensures most { result ≡ most_by (λ (k : Component). length k.variables) components.now }
    ensures few { result ≤ 8 }
{
    let mut most = 0;
    for component in components {
        most = most.max(component.variables.len() as u64);
    }
    most
}

fn half_of(values: bool, model: &Model) -> u64
    ensures half { result ≡ half_of values model.now }
    ensures small { result < 256 }
{
    let names = longest(model.component_names());
    4 * names.max(longest_label(values, model.components())) + 12
}

fn height_of(values: bool, model: &Model) -> u64
    ensures height { result ≡ height_of values model.now }
    ensures small { result < 128 }
{
    if values {
        11 * most_variables(model.components()) + 34
    } else {
        34
    }
}

fn legend_height(classes: usize) -> u64
    ensures height { result ≡ legend_height classes }
    ensures some { 6 ≤ result }
    ensures small { result < 256 }
{
    18 * classes.min(8) as u64 + 40
}

/// How wide the legend of so many classes is.
pub(crate) fn legend_width(classes: usize) -> u64
    requires { classes ≤ 32 }
    ensures { result ≡ legend_width classes }
{
    254 * ((classes as u64 + 7) / 8) + 10
}

/// How wide a text of so many bytes is that stands below the rows.
pub(crate) fn reason_width(bytes: usize) -> u64
    ensures { result ≡ reason_width bytes }
{
    7 * bytes.min(400) as u64 + 20
}
