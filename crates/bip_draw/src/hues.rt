//! The colours of classes.
ghost use Rattle.std.specs.Prelude.{◌≡◌, ◌<◌};
ghost use Rattle.bip_model.specs.Partitions.{class_in};
ghost use Rattle.bip_draw.specs.Hues.{hue};

use bip_model::{Classes, InterId};

/// Where the colour of a class stands on a circle of 40 colours.
pub(crate) fn hue_of(class: u16) -> u64
    ensures hue { result ≡ hue class }
    ensures low { result < 40 }
{
    (10 * class as u64 + 19) % 33 + 4
}

/// The number of the class of an interaction, the first one of what no class has.
pub(crate) fn class_of(classes: &Classes, inter: InterId) -> u16
    ensures { result ≡ class_in classes.now inter.0 }
{
    match classes.class_of(inter) {
        Some(class) => class.0,
        None => 0,
    }
}
