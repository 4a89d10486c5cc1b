//! What a model has at a number.
ghost use Rattle.std.specs.Prelude.{◌≡◌, ◌<◌, ◌≤◌, ◌==◌, length};
ghost use Rattle.std.specs.List.{list_any};
ghost use Rattle.bip_model.specs.Naming.{name_in};
ghost use Rattle.bip_model.specs.declared.numbering.CompId.{CompId};
ghost use Rattle.bip_model.specs.Parts.{IsComponent, IsInteraction};
ghost use Rattle.bip_reader.specs.Writing.{component_in, interaction_in};

use bip_model::{CompId, Component, InterId, Interaction, Model, Name};

/// How many components a model has.
pub(crate) fn count_of(model: &Model) -> u16
    ensures count { result ≡ length model.now.components }
    ensures few { result ≤ 64 }
{
    model.components().len() as u16
}

/// Whether a component is one of these.
pub(crate) fn is_among(comps: &[CompId], comp: u16) -> bool
    ensures { result ≡ list_any (λ (k : CompId). k.0 == comp) comps.now }
{
    comps.iter().any(|c| c.0 == comp)
}

/// A component of a model.
pub(crate) fn component_at(model: &Model, comp: u16) -> &Component
    requires { comp < length model.now.components }
    ensures component { result.now ≡ component_in model.now comp }
    ensures valid { IsComponent result.now }
{
    &model.components()[comp as usize]
}

/// An interaction of a model.
pub(crate) fn interaction_at(model: &Model, inter: InterId) -> &Interaction
    requires { inter.0 < length model.now.interactions }
    ensures interaction { result.now ≡ interaction_in model.now inter.0 }
    ensures valid { IsInteraction model.now.components result.now }
{
    &model.interactions()[inter.0 as usize]
}

/// The name with a number, which is there.
pub(crate) fn the_name(names: &[Name], number: usize) -> &Name
    requires { number < length names.now }
    ensures { result.now ≡ name_in names.now number }
{
    &names[number]
}

/// The name with a number; nothing where there is none.
pub(crate) fn name_at(names: &[Name], number: usize) -> &[u8]
    ensures { result.now ≡ name_in names.now number }
{
    match names.get(number) {
        Some(name) => name.as_bytes(),
        None => b"",
    }
}
