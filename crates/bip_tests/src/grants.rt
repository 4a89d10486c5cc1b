//! What has to hold of grants before they are written.
ghost use Rattle.std.specs.Prelude.{◌↔◌, ◌<◌, length, All, IsTrue};
ghost use Rattle.bip_model.specs.declared.wants.Want.{Want};
ghost use Rattle.bip_replay.specs.Writing.{IsGrantOf};

use bip_model::{Grant, Model, Want};

/// Whether grants are of a model: it has the interaction and the components of each.
pub fn are_grants_of(model: &Model, grants: &[Grant]) -> bool
    ensures { IsTrue result ↔ All (IsGrantOf model.now) grants.now }
{
    grants.iter().all(|grant| is_grant_of(model, grant))
}

fn is_grant_of(model: &Model, grant: &Grant) -> bool
    ensures { IsTrue result ↔ IsGrantOf model.now grant.now }
{
    (grant.inter.0 as usize) < model.interaction_names().len()
        && are_known(model, grant.wants.as_slice())
}

fn are_known(model: &Model, wants: &[Want]) -> bool
    ensures { IsTrue result
        ↔ All (λ (w : Want). w.comp.0 < length model.now.component_names) wants.now }
{
    let count = model.component_names().len();
    wants.iter().all(|want| (want.comp.0 as usize) < count)
}
