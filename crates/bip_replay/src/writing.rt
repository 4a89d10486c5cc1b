//! Writing traces.
ghost use Rattle.std.specs.Prelude.{◌≡◌, ◌<◌, ◌∷◌, ◌++◌, [], length, All, Ok, OnOk, IfOk, IsTrue};
ghost use Rattle.std.specs.Prelude.{codes};
ghost use Rattle.std.specs.List.{flat_map, list_any};
ghost use Rattle.bip_model.specs.Texts.{spaced};
ghost use Rattle.bip_model.specs.declared.wants.Role.TheVariants.{Seen};
ghost use Rattle.bip_model.specs.declared.wants.Want.{Want};
ghost use Rattle.bip_replay.specs.Traces.{grants_of};
ghost use Rattle.bip_replay.specs.Items.{ReadsBack};
ghost use Rattle.bip_replay.specs.Lines.{grant_on};
ghost use Rattle.bip_replay.specs.Writing.{IsGrantOf, IsSpelled, bare_line, behind_see, has_role};
ghost use Rattle.bip_replay.specs.Writing.{line_of, text_of, want_word, want_words};

use bip_model::{Grant, Model, Role, Want, write_word};
use itoa::Buffer;
use std::alloc::{AllocError, Global};

/// The text of grants of a model: a line for each, its moved components and then those that are
/// only looked at, each by component. It reads back as the same grants (docs/DEFINITIONS.md,
/// "Traces").
pub fn write_trace(alloc: Global, model: &Model, grants: &[Grant]) -> Result<Vec<u8>, AllocError>
    requires { All (IsGrantOf model.now) grants.now }
    ensures text { IfOk result (λ text. text.items ≡ text_of model.now grants.now) }
    ensures reads_back { IfOk result (λ text. grants_of model.now text.items ≡ Ok grants.now) }
{
    let mut text = Vec::new(alloc);
    for grant in grants {
        write_line(&mut text, model, grant)?;
    }
    Ok(text)
}

fn write_line(text: &mut Vec<u8>, model: &Model, grant: &Grant) -> Result<(), AllocError>
    requires { IsGrantOf model.now grant.now }
    ensures text { OnOk result (text.new.items ≡ text.old.items ++ line_of model.now grant.now) }
    ensures reads_back { OnOk result
        (ReadsBack (grant_on model.now) (bare_line model.now) grant.now) }
{
    text.extend_from_slice(b"grant")?;
    let name = &model.interaction_names()[grant.inter.0 as usize];
    write_word(text, name.as_bytes())?;
    write_wants(text, model, grant.wants.as_slice(), Role::Moved)?;
    write_seen(text, model, grant.wants.as_slice())?;
    text.push(b'\n')?;
    Ok(())
}

fn write_seen(text: &mut Vec<u8>, model: &Model, wants: &[Want]) -> Result<(), AllocError>
    requires { All (λ (w : Want). w.comp.0 < length model.now.component_names) wants.now }
    ensures { OnOk result
        (text.new.items
        ≡ text.old.items ++ flat_map spaced (behind_see (want_words model.now Seen wants.now))) }
{
    if look(wants) {
        write_word(text, b"see")?;
        write_wants(text, model, wants, Role::Seen)?;
    }
    Ok(())
}

fn look(wants: &[Want]) -> bool
    ensures { result ≡ list_any (has_role Seen) wants.now }
{
    wants.iter().any(|want| want.role == Role::Seen)
}

fn write_wants(
    text: &mut Vec<u8>,
    model: &Model,
    wants: &[Want],
    role: Role,
) -> Result<(), AllocError>
    requires { All (λ (w : Want). w.comp.0 < length model.now.component_names) wants.now }
    ensures text { OnOk result
        (text.new.items ≡ text.old.items ++ flat_map spaced (want_words model.now role wants.now)) }
    ensures spelled { OnOk result (All (IsSpelled model.now) wants.now) }
{
    for want in wants {
        write_want(text, model, want, role)?;
    }
    Ok(())
}

fn write_want(text: &mut Vec<u8>, model: &Model, want: &Want, role: Role) -> Result<(), AllocError>
    requires { want.now.comp.0 < length model.now.component_names }
    ensures text { OnOk result
        (text.new.items
        ≡ text.old.items ++ flat_map spaced (want_words model.now role (want.now ∷ []))) }
    ensures spelled { IsSpelled model.now want.now }
{
    let Want { comp, number, .. } = *want;
    let name = model.component_names()[comp.0 as usize].as_bytes();
    if want.role == role {
        write_word(text, name)?;
        text.push(b':')?;
        text.extend_from_slice(Buffer::new().format(number).as_bytes())?;
    }
    Ok(())
}
