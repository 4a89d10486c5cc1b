//! What a line of a trace says: a grant by names, and the grant of a model.
ghost use Rattle.std.specs.Prelude.{◌≡◌, ◌≤◌, [], ◌∷◌, None, Some, length, nat_le, not, ◌||◌};
ghost use Rattle.std.specs.Prelude.{if◌then◌else◌};
ghost use Rattle.std.specs.Option.{option_and_then};
ghost use Rattle.bip_model.specs.Naming.{AreApart, is_name, same_text};
ghost use Rattle.bip_model.specs.Texts.{words};
ghost use Rattle.bip_model.specs.declared.wants.Role.TheVariants.{Moved};
ghost use Rattle.bip_model.specs.declared.wants.TheConstants.{MOST_WANTS};
ghost use Rattle.bip_replay.specs.Lines.{as_said, is_named, named_on, names_of, said, want_said};
ghost use Rattle.bip_replay.specs.Lines.{wants_known, wants_said, with_want};

use crate::faults::LineFault;
use arrayvec::ArrayVec;
use bip_model::{
    Line, MOST_WANTS, Model, Name, Number, Role, Want, Word, is_text, parse_number, read_words,
    split_pair, split_word,
};

/// A want as a line names it: a component, its number, and whether it is moved.
#[derive(Clone, Copy)]
pub(crate) struct NamedWant {
    pub name: Name,
    pub number: Number,
    pub role: Role,
}

impl Default for NamedWant {
    /// What stands in a place that no want has taken.
    fn default() -> NamedWant {
        NamedWant {
            name: blank(),
            number: 0,
            role: Role::Moved,
        }
    }
}

fn blank() -> Name {
    match Name::of(b"_") {
        Some(name) => name,
        None => unreachable!(),
    }
}

/// The interaction that a line names, with its wants in the room for them; none of a line that says
/// nothing.
pub(crate) fn read_line(
    named: &mut ArrayVec<NamedWant, MOST_WANTS>,
    line: &[u8],
) -> Result<Option<Name>, LineFault>
    ensures said { as_said result named.new.items ≡ named_on line.now }
{
    match read_words(line) {
        Line::BadByte => Err(LineFault::Syntax),
        Line::Nothing => Ok(None),
        Line::Words(word, rest) => read_grant(named, word, rest),
    }
}

// The interaction of a line that begins with a word, with its wants in the room for them.
#[tactic(auto, unfolding(bip_model::specs::Words::name_of))]
fn read_grant(
    named: &mut ArrayVec<NamedWant, MOST_WANTS>,
    word: &[u8],
    line: &[u8],
) -> Result<Option<Name>, LineFault>
    ensures said { as_said result named.new.items ≡ said (word.now ∷ words line.now) }
{
    let Some((inter, rest)) = split_word(line) else {
        return Err(LineFault::Syntax);
    };
    if !is_text(word, b"grant") {
        return Err(LineFault::Syntax);
    }
    let Some(inter) = Name::read(inter) else {
        return Err(LineFault::Syntax);
    };
    if !read_wants(named, rest) {
        return Err(LineFault::Syntax);
    }
    Ok(Some(inter))
}

// The wants behind an interaction; where they haven't their form, the answer is no.
fn read_wants(named: &mut ArrayVec<NamedWant, MOST_WANTS>, line: &[u8]) -> bool
    ensures said { wants_said Moved [] (words line.now)
        ≡ (if result then Some named.new.items else None) }
{
    named.clear();
    let mut role = Role::Moved;
    let mut rest = line;
    while let Some((word, after)) = split_word(rest) {
        if role == Role::Moved && is_text(word, b"see") {
            if named.is_empty() || split_word(after).is_none() {
                return false;
            }
            role = Role::Seen;
        } else if !read_want(named, role, word) {
            return false;
        }
        rest = after;
    }
    !named.is_empty()
}

// The want of a word, put last; where it hasn't its form or can't stand there, the answer is no.
fn read_want(named: &mut ArrayVec<NamedWant, MOST_WANTS>, role: Role, word: &[u8]) -> bool
    ensures said { option_and_then (with_want named.old.items) (want_said role word.now)
        ≡ (if result then Some named.new.items else None) }
{
    match parse_want(role, word) {
        Some(want) => add_want(named, want),
        None => false,
    }
}

fn add_want(named: &mut ArrayVec<NamedWant, MOST_WANTS>, want: NamedWant) -> bool
    ensures said { with_want named.old.items want
        ≡ (if result then Some named.new.items else None) }
{
    if !has_room_for(named.as_slice(), &want.name) {
        return false;
    }
    named.push(want);
    true
}

// Whether a component can join: it doesn't stand among these, and they aren't too many.
fn has_room_for(named: &[NamedWant], name: &Name) -> bool
    ensures { result ≡ not (is_named name.now named.now || nat_le MOST_WANTS (length named.now)) }
{
    !(is_named(named, name) || named.len() >= MOST_WANTS)
}

fn is_named(named: &[NamedWant], name: &Name) -> bool
    ensures { result ≡ is_named name.now named.now }
{
    named.iter().any(|other| *name == other.name)
}

#[tactic(auto, unfolding(bip_model::specs::Words::name_of))]
fn parse_want(role: Role, word: &[u8]) -> Option<NamedWant>
    ensures { result ≡ want_said role word.now }
{
    let (name, number) = split_pair(word, b':')?;
    let name = Name::read(name)?;
    let number = parse_number(number)?;
    Some(NamedWant { name, number, role })
}

/// The wants by the numbers of their components, by component, in the room for them; where the
/// model lacks a component, the answer is no.
pub(crate) fn look_up(
    wants: &mut ArrayVec<Want, MOST_WANTS>,
    model: &Model,
    named: &[NamedWant],
) -> bool
    requires few { length named.now ≤ MOST_WANTS }
    requires apart { AreApart (names_of named.now) }
    ensures known { wants_known model.now.component_names [] named.now
        ≡ (if result then Some wants.new.items else None) }
{
    wants.clear();
    for want in named {
        let Some(comp) = model.component(&want.name) else {
            return false;
        };
        wants.push(Want {
            comp,
            number: want.number,
            role: want.role,
        });
    }
    wants.sort_unstable_by_key(|want| want.comp.0);
    true
}
