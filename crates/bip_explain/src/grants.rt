//! What a line's grant names, and a number of it that is wrong.
ghost use Rattle.std.specs.Prelude.{◌≡◌, ◌<◌, IfSome, None, Ok, Some, length};
ghost use Rattle.std.specs.Option.{option_map};
ghost use Rattle.bip_explain.specs.Explanations.{with_parts};
ghost use Rattle.bip_explain.specs.Grants.{IsGrantOn, IsWantTold, component_parts, front_parts};
ghost use Rattle.bip_explain.specs.Grants.{name_parts, names_comp, next_parts, number_parts};
ghost use Rattle.bip_model.specs.declared.grants.Grant.{Grant};
ghost use Rattle.bip_replay.specs.Lines.{grant_on};

use crate::Explanation;
use crate::placed::{Placed, PlacedWords, two_words};
use crate::words::want_of;
use bip_model::{CompId, InterId, Model, Name, Number};

/// A number of a line's grant that is wrong: the component's next move has this one; the word that
/// names the component, if one does.
#[derive(Clone, Copy)]
pub(crate) struct WrongNumber<'t> {
    pub placed: Option<Placed<'t>>,
    pub comp: CompId,
    pub expected: Number,
}

impl WrongNumber<'_> {
    /// Says which number is wanted, of a model whose numbers are counted on from a base.
    pub(crate) fn say(self, explanation: &mut Explanation, model: &Model, base: Number)
        ensures { explanation.new
            ≡ with_parts (number_parts model.now base self.entry) explanation.old }
    {
        say_front(explanation, self.placed);
        say_component(explanation, model, self.comp);
        say_next(explanation, base, self.expected);
    }
}

/// Says a word in front of what is said of it, if there is one.
pub(crate) fn say_front(explanation: &mut Explanation, placed: Option<Placed<'_>>)
    ensures { explanation.new ≡ with_parts (front_parts placed.entry) explanation.old }
{
    if let Some(placed) = placed {
        explanation.say_placed(placed);
        explanation.say(b": ");
    }
}

// Says which number stands where, and how often the component has moved.
fn say_next(explanation: &mut Explanation, base: Number, expected: Number)
    ensures { explanation.new ≡ with_parts (next_parts base expected) explanation.old }
{
    if expected == 0 {
        explanation.say(b" has used the last number, and moves no more");
    } else {
        explanation.say(b", moves before this line: ");
        explanation.say_number(expected.saturating_sub(base).saturating_sub(1));
        explanation.say(b"; its next one has number ");
        explanation.say_number(expected);
    }
}

/// Says a component, by its name.
pub(crate) fn say_component(explanation: &mut Explanation, model: &Model, comp: CompId)
    ensures { explanation.new ≡ with_parts (component_parts model.now comp.0) explanation.old }
{
    explanation.say(b"component ");
    say_name(explanation, model.component_names(), comp.0 as usize);
}

/// Says the name with a number, if there is one.
pub(crate) fn say_name(explanation: &mut Explanation, names: &[Name], number: usize)
    ensures { explanation.new ≡ with_parts (name_parts names.now number) explanation.old }
{
    if let Some(name) = names.get(number) {
        explanation.say_word(name.as_bytes());
    }
}

/// The interaction that the line of a grant names.
pub(crate) fn interaction_on(model: &Model, line: &[u8]) -> Option<InterId>
    ensures on { IfSome result (λ inter. IsGrantOn model.now line.now inter.0) }
    ensures declared { IfSome result (λ inter. inter.0 < length model.now.interactions) }
    ensures named { (g : Grant) → grant_on model.now line.now ≡ Ok (Some g)
        → option_map (λ inter. inter.0) result ≡ Some g.inter.0 }
    ensures silent { grant_on model.now line.now ≡ Ok None → result ≡ None }
{
    model.recall();
    let (_grant, word) = two_words(line)?;
    model.interaction(&Name::of(word)?)
}

/// The word of a line that names a component.
pub(crate) fn want_on<'t>(model: &Model, line: &'t [u8], comp: CompId) -> Option<Placed<'t>>
    ensures { IsWantTold model.now line.now comp.0 result }
{
    for placed in PlacedWords::of(line) {
        if names_comp(model, comp, placed.word) {
            return Some(placed);
        }
    }
    None
}

// Whether a word names a component with a number.
fn names_comp(model: &Model, comp: CompId, word: &[u8]) -> bool
    ensures { result ≡ names_comp model.now comp.0 word.now }
{
    match want_of(word) {
        None => false,
        Some((component, _number)) => match model.component(&component) {
            None => false,
            Some(other) => other.0 == comp.0,
        },
    }
}
