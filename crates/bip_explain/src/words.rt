//! What words are by themselves.
ghost use Rattle.std.specs.Prelude.{◌≡◌, IfSome};
ghost use Rattle.bip_model.specs.Naming.{is_name, same_text};
ghost use Rattle.bip_explain.specs.Words.{IsPair, IsWant, is_pair, is_relation, is_sign, is_term};
ghost use Rattle.bip_explain.specs.Words.{is_value, is_variable, is_verb, is_want, named_in};
ghost use Rattle.std.specs.Option.{option_map};

use bip_model::{Name, Spelling, is_text, parse_number, parse_value, split_pair};

pub(crate) fn is_name(word: &[u8]) -> bool
    ensures { result ≡ is_name word.now }
{
    Name::of(word).is_some()
}

pub(crate) fn is_value(word: &[u8]) -> bool
    ensures { result ≡ is_value word.now }
{
    parse_value(word).is_some()
}

/// A component with one of its ports, or of its variables: `C.p`.
pub(crate) fn pair_of(word: &[u8]) -> Option<(Name, Name)>
    ensures { IfSome result (λ pair. IsPair pair.0 pair.1 word.now) }
{
    let (component, inner) = split_pair(word, b'.')?;
    Some((Name::of(component)?, Name::of(inner)?))
}

pub(crate) fn is_pair(word: &[u8]) -> bool
    ensures { result ≡ is_pair word.now }
{
    match split_pair(word, b'.') {
        None => false,
        Some((component, inner)) => is_name(component) && is_name(inner),
    }
}

/// A component with its number: `C:N`.
pub(crate) fn want_of(word: &[u8]) -> Option<(Name, u64)>
    ensures is { IfSome result (λ want. IsWant want.0 word.now) }
    ensures exact { option_map (λ want. want.0) result ≡ named_in word.now }
{
    let (component, number) = split_pair(word, b':')?;
    Some((Name::of(component)?, parse_number(number)?))
}

/// The component that a word names with a number: of `C:N` what stands before the colon.
pub(crate) fn named_in(word: &[u8]) -> Option<&[u8]>
    ensures { option_map (λ name. name.now) result ≡ named_in word.now }
{
    let (component, number) = split_pair(word, b':')?;
    if is_name(component) && parse_number(number).is_some() {
        Some(component)
    } else {
        None
    }
}

pub(crate) fn is_want(word: &[u8]) -> bool
    ensures { result ≡ is_want word.now }
{
    match split_pair(word, b':') {
        None => false,
        Some((component, number)) => is_name(component) && parse_number(number).is_some(),
    }
}

pub(crate) fn is_sign(word: &[u8]) -> bool
    ensures { result ≡ is_sign word.now }
{
    is_text(word, b"+") || is_text(word, b"-")
}

pub(crate) fn is_relation(word: &[u8]) -> bool
    ensures { result ≡ is_relation word.now }
{
    is_text(word, b"=")
        || is_text(word, b"!=")
        || is_text(word, b"<")
        || is_text(word, b"<=")
        || is_text(word, b">")
        || is_text(word, b">=")
}

/// A variable: `v` inside a component, `C.v` in an interaction.
pub(crate) fn is_variable(spelling: Spelling, word: &[u8]) -> bool
    ensures { result ≡ is_variable spelling word.now }
{
    match spelling {
        Spelling::Own => is_name(word),
        Spelling::Shared => is_pair(word),
    }
}

/// A value, or a variable.
pub(crate) fn is_term(spelling: Spelling, word: &[u8]) -> bool
    ensures { result ≡ is_term spelling word.now }
{
    is_value(word) || is_variable(spelling, word)
}

/// What begins a line of a schedule.
pub(crate) fn is_verb(word: &[u8]) -> bool
    ensures { result ≡ is_verb word.now }
{
    is_text(word, b"mail")
        || is_text(word, b"try")
        || is_text(word, b"serve")
        || is_text(word, b"deliver")
        || is_text(word, b"pass")
        || is_text(word, b"ask")
}
