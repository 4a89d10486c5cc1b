//! What the lines before one have declared.
ghost use Rattle.std.specs.Prelude.{◌≡◌, ◌⊎◌, ◌<◌, ◌∷◌, ◌++◌, ℕ, [], All, IfNone, IfOk, IfSome};
ghost use Rattle.std.specs.Prelude.{OnOk, codes};
ghost use Rattle.bip_explain.specs.Declarations.{IsInnerLine, IsLineWith, NoLineWith, begins_with};
ghost use Rattle.bip_explain.specs.Declarations.{begins_component, declares, declares_inner};
ghost use Rattle.bip_explain.specs.Declarations.{HasLineWith, IsMore};
ghost use Rattle.bip_explain.specs.Declarations.{IsSameComponent};
ghost use Rattle.bip_explain.specs.Declarations.{IsBegunBetween, declares_inside};
ghost use Rattle.bip_explain.specs.Placed.{said_words};

use crate::placed::two_words;
use bip_model::{Name, Names, NumberedLines, is_text};
use std::alloc::{AllocError, Global};

/// The names that a component has declared.
#[derive(Drop)]
pub(crate) struct Inner {
    pub variables: Names,
    pub locations: Names,
    pub ports: Names,
}

/// The names that lines have declared: of components, of what each has inside, and of interactions.
#[derive(Drop)]
pub(crate) struct Declared {
    pub components: Names,
    pub inners: Vec<Inner>,
    pub interactions: Names,
}

impl Declared {
    /// What the lines before one declare, which have no fault.
    pub(crate) fn before(alloc: Global, text: &[u8], line: u64) -> Result<Declared, AllocError>
        ensures { IfOk result (λ declared.
            All (HasLineWith text.now line (codes "interaction")) declared.interactions) }
    {
        let mut declared = Declared {
            components: Names::new(alloc),
            inners: Vec::new(alloc),
            interactions: Names::new(alloc),
        };
        for (number, bytes) in NumberedLines::of(text) {
            if line <= number {
                break;
            }
            if let Some((keyword, word)) = two_words(bytes) {
                declared.take(alloc, keyword, word)?;
            }
        }
        Ok(declared)
    }

    // Takes a line, by its first two words.
    fn take(&mut self, alloc: Global, keyword: &[u8], word: &[u8]) -> Result<(), AllocError>
        ensures { OnOk result (IsMore (codes "interaction") keyword.now word.now
            self.old.interactions self.new.interactions) }
    {
        let Some(name) = Name::of(word) else {
            return Ok(());
        };
        if is_text(keyword, b"component") {
            add(&mut self.components, name)?;
            self.inners.push(Inner::new(alloc))?;
        } else if is_text(keyword, b"interaction") {
            add(&mut self.interactions, name)?;
        } else if let Some(inner) = self.inners.last_mut() {
            inner.take(keyword, name)?;
        }
        Ok(())
    }

    /// What a component has inside, by its name, with its number.
    pub(crate) fn inner(&self, component: &Name) -> Option<(usize, &Inner)> {
        let number = self.components.number_of(component)?;
        Some((number, self.inners.get(number)?))
    }
}

impl Inner {
    fn new(alloc: Global) -> Inner {
        Inner {
            variables: Names::new(alloc),
            locations: Names::new(alloc),
            ports: Names::new(alloc),
        }
    }

    fn take(&mut self, keyword: &[u8], name: Name) -> Result<(), AllocError> {
        if is_text(keyword, b"var") {
            add(&mut self.variables, name)
        } else if is_text(keyword, b"loc") {
            add(&mut self.locations, name)
        } else if is_text(keyword, b"port") {
            add(&mut self.ports, name)
        } else {
            Ok(())
        }
    }
}

fn add(names: &mut Names, name: Name) -> Result<(), AllocError>
    ensures { OnOk result ((names.new ≡ names.old) ⊎ (names.new ≡ names.old ++ name ∷ [])) }
{
    if names.contains(&name) {
        return Ok(());
    }
    names.push(name)
}

/// The number of the first line before one that begins with these two words.
pub(crate) fn line_with(text: &[u8], line: u64, keyword: &[u8], name: &[u8]) -> Option<u64>
    ensures some { IfSome result (λ n. (n < line) × IsLineWith text.now n keyword.now name.now) }
    ensures none { IfNone result (NoLineWith text.now line keyword.now name.now) }
{
    for (number, bytes) in NumberedLines::of(text) {
        if line <= number {
            return None;
        }
        if begins_with(bytes, keyword, name) {
            return Some(number);
        }
    }
    None
}

/// Whether the words of a line begin with these two.
pub(crate) fn begins_with(line: &[u8], keyword: &[u8], name: &[u8]) -> bool
    ensures { result ≡ begins_with keyword.now name.now (said_words line.now) }
{
    match two_words(line) {
        None => false,
        Some((first, second)) => is_text(first, keyword) && is_text(second, name),
    }
}

/// The number of the line before one that declares a name inside the component that is begun last,
/// if one does.
pub(crate) fn inner_line_with(text: &[u8], line: u64, name: &[u8]) -> Option<u64>
    ensures some { IfSome result (λ n.
        (n < line) × IsInnerLine text.now n name.now × IsSameComponent text.now n line) }
    ensures none { IfNone result ((n : ℕ) → n < line → IsInnerLine text.now n name.now
        → IsBegunBetween text.now n line) }
{
    let mut found = None;
    for (number, bytes) in NumberedLines::of(text) {
        if line <= number {
            return found;
        }
        if begins_component(bytes) {
            found = None;
        } else if declares(bytes, name) {
            found = Some(number);
        }
    }
    found
}

/// Whether a line before one declares a name with a keyword inside a component.
pub(crate) fn declares_inside(
    text: &[u8],
    line: u64,
    component: &[u8],
    keyword: &[u8],
    name: &[u8],
) -> bool
    ensures { result
        ≡ declares_inside text.now line component.now keyword.now name.now }
{
    let mut within = false;
    for (number, bytes) in NumberedLines::of(text) {
        if line <= number {
            return false;
        }
        if begins_component(bytes) {
            within = begins_with(bytes, b"component", component);
        } else if within && begins_with(bytes, keyword, name) {
            return true;
        }
    }
    false
}

/// Whether a line begins a component.
pub(crate) fn begins_component(line: &[u8]) -> bool
    ensures { result ≡ begins_component (said_words line.now) }
{
    match two_words(line) {
        None => false,
        Some((keyword, _name)) => is_text(keyword, b"component"),
    }
}

// Whether a line declares a name inside a component.
fn declares(line: &[u8], name: &[u8]) -> bool
    ensures { result ≡ declares name.now (said_words line.now) }
{
    match two_words(line) {
        None => false,
        Some((keyword, word)) => declares_inner(keyword) && is_text(word, name),
    }
}

/// Whether a word declares what a component has inside.
pub(crate) fn declares_inner(keyword: &[u8]) -> bool
    ensures { result ≡ declares_inner keyword.now }
{
    is_text(keyword, b"var") || is_text(keyword, b"loc") || is_text(keyword, b"port")
}
