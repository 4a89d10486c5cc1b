//! Names, and lists of names that are numbered in order of first sight.
ghost use Rattle.std.specs.Prelude.{◌≡◌, ◌↔◌, [], ◌∷◌, ◌++◌, false, length, position, IsSome};
ghost use Rattle.std.specs.Prelude.{IfSome, OnOk, OnErr};
ghost use Rattle.std.specs.List.{list_all};
ghost use Rattle.bip_model.specs.Naming.{IsName, AreApart, is_known, is_reserved};
ghost use Rattle.bip_model.specs.Naming.{is_spelled_as_name, is_name_start, is_name_byte};
ghost use Rattle.bip_model.specs.Naming.{same_text};

use indexmap::IndexSet;
use std::alloc::{AllocError, Global};
use std::hash::{Hash, Hasher};
use std::marker::Model;

/// How many bytes a name has at most.
pub const MOST_NAME_BYTES: usize = 32;

/// A name: a letter or `_`, then letters, digits and `_`, at most 32 bytes in all, and none of the
/// languages' words (docs/ANSWERS.md, "Names"). Contracts see it as its bytes.
#[derive(Clone, Copy, Debug)]
pub struct Name {
    bytes: [u8; MOST_NAME_BYTES],
    len: u8,
}

impl Model for Name {
    ghost use Rattle.std.specs.Prelude.{List, ℕ, take, length};
    ghost use Rattle.bip_model.specs.Naming.{IsName};
    ghost use Rattle.bip_model.specs.Sequence.{IsPadded, padded, remade};
    ghost use Rattle.bip_model.specs.declared.naming.TheConstants.{MOST_NAME_BYTES};

    ghost Value = { List ℕ };

    ghost view = { λ n. take n.len n.bytes };

    ghost invariant = { λ n. IsPadded MOST_NAME_BYTES n.len n.bytes × IsName (take n.len n.bytes) };

    ghost inverse = { λ v. record { bytes = padded MOST_NAME_BYTES v; len = length v } };

    ghost inverse_ok = { λ n h. remade
        (λ b l. record { bytes = b; len = l }) MOST_NAME_BYTES n.len n.bytes h.0 };
}

impl PartialEq for Name {
    ghost use Rattle.std.specs.Prelude.{nat_eq};
    ghost use Rattle.std.specs.Cmp.Lexicographic.{pointwise, nat_list_eq_equiv};
    ghost use Rattle.std.specs.Cmp.{on_per, partial_equiv_from_equiv};

    ghost eq = { λ a b. pointwise nat_eq a b };

    ghost laws = { on_per (λ n. n) (partial_equiv_from_equiv nat_list_eq_equiv) };

    fn eq(&self, other: &Name) -> bool {
        self.as_bytes() == other.as_bytes()
    }
}

impl Eq for Name {
    ghost use Rattle.std.specs.Cmp.Lexicographic.{nat_list_eq_equiv};
    ghost use Rattle.std.specs.Cmp.{on_equiv};

    ghost laws = { on_equiv (λ n. n) nat_list_eq_equiv };
}

impl Hash for Name {
    ghost use Rattle.std.specs.Hash as fed;
    ghost use Rattle.std.specs.Cmp.Rules.{hashing};
    ghost use Rattle.std.proofs.Common.{rules};

    ghost hash_input = { λ n. fed.slice fed.u8 n };

    ghost respects_eq = { Prim.search (hashing, rules) };

    fn hash<H: Hasher>(&self, state: &mut H) {
        self.as_bytes().hash(state);
    }
}

impl Name {
    /// The name that a text is; none where it is no name.
    pub fn of(text: &[u8]) -> Option<Name>
        ensures name { IfSome result (λ name. name ≡ text.now) }
        ensures exact { IsSome result ↔ IsName text.now }
    {
        if text.len() > MOST_NAME_BYTES || !is_spelled_as_name(text) || is_reserved(text) {
            return None;
        }
        let mut bytes = [0; MOST_NAME_BYTES];
        bytes[..text.len()].copy_from_slice(text);
        Some(Name {
            bytes,
            len: text.len() as u8,
        })
    }

    /// The bytes of the name.
    pub fn as_bytes(&self) -> &[u8]
        ensures bytes { result.now ≡ self.now }
        ensures name { IsName self.now }
    {
        &self.bytes[..self.len as usize]
    }
}

fn is_spelled_as_name(text: &[u8]) -> bool
    ensures { result ≡ is_spelled_as_name text.now }
{
    !text.is_empty() && is_name_start(text[0]) && are_name_bytes(text)
}

fn are_name_bytes(text: &[u8]) -> bool
    ensures { result ≡ list_all is_name_byte text.now }
{
    text.iter().all(|byte| is_name_byte(*byte))
}

fn is_name_start(byte: u8) -> bool
    ensures { result ≡ is_name_start byte }
{
    byte.is_ascii_alphabetic() || byte == b'_'
}

fn is_name_byte(byte: u8) -> bool
    ensures { result ≡ is_name_byte byte }
{
    byte.is_ascii_alphanumeric() || byte == b'_'
}

fn is_reserved(text: &[u8]) -> bool
    ensures { result ≡ is_reserved text.now }
{
    is_text(text, b"bip")
        || is_text(text, b"component")
        || is_text(text, b"var")
        || is_text(text, b"loc")
        || is_text(text, b"port")
        || is_text(text, b"trans")
        || is_text(text, b"end")
        || is_text(text, b"interaction")
        || is_text(text, b"priority")
        || is_text(text, b"class")
        || is_text(text, b"when")
        || is_text(text, b"do")
        || is_text(text, b"and")
        || is_text(text, b"grant")
        || is_text(text, b"see")
}

/// Whether a word is such a text, byte by byte.
pub fn is_text(word: &[u8], text: &[u8]) -> bool
    ensures { result ≡ same_text word.now text.now }
{
    word == text
}

/// A list of names without a name twice, each numbered by its place. Contracts see it as the list.
#[derive(Drop)]
pub struct Names {
    set: IndexSet<Name>,
}

impl Model for Names {
    ghost use Rattle.std.specs.Prelude.{List, ℕ};
    ghost use Rattle.bip_model.specs.Naming.{AreApart};

    ghost Value = { List (List ℕ) };

    ghost view = { λ n. n.set.keys };

    ghost invariant = { λ n. AreApart n.set.keys };
}

impl Names {
    /// The empty list.
    pub fn new(alloc: Global) -> Names
        ensures { result ≡ [] }
    {
        Names {
            set: IndexSet::new(alloc),
        }
    }

    /// How many names there are.
    pub fn len(&self) -> usize
        ensures { result ≡ length self.now }
    {
        self.set.len()
    }

    /// The names, in order of their numbers.
    pub fn as_slice(&self) -> &[Name]
        ensures names { result.now ≡ self.now }
        ensures apart { AreApart self.now }
    {
        self.set.as_slice()
    }

    /// The number of a name, if it is in the list.
    pub fn number_of(&self, name: &Name) -> Option<usize>
        ensures { result ≡ position (same_text name.now) self.now }
    {
        self.set.get_index_of(name)
    }

    /// Whether a name is in the list.
    pub fn contains(&self, name: &Name) -> bool
        ensures { result ≡ is_known name.now self.now }
    {
        self.set.contains(name)
    }

    /// Puts a name last that is not in the list. Without memory the list stays as it was.
    pub fn push(&mut self, name: Name) -> Result<(), AllocError>
        requires { is_known name self.old ≡ false }
        ensures ok { OnOk result (self.new ≡ self.old ++ name ∷ []) }
        ensures err { OnErr result (self.new ≡ self.old) }
    {
        self.set.insert(name)?;
        Ok(())
    }
}
