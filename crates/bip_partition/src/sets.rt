//! Sets of components, each as the bits of a number.
ghost use Rattle.std.specs.Prelude.{◌≡◌, ◌<◌, ◌==◌, ◌||◌, ◌&&◌, ◌↔◌, ℕ, IsTrue, false, nat_lt};
ghost use Rattle.bip_model.specs.Sets.{has};

use bip_model::CompId;

/// Whether a component is in a set.
pub(crate) fn has_comp(set: u64, comp: CompId) -> bool
    requires { comp.0 < 64 }
    ensures { result ≡ has set comp.0 }
{
    (set >> comp.0) & 1 == 1
}

/// The set with one more component.
pub(crate) fn with_comp(set: u64, comp: CompId) -> u64
    requires { comp.0 < 64 }
    ensures has { (c : ℕ) → has result c ≡ ((c == comp.0) || has set c) }
    ensures more { has set comp.0 ≡ false → set < result }
{
    set | 1u64 << comp.0
}

/// The set of what two sets have together.
pub(crate) fn joined(set: u64, other: u64) -> u64
    ensures { (c : ℕ) → has result c ≡ (has set c || has other c) }
{
    set | other
}

/// Whether two sets have a component in common.
pub(crate) fn overlap(set: u64, other: u64) -> bool
    ensures { IsTrue result ↔ ((c : ℕ) × IsTrue (has set c) × IsTrue (has other c)) }
{
    set & other != 0
}
