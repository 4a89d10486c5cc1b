//! Sets of interactions and of ports, each as the bits of a number.
ghost use Rattle.std.specs.Prelude.{◌≡◌, ◌<◌, ◌==◌, ◌||◌, ℕ, IfNone, IfSome, false, true};
ghost use Rattle.bip_model.specs.Numbering.{IsLowest, put};
ghost use Rattle.bip_model.specs.Sets.{has};

use crate::{InterId, PortId};

/// Whether an interaction is in a set.
pub(crate) fn has_inter(set: u128, inter: InterId) -> bool
    requires { inter.0 < 128 }
    ensures { result ≡ has set inter.0 }
{
    (set >> inter.0) & 1 == 1
}

/// The set with one more interaction.
pub fn with_inter(set: u128, inter: InterId) -> u128
    requires { inter.0 < 128 }
    ensures has { (b : ℕ) → has result b ≡ ((b == inter.0) || has set b) }
    ensures more { has set inter.0 ≡ false → set < result }
{
    set | 1u128 << inter.0
}

/// The set without an interaction.
pub fn without_inter(set: u128, inter: InterId) -> u128
    requires { inter.0 < 128 }
    ensures has { (b : ℕ) → has result b ≡ put (has set) inter.0 false b }
    ensures less { has set inter.0 ≡ true → result < set }
{
    set & !(1u128 << inter.0)
}

/// The lowest interaction in a set.
pub fn lowest_inter(set: u128) -> Option<InterId>
    ensures some { IfSome result (λ a. IsLowest (λ b. has set b ≡ true) a.0) }
    ensures within { IfSome result (λ a. a.0 < 128) }
    ensures none { IfNone result (set ≡ 0) }
{
    if set == 0 {
        return None;
    }
    Some(InterId(set.trailing_zeros() as u16))
}

/// Two sets in one.
pub(crate) fn joined(set: u128, other: u128) -> u128
    ensures { (b : ℕ) → has result b ≡ (has set b || has other b) }
{
    set | other
}

/// The lowest interaction that is in a set and not in another one.
pub(crate) fn lowest_outside(set: u128, other: u128) -> Option<InterId>
    ensures some { IfSome result (λ a. (has set a.0 ≡ true) × (has other a.0 ≡ false)) }
    ensures within { IfSome result (λ a. a.0 < 128) }
    ensures none { IfNone result ((b : ℕ) → has set b ≡ true → has other b ≡ true) }
{
    lowest_inter(set & !other)
}

/// Whether a port is in a set, as that of an offer; false for numbers that no port has.
pub fn has_port(ports: u16, port: PortId) -> bool
    ensures { result ≡ has ports port.0 }
{
    port.0 < 16 && (ports >> port.0) & 1 == 1
}
