//! The words of chance.
ghost use Rattle.std.specs.Prelude.{◌≡◌};
ghost use Rattle.bip_walk.specs.Chance.{generator_of};

use rand_pcg::Lcg64Xsh32;

/// The generator of a seed, before its first word (docs/ANSWERS.md, "Events by chance").
pub fn generator_of(seed: u64) -> Lcg64Xsh32
    ensures { result ≡ generator_of seed }
{
    Lcg64Xsh32::new(seed, 1)
}
