//! Guesses which interaction has a name.
ghost use Rattle.std.specs.Prelude.{◌<◌, IfSome, IsTrue};
ghost use Rattle.bip_replay.specs.Expected.{IsInterName};
ghost use Rattle.bip_replay.specs.Laws.{IsNameOf};

use bip_model::{InterId, MOST_INTERACTIONS, MOST_WANTS, Model, Name, Role};

/// How many guesses there are.
const GUESSES: usize = 1024;

/// How many places are kept: one for each count of words that are left of those that an interaction
/// moves, and of those that it looks at.
const PLACES: usize = 2 * MOST_INTERACTIONS * MOST_WANTS;

/// Found by trial: names that differ in a letter and a number get guesses of their own.
const SPREAD: u32 = 691;

/// Words that come one after another: those of what an interaction moves, or of what it looks at.
#[derive(Clone, Copy)]
pub(crate) struct Stretch(usize);

impl Stretch {
    pub fn of(inter: InterId, role: Role) -> Stretch {
        let first = usize::from(inter.0) * (2 * MOST_WANTS);
        match role {
            Role::Moved => Stretch(first % PLACES),
            Role::Seen => Stretch((first + MOST_WANTS) % PLACES),
        }
    }
}

/// For each hash of a name the interaction that was last found by such a name, and for each stretch
/// and count of words that are left the place of the one that came next: guesses, which are taken
/// only where that interaction has the name, and the one at that place is the word.
#[derive(Drop)]
pub(crate) struct Guesses {
    last: [InterId; GUESSES],
    places: [u8; PLACES],
}

impl Guesses {
    pub fn new() -> Guesses {
        Guesses {
            last: [InterId(0); GUESSES],
            places: [0; PLACES],
        }
    }

    /// The place, among so many words that are left, of the one that came next when last there were
    /// so many in that stretch.
    pub fn place(&self, stretch: Stretch, left: usize) -> usize {
        usize::from(self.places[stretch.0.wrapping_add(left) % PLACES])
    }

    /// Keeps that place.
    pub fn keep_place(&mut self, stretch: Stretch, left: usize, place: usize) {
        self.places[stretch.0.wrapping_add(left) % PLACES] = (place % 256) as u8;
    }

    /// The interaction with this name, if the model has one.
    pub fn find(&mut self, model: &Model, name: &[u8]) -> Option<InterId>
        ensures { IfSome result (λ a. IsInterName model.now name.now a.0) }
    {
        let hash = hash_of(name);
        let guess = self.last[hash];
        if has_name(model.interaction_names(), guess, name) {
            return Some(guess);
        }
        let inter = model.interaction(&Name::of(name)?)?;
        self.last[hash] = inter;
        Some(inter)
    }
}

fn has_name(names: &[Name], inter: InterId, name: &[u8]) -> bool
    ensures { IsTrue result → IsNameOf names.now name.now inter.0 }
{
    match names.get(inter.0 as usize) {
        Some(own) => own.as_bytes() == name,
        None => false,
    }
}

fn hash_of(name: &[u8]) -> usize
    ensures { result < GUESSES }
{
    let mut hash = 0u32;
    for byte in name {
        hash = hash.wrapping_mul(SPREAD).wrapping_add(u32::from(*byte));
    }
    hash as usize % GUESSES
}
