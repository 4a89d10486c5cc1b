//! Places, one of each class, where its grant waits for those with lower serials.
ghost use Rattle.std.specs.Prelude.{◌≡◌, ◌↔◌, IfNone, IfSome, IsTrue, Some, false, slice_get};
ghost use Rattle.bip_host.specs.Waiting.{HasNoEntry, NobodyHas, WaitsAt};
ghost use Rattle.bip_host.specs.declared.books.Entry.{Entry};
ghost use Rattle.bip_host.specs.declared.places.Place.TheVariants.{Entered, Free};
ghost use Rattle.bip_model.specs.declared.grants.Grant.{Grant};

use crate::books::Entry;
use bip_model::Grant;

/// What stands at a class's place.
#[derive(Drop)]
pub(crate) enum Place {
    /// Nothing.
    Free,
    /// A grant that isn't in the book yet.
    Waiting { serial: u64, grant: Grant },
    /// The entry of the class's grant, which is in the book.
    Entered(Entry),
}

/// Where the grant with this serial waits, with the grant; none where nobody has it.
pub(crate) fn waiting_with(places: &[Place], serial: u64) -> Option<(usize, Grant)>
    ensures some { IfSome result (λ found. WaitsAt places.now found.0 serial found.1) }
    ensures none { IfNone result (NobodyHas places.now serial) }
{
    for (at, place) in places.iter().enumerate() {
        if let Place::Waiting {
            serial: other,
            grant,
        } = place
        {
            if *other == serial {
                return Some((at, grant.copy()));
            }
        }
    }
    None
}

/// Whether a place is there and free.
pub(crate) fn is_free(places: &[Place], place: usize) -> bool
    ensures { IsTrue result ↔ (slice_get places.now place ≡ Some Free) }
{
    matches!(places.get(place), Some(Place::Free))
}

/// Whether there is an entry at a place.
pub(crate) fn has_entry(places: &[Place], place: usize) -> bool
    ensures some { IsTrue result → (entry : Entry)
        × (slice_get places.now place ≡ Some (Entered entry)) }
    ensures none { result ≡ false → HasNoEntry places.now place }
{
    matches!(places.get(place), Some(Place::Entered(_)))
}

/// Whether a grant waits at a place with this serial.
pub(crate) fn is_waiting(places: &[Place], place: usize, serial: u64) -> bool
    ensures some { IsTrue result → (g : Grant) × WaitsAt places.now place serial g }
    ensures none { result ≡ false → (g : Grant) → ¬ WaitsAt places.now place serial g }
{
    match places.get(place) {
        Some(Place::Waiting { serial: other, .. }) => *other == serial,
        _ => false,
    }
}
