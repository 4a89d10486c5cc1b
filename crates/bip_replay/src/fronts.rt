//! Taking a front off a text.
ghost use Rattle.std.specs.Prelude.{◌≡◌, ◌++◌, ◌-◌, ◌≤◌, drop, length, take, IfSome, IsTrue};

/// So many bytes are compared at once.
const LANE: usize = 8;

/// What follows the front of a text.
#[inline(always)]
pub(crate) fn strip<'t>(text: &'t [u8], front: &[u8]) -> Option<&'t [u8]>
    ensures { IfSome result (λ rest. text.now ≡ front.now ++ rest.now) }
{
    if text.len() < front.len() {
        return None;
    }
    let (head, rest) = text.split_at(front.len());
    if !are_same(head, front) {
        return None;
    }
    Some(rest)
}

/// Whether texts of one length are the same; those of one or two lanes are compared by lanes, which
/// may overlap.
#[inline(always)]
fn are_same(one: &[u8], other: &[u8]) -> bool
    requires { length one.now ≡ length other.now }
    ensures { IsTrue result → one.now ≡ other.now }
{
    if one.len() < LANE || one.len() > 2 * LANE {
        return one == other;
    }
    if first_lane(one) != first_lane(other) {
        return false;
    }
    last_lane(one) == last_lane(other)
}

/// The first bytes of a text.
fn first_lane(text: &[u8]) -> [u8; LANE]
    requires { LANE ≤ length text.now }
    ensures { result ≡ take LANE text.now }
{
    match text.first_chunk::<LANE>() {
        Some(chunk) => *chunk,
        None => unreachable!(),
    }
}

/// The last bytes of a text.
fn last_lane(text: &[u8]) -> [u8; LANE]
    requires { LANE ≤ length text.now }
    ensures { result ≡ drop (length text.now - LANE) text.now }
{
    match text.last_chunk::<LANE>() {
        Some(chunk) => *chunk,
        None => unreachable!(),
    }
}
