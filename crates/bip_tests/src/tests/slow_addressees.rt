//! A slow judgement of addressees by docs/FRAMES.md: which of them takes bytes, and why others drop
//! them. What a plan has is written down by hand.
use super::slow_frames::fault_by_table;
use bip_core::Address;

/// What a plan has, with numbers below 8.
pub(super) struct Known {
    /// Of each component how many variables and how many ports it has.
    pub(super) components: &'static [(u8, u8)],
    pub(super) classes: u8,
    /// Each interaction: all are reserved.
    pub(super) inters: &'static [Asked],
}

/// What is asked for an interaction: by which class, which components it moves and looks at, and
/// what stands above it with the components that it moves.
pub(super) struct Asked {
    pub(super) class: u8,
    pub(super) moves: &'static [u8],
    pub(super) looks: &'static [u8],
    pub(super) above: &'static [(u8, &'static [u8])],
}

/// The number of a fault of an addressee, 0 where it takes the bytes, and that of the bytes.
pub(super) type Judged = (u8, u8);

const TAKEN: Judged = (0, 0);

const UNKNOWN: Judged = (2, 0);

const MISFIT: Judged = (3, 0);

/// The kinds of requests with reasons, and what stands for a guard there.
const EXPLAINED: u8 = 6;

const GUARD: (u8, u8) = (255, 255);

/// How bytes are judged whoever is addressed; they are taken where that depends on the addressee.
pub(super) fn judged_for_all(known: &Known, bytes: &[u8]) -> Judged {
    let fault = fault_by_table(bytes);
    if fault != 0 {
        return (1, fault);
    }
    if has_names(known, bytes) {
        TAKEN
    } else {
        UNKNOWN
    }
}

/// How an addressee of a plan judges bytes that are judged so for all.
pub(super) fn judged_by_hand(known: &Known, to: Address, bytes: &[u8], for_all: Judged) -> Judged {
    if for_all.0 == 1 {
        return for_all;
    }
    if for_all != TAKEN || !has_addressee(known, to) {
        return UNKNOWN;
    }
    if takes(known, to, bytes) {
        TAKEN
    } else {
        MISFIT
    }
}

fn has_addressee(known: &Known, to: Address) -> bool {
    match to {
        Address::Comp(comp) => (comp.0 as usize) < known.components.len(),
        Address::Class(class) => class.0 < known.classes as u16,
        Address::Layer => true,
    }
}

/// The byte at a place.
fn at(bytes: &[u8], place: usize) -> u8 {
    match bytes.get(place) {
        Some(byte) => *byte,
        None => 0,
    }
}

fn pair(bytes: &[u8], place: usize) -> (u8, u8) {
    (at(bytes, place), at(bytes, place.wrapping_add(1)))
}

fn is_below((high, low): (u8, u8), count: usize) -> bool {
    high == 0 && (low as usize) < count
}

fn has_comp(known: &Known, bytes: &[u8], place: usize) -> bool {
    is_below(pair(bytes, place), known.components.len())
}

/// Whether the plan has all that a frame names.
fn has_names(known: &Known, bytes: &[u8]) -> bool {
    match at(bytes, 0) {
        1 | 5 => has_comp(known, bytes, 1),
        3 => has_asker(known, bytes),
        4 => has_asker(known, bytes) && has_comp(known, bytes, 13),
        _ => has_asker(known, bytes) && has_entries(known, bytes) && has_reasons(known, bytes),
    }
}

/// Whether it has the class and the interaction of a request or a reply.
fn has_asker(known: &Known, bytes: &[u8]) -> bool {
    is_below(pair(bytes, 1), known.classes as usize)
        && is_below(pair(bytes, 11), known.inters.len())
}

/// Where an entry begins, and where a reason does.
fn entry(number: u8) -> usize {
    14 + 11 * number as usize
}

fn reason(bytes: &[u8], number: u8) -> usize {
    entry(at(bytes, 13)).wrapping_add(1 + 4 * number as usize)
}

fn count_reasons(bytes: &[u8]) -> u8 {
    if at(bytes, 0) != EXPLAINED {
        return 0;
    }
    at(bytes, entry(at(bytes, 13)))
}

fn has_entries(known: &Known, bytes: &[u8]) -> bool {
    for number in 0..at(bytes, 13) {
        if !has_comp(known, bytes, entry(number)) {
            return false;
        }
    }
    true
}

fn has_reasons(known: &Known, bytes: &[u8]) -> bool {
    for number in 0..count_reasons(bytes) {
        let place = reason(bytes, number);
        let cause = pair(bytes, place.wrapping_add(2));
        let has_cause = cause == GUARD || is_below(cause, known.components.len());
        if !has_cause || !is_below(pair(bytes, place), known.inters.len()) {
            return false;
        }
    }
    true
}

/// Whether an addressee takes a frame, all of whose names the plan has.
fn takes(known: &Known, to: Address, bytes: &[u8]) -> bool {
    match (to, at(bytes, 0)) {
        (Address::Class(_), 1) => can_offer(known, bytes),
        (Address::Class(class), 3 | 4) => is_of(pair(bytes, 1), class.0),
        (Address::Comp(_), 5) => can_be_told(known, bytes),
        (Address::Layer, 2 | 6) => is_asked(known, bytes),
        _ => false,
    }
}

fn is_of((high, low): (u8, u8), number: u16) -> bool {
    high == 0 && low as u16 == number
}

fn can_offer(known: &Known, bytes: &[u8]) -> bool {
    let Some((variables, ports)) = known.components.get(at(bytes, 2) as usize) else {
        return false;
    };
    at(bytes, 13) == *variables && is_on_below(pair(bytes, 11), *ports)
}

/// Whether no port from a number on is on.
fn is_on_below((high, low): (u8, u8), ports: u8) -> bool {
    high == 0 && (ports..8).all(|port| low & (1 << (port & 7)) == 0)
}

fn can_be_told(known: &Known, bytes: &[u8]) -> bool {
    let Some((variables, ports)) = known.components.get(at(bytes, 2) as usize) else {
        return false;
    };
    at(bytes, 12) == *variables && at(bytes, 11) < *ports
}

/// Whether a request is one for its interaction.
fn is_asked(known: &Known, bytes: &[u8]) -> bool {
    let Some(asked) = known.inters.get(at(bytes, 12) as usize) else {
        return false;
    };
    at(bytes, 2) == asked.class
        && (0..8).all(|comp| is_wanted(bytes, comp, 1) == has(asked.moves, comp))
        && (0..8).all(|comp| is_seen_rightly(asked, bytes, comp))
        && (0..8).all(|inter| is_explained_rightly(asked, bytes, inter))
}

fn has(list: &[u8], number: u8) -> bool {
    list.iter().any(|one| *one == number)
}

/// Whether an entry wants a component in a role.
fn is_wanted(bytes: &[u8], comp: u8, role: u8) -> bool {
    (0..at(bytes, 13)).any(|number| {
        let place = entry(number);
        pair(bytes, place) == (0, comp) && at(bytes, place.wrapping_add(2)) == role
    })
}

/// Whether a component is seen that is looked at, or not seen. Without reasons all of these are.
fn is_seen_rightly(asked: &Asked, bytes: &[u8], comp: u8) -> bool {
    let is_looked_at = has(asked.looks, comp);
    let is_seen = is_wanted(bytes, comp, 0);
    is_seen == is_looked_at || (is_looked_at && at(bytes, 0) == EXPLAINED)
}

/// Whether an interaction has a reason that can be one where it stands above, and else none.
fn is_explained_rightly(asked: &Asked, bytes: &[u8], inter: u8) -> bool {
    if at(bytes, 0) != EXPLAINED {
        return true;
    }
    let cause = cause_of(bytes, inter);
    match asked.above.iter().find(|(above, _)| *above == inter) {
        Some((_, movers)) => cause.is_some_and(|cause| can_hinder(bytes, movers, cause)),
        None => cause.is_none(),
    }
}

/// The cause that is told of an interaction.
fn cause_of(bytes: &[u8], inter: u8) -> Option<(u8, u8)> {
    for number in 0..count_reasons(bytes) {
        let place = reason(bytes, number);
        if pair(bytes, place) == (0, inter) {
            return Some(pair(bytes, place.wrapping_add(2)));
        }
    }
    None
}

/// Whether a cause can hinder an interaction that moves some: they all are among the entries where
/// it is a guard, else it is one of them that is.
fn can_hinder(bytes: &[u8], movers: &[u8], cause: (u8, u8)) -> bool {
    if cause == GUARD {
        return movers.iter().all(|comp| is_among(bytes, *comp));
    }
    has(movers, cause.1) && is_among(bytes, cause.1)
}

fn is_among(bytes: &[u8], comp: u8) -> bool {
    is_wanted(bytes, comp, 0) || is_wanted(bytes, comp, 1)
}
