//! Wants of a line's grant that aren't enough: they aren't of its interaction's parties, or nothing
//! shows that an interaction above can't run.
ghost use Rattle.std.specs.Prelude.{◌≡◌, ◌≤◌, ◌<◌, ℕ, All, IfNone, IfOk, IfSome, Ok, Some};
ghost use Rattle.std.specs.Prelude.{length};
ghost use Rattle.std.specs.List.{list_any};
ghost use Rattle.bip_explain.specs.Explanations.{with_parts};
ghost use Rattle.bip_explain.specs.Hindrances.{MayKeepStep};
ghost use Rattle.bip_explain.specs.Parties.{IsCoverLack, IsLowestMisnamed, IsLowestUncovered};
ghost use Rattle.bip_explain.specs.Parties.{IsNamedRight, IsNamedSo, IsPartyTold, is_right};
ghost use Rattle.bip_explain.specs.Parties.{cover_lack_parts, named_text, names_parts, off_among};
ghost use Rattle.bip_explain.specs.Parties.{parties_parts, seen_text, unseen_among};
ghost use Rattle.bip_model.specs.Parties.{Cover, CoverAbove, IsWanted, has_want_of};
ghost use Rattle.bip_model.specs.Parts.{IsPortIn};
ghost use Rattle.bip_model.specs.Priorities.{HasAbove};
ghost use Rattle.bip_model.specs.States.{IsStateOf, state_of};
ghost use Rattle.bip_model.specs.Steps.{IsEnabled};
ghost use Rattle.bip_model.specs.declared.grants.Grant.{Grant};
ghost use Rattle.bip_model.specs.declared.numbering.CompId.{CompId};
ghost use Rattle.bip_replay.specs.Lines.{grant_on};
ghost use Rattle.bip_replay.specs.declared.faults.BookFault.TheVariants.{Parties};

use crate::Explanation;
use crate::grants::{say_component, say_front, say_name, want_on};
use crate::hindrances::{find_unoffered, state_before};
use crate::placed::Placed;
use arrayvec::ArrayVec;
use bip_model::{
    CompId, Grant, InterId, MOST_PARTICIPANTS, Model, PortId, State, Want, has_want_of, is_moving,
    is_plain, is_seeing, line_at,
};
use bip_replay::{TraceFault, read_trace};
use std::alloc::{AllocError, Global};

/// What a grant of an interaction does with a component.
#[derive(Clone, Copy)]
pub(crate) enum Named {
    Moved,
    Seen,
    Absent,
}

/// What wants lack that would show that an interaction above can't run.
#[derive(Drop)]
pub(crate) enum Lack {
    /// One of these participants: they don't offer their ports.
    Off(ArrayVec<CompId, MOST_PARTICIPANTS>),
    /// All of these: each participant offers its port, and the guard doesn't hold.
    Unseen(ArrayVec<CompId, MOST_PARTICIPANTS>),
}

/// Why the wants of a line's grant aren't enough.
#[derive(Drop)]
pub(crate) enum PartyReason<'t> {
    /// What the interaction does with the component, and the grant otherwise; the word that names
    /// it, if one does.
    Misnamed(Option<Placed<'t>>, InterId, CompId, Named),
    /// What the grant lacks for this interaction above.
    Uncovered(InterId, Lack),
}

impl PartyReason<'_> {
    /// Says why the wants aren't enough.
    pub(crate) fn say(&self, explanation: &mut Explanation, model: &Model)
        ensures { explanation.new
            ≡ with_parts (parties_parts model.now (Some self.now)) explanation.old }
    {
        match self {
            PartyReason::Misnamed(placed, inter, comp, named) => {
                say_front(explanation, *placed);
                say_name(explanation, model.interaction_names(), inter.0 as usize);
                explanation.say(named.words());
                say_component(explanation, model, *comp);
                explanation.say(named.place());
            }
            PartyReason::Uncovered(above, lack) => lack.say(explanation, model, *above),
        }
    }
}

impl Named {
    fn words(self) -> &'static [u8]
        ensures { result.now ≡ named_text self }
    {
        match self {
            Named::Moved => b" moves ",
            Named::Seen => b" looks at ",
            Named::Absent => b" neither moves nor looks at ",
        }
    }

    fn place(self) -> &'static [u8]
        ensures { result.now ≡ seen_text self }
    {
        match self {
            Named::Seen => b", which is wanted behind `see`",
            Named::Moved | Named::Absent => b"",
        }
    }
}

impl Lack {
    fn say(&self, explanation: &mut Explanation, model: &Model, above: InterId)
        ensures { explanation.new
            ≡ with_parts (cover_lack_parts model.now above.0 self.now) explanation.old }
    {
        let names = model.interaction_names();
        match self {
            Lack::Off(comps) => {
                explanation.say(b"nothing shows that ");
                say_name(explanation, names, above.0 as usize);
                let front = b" is not enabled: see ";
                say_names(explanation, model, front, b" or ", comps.as_slice());
            }
            Lack::Unseen(comps) => {
                say_name(explanation, names, above.0 as usize);
                let front = b"'s guard is false: see ";
                say_names(explanation, model, front, b" and ", comps.as_slice());
            }
        }
    }
}

// Says components by their names, the first behind a text, and each other one behind a second text.
fn say_names(
    explanation: &mut Explanation,
    model: &Model,
    front: &[u8],
    between: &[u8],
    comps: &[CompId],
)
    ensures { explanation.new ≡ with_parts
        (names_parts model.now front.now between.now comps.now) explanation.old }
{
    if let [comp, rest @ ..] = comps {
        explanation.say(front);
        say_name(explanation, model.component_names(), comp.0 as usize);
        say_names(explanation, model, between, between, rest);
    }
}

/// Why the wants of a line's grant aren't enough in the state before the line.
pub(crate) fn find_party<'t>(
    alloc: Global,
    model: &Model,
    text: &'t [u8],
    number: u64,
) -> Result<Option<PartyReason<'t>>, AllocError>
    ensures some { IfOk result (λ found. IfSome found (λ reason. (base : ℕ)
        → IsPartyTold model.now base text.now number (Some reason))) }
    ensures none { IfOk result (λ found. IfNone found ((base : ℕ)
        → MayKeepStep model.now base text.now number Parties)) }
{
    model.recall();
    let line = line_at(text, number);
    let Some(grant) = read_grant(alloc, model, line)? else {
        return Ok(None);
    };
    let inter = grant.inter;
    let wants = grant.wants.as_slice();
    if let Some((comp, named)) = find_misnamed(model, inter, wants) {
        let placed = want_on(model, line, comp);
        return Ok(Some(PartyReason::Misnamed(placed, inter, comp, named)));
    }
    let state = state_before(alloc, model, text, number)?;
    // What is below another that is enabled has that fault.
    if model.blocked_by(&state, inter).is_some() {
        return Ok(None);
    }
    match find_uncovered(model, &state, inter, wants) {
        None => Ok(None),
        Some((above, lack)) => Ok(Some(PartyReason::Uncovered(above, lack))),
    }
}

// The grant of a line, if it reads as one.
fn read_grant(alloc: Global, model: &Model, line: &[u8]) -> Result<Option<Grant>, AllocError>
    ensures some { IfOk result (λ found. IfSome found (λ g.
        grant_on model.now line.now ≡ Ok (Some g))) }
    ensures none { IfOk result (λ found. IfNone found ((g : Grant)
        → ¬ (grant_on model.now line.now ≡ Ok (Some g)))) }
{
    if !is_plain(line) {
        return Ok(None);
    }
    match read_trace(alloc, model, line) {
        Ok(mut grants) => Ok(grants.pop()),
        Err((_number, fault)) => match fault {
            TraceFault::Memory => Err(AllocError),
            TraceFault::Syntax => Ok(None),
            TraceFault::Unknown => Ok(None),
        },
    }
}

// The first component that wants don't have as an interaction's parties do, and what it does with
// that.
fn find_misnamed(model: &Model, inter: InterId, wants: &[Want]) -> Option<(CompId, Named)>
    ensures some { IfSome result (λ found. IsLowestMisnamed model.now inter.0 wants.now found.0.0
        × IsNamedSo model.now inter.0 found.0.0 found.1) }
    ensures none { IfNone result ((c : ℕ) → c < length model.now.components
        → IsNamedRight model.now inter.0 wants.now c) }
{
    for number in 0..model.components().len() as u16 {
        let comp = CompId(number);
        let named = named_by(model, inter, comp);
        if !is_right(named, is_moving(wants, comp), is_seeing(wants, comp)) {
            return Some((comp, named));
        }
    }
    None
}

fn named_by(model: &Model, inter: InterId, comp: CompId) -> Named
    ensures { IsNamedSo model.now inter.0 comp.0 result }
{
    if model.moves(inter, comp) {
        Named::Moved
    } else if model.is_looked_at(inter, comp) {
        Named::Seen
    } else {
        Named::Absent
    }
}

// Whether wants have a component as it is to be: what is looked at need not be seen.
fn is_right(named: Named, is_moved: bool, is_seen: bool) -> bool
    ensures { result ≡ is_right named is_moved is_seen }
{
    match named {
        Named::Moved => is_moved && !is_seen,
        Named::Seen => !is_moved,
        Named::Absent => !is_moved && !is_seen,
    }
}

// The first interaction above one that wants don't cover in a state, and what they lack for it.
fn find_uncovered(
    model: &Model,
    state: &State,
    inter: InterId,
    wants: &[Want],
) -> Option<(InterId, Lack)>
    requires declared { inter.0 < length model.now.interactions }
    requires state { IsStateOf model.now (state_of state.now) }
    requires clear { (b : ℕ) → HasAbove model.now.priorities inter.0 b
        → ¬ IsEnabled model.now (state_of state.now) b }
    ensures some { IfSome result (λ found.
        IsLowestUncovered model.now (state_of state.now) inter.0 wants.now found.0.0
        × IsCoverLack model.now (state_of state.now) wants.now found.0.0 found.1) }
    ensures none { IfNone result
        (CoverAbove model.now (state_of state.now) inter.0 wants.now) }
{
    for above in model.above(inter) {
        if let Some(lack) = find_lack(model, state, *above, wants) {
            return Some((*above, lack));
        }
    }
    None
}

// What wants lack that would cover an interaction that isn't enabled in a state.
fn find_lack(model: &Model, state: &State, inter: InterId, wants: &[Want]) -> Option<Lack>
    requires declared { inter.0 < length model.now.interactions }
    requires state { IsStateOf model.now (state_of state.now) }
    requires disabled { ¬ IsEnabled model.now (state_of state.now) inter.0 }
    ensures some { IfSome result (λ lack.
        (¬ Cover model.now (state_of state.now) wants.now inter.0)
        × IsCoverLack model.now (state_of state.now) wants.now inter.0 lack) }
    ensures none { IfNone result (Cover model.now (state_of state.now) wants.now inter.0) }
{
    let participants = model.participants(inter);
    let unseen = unseen_among(wants, participants);
    if unseen.is_empty() {
        return None;
    }
    let off = off_among(model, state, participants);
    if off.is_empty() {
        return Some(Lack::Unseen(unseen));
    }
    if have_one_of(wants, off.as_slice()) {
        return None;
    }
    Some(Lack::Off(off))
}

fn have_one_of(wants: &[Want], comps: &[CompId]) -> bool
    ensures { result ≡ list_any (λ (c : CompId). has_want_of wants.now c.0) comps.now }
{
    comps.iter().any(|comp| has_want_of(wants, *comp))
}

// Those of participants whose ports aren't offered in a state.
fn off_among(
    model: &Model,
    state: &State,
    participants: &[(CompId, PortId)],
) -> ArrayVec<CompId, MOST_PARTICIPANTS>
    requires few { length participants.now ≤ MOST_PARTICIPANTS }
    requires state { IsStateOf model.now (state_of state.now) }
    requires ports { All (IsPortIn model.now.components) participants.now }
    ensures { result.items ≡ off_among model.now (state_of state.now) participants.now }
{
    let mut off = ArrayVec::new();
    for (comp, port) in participants {
        if find_unoffered(model, state, *comp, *port).is_some() {
            off.push(*comp);
        }
    }
    off
}

// Those of participants that wants don't have.
fn unseen_among(
    wants: &[Want],
    participants: &[(CompId, PortId)],
) -> ArrayVec<CompId, MOST_PARTICIPANTS>
    requires { length participants.now ≤ MOST_PARTICIPANTS }
    ensures { result.items ≡ unseen_among wants.now participants.now }
{
    let mut unseen = ArrayVec::new();
    for (comp, _port) in participants {
        if !has_want_of(wants, *comp) {
            unseen.push(*comp);
        }
    }
    unseen
}
