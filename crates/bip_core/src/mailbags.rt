//! The messages in flight, in pieces: taking one out moves few others, however many there are.
ghost use Rattle.std.specs.Prelude.{◌≡◌, ◌<◌, ◌≤◌, ◌∷◌, ◌++◌, [], IfErr, OnErr, OnOk, Some};
ghost use Rattle.std.specs.Prelude.{length, slice_get, vec_capacity, vec_len};
ghost use Rattle.std.specs.List.{remove};
ghost use Rattle.bip_core.specs.Mailbags.{IsLastFull, IsPlaceIn, in_chunks, in_groups, of_chunk};
ghost use Rattle.bip_core.specs.Mailbags.{of_group};
ghost use Rattle.bip_core.specs.declared.mailbags.TheConstants.{CHUNK, GROUP};

use crate::letters::Letter;
use std::alloc::{AllocError, AllocFailed, Global};
use std::marker::Model;

/// So many messages stand in one chunk at most: few are moved where one is taken out.
const CHUNK: usize = 64;

/// A group that has so many takes no more.
const GROUP: usize = 128 * CHUNK;

/// The place of a message: the piece that has it, and its place there.
#[derive(Clone, Copy)]
struct Spot {
    piece: usize,
    within: usize,
}

/// Chunks of messages, and how many these are.
#[derive(Drop)]
struct Group {
    count: usize,
    chunks: Vec<Vec<Letter>>,
}

impl Model for Group {
    ghost use Rattle.std.specs.Prelude.{◌≡◌, List, length};
    ghost use Rattle.bip_core.specs.Mailbags.{in_chunks};
    ghost use Rattle.bip_core.specs.declared.messages.Message.{Message};

    ghost Value = { List Message };

    ghost view = { λ g. in_chunks g.chunks.items };

    ghost invariant = { λ g. g.count ≡ length (in_chunks g.chunks.items) };
}

/// The messages in flight, the oldest first. Contracts see the list of them. To find the one at a
/// place takes a step a group and a step a chunk of one group.
#[derive(Drop)]
pub(crate) struct Mailbag {
    count: usize,
    groups: Vec<Group>,
}

impl Model for Mailbag {
    ghost use Rattle.std.specs.Prelude.{◌≡◌, List, length};
    ghost use Rattle.bip_core.specs.Mailbags.{in_groups};
    ghost use Rattle.bip_core.specs.declared.messages.Message.{Message};

    ghost Value = { List Message };

    ghost view = { λ m. in_groups m.groups.items };

    ghost invariant = { λ m. m.count ≡ length (in_groups m.groups.items) };
}

impl Mailbag {
    /// No message. It takes no memory until the first one comes.
    pub fn new(alloc: Global) -> Mailbag
        ensures { result ≡ [] }
    {
        Mailbag {
            count: 0,
            groups: Vec::new(alloc),
        }
    }

    /// Where its memory is from.
    pub fn allocator(&self) -> Global {
        *self.groups.allocator()
    }

    /// How many there are.
    pub fn len(&self) -> usize
        ensures { result ≡ length self.now }
    {
        self.count
    }

    /// The message at a place.
    pub fn get(&self, place: usize) -> &Letter
        requires { place < length self.now }
        ensures { slice_get self.now place ≡ Some result.now }
    {
        let place = place_in_groups(&self.groups, place);
        self.groups[place.piece].get(place.within)
    }

    /// Puts a message last. Without memory nothing changes, and the message comes back.
    pub fn push(&mut self, message: Letter) -> Result<(), AllocFailed<Letter>>
        ensures ok { OnOk result (self.new ≡ self.old ++ message ∷ []) }
        ensures err { OnErr result (self.new ≡ self.old) }
        ensures back { IfErr result (λ refused. refused.value ≡ message) }
    {
        if self.count == usize::MAX {
            return Err(AllocFailed { value: message });
        }
        if ready_last_group(&mut self.groups).is_err() {
            return Err(AllocFailed { value: message });
        }
        let last = self.groups.len() - 1;
        self.groups[last].push(message)?;
        self.count += 1;
        Ok(())
    }

    /// Takes the message at a place out. The others keep their order.
    pub fn remove(&mut self, place: usize) -> Letter
        requires { place < length self.old }
        ensures message { slice_get self.old place ≡ Some result }
        ensures others { self.new ≡ remove self.old place }
    {
        let place = place_in_groups(&self.groups, place);
        let message = self.groups[place.piece].remove(place.within);
        self.count -= 1;
        drop_empty_group(&mut self.groups, place.piece);
        message
    }
}

impl Group {
    fn new(alloc: Global) -> Group
        ensures { result ≡ [] }
    {
        Group {
            count: 0,
            chunks: Vec::new(alloc),
        }
    }

    fn len(&self) -> usize
        ensures { result ≡ length self.now }
    {
        self.count
    }

    fn get(&self, place: usize) -> &Letter
        requires { place < length self.now }
        ensures { slice_get self.now place ≡ Some result.now }
    {
        let place = place_in_chunks(&self.chunks, place);
        &self.chunks[place.piece][place.within]
    }

    fn push(&mut self, message: Letter) -> Result<(), AllocFailed<Letter>>
        requires { length self.old < usize.MAX }
        ensures ok { OnOk result (self.new ≡ self.old ++ message ∷ []) }
        ensures err { OnErr result (self.new ≡ self.old) }
        ensures back { IfErr result (λ refused. refused.value ≡ message) }
    {
        if ready_last_chunk(&mut self.chunks).is_err() {
            return Err(AllocFailed { value: message });
        }
        let last = self.chunks.len() - 1;
        self.chunks[last].push(message)?;
        self.count += 1;
        Ok(())
    }

    fn remove(&mut self, place: usize) -> Letter
        requires { place < length self.old }
        ensures message { slice_get self.old place ≡ Some result }
        ensures others { self.new ≡ remove self.old place }
    {
        let place = place_in_chunks(&self.chunks, place);
        let message = self.chunks[place.piece].remove(place.within);
        self.count -= 1;
        join_with_previous(&mut self.chunks, place.piece + 1);
        join_with_previous(&mut self.chunks, place.piece);
        message
    }
}

/// The place of the message that has so many before it.
fn place_in_chunks(chunks: &[Vec<Letter>], before: usize) -> Spot
    requires { before < length (in_chunks chunks.now) }
    ensures { IsPlaceIn of_chunk chunks.now before result.piece result.within }
{
    let mut within = before;
    for (piece, chunk) in chunks.iter().enumerate() {
        if within < chunk.len() {
            return Spot { piece, within };
        }
        within -= chunk.len();
    }
    unreachable!()
}

/// The same, of groups.
fn place_in_groups(groups: &[Group], before: usize) -> Spot
    requires { before < length (in_groups groups.now) }
    ensures { IsPlaceIn of_group groups.now before result.piece result.within }
{
    let mut within = before;
    for (piece, group) in groups.iter().enumerate() {
        if within < group.len() {
            return Spot { piece, within };
        }
        within -= group.len();
    }
    unreachable!()
}

/// Sees to it that there is a last chunk, and that it isn't full. It grows as a vector does.
fn ready_last_chunk(chunks: &mut Vec<Vec<Letter>>) -> Result<(), AllocError>
    ensures same { in_chunks chunks.new.items ≡ in_chunks chunks.old.items }
    ensures some { OnOk result (0 < length chunks.new.items) }
    ensures full { IfErr result (λ e. vec_capacity chunks.old ≤ vec_len chunks.old) }
    ensures page { IfErr result (λ e. IsLastFull of_chunk CHUNK chunks.old.items) }
{
    if let Some(chunk) = chunks.last()
        && chunk.len() < CHUNK
    {
        return Ok(());
    }
    let alloc = *chunks.allocator();
    chunks.push(Vec::new(alloc))?;
    Ok(())
}

/// The same, of groups.
fn ready_last_group(groups: &mut Vec<Group>) -> Result<(), AllocError>
    ensures same { in_groups groups.new.items ≡ in_groups groups.old.items }
    ensures some { OnOk result (0 < length groups.new.items) }
    ensures full { IfErr result (λ e. vec_capacity groups.old ≤ vec_len groups.old) }
    ensures page { IfErr result (λ e. IsLastFull of_group GROUP groups.old.items) }
{
    if let Some(group) = groups.last()
        && group.len() < GROUP
    {
        return Ok(());
    }
    let alloc = *groups.allocator();
    groups.push(Group::new(alloc))?;
    Ok(())
}

/// Moves the messages of a chunk into the one before it, where there is room for all of them, so
/// that two neighbours have more than fits in one.
fn join_with_previous(chunks: &mut Vec<Vec<Letter>>, piece: usize)
    ensures { in_chunks chunks.new.items ≡ in_chunks chunks.old.items }
{
    if piece == 0 || piece >= chunks.len() {
        return;
    }
    let previous = piece - 1;
    let chunk = &chunks[previous];
    if chunk.len() + chunks[piece].len() > chunk.capacity() {
        return;
    }
    let mut moved = chunks.remove(piece);
    let _room = chunks[previous].append(&mut moved);
}

/// Lets a group go that has no message, unless it is the last.
fn drop_empty_group(groups: &mut Vec<Group>, piece: usize)
    requires { piece < length groups.old.items }
    ensures { in_groups groups.new.items ≡ in_groups groups.old.items }
{
    if piece + 1 < groups.len() && groups[piece].len() == 0 {
        let _empty = groups.remove(piece);
    }
}
