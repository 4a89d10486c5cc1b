//! Writing: the frame of a message. It is put together in place, and then copied into memory of its
//! own length, which can be shared: that alone can want memory.
ghost use Rattle.std.specs.Prelude.{[], ◌≡◌, ◌≤◌, ◌<◌, ◌+◌, ◌*◌, ◌++◌, length, IfOk};
ghost use Rattle.arrayvec.specs.ArrayVec.{array_vec_len};
ghost use Rattle.std.specs.List.{AllByRecursion};
ghost use Rattle.bip_model.specs.Reasons.{IsReasons};
ghost use Rattle.bip_frame.specs.Frames.{FitsInter, IsEntry, IsFrame, IsGranted, IsHead};
ghost use Rattle.bip_frame.specs.Frames.{IsNumbered, IsRefused, counted_entries, counted_reasons};
ghost use Rattle.bip_frame.specs.Frames.{counted_values, entry, granted_fields, head_fields};
ghost use Rattle.bip_frame.specs.Frames.{of_notify, of_offer, of_reply, of_request, reason_entry};
ghost use Rattle.bip_frame.specs.Frames.{refused_fields, role_byte};

use arrayvec::ArrayVec;
use bip_model::{Notify, Offer, Reasons, Reply, Request, Role, Want, Why};
use bytes::Bytes;
use std::alloc::{AllocError, Global};

// How many bytes a frame of each kind has at most.
const MOST_OF_OFFER: usize = 46;

const MOST_OF_REQUEST: usize = 366;

const MOST_OF_EXPLAINED: usize = 875;

const MOST_OF_REPLY: usize = 23;

const MOST_OF_NOTIFY: usize = 45;

fn put<const N: usize>(out: &mut ArrayVec<u8, N>, bytes: &[u8])
    requires { array_vec_len out.old + length bytes.now ≤ N }
    ensures items { out.new.items ≡ out.old.items ++ bytes.now }
    ensures len { array_vec_len out.new ≡ array_vec_len out.old + length bytes.now }
{
    match out.try_extend_from_slice(bytes) {
        Ok(()) => {}
        Err(_) => unreachable!(),
    }
}

/// A count of values, and the values.
fn put_values<const N: usize>(out: &mut ArrayVec<u8, N>, values: &[u32])
    requires few { length values.now ≤ 8 }
    requires room { array_vec_len out.old + (1 + 4 * length values.now) ≤ N }
    ensures { out.new.items ≡ out.old.items ++ counted_values values.now }
{
    out.push(values.len() as u8);
    for value in values {
        put(out, &value.to_be_bytes());
    }
}

/// Class, request and interaction.
fn put_head<const N: usize>(out: &mut ArrayVec<u8, N>, class: u16, request: u64, inter: u16)
    requires some { 1 ≤ request }
    requires room { array_vec_len out.old + 12 ≤ N }
    ensures items { out.new.items ≡ out.old.items ++ head_fields class request inter }
    ensures len { array_vec_len out.new ≡ array_vec_len out.old + 12 }
    ensures fits { IsHead class request inter }
{
    put(out, &class.to_be_bytes());
    put(out, &request.to_be_bytes());
    put(out, &inter.to_be_bytes());
}

fn byte_of(role: Role) -> u8
    ensures { result ≡ role_byte role }
{
    match role {
        Role::Moved => 1,
        Role::Seen => 0,
    }
}

fn put_entry<const N: usize>(out: &mut ArrayVec<u8, N>, want: &Want)
    requires { array_vec_len out.old + 11 ≤ N }
    ensures items { out.new.items ≡ out.old.items ++ entry want.now }
    ensures len { array_vec_len out.new ≡ array_vec_len out.old + 11 }
    ensures fits { IsEntry want.now }
{
    put(out, &want.comp.0.to_be_bytes());
    out.push(byte_of(want.role));
    put(out, &want.number.to_be_bytes());
}

/// A count of entries, and the entries.
fn put_entries<const N: usize>(out: &mut ArrayVec<u8, N>, wants: &[Want])
    requires few { length wants.now ≤ 32 }
    requires room { array_vec_len out.old + (1 + 11 * length wants.now) ≤ N }
    ensures items { out.new.items ≡ out.old.items ++ counted_entries wants.now }
    ensures len { array_vec_len out.new ≡ array_vec_len out.old + (1 + 11 * length wants.now) }
    ensures fits { AllByRecursion IsEntry wants.now }
{
    out.push(wants.len() as u8);
    for want in wants {
        put_entry(out, want);
    }
}

fn put_reason<const N: usize>(out: &mut ArrayVec<u8, N>, why: Why)
    requires { array_vec_len out.old + 4 ≤ N }
    ensures items { out.new.items ≡ out.old.items ++ reason_entry why }
    ensures len { array_vec_len out.new ≡ array_vec_len out.old + 4 }
    ensures fits { FitsInter why }
{
    put(out, &why.inter.0.to_be_bytes());
    put(out, &why.cause.number().to_be_bytes());
}

/// A count of reasons, and the reasons.
fn put_reasons<const N: usize>(out: &mut ArrayVec<u8, N>, reasons: &Reasons)
    requires { array_vec_len out.old + (1 + 4 * length reasons.now) ≤ N }
    ensures items { out.new.items ≡ out.old.items ++ counted_reasons reasons.now }
    ensures fits { AllByRecursion FitsInter reasons.now }
{
    out.push(reasons.len() as u8);
    for i in 0..reasons.len() {
        match reasons.get(i) {
            Some(why) => put_reason(out, why),
            None => unreachable!(),
        }
    }
}

/// The fields of a grant.
fn put_granted<const N: usize>(
    out: &mut ArrayVec<u8, N>,
    class: u16,
    request: u64,
    inter: u16,
    serial: u64,
)
    requires some { 1 ≤ request }
    requires room { array_vec_len out.old + 20 ≤ N }
    ensures items { out.new.items ≡ out.old.items ++ granted_fields class request inter serial }
    ensures fits { IsGranted class request inter serial }
{
    put_head(out, class, request, inter);
    put(out, &serial.to_be_bytes());
}

/// The fields of a refusal.
fn put_refused<const N: usize>(
    out: &mut ArrayVec<u8, N>,
    class: u16,
    request: u64,
    inter: u16,
    comp: u16,
    used: u64,
)
    requires some { (1 ≤ request) × (1 ≤ used) }
    requires room { array_vec_len out.old + 22 ≤ N }
    ensures items { out.new.items
        ≡ out.old.items ++ refused_fields class request inter comp used }
    ensures fits { IsRefused class request inter comp used }
{
    put_head(out, class, request, inter);
    put(out, &comp.to_be_bytes());
    put(out, &used.to_be_bytes());
}

/// The frame of an offer, whose number is at least 1.
pub fn write_offer(alloc: Global, offer: &Offer) -> Result<Bytes, AllocError>
    requires { 1 ≤ offer.now.number }
    ensures { IfOk result (IsFrame (of_offer offer.now)) }
{
    let values = offer.values.as_slice();
    let mut out = ArrayVec::<u8, MOST_OF_OFFER>::new();
    out.push(1);
    put(&mut out, &offer.comp.0.to_be_bytes());
    put(&mut out, &offer.number.to_be_bytes());
    put(&mut out, &offer.ports.to_be_bytes());
    put_values(&mut out, values);
    Bytes::copy_from_slice(alloc, out.as_slice())
}

/// The frame of a request without reasons.
fn write_bare(alloc: Global, request: &Request) -> Result<Bytes, AllocError>
    requires numbered { 1 ≤ request.now.request }
    requires bare { request.now.reasons ≡ [] }
    ensures { IfOk result (IsFrame (of_request request.now)) }
{
    let wants = request.wants.as_slice();
    let mut out = ArrayVec::<u8, MOST_OF_REQUEST>::new();
    out.push(2);
    put_head(&mut out, request.class.0, request.request, request.inter.0);
    put_entries(&mut out, wants);
    Bytes::copy_from_slice(alloc, out.as_slice())
}

/// The frame of a request with reasons. It stands alone, so that its room isn't made for others.
#[inline(never)]
fn write_explained(alloc: Global, request: &Request) -> Result<Bytes, AllocError>
    requires numbered { 1 ≤ request.now.request }
    requires explained { 1 ≤ length request.now.reasons }
    requires reasons { IsReasons request.now.reasons }
    ensures { IfOk result (IsFrame (of_request request.now)) }
{
    let wants = request.wants.as_slice();
    let mut out = ArrayVec::<u8, MOST_OF_EXPLAINED>::new();
    out.push(6);
    put_head(&mut out, request.class.0, request.request, request.inter.0);
    put_entries(&mut out, wants);
    put_reasons(&mut out, &request.reasons);
    Bytes::copy_from_slice(alloc, out.as_slice())
}

/// The frame of a request, whose number is at least 1. Where there are no reasons, less room is
/// made for it.
pub fn write_reserve(alloc: Global, request: &Request) -> Result<Bytes, AllocError>
    requires numbered { 1 ≤ request.now.request }
    ensures { IfOk result (IsFrame (of_request request.now)) }
{
    if request.reasons.len() == 0 {
        write_bare(alloc, request)
    } else {
        write_explained(alloc, request)
    }
}

/// The frame of a reply, whose numbers are at least 1.
pub fn write_reply(alloc: Global, reply: &Reply) -> Result<Bytes, AllocError>
    requires { IsNumbered reply.now }
    ensures { IfOk result (IsFrame (of_reply reply.now)) }
{
    let mut out = ArrayVec::<u8, MOST_OF_REPLY>::new();
    match *reply {
        Reply::Granted {
            class,
            request,
            inter,
            serial,
        } => {
            out.push(3);
            put_granted(&mut out, class.0, request, inter.0, serial);
        }
        Reply::Refused {
            class,
            request,
            inter,
            comp,
            used,
        } => {
            out.push(4);
            put_refused(&mut out, class.0, request, inter.0, comp.0, used);
        }
    }
    Bytes::copy_from_slice(alloc, out.as_slice())
}

/// The frame of a notification, whose number is at least 1 and whose port is below 16.
pub fn write_notify(alloc: Global, notify: &Notify) -> Result<Bytes, AllocError>
    requires number { 1 ≤ notify.now.number }
    requires port { notify.now.port.0 < 16 }
    ensures { IfOk result (IsFrame (of_notify notify.now)) }
{
    let values = notify.values.as_slice();
    let mut out = ArrayVec::<u8, MOST_OF_NOTIFY>::new();
    out.push(5);
    put(&mut out, &notify.comp.0.to_be_bytes());
    put(&mut out, &notify.number.to_be_bytes());
    out.push(notify.port.0);
    put_values(&mut out, values);
    Bytes::copy_from_slice(alloc, out.as_slice())
}
