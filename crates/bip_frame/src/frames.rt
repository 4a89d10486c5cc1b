//! Frames as they lie in their source. Fields lie as they are written here, so those of all kinds
//! have the same places: a frame that is read is put together with the fewest steps.
ghost use Rattle.std.specs.Prelude.{◌≡◌, ◌≤◌, ◌*◌, ◌++◌, length, if◌then◌else◌};
ghost use Rattle.std.specs.Int.{w32, to_be_bytes};
ghost use Rattle.std.specs.List.{flat_map};
ghost use Rattle.bip_model.specs.Reasons.{IsReasons};
ghost use Rattle.bip_model.specs.Wants.{IsWants};
ghost use Rattle.bip_frame.specs.Frames.{entry, reason_fields};
ghost use Rattle.bip_frame.specs.Lent.{kept, reasons_in, values_in, wants_in};

use bip_model::{ClassId, CompId, InterId, Number, PortId};

/// How many bytes the shortest frame has.
pub(crate) const SHORTEST: usize = 13;

/// How many bytes an entry of a request has.
pub(crate) const ENTRY: usize = 11;

/// How many bytes a reason of a request has.
pub(crate) const REASON: usize = 4;

/// Values as they lie in the source, four bytes each.
#[derive(Clone, Copy)]
pub(crate) struct LentValues<'a> {
    pub(crate) vars: &'a [u8],
    pub(crate) count: u8,
    ghost few: { count ≤ 8 },
    ghost whole: { length vars.now ≡ 4 * count },
    ghost spelled: { vars.now ≡ flat_map (to_be_bytes w32) (values_in count vars.now) },
}

/// An offer's frame. Its values lie in the source.
#[derive(Clone, Copy, Debug)]
pub struct OfferFrame<'a> {
    pub(crate) number: Number,
    pub(crate) vars: &'a [u8],
    pub(crate) comp: CompId,
    pub(crate) count: u8,
    pub(crate) ports: u16,
    pub ghost few: { count ≤ 8 },
    pub ghost whole: { length vars.now ≡ 4 * count },
    pub ghost spelled: { vars.now ≡ flat_map (to_be_bytes w32) (values_in count vars.now) },
}

/// A request's frame. Its entries lie in the source, and behind them a count and the reasons, where
/// there are any.
#[derive(Clone, Copy, Debug)]
pub struct ReserveFrame<'a> {
    pub(crate) request: u64,
    pub(crate) parts: &'a [u8],
    pub(crate) class: ClassId,
    pub(crate) count: u8,
    pub(crate) inter: InterId,
    pub ghost few: { count ≤ 32 },
    pub ghost whole: { 11 * count ≤ length parts.now },
    pub ghost wants: { IsWants (wants_in count parts.now) },
    pub ghost whys: { IsReasons (reasons_in count parts.now) } by { Prim.hlevel kept },
    pub ghost spelled: { parts.now ≡ flat_map entry (wants_in count parts.now)
        ++ reason_fields (reasons_in count parts.now) },
}

/// A reply's frame. What stands behind class, request and interaction lies in the source: the
/// serial of a grant; or a component with its used number.
#[derive(Clone, Copy, Debug)]
pub struct ReplyFrame<'a> {
    pub(crate) request: u64,
    pub(crate) answer: &'a [u8],
    pub(crate) class: ClassId,
    pub(crate) granted: bool,
    pub(crate) inter: InterId,
    pub ghost whole: { length answer.now ≡ (if granted then 8 else 10) },
}

/// A notification's frame. Its values lie in the source.
#[derive(Clone, Copy, Debug)]
pub struct NotifyFrame<'a> {
    pub(crate) number: Number,
    pub(crate) vars: &'a [u8],
    pub(crate) comp: CompId,
    pub(crate) count: u8,
    pub(crate) port: PortId,
    pub ghost few: { count ≤ 8 },
    pub ghost whole: { length vars.now ≡ 4 * count },
    pub ghost spelled: { vars.now ≡ flat_map (to_be_bytes w32) (values_in count vars.now) },
}

/// A frame of any kind, as it lies in its source (docs/FRAMES.md).
#[derive(Clone, Copy, Debug)]
pub enum Frame<'a> {
    Offer(OfferFrame<'a>),
    Reserve(ReserveFrame<'a>),
    Reply(ReplyFrame<'a>),
    Notify(NotifyFrame<'a>),
}

/// An entry of a request's frame, as it lies in the source.
#[derive(Clone, Copy, Debug)]
pub struct EntryPart<'a> {
    pub(crate) bytes: &'a [u8],
    pub ghost whole: { length bytes.now ≡ 11 },
}
