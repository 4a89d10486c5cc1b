//! Queues: what came first is taken first.
ghost use Rattle.std.specs.Prelude.{◌≡◌, ◌<◌, [], ◌∷◌, ◌++◌, slice_get, IfErr, IfNone, IfSome};
ghost use Rattle.std.specs.Prelude.{OnErr, OnOk, length, slice_index_or, slice_set};
ghost use Rattle.std.specs.Option.{option_map};

use bip_model::Request;
use std::alloc::{AllocFailed, Global};
use std::collections::VecDeque;
use std::marker::Model;

/// A queue, which contracts see as the list of its items, the oldest first.
#[derive(Drop)]
pub struct Queue<T> {
    items: VecDeque<T>,
}

impl<T> Model for Queue<T> {
    ghost use Rattle.std.specs.Prelude.{List};

    ghost Value = { List T };

    ghost view = { λ q. q.items.items };
}

impl<T> Queue<T> {
    /// A queue without items. It takes no memory until the first one comes.
    pub fn new(alloc: Global) -> Queue<T>
        ensures { result ≡ [] }
    {
        Queue {
            items: VecDeque::new(alloc),
        }
    }

    /// The oldest item, if there is one.
    pub fn first(&self) -> Option<&T>
        ensures { option_map (λ item. item.now) result ≡ slice_get self.now 0 }
    {
        self.items.front()
    }

    /// Puts an item last. Without memory the queue stays as it was, and the item comes back.
    pub fn put_last(&mut self, item: T) -> Result<(), AllocFailed<T>>
        ensures ok { OnOk result (self.new ≡ self.old ++ item ∷ []) }
        ensures err { OnErr result (self.new ≡ self.old) }
        ensures item { IfErr result (λ refused. refused.value ≡ item) }
    {
        self.items.push_back(item)
    }

    /// Takes the oldest item off, if there is one.
    pub fn take_first(&mut self) -> Option<T>
        ensures some { IfSome result (λ item. self.old ≡ item ∷ self.new) }
        ensures none { IfNone result ((self.old ≡ []) × (self.new ≡ [])) }
    {
        self.items.pop_front()
    }
}

/// Puts a request last in one of the queues. Without memory it comes back, and they stay.
pub fn put_last(
    queues: &mut Vec<Queue<Request>>,
    place: usize,
    request: Request,
) -> Result<(), Request>
    requires { place < length queues.old.items }
    ensures ok { OnOk result (queues.new.items ≡ slice_set queues.old.items place
        (slice_index_or queues.old.items place [] ++ request ∷ [])) }
    ensures err { OnErr result (queues.new.items ≡ queues.old.items) }
    ensures back { IfErr result (λ refused. refused ≡ request) }
{
    match queues[place].put_last(request) {
        Ok(()) => Ok(()),
        Err(refused) => Err(refused.value),
    }
}
