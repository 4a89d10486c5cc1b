//! The reply to a request, by the decision on it.
ghost use Rattle.std.specs.Prelude.{◌≡◌};
ghost use Rattle.bip_bank.specs.Decisions.{reply_to};

use bip_model::{Reply, Request};
use bip_table::Decision;

/// The reply to a request, by the decision on it: to its class, with its number and interaction.
pub fn reply_to(request: &Request, decision: &Decision) -> Reply
    ensures { result ≡ reply_to request.now decision.now }
{
    match *decision {
        Decision::Granted(serial) => Reply::Granted {
            class: request.class,
            request: request.request,
            inter: request.inter,
            serial,
        },
        Decision::Refused { comp, used } => Reply::Refused {
            class: request.class,
            request: request.request,
            inter: request.inter,
            comp,
            used,
        },
    }
}
