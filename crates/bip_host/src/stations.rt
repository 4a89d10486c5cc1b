//! What the actors of all stations want and hear, and how they answer what they decided.
ghost use Rattle.std.specs.Prelude.{◌≡◌};
ghost use Rattle.bip_host.specs.Stations.{deciding_on, on_decided};

use crate::actors::Step;
use crate::books::Entry;
use crate::counts::Posted;
use crate::messages::{ToClass, ToStation};
use crate::settled::{Decided, Settled, Unsettled};
use bip_bank::StationId;
use bip_model::{Grant, Reply, Request};

/// What the actor of a station wants.
#[derive(Drop)]
pub enum StationAct {
    /// That this grant is appended to the book.
    Append(Grant),
    /// That this is put for the class of its interaction.
    Answer(ToClass),
    /// That this is put for another station.
    Share(StationId, ToStation),
}

/// What the actor of a station hears of its act.
#[derive(Drop)]
pub enum StationAnswer {
    /// The grant stands in the book, or can't be next there.
    Appended(Option<Entry>),
    /// The answer is put, or lost.
    Answered(Posted),
    /// What was put for another station, or comes back where there was no memory for it.
    Shared(Option<ToStation>),
}

/// What a station waits for that decided on a request.
#[derive(Drop)]
pub(crate) enum Deciding<T> {
    /// That its grant is appended, of the request with this number, with this serial.
    Appending(Unsettled<T>, u64, u64),
    /// That its answer is put.
    Answering(Settled<T>),
}

/// What a station wants that decided on a request: that its grant is appended, or that its refusal
/// is put; and what it waits for.
pub(crate) fn on_decided<T>(
    request: Request,
    decided: Decided<T>,
) -> (Step<StationAct>, Deciding<T>)
    ensures step { result.0 ≡ on_decided request decided }
    ensures deciding { result.1 ≡ deciding_on request decided }
{
    match decided {
        Decided::Granted(unsettled, serial) => {
            let deciding = Deciding::Appending(unsettled, request.request, serial);
            let grant = Grant {
                inter: request.inter,
                wants: request.wants,
            };
            (Step::Act(StationAct::Append(grant)), deciding)
        }
        Decided::Refused(settled, comp, used) => {
            let reply = Reply::Refused {
                class: request.class,
                request: request.request,
                inter: request.inter,
                comp,
                used,
            };
            let answer = ToClass::Refused(reply);
            (
                Step::Act(StationAct::Answer(answer)),
                Deciding::Answering(settled),
            )
        }
    }
}
