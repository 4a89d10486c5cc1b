//! Where the transitions of components stand in their lists, so that one is found without a search.
ghost use Rattle.std.specs.Prelude.{◌≡◌, ◌≤◌, length, slice_get, All, IfOk};
ghost use Rattle.std.specs.Option.{option_map};
ghost use Rattle.bip_model.specs.Components.{transition_for};
ghost use Rattle.bip_model.specs.Parts.{IsComponent, IsComponentSoFar};
ghost use Rattle.bip_model.specs.Places.{ArePlaces, ArePlacesOfEach, index_of};
ghost use Rattle.bip_model.specs.declared.parts.TheConstants.{MOST_PORTS};

use crate::{Component, LocId, PortId, Seq, Transition};
use std::alloc::{AllocError, Global};

/// Where the transitions of each component in turn stand.
pub(crate) fn places_of_each(
    alloc: Global,
    components: &[Component],
) -> Result<Seq<Seq<u16>>, AllocError>
    requires { All IsComponent components.now }
    ensures { IfOk result (ArePlacesOfEach components.now) }
{
    let mut lists = Seq::of(Vec::new(alloc));
    for component in components {
        lists.push(Seq::of(component.places(alloc)?))?;
    }
    Ok(lists)
}

impl Component {
    /// For each location in turn, and there for each port, the place of the transition that leaves
    /// the location with the port; where there is none, the number of the transitions.
    fn places(&self, alloc: Global) -> Result<Vec<u16>, AllocError>
        requires { IsComponent self.now }
        ensures { IfOk result (λ places. ArePlaces self.now places.items) }
    {
        let transitions = self.transitions.as_slice();
        let none = transitions.len() as u16;
        let mut places = vec![in alloc; none; self.locations.len() * self.ports.len()]?;
        for (place, transition) in transitions.iter().enumerate() {
            places[self.index_of(transition.source, transition.port)] = place as u16;
        }
        Ok(places)
    }

    fn index_of(&self, location: LocId, port: PortId) -> usize
        requires { length self.now.ports ≤ MOST_PORTS }
        ensures { result ≡ index_of self.now location port }
    {
        location.0 as usize * self.ports.len() + port.0 as usize
    }

    /// The transition with a port from a location, found by the places of the transitions.
    pub(crate) fn transition_for(
        &self,
        places: &[u16],
        location: LocId,
        port: PortId,
    ) -> Option<&Transition>
        requires component { IsComponent self.now }
        requires places { ArePlaces self.now places.now }
        ensures { option_map (λ t. t.now) result ≡ transition_for self.now location port }
    {
        if self.ports.len() <= port.0 as usize {
            return None;
        }
        let place = places.get(self.index_of(location, port))?;
        self.transition_at(*place)
    }

    fn transition_at(&self, place: u16) -> Option<&Transition>
        ensures { option_map (λ t. t.now) result ≡ slice_get self.now.transitions place }
    {
        self.transitions.as_slice().get(place as usize)
    }
}
