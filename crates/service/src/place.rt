//! Terminals by their places in a network.
ghost use Rattle.std.specs.Prelude.{◌≡◌};
ghost use Rattle.service.specs.Places.{is_bound, is_place};

/// The place of a terminal: the number of its PAD in the network, and its own number there.
#[derive(Clone, Copy)]
pub(crate) struct Place {
    pub(crate) node: usize,
    pub(crate) number: u16,
}

/// Whether a place is among these.
pub(crate) fn is_bound(place: Place, places: &[Place]) -> bool
    ensures { result ≡ is_bound place places.now }
{
    places.iter().any(|other| is_place(place, *other))
}

/// Whether two places are the same.
fn is_place(place: Place, other: Place) -> bool
    ensures { result ≡ is_place place other }
{
    other.node == place.node && other.number == place.number
}
