ghost use Rattle.std.specs.Prelude.{◌≡◌};
ghost use Rattle.sets.specs.Places.{member};
ghost use Rattle.policies.specs.Round.{others};

use sets::PlaceSet;

// The places without the held one.
pub(crate) fn without_held(places: PlaceSet, held: Option<u8>) -> PlaceSet
    ensures { member result ≡ others (member places) held }
{
    held.map_or(places, |p| places.without(p))
}
