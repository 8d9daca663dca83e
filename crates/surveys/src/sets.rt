ghost use Rattle.std.specs.Prelude.{◌≡◌, ◌≤◌, length};

use refusals::Place;

// A set of at most eight places, ascending: the first `count` of the eight.
#[derive(Clone, Copy, Debug, PartialEq, Eq)]
pub struct PlaceSet {
    pub(crate) places: [Place; 8],
    pub(crate) count: usize,
    ghost eight: { length places ≡ 8 },
    ghost few: { count ≤ 8 },
}

impl PlaceSet {
    ghost use Rattle.std.specs.Prelude.{◌+◌, ◌<◌, [], ◌∷◌, ◌++◌, map, slice_get};
    ghost use Rattle.std.specs.Option.{option_map};
    ghost use Rattle.surveys.specs.Members.{members};

    pub fn empty() -> PlaceSet
        ensures { members result ≡ [] }
    {
        PlaceSet {
            places: [Place(0); 8],
            count: 0,
        }
    }

    // The members in ascending order.
    pub fn as_slice(&self) -> &[Place]
        ensures { map (λ p. p.0) result.now ≡ members self.now }
    {
        &self.places[..self.count]
    }

    // The number of members.
    pub fn len(&self) -> usize
        ensures { result ≡ length (members self.now) }
    {
        self.as_slice().len()
    }

    // Member k in ascending order, from 0 on.
    pub fn get(&self, k: usize) -> Option<Place>
        ensures { option_map (λ p. p.0) result ≡ slice_get (members self.now) k }
    {
        self.as_slice().get(k).copied()
    }

    // The set with one more member, above the others.
    pub(crate) fn with(self, place: Place) -> PlaceSet
        requires { self.count < 8 }
        ensures count { result.count ≡ self.count + 1 }
        ensures added { members result ≡ members self ++ place.0 ∷ [] }
    {
        let mut places = self.places;
        places[self.count] = place;
        PlaceSet {
            places,
            count: self.count + 1,
        }
    }
}
