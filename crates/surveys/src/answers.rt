ghost use Rattle.std.specs.Prelude.{◌≡◌, length, nat_lt};
ghost use Rattle.surveys.specs.Members.{members};

use crate::sets::PlaceSet;

// What a search over some sets tells: how many it looked at, and whether the last of them does not expand, with that set.
// The set stands beside the flag, both by value: a search over every set of a size answers one at each of its turns.
#[derive(Clone, Copy)]
pub(crate) struct Search {
    pub(crate) sets: u32,
    pub(crate) found: bool,
    pub(crate) failing: PlaceSet,
    ghost told: { found ≡ nat_lt 0 (length (members failing)) },
}

// What a survey tells: the level, how many sets it looked at, and whether the last of them does not expand, with that set.
#[derive(Clone, Copy)]
pub struct Survey {
    pub level: usize,
    pub sets: u32,
    pub found: bool,
    pub failing: PlaceSet,
    pub ghost told: { found ≡ nat_lt 0 (length (members failing)) },
}
