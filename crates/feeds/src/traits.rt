ghost use Rattle.std.specs.Prelude.{◌≡◌, ℕ, List, length};
ghost use Rattle.std.specs.List.{slice_get};

use refusals::Place;

// A word of symbols that is asked for place by place. `codes` are the codes of its places, in order.
pub trait Feed {
    ghost codes: { Self → List ℕ };

    fn len(&self) -> usize
        ensures { result ≡ length (codes self.now) };

    // The code of `place`, or none beyond the length.
    fn code(&self, place: Place) -> Option<u16>
        ensures { result ≡ slice_get (codes self.now) place.0 };
}
