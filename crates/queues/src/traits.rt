ghost use Rattle.std.specs.Prelude.{◌≡◌, ℕ, List, replicate, MatchBool, slice_set};
ghost use Rattle.queues.specs.Ranks.{Ranked, Picks, may_begin, may_set};

use refusals::Place;

// A rank from 0 to 16 for each of a number of places. The rules have a call answered no, which then changes nothing: a `bool`
// says all of that, and there is no error to name. Which place with a rank above 0 is picked is left open.
pub trait Queue {
    ghost ranks: { Self → List ℕ };

    ghost ranked: { (q : Self) → Ranked (ranks q) };

    // Begins anew with this number of places, all of rank 0.
    fn begin(&mut self, places: usize) -> bool
        ensures answer { result ≡ may_begin places }
        ensures effect { MatchBool result (ranks self.new ≡ replicate places 0) (self.new ≡ self.old) };

    // Gives `place` this rank.
    fn set_rank(&mut self, place: Place, rank: u8) -> bool
        ensures answer { result ≡ may_set (ranks self.old) place.0 rank }
        ensures effect { MatchBool result (ranks self.new ≡ slice_set (ranks self.old) place.0 rank) (self.new ≡ self.old) };

    // A place with a rank above 0.
    fn pick(&self) -> Option<Place>
        ensures picks { Picks (ranks self.now) result };
}
