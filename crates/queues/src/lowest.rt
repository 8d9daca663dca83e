ghost use Rattle.std.specs.Prelude.{◌≡◌, ◌≤◌, [], replicate};
ghost use Rattle.queues.specs.Ranks.{Picks, LowestOrNone, lowest};
ghost use Rattle.queues.specs.Lowest.{ranks_of, ranked_of};

use crate::states::LowestQueue;
use crate::traits::Queue;
use bitsets::BitSet;
use refusals::Place;

impl LowestQueue {
    // No places yet.
    pub fn new() -> LowestQueue
        ensures { ranks_of result ≡ [] }
    {
        LowestQueue::of_zeros(0)
    }

    // This number of places, all of rank 0.
    fn of_zeros(places: usize) -> LowestQueue
        requires { places ≤ 512 }
        ensures { ranks_of result ≡ replicate places 0 }
    {
        LowestQueue {
            ranks: [0; 512],
            places,
            positive: BitSet::empty(),
        }
    }
}

impl Queue for LowestQueue {
    ghost ranks = { ranks_of };

    ghost ranked = { ranked_of };

    fn begin(&mut self, places: usize) -> bool {
        if !(1..=512).contains(&places) {
            return false;
        }
        *self = LowestQueue::of_zeros(places);
        true
    }

    fn set_rank(&mut self, place: Place, rank: u8) -> bool {
        let i = usize::from(place.0);
        if i >= self.places || rank > 16 {
            return false;
        }
        self.ranks[i] = rank;
        if rank > 0 {
            self.positive.insert(i);
        } else {
            self.positive.remove(i);
        }
        true
    }

    // The lowest place with a rank above 0.
    fn pick(&self) -> Option<Place>
        ensures picks { Picks (ranks_of self.now) result }
        ensures value { result ≡ lowest (ranks_of self.now) }
        ensures cases { LowestOrNone (ranks_of self.now) result }
    {
        self.positive.first_from(0).map(|i| Place(i as u16))
    }
}
