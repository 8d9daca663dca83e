ghost use Rattle.std.specs.Prelude.{◌≡◌, ◌<◌, ◌≤◌, MatchOption, IfSome, None};
ghost use Rattle.bitsets.specs.Bits.{count};
ghost use Rattle.expander.specs.Words.{symbols, WeightsFit};
ghost use Rattle.expander.specs.Votes.{offers, rank, change};
ghost use Rattle.words.specs.Offers.{offer, vote_of};

use crate::words::Word;
use fields::Field;
use graphs::Graph;
use refusals::Place;

// What a majority of the rows of a place propose to add to its symbol, and how many of them do.
#[derive(Clone, Copy)]
pub struct Vote<F> {
    pub rank: u8,
    pub change: F,
}

impl<F: Field + Drop, G: Graph + Drop> Word<F, G> {
    // The rank and the change of `place`: none where no element has a majority, or the place is past the last.
    pub fn vote(&self, place: Place) -> Option<Vote<F>>
        ensures past { (G.model self.now.table.graph).places ≤ place.0 → result ≡ None }
        ensures rank { WeightsFit F.field (G.model self.now.table.graph) → place.0 < (G.model self.now.table.graph).places → MatchOption result (rank F.field (G.model self.now.table.graph) (symbols F.field self.now.symbols.items) place.0 ≡ 0) (λ v. v.rank ≡ rank F.field (G.model self.now.table.graph) (symbols F.field self.now.symbols.items) place.0) }
        ensures change { WeightsFit F.field (G.model self.now.table.graph) → IfSome result (λ v. v.change ≡ change F.field (G.model self.now.table.graph) (symbols F.field self.now.symbols.items) place.0) }
        ensures above { IfSome result (λ v. 0 < v.rank) }
    {
        let place = usize::from(place.0);
        if place >= self.table.graph.places() {
            return None;
        }
        (0..self.table.graph.degree()).find_map(|k| self.majority_at(place, k))
    }

    // What edge `k` of `place` proposes, with its votes, if more than half of the place's edges propose it.
    fn majority_at(&self, place: usize, k: usize) -> Option<Vote<F>>
        requires place { place < (G.model self.now.table.graph).places }
        requires edge { k < (G.model self.now.table.graph).degree }
        ensures value { WeightsFit F.field (G.model self.now.table.graph) → result ≡ vote_of F.field (G.model self.now.table.graph) (symbols F.field self.now.symbols.items) place k }
        ensures above { IfSome result (λ v. 0 < v.rank) }
    {
        let change = self.proposal(place, k)?;
        let votes = self.votes(place, change);
        (2 * votes > self.table.graph.degree()).then_some(Vote {
            rank: votes as u8,
            change,
        })
    }

    // How many edges of `place` propose this change.
    fn votes(&self, place: usize, change: F) -> usize
        requires place { place < (G.model self.now.table.graph).places }
        ensures value { WeightsFit F.field (G.model self.now.table.graph) → result ≡ count (G.model self.now.table.graph).degree (offers F.field (G.model self.now.table.graph) (symbols F.field self.now.symbols.items) place change) }
        ensures low { result ≤ (G.model self.now.table.graph).degree }
    {
        (0..self.table.graph.degree())
            .filter(|k| self.proposes(place, *k, change))
            .count()
    }

    // Whether edge `k` of `place` proposes this change.
    fn proposes(&self, place: usize, k: usize, change: F) -> bool
        requires place { place < (G.model self.now.table.graph).places }
        requires edge { k < (G.model self.now.table.graph).degree }
        ensures { WeightsFit F.field (G.model self.now.table.graph) → result ≡ offers F.field (G.model self.now.table.graph) (symbols F.field self.now.symbols.items) place change k }
    {
        self.proposal(place, k)
            .is_some_and(|proposed| proposed.code() == change.code())
    }

    // What the row at the end of edge `k` proposes to `place`, if it is open.
    fn proposal(&self, place: usize, k: usize) -> Option<F>
        requires place { place < (G.model self.now.table.graph).places }
        requires edge { k < (G.model self.now.table.graph).degree }
        ensures { WeightsFit F.field (G.model self.now.table.graph) → result ≡ offer F.field (G.model self.now.table.graph) (symbols F.field self.now.symbols.items) place k }
    {
        let link = self.table.link(place, k);
        let sum = self.sums[link.row];
        (sum.code() != 0).then_some(sum.negated().times(link.weight.inverse()))
    }
}
