ghost use Rattle.std.specs.Prelude.{◌≡◌};
ghost use Rattle.graphs.specs.Models.{GraphModel, Valid, edge_at, weight_between, next_meeting, NearestOrNone};

use refusals::{Place, Row};

// An edge as its place has it: the row that it leads to, and its weight.
#[derive(Clone, Copy, Debug, PartialEq, Eq)]
pub struct Edge {
    pub row: Row,
    pub weight: u16,
}

// An edge as its row has it: the place that it comes from, and its weight. It has a type of its own, as places and rows have, so
// that neither end is taken for the other.
#[derive(Clone, Copy, Debug, PartialEq, Eq)]
pub struct Meeting {
    pub place: Place,
    pub weight: u16,
}

// Places that hold symbols, rows that check them, and weighted edges between the two.
pub trait Graph {
    ghost model: { Self → GraphModel };

    ghost valid: { (g : Self) → Valid (model g) };

    fn places(&self) -> usize
        ensures { result ≡ (model self.now).places };

    fn rows(&self) -> usize
        ensures { result ≡ (model self.now).rows };

    fn degree(&self) -> usize
        ensures { result ≡ (model self.now).degree };

    // Edge `k` of `place`.
    fn edge(&self, place: Place, k: usize) -> Option<Edge>
        ensures { result ≡ edge_at (model self.now) place.0 k };

    // The weight of the edge between `row` and `place`.
    fn weight_between(&self, row: Row, place: Place) -> Option<u16>
        ensures { result ≡ weight_between (model self.now) row.0 place.0 }
    {
        (0..self.degree()).find_map(|k| {
            let edge = self.edge(place, k)?;
            (edge.row == row).then_some(edge.weight)
        })
    }

    // The first place at or after `from` that `row` meets.
    fn next_place(&self, row: Row, from: Place) -> Option<Meeting>
        ensures value { result ≡ next_meeting (model self.now) row.0 from.0 }
        ensures nearest { NearestOrNone (model self.now) row.0 from.0 result }
    {
        (usize::from(from.0)..self.places()).find_map(|i| {
            let place = Place(i as u16);
            let weight = self.weight_between(row, place)?;
            Some(Meeting { place, weight })
        })
    }
}
