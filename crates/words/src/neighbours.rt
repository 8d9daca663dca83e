ghost use Rattle.std.specs.Prelude.{◌≡◌, ℕ, ◌≤◌, length, IfOk};
ghost use Rattle.bitsets.specs.Sets.{has};
ghost use Rattle.expander.specs.Words.{meets};

use crate::edges::EdgeTable;
use bitsets::BitSet;
use fields::Field;
use graphs::Graph;
use refusals::{Place, Row};
use std::alloc::{AllocError, Global};

// For each row of a graph the places that meet it, one bit a place.
#[derive(Drop)]
pub struct Neighbours {
    pub(crate) places: Vec<BitSet>,
    ghost few: { length places.items ≤ 512 },
}

// The places that `row` meets.
fn places_met_by<G: Graph>(graph: &G, row: Row) -> BitSet
    ensures { (i : ℕ) → has result i ≡ meets (G.model graph.now) row.0 i }
{
    let mut places = BitSet::empty();
    for i in 0..graph.places() {
        if graph.weight_between(row, Place(i as u16)).is_some() {
            places.insert(i);
        }
    }
    places
}

impl Neighbours {
    ghost use Rattle.words.specs.Neighbours.{shares_row, NeighboursOf};

    // The places by the rows of `graph`.
    pub fn of<G: Graph>(alloc: Global, graph: &G) -> Result<Neighbours, AllocError>
        ensures { IfOk result (NeighboursOf (G.model graph.now)) }
    {
        let places = (0..graph.rows())
            .map(|j| places_met_by(graph, Row(j as u16)))
            .collect(alloc)?;
        Ok(Neighbours { places })
    }

    // The places that share a row with `place`: none for a place past the last.
    pub fn near<F: Field + Drop, G: Graph + Drop>(
        &self,
        table: &EdgeTable<F, G>,
        place: Place,
    ) -> BitSet
        ensures { NeighboursOf (G.model table.now.graph) self.now → (i : ℕ) → has result i ≡ shares_row (G.model table.now.graph) place.0 i }
    {
        let place = usize::from(place.0);
        let mut near = BitSet::empty();
        if place >= table.places() {
            return near;
        }
        for k in 0..table.degree() {
            if let Some(places) = self.places.get(table.link(place, k).row) {
                near = near.join(*places);
            }
        }
        near
    }
}
