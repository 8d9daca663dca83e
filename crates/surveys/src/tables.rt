ghost use Rattle.std.specs.Prelude.{◌≡◌, ℕ, ◌≤◌, length, IfOk};
ghost use Rattle.bitsets.specs.Sets.{has};
ghost use Rattle.expander.specs.Words.{meets};

use bitsets::BitSet;
use graphs::Graph;
use refusals::Place;
use std::alloc::{AllocError, Global};

// For each place of a graph the rows that it meets, one bit a row, and the degree.
#[derive(Drop)]
pub struct RowTable {
    pub(crate) rows: Vec<BitSet>,
    pub(crate) degree: usize,
    ghost few: { length rows.items ≤ 512 },
    ghost low: { degree ≤ 16 },
}

// The rows that `place` meets.
fn rows_met_by<G: Graph>(graph: &G, place: Place) -> BitSet
    ensures { (j : ℕ) → has result j ≡ meets (G.model graph.now) j place.0 }
{
    let mut rows = BitSet::empty();
    for k in 0..graph.degree() {
        if let Some(edge) = graph.edge(place, k) {
            rows.insert(usize::from(edge.row.0));
        }
    }
    rows
}

impl RowTable {
    ghost use Rattle.surveys.specs.Tables.{TableOf};

    // The table of `graph`.
    pub fn of<G: Graph>(alloc: Global, graph: &G) -> Result<RowTable, AllocError>
        ensures { IfOk result (TableOf (G.model graph.now)) }
    {
        let rows = (0..graph.places())
            .map(|i| rows_met_by(graph, Place(i as u16)))
            .collect(alloc)?;
        Ok(RowTable {
            rows,
            degree: graph.degree(),
        })
    }
}
