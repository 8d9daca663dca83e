ghost use Rattle.std.specs.Prelude.{◌≡◌, ◌<◌, ltb, IfOk};
ghost use Rattle.expander.specs.Words.{WeightsFit};
ghost use Rattle.expander.specs.Accounts.{weights_fit};
ghost use Rattle.words.specs.Tables.{Linked};
ghost use Rattle.words.specs.EdgeLinks.{link_at};

use crate::links::Link;
use fields::Field;
use graphs::Graph;
use refusals::Place;
use std::alloc::{AllocError, Global};

// A graph with its edges over a field, one place after another: edge k of place i is link i × degree + k. It knows whether every
// weight is a code of the field.
#[derive(Drop)]
pub struct EdgeTable<F: Field + Drop, G: Graph + Drop> {
    pub(crate) graph: G,
    pub(crate) links: Vec<Link<F>>,
    pub(crate) fits: bool,
    ghost linked: { Linked F.field (G.model graph) links.items },
    ghost fitting: { fits ≡ weights_fit F.field (G.model graph) },
}

// Edge `k` of `place` as a link. Where the weight is no code of the field, zero stands for it.
fn link_of<F: Field, G: Graph>(graph: &G, place: Place, k: usize) -> Link<F>
    ensures { result ≡ link_at F.field (G.model graph.now) place.0 k }
{
    match graph.edge(place, k) {
        Some(edge) => Link {
            row: usize::from(edge.row.0),
            weight: F::from_code(edge.weight).unwrap_or(F::zero()),
        },
        None => Link {
            row: 0,
            weight: F::zero(),
        },
    }
}

// The edges of all places, one place after another.
fn links_of<F: Field, G: Graph>(alloc: Global, graph: &G) -> Result<Vec<Link<F>>, AllocError>
    ensures { IfOk result (λ links. Linked F.field (G.model graph.now) links.items) }
{
    let degree = graph.degree();
    (0..graph.places() * degree)
        .map(|at| link_of(graph, Place((at / degree) as u16), at % degree))
        .collect(alloc)
}

// Whether the weight of edge `k` of `place` is a code of the field.
fn weight_fits<F: Field, G: Graph>(graph: &G, place: Place, k: usize) -> bool
    requires place { place.0 < (G.model graph.now).places }
    requires edge { k < (G.model graph.now).degree }
    ensures { result ≡ ltb ((G.model graph.now).weight place.0 k) F.field.size }
{
    graph
        .edge(place, k)
        .is_some_and(|edge| edge.weight < F::size())
}

// Whether every weight of the graph is a code of the field.
fn all_fit<F: Field, G: Graph>(graph: &G) -> bool
    ensures { result ≡ weights_fit F.field (G.model graph.now) }
{
    let degree = graph.degree();
    let fits = |at| weight_fits::<F, G>(graph, Place((at / degree) as u16), at % degree);
    (0..graph.places() * degree).all(fits)
}

impl<F: Field + Drop, G: Graph + Drop> EdgeTable<F, G> {
    // The edges of `graph` over the field.
    pub fn of(alloc: Global, graph: G) -> Result<EdgeTable<F, G>, AllocError>
        ensures { IfOk result (λ t. t.graph ≡ graph) }
    {
        let links = links_of(alloc, &graph)?;
        let fits = all_fit::<F, G>(&graph);
        Ok(EdgeTable { graph, links, fits })
    }

    // The number of places.
    pub fn places(&self) -> usize
        ensures { result ≡ (G.model self.now.graph).places }
    {
        self.graph.places()
    }

    // The number of rows.
    pub fn rows(&self) -> usize
        ensures { result ≡ (G.model self.now.graph).rows }
    {
        self.graph.rows()
    }

    // The number of edges of each place.
    pub fn degree(&self) -> usize
        ensures { result ≡ (G.model self.now.graph).degree }
    {
        self.graph.degree()
    }

    // Whether every weight of the graph is a code of the field.
    pub fn fits(&self) -> bool
        ensures { result ≡ weights_fit F.field (G.model self.now.graph) }
    {
        self.fits
    }

    // Edge `k` of `place`.
    pub(crate) fn link(&self, place: usize, k: usize) -> Link<F>
        requires place { place < (G.model self.now.graph).places }
        requires edge { k < (G.model self.now.graph).degree }
        ensures row { result.row ≡ (G.model self.now.graph).row place k }
        ensures weight { WeightsFit F.field (G.model self.now.graph) → result.weight ≡ F.field.element ((G.model self.now.graph).weight place k) }
    {
        self.links[place * self.degree() + k]
    }
}
