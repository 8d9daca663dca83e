ghost use Rattle.std.specs.Prelude.{◌≡◌, ◌<◌, ◌≤◌, ℕ, IfOk, not, length, replicate, nat_lt, slice_get, slice_index_or, slice_set};
ghost use Rattle.std.specs.List.{count_by};
ghost use Rattle.expander.specs.Words.{is_zero, symbols, coefficient, open_row_count, WeightsFit};
ghost use Rattle.expander.specs.Accounts.{zeros};
ghost use Rattle.words.specs.Tables.{Summed};

use crate::edges::EdgeTable;
use fields::Field;
use graphs::Graph;
use refusals::Place;
use std::alloc::{AllocError, Global};

// A word over a graph: a symbol for each place, and the sum of each row.
#[derive(Drop)]
pub struct Word<F: Field + Drop, G: Graph + Drop> {
    pub(crate) table: EdgeTable<F, G>,
    pub(crate) symbols: Vec<F>,
    pub(crate) sums: Vec<F>,
    ghost summed: { Summed F.field (G.model table.graph) symbols.items sums.items },
}

impl<F: Field + Drop, G: Graph + Drop> Word<F, G> {
    // The word of zeros.
    #[tactic(auto, using(crate::proofs::Summings::summed_zeros))]
    pub fn zeros(alloc: Global, table: EdgeTable<F, G>) -> Result<Word<F, G>, AllocError>
        ensures table { IfOk result (λ w. w.table ≡ table) }
        ensures symbols { IfOk result (λ w. w.symbols.items ≡ zeros F.field (G.model w.table.graph)) }
    {
        let symbols = zero_list(alloc, table.graph.places())?;
        let sums = zero_list(alloc, table.graph.rows())?;
        Ok(Word {
            table,
            symbols,
            sums,
        })
    }

    // The symbol of a place; none past the last.
    pub fn symbol(&self, place: Place) -> Option<F>
        ensures { result ≡ slice_get self.now.symbols.items place.0 }
    {
        self.symbols.get(usize::from(place.0)).copied()
    }

    // The number of open rows.
    #[tactic(auto, using(crate::proofs::Summings::open_by_sums))]
    pub fn open_rows(&self) -> usize
        ensures { WeightsFit F.field (G.model self.now.table.graph) → result ≡ open_row_count F.field (G.model self.now.table.graph) (symbols F.field self.now.symbols.items) }
    {
        count_nonzero(&self.sums)
    }

    // Puts a symbol at a place, and keeps the sums of the rows that the place meets. A place past the last changes nothing, and the
    // answer is no.
    #[tactic(auto, using(crate::proofs::Summings::place_of, crate::proofs::Summings::set_none))]
    pub fn put(&mut self, place: Place, symbol: F) -> bool
        ensures told { result ≡ nat_lt place.0 (G.model self.old.table.graph).places }
        ensures table { self.new.table ≡ self.old.table }
        ensures past { (G.model self.old.table.graph).places ≤ place.0 → self.new ≡ self.old }
        ensures symbols { self.new.symbols.items ≡ slice_set self.old.symbols.items place.0 symbol }
    {
        let i = usize::from(place.0);
        let Some(old) = self.symbol(place) else {
            return false;
        };
        let change = old.negated().plus(symbol);
        self.symbols[i] = symbol;
        add_to_rows(&self.table, &mut self.sums, i, change);
        true
    }
}

// Zeros, `len` of them. By a closure of each index, since a clone of an element of any field need not be that element.
fn zero_list<F: Field>(alloc: Global, len: usize) -> Result<Vec<F>, AllocError>
    ensures { IfOk result (λ v. v.items ≡ replicate len (F.field.element 0)) }
{
    (0..len).map(|_| F::zero()).collect(alloc)
}

// The number of elements that are not zero.
fn count_nonzero<F: Field>(elements: &[F]) -> usize
    ensures { result ≡ count_by (λ x. not (is_zero F.field x)) elements.now }
{
    elements.iter().filter(|x| x.code() != 0).count()
}

// Adds a change, by the weight of each edge of a place, to the sum of the row that the edge leads to.
#[tactic(auto, using(crate::proofs::Additions::added_all))]
fn add_to_rows<F: Field + Drop, G: Graph + Drop>(
    table: &EdgeTable<F, G>,
    sums: &mut [F],
    place: usize,
    change: F,
)
    requires place { place < (G.model table.now.graph).places }
    requires rows { length sums.old ≡ (G.model table.now.graph).rows }
    ensures rows { length sums.new ≡ (G.model table.now.graph).rows }
    ensures sums { WeightsFit F.field (G.model table.now.graph) → (j : ℕ) (d : F) → j < (G.model table.now.graph).rows → slice_index_or sums.new j d ≡ F.field.plus (slice_index_or sums.old j d) (F.field.times (coefficient F.field (G.model table.now.graph) j place) change) }
{
    for k in 0..table.graph.degree() {
        let link = table.link(place, k);
        sums[link.row] = sums[link.row].plus(link.weight.times(change));
    }
}
