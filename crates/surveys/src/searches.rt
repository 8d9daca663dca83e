ghost use Rattle.std.specs.Prelude.{◌≡◌, ◌+◌, ◌-◌, ◌<◌, ◌≤◌, length, IfSome};
ghost use Rattle.firsts.specs.First.{first_where};
ghost use Rattle.graphs.specs.Models.{GraphModel, Valid};
ghost use Rattle.expander.specs.Sets.{choose};
ghost use Rattle.expander.specs.Expansion.{expands, seen};
ghost use Rattle.surveys.specs.Tables.{TableOf};
ghost use Rattle.surveys.specs.Members.{members};
ghost use Rattle.surveys.specs.Answers.{extended, Looked, seen_of, short_at};

use crate::answers::Search;
use crate::sets::PlaceSet;
use crate::tables::RowTable;
use bitsets::BitSet;
use refusals::Place;

// Whether too few rows are members of `joined` or meet the place: four times their number is at most `bound`.
#[tactic(auto, using(bitsets::proofs::Counts::count_le, bitsets::proofs::Counts::count_same))]
fn is_short(table: &RowTable, joined: BitSet, bound: usize, place: usize) -> bool
    requires { place < length table.now.rows.items }
    ensures { result ≡ short_at table.now joined bound place }
{
    4 * joined.join(table.rows[place]).len() <= bound
}

// The first place from `low` on with which too few rows are met.
fn first_short(table: &RowTable, low: usize, joined: BitSet, bound: usize) -> Option<usize>
    ensures within { IfSome result (λ place. (low ≤ place) × (place < length table.now.rows.items)) }
    ensures first { result ≡ first_where (short_at table.now joined bound) low (length table.now.rows.items - low) }
{
    (low..table.rows.len()).find(|&place| is_short(table, joined, bound, place))
}

// The sets of `chosen` and one more place from `low` on, up to the first that does not expand.
fn last(table: &RowTable, low: usize, joined: BitSet, chosen: PlaceSet) -> Search
    requires reached { low ≤ length table.now.rows.items }
    requires room { chosen.count < 8 }
    ensures few { result.sets ≤ length table.now.rows.items - low }
    ensures seen { (g : GraphModel) → Valid g → TableOf g table.now → Looked g (members chosen) joined → seen_of result ≡ seen (expands g) (extended (members chosen) low (length table.now.rows.items - low) 1) }
{
    let bound = 3 * table.degree * (chosen.len() + 1);
    match first_short(table, low, joined, bound) {
        Some(place) => Search {
            sets: (place - low + 1) as u32,
            found: true,
            failing: chosen.with(Place(place as u16)),
        },
        None => Search {
            sets: (table.rows.len() - low) as u32,
            found: false,
            failing: PlaceSet::empty(),
        },
    }
}

// The sets of `chosen` and `more` places from `low` on, up to the first that does not expand.
pub(crate) fn extend(
    table: &RowTable,
    low: usize,
    more: usize,
    joined: BitSet,
    chosen: PlaceSet,
) -> Search
    requires reached { low ≤ length table.now.rows.items }
    requires some { 1 ≤ more }
    requires room { chosen.count + more ≤ 8 }
    requires few { choose (length table.now.rows.items - low) more ≤ 4294967295 }
    ensures few { result.sets ≤ choose (length table.now.rows.items - low) more }
    ensures seen { (g : GraphModel) → Valid g → TableOf g table.now → Looked g (members chosen) joined → seen_of result ≡ seen (expands g) (extended (members chosen) low (length table.now.rows.items - low) more) }
{
    if more == 1 {
        return last(table, low, joined, chosen);
    }
    let mut sets = 0;
    for place in low..table.rows.len() {
        let search = extend(
            table,
            place + 1,
            more - 1,
            joined.join(table.rows[place]),
            chosen.with(Place(place as u16)),
        );
        sets += search.sets;
        if search.found {
            return Search {
                sets,
                found: true,
                failing: search.failing,
            };
        }
    }
    Search {
        sets,
        found: false,
        failing: PlaceSet::empty(),
    }
}
