use super::*;
use fields::{Field, Gf2, Gf101};
use graphs::{FileGraph, GraphFile, Shape};
use refusals::Place;
use std::test::Fail;

// Two places and three rows, degree 2: place 0 meets rows 0 and 1 with the weights 1 and 100, place 1 rows 1 and 2 with 2 and 1.
const TWO: [u8; 24] = [
    0, 0, 0, 0, 0, 1, 0, 0, 0, 1, 0, 100, 0, 1, 0, 1, 0, 2, 0, 1, 0, 2, 0, 1,
];

#[test]
fn table_of_two_places(rt: HostRuntime) -> Result<(), Fail> {
    let graph = FileGraph::new(GraphFile::check(&TWO, Shape::listed(2, 3, 2))?);
    let table: EdgeTable<Gf101, FileGraph> = EdgeTable::of(rt.alloc(), graph)?;
    assert!(rt; table.fits());
    assert_eq!(rt; table.places(), 2);
    assert_eq!(rt; table.rows(), 3);
    assert_eq!(rt; table.degree(), 2);
    let links = [(0usize, 1u16), (1, 100), (1, 2), (2, 1)];
    assert_eq!(rt; table.links.len(), 4);
    for (link, (row, weight)) in table.links.iter().zip(&links) {
        assert_eq!(rt; link.row, *row);
        assert_eq!(rt; link.weight.code(), *weight);
    }
    Ok(())
}

// Over the bits the weights 100 and 2 are no codes, and zero stands for them.
#[test]
fn table_of_weights_that_are_no_codes(rt: HostRuntime) -> Result<(), Fail> {
    let graph = FileGraph::new(GraphFile::check(&TWO, Shape::listed(2, 3, 2))?);
    let table: EdgeTable<Gf2, FileGraph> = EdgeTable::of(rt.alloc(), graph)?;
    assert!(rt; !table.fits());
    let codes = [1u16, 0, 0, 1];
    assert_eq!(rt; table.links.len(), 4);
    for (link, code) in table.links.iter().zip(&codes) {
        assert_eq!(rt; link.weight.code(), *code);
    }
    Ok(())
}

// The lift of size 7 with one base row, one column and the shifts 0, 1 and 3.
const SEVEN: [u8; 24] = [
    0, 0, 0, 0, 0, 0, 0, 1, 0, 0, 0, 0, 0, 1, 0, 1, 0, 0, 0, 0, 0, 3, 0, 1,
];

#[test]
fn neighbours_of_the_seven_place_lift(rt: HostRuntime) -> Result<(), Fail> {
    let graph = FileGraph::new(GraphFile::check(&SEVEN, Shape::lift(1, 1, 7, 3))?);
    let neighbours = Neighbours::of(rt.alloc(), &graph)?;
    let table: EdgeTable<Gf2, FileGraph> = EdgeTable::of(rt.alloc(), graph)?;
    assert_eq!(rt; neighbours.places.len(), 7);
    for (row, places) in [(0usize, [0usize, 4, 6]), (3, [0, 2, 3]), (6, [3, 5, 6])] {
        if let Some(set) = neighbours.places.get(row) {
            assert_eq!(rt; set.len(), 3);
            assert!(rt; places.iter().all(|place| set.contains(*place)));
        }
    }
    // Any two places share a row.
    assert_eq!(rt; neighbours.near(&table, Place(0)).len(), 7);
    assert_eq!(rt; neighbours.near(&table, Place(6)).len(), 7);
    assert_eq!(rt; neighbours.near(&table, Place(7)).len(), 0);
    Ok(())
}

// Three places and two rows, degree 1: places 0 and 2 meet row 0, place 1 meets row 1.
const THREE: [u8; 18] = [0, 0, 0, 0, 0, 1, 0, 1, 0, 1, 0, 1, 0, 2, 0, 0, 0, 1];

#[test]
fn neighbours_of_three_places(rt: HostRuntime) -> Result<(), Fail> {
    let graph = FileGraph::new(GraphFile::check(&THREE, Shape::listed(3, 2, 1))?);
    let neighbours = Neighbours::of(rt.alloc(), &graph)?;
    let table: EdgeTable<Gf2, FileGraph> = EdgeTable::of(rt.alloc(), graph)?;
    let near = [
        [true, false, true],
        [false, true, false],
        [true, false, true],
    ];
    for (place, places) in (0u16..3).zip(&near) {
        let set = neighbours.near(&table, Place(place));
        assert_eq!(rt;
            [set.contains(0), set.contains(1), set.contains(2)],
            *places
        );
    }
    Ok(())
}

// The lift of size 7 over the bits: 0111010 has no open row, and with place 3 taken away three rows are open and propose it.
#[test]
fn votes_of_a_word_over_the_bits(rt: HostRuntime) -> Result<(), Fail> {
    let graph = FileGraph::new(GraphFile::check(&SEVEN, Shape::lift(1, 1, 7, 3))?);
    let table: EdgeTable<Gf2, FileGraph> = EdgeTable::of(rt.alloc(), graph)?;
    let mut word = Word::zeros(rt.alloc(), table)?;
    let one = Gf2::from_code(1).unwrap_or(Gf2::zero());
    for place in [1u16, 2, 3, 5] {
        assert!(rt; word.put(Place(place), one));
    }
    assert_eq!(rt; word.open_rows(), 0);
    assert!(rt; word.put(Place(3), Gf2::zero()));
    assert!(rt; !word.put(Place(7), one));
    assert_eq!(rt; word.open_rows(), 3);
    for place in 0..8 {
        let rank = word.vote(Place(place)).map(|vote| vote.rank);
        assert_eq!(rt; rank, if place == 3 { Some(3) } else { None });
    }
    Ok(())
}
