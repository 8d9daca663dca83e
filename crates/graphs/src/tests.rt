use super::*;
use refusals::{Fault, Layer, Place, Refusal, Row};
use std::test::Fail;

// Two places and three rows, degree 2: place 0 meets rows 0 and 1, place 1 rows 1 and 2.
const TWO: [u8; 24] = [
    0, 0, 0, 0, 0, 1, 0, 0, 0, 1, 0, 1, 0, 1, 0, 1, 0, 1, 0, 1, 0, 2, 0, 1,
];

// The lift of size 7 with one base row, one column and the shifts 0, 1 and 3.
const SEVEN: [u8; 24] = [
    0, 0, 0, 0, 0, 0, 0, 1, 0, 0, 0, 0, 0, 1, 0, 1, 0, 0, 0, 0, 0, 3, 0, 1,
];

fn shelf(refusal: Refusal, position: usize) -> Option<Fault> {
    Some(Fault {
        refusal,
        layer: Layer::Shelf,
        position,
    })
}

fn fault(bytes: &[u8], shape: Shape) -> Option<Fault> {
    GraphFile::check(bytes, shape).err()
}

fn listed_fault(bytes: &[u8], places: usize, rows: usize, degree: usize) -> Option<Fault> {
    fault(bytes, Shape::listed(places, rows, degree))
}

fn lift_fault(
    bytes: &[u8],
    bases: usize,
    columns: usize,
    size: usize,
    degree: usize,
) -> Option<Fault> {
    fault(bytes, Shape::lift(bases, columns, size, degree))
}

// One byte of a file replaced, and the fault that is then found.
#[test]
fn damaged_listed_files(rt: HostRuntime) {
    let damages = [
        (1usize, 1u8, Refusal::RecordOrder, 0usize),
        (7, 1, Refusal::RecordOrder, 1),
        (9, 0, Refusal::RecordOrder, 1),
        (12, 1, Refusal::RecordOrder, 2),
        (21, 1, Refusal::RecordOrder, 3),
        (9, 3, Refusal::RowOutOfRange, 1),
        (20, 1, Refusal::RowOutOfRange, 3),
        (5, 0, Refusal::ZeroWeight, 0),
        (23, 0, Refusal::ZeroWeight, 3),
    ];
    for (at, byte, refusal, position) in damages {
        let mut bytes = TWO;
        bytes[at] = byte;
        assert_eq!(rt; listed_fault(&bytes, 2, 3, 2), shelf(refusal, position));
    }
    assert_eq!(rt; listed_fault(&TWO, 2, 3, 2), None);
}

#[test]
fn damaged_lifts(rt: HostRuntime) {
    let damages = [
        (9usize, 1u8, Refusal::RecordOrder, 1usize),
        (13, 0, Refusal::RecordOrder, 1),
        (11, 1, Refusal::RowOutOfRange, 1),
        (21, 7, Refusal::RowOutOfRange, 2),
        (15, 0, Refusal::ZeroWeight, 1),
    ];
    for (at, byte, refusal, position) in damages {
        let mut bytes = SEVEN;
        bytes[at] = byte;
        assert_eq!(rt; lift_fault(&bytes, 1, 1, 7, 3), shelf(refusal, position));
    }
    assert_eq!(rt; lift_fault(&SEVEN, 1, 1, 7, 3), None);
}

#[test]
fn sizes_and_lengths(rt: HostRuntime) {
    for (n, m, c) in [
        (0usize, 3usize, 2usize),
        (513, 3, 2),
        (2, 0, 2),
        (2, 513, 2),
        (2, 3, 0),
        (2, 512, 17),
        (2, 3, 4),
    ] {
        assert_eq!(rt;
            listed_fault(&TWO, n, m, c),
            shelf(Refusal::SizeOutOfRange, 0)
        );
    }
    for size in [0usize, 513, usize::MAX] {
        assert_eq!(rt;
            lift_fault(&SEVEN, 1, 1, size, 3),
            shelf(Refusal::SizeOutOfRange, 0)
        );
    }
    assert_eq!(rt;
        listed_fault(&TWO[0..23], 2, 3, 2),
        shelf(Refusal::FileLength, 0)
    );
    assert_eq!(rt; listed_fault(&TWO, 1, 3, 2), shelf(Refusal::FileLength, 0));
    assert_eq!(rt;
        lift_fault(&SEVEN[0..16], 1, 1, 7, 3),
        shelf(Refusal::FileLength, 0)
    );
}

#[test]
fn edges_of_the_seven_place_lift(rt: HostRuntime) -> Result<(), Fail> {
    let graph = FileGraph::new(GraphFile::check(&SEVEN, Shape::lift(1, 1, 7, 3))?);
    for (k, row) in [(0usize, 6u16), (1, 0), (2, 2)] {
        let edge = graph.edge(Place(6), k);
        assert_eq!(rt;
            edge,
            Some(Edge {
                row: Row(row),
                weight: 1,
            })
        );
    }
    assert_eq!(rt; graph.edge(Place(6), 3), None);
    assert_eq!(rt; graph.edge(Place(7), 0), None);
    for (from, place) in [(0u16, 0u16), (1, 4), (4, 4), (5, 6), (6, 6)] {
        let meeting = graph.next_place(Row(0), Place(from));
        assert_eq!(rt;
            meeting,
            Some(Meeting {
                place: Place(place),
                weight: 1,
            })
        );
    }
    assert_eq!(rt; graph.next_place(Row(0), Place(7)), None);
    assert_eq!(rt; graph.next_place(Row(7), Place(0)), None);
    Ok(())
}
