ghost use Rattle.std.specs.Prelude.{◌≡◌, ◌≤◌, IfOk, length};

use super::*;
use bitsets::BitSet;
use graphs::{FileGraph, GraphFile, Shape};
use refusals::{Fault, Layer, Place, Refusal};
use std::alloc::{AllocError, Global};
use std::test::Fail;

// The lift of size 7 with one base row, one column and the shifts 0, 1 and 3.
const SEVEN: [u8; 24] = [
    0, 0, 0, 0, 0, 0, 0, 1, 0, 0, 0, 0, 0, 1, 0, 1, 0, 0, 0, 0, 0, 3, 0, 1,
];

#[test]
fn table_of_the_seven_place_lift(rt: HostRuntime) -> Result<(), Fail> {
    let graph = FileGraph::new(GraphFile::check(&SEVEN, Shape::lift(1, 1, 7, 3))?);
    let table = RowTable::of(rt.alloc(), &graph)?;
    assert_eq!(rt; table.degree, 3);
    assert_eq!(rt; table.rows.len(), 7);
    for (place, rows) in [(0usize, [0usize, 1, 3]), (3, [3, 4, 6]), (6, [6, 0, 2])] {
        if let Some(set) = table.rows.get(place) {
            assert_eq!(rt; set.len(), 3);
            assert!(rt; rows.iter().all(|row| set.contains(*row)));
        }
    }
    Ok(())
}

// Three places and two rows, degree 1: places 0 and 2 meet row 0, place 1 meets row 1.
const THREE: [u8; 18] = [0, 0, 0, 0, 0, 1, 0, 1, 0, 1, 0, 1, 0, 2, 0, 0, 0, 1];

// The survey's level, the number of sets looked at and whether one was found.
fn told(survey: Survey) -> (usize, u32, bool) {
    (survey.level, survey.sets, survey.found)
}

// Two places of the lift share one row, so they meet five. Places 0, 1 and 2 meet the rows 0 to 5, and 4 times 6 is not above
// 3 times 3 times 3.
#[test]
fn survey_of_the_seven_place_lift(rt: HostRuntime) -> Result<(), Fail> {
    let graph = FileGraph::new(GraphFile::check(&SEVEN, Shape::lift(1, 1, 7, 3))?);
    let table = RowTable::of(rt.alloc(), &graph)?;
    assert_eq!(rt; told(table.survey(0)), (0, 0, false));
    assert_eq!(rt; told(table.survey(1)), (1, 7, false));
    assert_eq!(rt; told(table.survey(2)), (2, 28, false));
    let survey = table.survey(5);
    assert_eq!(rt; told(survey), (2, 29, true));
    assert_eq!(rt;
        survey.failing.as_slice(),
        [Place(0), Place(1), Place(2)].as_slice()
    );
    assert_eq!(rt; told(table.survey(8)), (0, 0, false));
    Ok(())
}

// Places 0 and 2 meet one row, and 4 is not above 3 times 2.
#[test]
fn survey_of_three_places(rt: HostRuntime) -> Result<(), Fail> {
    let graph = FileGraph::new(GraphFile::check(&THREE, Shape::listed(3, 2, 1))?);
    let survey = RowTable::of(rt.alloc(), &graph)?.survey(3);
    assert_eq!(rt; told(survey), (1, 5, true));
    assert_eq!(rt; survey.failing.len(), 2);
    assert_eq!(rt; survey.failing.get(0), Some(Place(0)));
    assert_eq!(rt; survey.failing.get(1), Some(Place(2)));
    assert_eq!(rt; survey.failing.get(2), None);
    Ok(())
}

// A table of that many places, none of which meets a row.
fn empty_table(alloc: Global, places: usize) -> Result<RowTable, AllocError>
    requires { places ≤ 512 }
    ensures { IfOk result (λ t. length t.rows.items ≡ places) }
{
    let rows = vec![in alloc; BitSet::empty(); places]?;
    Ok(RowTable { rows, degree: 0 })
}

fn refused(refusal: Refusal) -> Result<(), Fault> {
    Err(Layer::Decoder.fault(refusal, 0))
}

#[test]
fn sizes_over_512_places(rt: HostRuntime) -> Result<(), Fail> {
    let table = empty_table(rt.alloc(), 512)?;
    assert_eq!(rt; table.check_size(0), Ok(()));
    assert_eq!(rt; table.check_size(4), Ok(()));
    assert_eq!(rt; table.check_size(5), refused(Refusal::SurveyTooLong));
    assert_eq!(rt; table.check_size(8), refused(Refusal::SurveyTooLong));
    assert_eq!(rt; table.check_size(9), refused(Refusal::SurveySize));
    assert_eq!(rt; table.check_size(usize::MAX), refused(Refusal::SurveySize));
    Ok(())
}

#[test]
fn sizes_over_few_places(rt: HostRuntime) -> Result<(), Fail> {
    let table = empty_table(rt.alloc(), 6)?;
    assert_eq!(rt; table.check_size(6), Ok(()));
    assert_eq!(rt; table.check_size(7), refused(Refusal::SurveySize));
    let none = empty_table(rt.alloc(), 0)?;
    assert_eq!(rt; none.check_size(0), Ok(()));
    assert_eq!(rt; none.check_size(1), refused(Refusal::SurveySize));
    Ok(())
}
