// What a repair says of the word that it leaves: no row is open and the word is within the level; no row is open and it is
// not; a row is open and no place can be changed; or a place could be changed and the budget is used up.
#[derive(Clone, Copy, Debug, PartialEq, Eq)]
pub enum Outcome {
    Sure,
    Closed,
    Stuck,
    Spent,
}

// The answer of a repair: its outcome, the changes of this repair and of the stretch, the rows that are open, and the
// number of places where word and base differ.
#[derive(Clone, Copy, Debug, PartialEq, Eq)]
pub struct Repair {
    pub outcome: Outcome,
    pub changes: u32,
    pub stretch: u32,
    pub open_rows: usize,
    pub distance: usize,
}
