// The number of a place: of a position in a word that holds a symbol.
#[derive(Clone, Copy, Debug, PartialEq, Eq)]
pub struct Place(pub u16);

// The number of a row: of a check over some of the places.
#[derive(Clone, Copy, Debug, PartialEq, Eq)]
pub struct Row(pub u16);
