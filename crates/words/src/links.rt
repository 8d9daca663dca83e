// An edge of a place: the row that it leads to, and its weight as an element of the field.
#[derive(Clone, Copy)]
pub struct Link<F> {
    pub row: usize,
    pub weight: F,
}
