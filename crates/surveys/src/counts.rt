ghost use Rattle.std.specs.Prelude.{◌≡◌, ℕ, ◌+◌, ◌≤◌, nat_lt};
ghost use Rattle.expander.specs.Sets.{number_of_sets};
ghost use Rattle.surveys.specs.PascalRows.{PascalRow};

use std::array;

// Whether there are more than 4,294,967,295 sets of at least one and at most `size` of the places.
pub(crate) fn too_many(places: usize, size: usize) -> bool
    requires { size ≤ 8 }
    ensures { result ≡ nat_lt 4294967295 (number_of_sets places size) }
{
    let row = pascal_row(places);
    let mut sets: u64 = 0;
    for count in &row[1..size + 1] {
        sets = sets.saturating_add(*count);
    }
    sets > u64::from(u32::MAX)
}

// Pascal's triangle has a row for each number of places: how many sets there are of 0, 1, .. 8 of them. Sums stop at the
// largest number of 64 bits.
fn pascal_row(places: usize) -> [u64; 9]
    ensures { PascalRow places result }
{
    (0..places).fold([1, 0, 0, 0, 0, 0, 0, 0, 0], next_row)
}

// The row of one more place: the sets of k are those without that place, and those with it and k - 1 of the others. A step
// of a fold is passed by its name, since a closure of it would promise nothing of arrays.
fn next_row(row: [u64; 9], _place: usize) -> [u64; 9]
    ensures { (n : ℕ) → PascalRow n row → PascalRow (n + 1) result }
{
    array::from_fn(|k| {
        if k == 0 {
            1
        } else {
            row[k - 1].saturating_add(row[k])
        }
    })
}
