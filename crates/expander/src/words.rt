ghost use Rattle.expander.specs.Votes.{RanksAreFixed};
ghost use Rattle.expander.specs.WordLaws.{OverwritesTouchFewRows, ChangesCloseRows, OpenRowsCountErrors, ErrorsShow};

// At most one element has a majority at a place, and rank and change are the ones that the rows' proposals fix.
pub fn ranks_are_fixed<F>()
    ensures { RanksAreFixed F }
{}

// One place overwritten changes the sums of at most c rows.
pub fn overwrites_touch_few_rows<F>()
    ensures { OverwritesTouchFewRows F }
{}

// A change of a place of rank v lowers the number of open rows by at least 2v − c, and so by at least one.
pub fn changes_close_rows<F>()
    ensures { ChangesCloseRows F }
{}

// The open rows are at most c times the distance to any codeword.
#[tactic(auto, using(crate::proofs::OpenRows::open_rows_count_errors_lem))]
pub fn open_rows_count_errors<F>()
    ensures { OpenRowsCountErrors F }
{}

// Where a word differs from a codeword in 1 to t places and all sets of up to t places expand, some place has a rank above 0,
// and twice the open rows are more than c times the difference.
pub fn errors_show<F>()
    ensures { ErrorsShow F }
{}
