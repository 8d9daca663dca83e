#![tactic(auto)]

// The mathematics of the sequential repair: words over a graph, votes, sets that expand, and the account of a list of calls,
// with the theorems about them. Each function carries one theorem in its contract and does nothing. Its proof is named in an
// attribute where the tactics find it so; where they open the statement first and lose the way, it is cited in `proofs/`.
pub mod accounts;
pub mod outcomes;
pub mod sets;
pub mod words;

pub use accounts::{
    calls_keep_the_law, examples_compute, lowest_runs_are_functions, one_codeword_is_near,
    refusals_leave_the_account, repairs_have_one_result, runs_keep_the_promise,
};
pub use outcomes::{Outcome, Repair};
pub use sets::{sets_stand_in_order, surveys_tell_the_level, unique_rows_abound};
pub use words::{
    changes_close_rows, errors_show, open_rows_count_errors, overwrites_touch_few_rows,
    ranks_are_fixed,
};
