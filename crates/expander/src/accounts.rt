ghost use Rattle.expander.specs.Examples.{Examples};
ghost use Rattle.expander.specs.Promises.{CallsKeepTheLaw, RefusalsLeaveTheAccount, OneCodewordIsNear, RunsKeepThePromise};
ghost use Rattle.expander.specs.Repairs.{RepairsHaveOneResult, LowestRunsAreFunctions};

// A new account is lawful, and every call keeps the law, refused calls included.
pub fn calls_keep_the_law<F>()
    ensures { CallsKeepTheLaw F }
{}

// A call is refused exactly for the first of its faults and then leaves the account as it is; where some weight is no code of the
// field, every call is refused.
pub fn refusals_leave_the_account<F>()
    ensures { RefusalsLeaveTheAccount F }
{}

// At most one codeword is near.
#[tactic(auto, using(crate::proofs::Promising::one_codeword_is_near_lem))]
pub fn one_codeword_is_near<F>()
    ensures { OneCodewordIsNear F }
{}

// Every list of calls, with any arguments and any legal picks, keeps the promise at each of its calls.
#[tactic(auto, using(crate::proofs::Promising::runs_keep_the_promise_lem))]
pub fn runs_keep_the_promise<F>()
    ensures { RunsKeepThePromise F }
{}

// A repair with given picks has one result and one outcome.
#[tactic(auto, using(crate::proofs::RepairResults::repairs_have_one_result_lem))]
pub fn repairs_have_one_result<F>()
    ensures { RepairsHaveOneResult F }
{}

// Where the lowest place is picked, the whole run is a function of the calls, and it is a legal run.
pub fn lowest_runs_are_functions<F>()
    ensures { LowestRunsAreFunctions F }
{}

// The definitions give the worked examples.
#[tactic(auto, using(crate::proofs::Computed::examples_compute_lem))]
pub fn examples_compute()
    ensures { Examples }
{}
