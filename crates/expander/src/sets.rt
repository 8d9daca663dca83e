ghost use Rattle.expander.specs.Expansion.{SurveysTell};
ghost use Rattle.expander.specs.Sets.{SetsInOrder};
ghost use Rattle.expander.specs.WordLaws.{UniqueRowsAbound};

// The list of the sets of at most s places holds each of them once, smaller sets first and within a size in lexicographic
// order, and its length is the sum of the binomial coefficients.
pub fn sets_stand_in_order()
    ensures { SetsInOrder }
{}

// A survey's level is exact, and it names the first set that fails to expand exactly when there is one.
#[tactic(auto, using(crate::proofs::Surveys::surveys_tell))]
pub fn surveys_tell_the_level()
    ensures { SurveysTell }
{}

// In a set of k places that expands, more than half of c × k rows are met exactly once.
#[tactic(auto, using(crate::proofs::Expanding::unique_rows_abound_lem))]
pub fn unique_rows_abound()
    ensures { UniqueRowsAbound }
{}
