#![tactic(auto)]

// The first answer that a row of questions gives, and the first number that passes a test. Checks, searches and picks in
// the crates above are stated by these two definitions.
ghost use Rattle.firsts.specs.First.{FirstAnswers, FirstPassing};

// The first answer is one that no earlier question gives, and there is none exactly when no question has an answer.
#[tactic(auto, using(crate::proofs::Firsts::first_answers))]
pub fn first_answers_come_first<A>()
    ensures { FirstAnswers A }
{}

// The same of the first number that passes a test.
#[tactic(auto, using(crate::proofs::Passes::first_passing))]
pub fn first_passing_numbers_come_first()
    ensures { FirstPassing }
{}
