// The starred examples of document 01, under one theorem. Assumes nothing.
#![tactic(auto)]

ghost use Rattle.std.specs.Prelude.{◌≡◌, true};
ghost use Rattle.examples.specs.Examples.{StarredExamples};

// That the examples hold is its contract.
#[tactic(auto, using(crate::proofs::Computed::starred_examples))]
pub fn starred_examples_hold() -> bool
    ensures { (result ≡ true) × StarredExamples }
{
    true
}
