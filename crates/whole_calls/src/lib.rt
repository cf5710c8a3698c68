// Demand 3, as the contract of a function. Assumes nothing.
#![tactic(auto)]

ghost use Rattle.std.specs.Prelude.{◌≡◌, true};
ghost use Rattle.whole_calls.specs.Demand.{Demand3};
ghost use Rattle.whole_calls.specs.Halves.{Halves};
ghost use Rattle.whole_calls.specs.Instances.{Instances};
ghost use Rattle.whole_calls.specs.LinkInstances.{LinkInstances};

// That no sequence of rows can pass the chain check and be anything but whole calls is its contract, with the two halves that it follows
// from and instances of what it speaks of.
#[tactic(auto, using(crate::proofs::Demand::demand3, crate::proofs::Halves::halves, crate::proofs::Instances::instances, crate::proofs::LinkInstances::link_instances))]
pub fn demand_3_holds() -> bool
    ensures { (result ≡ true) × Demand3 × Halves × Instances × LinkInstances }
{
    true
}
