// The expansion accepts every call of a load: the theorems, as contracts of functions. Assumes nothing.
#![tactic(auto)]

ghost use Rattle.std.specs.Prelude.{◌≡◌, true};
ghost use Rattle.load_accepted.specs.LoadAccepted.{LoadAccepted};
ghost use Rattle.load_accepted.specs.Instances.{Instances};
ghost use Rattle.load_accepted.specs.LoadRows.{LoadRows};

// "Prove that the expansion accepts every call it makes, given buffers long enough", with instances of what that speaks of.
#[tactic(auto, using(crate::proofs::LoadAccepted::load_accepted, crate::proofs::Instances::instances))]
pub fn load_accepted_holds() -> bool
    ensures { (result ≡ true) × LoadAccepted × Instances }
{
    true
}

// No row of a load's calls meets an edge, and no call has more than ten rows.
#[tactic(auto, using(crate::proofs::LoadAccepted::load_rows))]
pub fn load_rows_hold() -> bool
    ensures { (result ≡ true) × LoadRows }
{
    true
}
