// What a copy row that passes its checks says in plain numbers. Assumes nothing.
#![tactic(auto)]

ghost use Rattle.std.specs.Prelude.{◌≡◌, true};
ghost use Rattle.copy_meaning.specs.Theorems.{RowMeaning};

// That a row passes exactly if it is the row of a record that meets the conditions of its step is its contract.
#[tactic(auto, using(crate::proofs::Theorems::row_meaning))]
pub fn row_meaning_holds() -> bool
    ensures { (result ≡ true) × RowMeaning }
{
    true
}
