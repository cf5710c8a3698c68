// The lookups are those of the register table's rows: the theorem, as the contract of a function. Assumes nothing.
#![tactic(auto)]

ghost use Rattle.std.specs.Prelude.{◌≡◌, true};
ghost use Rattle.lookup_rows.specs.LookupRows.{LookupRows, RowInstances};

// "for each register row that is not padding, the low stamp difference less one", with an instance of what that speaks of.
pub fn lookup_rows_hold() -> bool
    ensures { (result ≡ true) × LookupRows × RowInstances }
{
    true
}
