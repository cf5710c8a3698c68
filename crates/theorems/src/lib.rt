// The theorems that specs/ of other crates state, each the contract of a function that is named for it. Those of the starred examples, of
// one copy row, of made rows, of demand 3, of the round trip and of callcheck stand in crates of their own. Assumes nothing.
#![tactic(auto)]

ghost use Rattle.std.specs.Prelude.{◌≡◌, true, List};
ghost use Rattle.theorems.specs.Named.{NamedNumbers};
ghost use Rattle.lists.specs.Lists.{FirstIsLowest};
ghost use Rattle.words.specs.Digits.{DigitLaws};
ghost use Rattle.records.specs.RowCount.{RowCountIsLeast};
ghost use Rattle.field.specs.Theorems.{FieldTheorems};
ghost use Rattle.field.specs.Constants.{BorrowConstants};
ghost use Rattle.call.specs.Instances.{Instances};
ghost use Rattle.load.specs.LoadLaws.{LoadLaws};
ghost use Rattle.load.specs.Instances.{Instances as LoadInstances};
ghost use Rattle.classify.specs.RouteLaws.{RouteLaws, RouteInstances};
ghost use Rattle.reg_access.specs.RegAccess.{RouteByInputs, PushTold};
ghost use Rattle.routing.specs.InOrder.{RoutedInOrder};
ghost use Rattle.lookups.specs.LookupLaws.{LookupLaws};
ghost use Rattle.lookups.specs.Instances.{Instances as LookupInstances};
ghost use Rattle.call_join.specs.JoinLaws.{JoinLaws};
ghost use Rattle.call_join.specs.Instances.{Instances as JoinInstances};
ghost use Rattle.rights.specs.RightsLaws.{RightsLaws};
ghost use Rattle.rights.specs.Instances.{Instances as RightsInstances};
ghost use Rattle.expansion_rows.specs.WidthRule.{WidthRule, WidthCases};
ghost use Rattle.expansion_rows.specs.RowsCut.{RowsAreCut};
ghost use Rattle.expansion.specs.Consequences.{Consequences};
ghost use Rattle.expansion.specs.RowNumbers.{RowNumbers, RowNumberCases};
ghost use Rattle.call.specs.Calls.{Call};
ghost use Rattle.expansion.specs.Tries.{Setting, Lent};
ghost use Rattle.calls_in_turn.specs.Counts.{CountedAhead};
ghost use Rattle.residue_pairs.specs.CopyOperands.{ResiduesArePairs};
ghost use Rattle.residue_pairs.specs.Implied.{HighCountImplied};
ghost use Rattle.call_chain.specs.OpChain.{ChainIff, GroupIs, FirstsAre};

// The numbers that definitions write out are those of document 01: p, and 2^64 as the end of a number in text.
pub fn named_numbers_hold() -> bool
    ensures { (result ≡ true) × NamedNumbers }
{
    true
}

// What a search finds is the lowest index that meets the test.
pub fn first_is_lowest_holds() -> bool
    ensures { (result ≡ true) × FirstIsLowest }
{
    true
}

// FitsTypes, halves and bytes: a number from its digits and back, for every width.
pub fn digit_laws_hold() -> bool
    ensures { (result ≡ true) × DigitLaws }
{
    true
}

// "Rows number the least power of two that is at least the record count, and at least 4."
pub fn row_count_is_least_holds() -> bool
    ensures { (result ≡ true) × RowCountIsLeast }
{
    true
}

// p is prime, a product is 0 only by a factor, and a carry that is a bit is the carry of the plain sum.
pub fn field_theorems_hold() -> bool
    ensures { (result ≡ true) × FieldTheorems }
{
    true
}

// 2^-32 is what it is named for, and "the borrow constants are products of it".
pub fn borrow_constants_hold() -> bool
    ensures { (result ≡ true) × BorrowConstants }
{
    true
}

// Sound calls, calls that break one condition each, and the rows of a cut.
pub fn call_instances_hold() -> bool
    ensures { (result ≡ true) × Instances }
{
    true
}

// A load in document 02's words: a Write's index is the sum of the earlier Write counts, call k has the stamp 4 × k, and a longer load
// begins with the shorter one; with its first calls and its answers computed.
pub fn load_laws_hold() -> bool
    ensures { (result ≡ true) × LoadLaws × LoadInstances }
{
    true
}

// The route that is answered in document 02's words: the Rust's, and of a register access its low stamp difference less one.
pub fn route_laws_hold() -> bool
    ensures { (result ≡ true) × RouteLaws × RouteInstances }
{
    true
}

// The route of a register access is found by its stamps and address, it is Register exactly if the stamps are in range, and the numbers of
// an answer tell it.
pub fn route_by_inputs_holds() -> bool
    ensures { (result ≡ true) × RouteByInputs × PushTold }
{
    true
}

// "Three lists in arrival order", and no record lost.
pub fn routed_in_order_holds() -> bool
    ensures { (result ≡ true) × RoutedInOrder }
{
    true
}

// The lookups in document 02's words, held against routing: the same refusals, and pairs that rebuild the difference less one of the record
// that routing puts at their place; with small lists computed.
pub fn lookup_laws_hold() -> bool
    ensures { (result ≡ true) × LookupLaws × LookupInstances }
{
    true
}

// The join in document 02's words, both ways: it has every property that is asked for, and no other list has them; 20 is answered exactly if
// a list is out of order. With small lists computed, among them two Write calls of which the later one meets 4 once they are joined.
pub fn join_laws_hold() -> bool
    ensures { (result ≡ true) × JoinLaws × JoinInstances }
{
    true
}

// Document 02's width rule in its own words, asked anew at each row, and its two cases.
pub fn width_rule_holds() -> bool
    ensures { (result ≡ true) × WidthRule × WidthCases }
{
    true
}

// How many rows the rule gives, and 9 by their number.
pub fn row_numbers_hold() -> bool
    ensures { (result ≡ true) × RowNumbers × RowNumberCases }
{
    true
}

// The rows of a call are a cut of it, whatever the widths of 1 and 8 that sum to its count.
pub fn rows_are_cut_holds() -> bool
    ensures { (result ≡ true) × RowsAreCut }
{
    true
}

// What the expansion does to records, bytes and stamps.
pub fn expansion_consequences_hold() -> bool
    ensures { (result ≡ true) × Consequences }
{
    true
}

// Which bytes entries let a party read and write, with small lists of entries.
pub fn rights_laws_hold() -> bool
    ensures { (result ≡ true) × RightsLaws × RightsInstances }
{
    true
}

// What is accepted of a list of calls is counted before anything is written.
pub fn counted_ahead_holds() -> bool
    ensures { (result ≡ true) × ((s : Setting) (cs : List Call) (l : Lent) → CountedAhead s cs l) }
{
    true
}

// Which residues of a copy row are what `emit_add_pair` and `add_pair_carry_hi` answer.
pub fn residues_are_pairs_holds() -> bool
    ensures { (result ≡ true) × ResiduesArePairs }
{
    true
}

// Residue 31 follows from the range and residues 2, 14 and 15.
pub fn residue_31_implied_holds() -> bool
    ensures { (result ≡ true) × HighCountImplied }
{
    true
}

// A chain of operation records is whole calls and the other way round, and its calls and cuts are read back from it.
pub fn chain_is_whole_calls_holds() -> bool
    ensures { (result ≡ true) × ChainIff × GroupIs × FirstsAre }
{
    true
}
