// That residues of a copy row are sums of operands, and that residue 31 follows from others: theorems over the definitions, with no
// code. Assumes nothing.
#![tactic(auto)]
