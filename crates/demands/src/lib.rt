// The demands, proved over the definitions of the crates below. There is no code here: specs/ has the definitions, the
// theorems stand in proofs/, and the routines' promises tie the code to the definitions that they speak of.
#![tactic(auto)]
