// No code: the mapping of P's outputs to its inputs as a list, how its loops are walked and marked, and the bits of one level of P.
#![tactic(auto)]
