// No code: the permutation network P and the selection network S, their programming, and their theorems. The block library's contracts and the
// fabric's cite these definitions and laws.
#![tactic(auto)]
