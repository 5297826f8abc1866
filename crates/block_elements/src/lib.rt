// No code: the elements X, Y and G as rows, their entries in a table and their run over values of any type; program bits; and their laws.
#![tactic(auto)]
