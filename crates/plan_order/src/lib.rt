// No code: the order in which a drawing's gates can be evaluated, and when there is none.
#![tactic(auto)]
