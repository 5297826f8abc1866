// No code: lists given place by place, and their laws. What a call writes and what a network's rows are is said in these.
#![tactic(auto)]
