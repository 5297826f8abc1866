// No code: the encodings of a plan as files, the theorem that the reader reads exactly these, and what both readings make of a gate's table byte.
#![tactic(auto)]
