// No code: the universal block U, the fabric, a plan's program bits, and the theorem that one fabric stands for every plan of its counts.
#![tactic(auto)]
