// Two calls for a host program in C. Each answers a constant, or the number of a refusal made negative.
#![tactic(auto)]

mod calls;
