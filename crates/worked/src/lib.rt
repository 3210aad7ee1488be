// No code: the marked cases of the requirements, computed from the definitions of the crates below.
#![tactic(auto)]
