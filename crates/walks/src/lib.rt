// No code and no proofs: what proofs by hand of the crates above once shared is today written by the
// check itself. docs/PORT.md names what stands for each of its modules.
#![tactic(auto)]
