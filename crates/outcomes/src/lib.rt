// No code: that no contract of a public call leaves a second outcome.
#![tactic(auto)]
