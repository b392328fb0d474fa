#![tactic(auto)]

// No code: laws of the definitions on which the proofs of several crates rest, in specs/.
