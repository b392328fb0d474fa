#![tactic(auto)]

// No code: examples of document 01 that antt computes, in specs/.
