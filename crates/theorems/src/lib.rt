#![tactic(auto)]

// No code: theorems on the definitions, in specs/.
