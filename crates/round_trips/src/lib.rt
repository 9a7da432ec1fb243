#![tactic(auto)]

// What was written is read back, and what was read is written again. No code: theorems over the definitions.
