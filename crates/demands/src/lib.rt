#![tactic(auto)]

// The demands on the table call, as statements over its definition, and their proofs. No code.
