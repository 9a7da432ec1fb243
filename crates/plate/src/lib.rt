#![tactic(auto)]

// The name on the plate: what is promised of it. No code.
