#![tactic(auto)]

// The table call: what it means. No code: `unit` carries it out.
