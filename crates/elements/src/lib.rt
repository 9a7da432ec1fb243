#![tactic(auto)]

// The elements of a message, judged over any table of rows: definitions and laws, no code.
