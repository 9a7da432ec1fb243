#![tactic(auto)]

// The meaning that reading and writing share: a message is, for each row of its table, a value of the row's kind or none. No code.
