#![tactic(auto)]

// Reset items, their envelopes and lists, and the Reset Type: how they are read, their octets, and the laws between them: no code.
