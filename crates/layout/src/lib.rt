#![tactic(auto)]

// A message's record as octets that the link process lends: the layout, and what octets say. No code.
