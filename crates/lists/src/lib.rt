#![tactic(auto)]

// Laws over lists of anything: no code.
