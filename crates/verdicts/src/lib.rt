// What becomes of octets that are read as a message: refused, or understood with an outcome. No code.
#![tactic(auto)]

use octets::Stop;

// Answers 1 to 4: nothing is read.
#[derive(Clone, Copy)]
pub enum Refusal {
    // 1: over 8,192 octets
    TooLong,
    // 2 or 3: an encoding fault, or an extension
    Stopped(Stop),
    // 4: none of the messages that are read
    NotAmong,
}

// What the judging of the elements comes to.
#[derive(Clone, Copy)]
pub enum Outcome {
    // 0: no element rejected
    Accepted,
    // 5: a known element out of order or repeated, the number of those before it
    Misplaced(usize),
    // 5: an unknown element of reject, or a mandatory one of reject missing
    Rejected,
}
