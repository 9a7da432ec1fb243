// The octet of a count.
#![tactic(auto)]

ghost use Rattle.std.specs.Prelude.{◌≡◌, min, ◌-◌, ◌%◌};

// A count of at most 256 less 1, in an octet; of more it is 255, of 0 it is 0.
pub fn less_one(n: usize) -> u8
    ensures { result ≡ min (n - 1) 255 }
{
    n.saturating_sub(1).min(255) as u8
}

// The octet of a count less 1, as it is written: of what does not fit the low eight bits.
pub fn count_octet(n: usize) -> u8
    ensures { result ≡ (n - 1) % 256 }
{
    (n.saturating_sub(1) % 256) as u8
}
