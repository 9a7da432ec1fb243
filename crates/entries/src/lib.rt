// The entries of Criticality Diagnostics: criticality, id and type of error.
#![tactic(auto)]

ghost use Rattle.std.specs.Prelude.{◌≡◌, ◌≤◌};
ghost use Rattle.entries.specs.Entries.{begins, crit_at, entry_at};

use octets::{Part, Stop};

// A listed element: its id, its criticality, and the type of error (0 not understood, 1 missing).
#[derive(Clone, Copy)]
pub struct Entry {
    pub id: u16,
    pub crit: u8,
    pub error: u8,
}

// How many bits of its octet stand before an entry of the list whose entries begin at from.
fn begin_of(from: usize, at: usize) -> u8
    ensures { result ≡ begins from at }
{
    if at == from { 0 } else { 2 }
}

// An entry's criticality, behind two bits for extensions and before pad.
#[tactic(auto, unfolding(crate::specs::Entries::crit_at))]
fn crit_at(s: &[u8], at: usize, b: u8) -> Result<u8, Stop>
    requires { b ≤ 2 }
    ensures { result ≡ crit_at s.now at b }
{
    octets::plain_at(s, at, b)?;
    octets::plain_at(s, at, b + 1)?;
    let crit = octets::choice_at(3, 2, s, at, b + 2)?;
    octets::pad_at(s, at, b + 4)?;
    Ok(crit)
}

// An entry of the list whose entries begin at from.
#[tactic(auto, using(crate::proofs::Bounds::crit_in), unfolding(crate::specs::Entries::entry_at))]
pub fn entry_at(s: &[u8], from: usize, at: usize) -> Result<Part<Entry>, Stop>
    ensures { result ≡ entry_at s.now from at }
{
    let crit = crit_at(s, at, begin_of(from, at))?;
    let id = octets::two_at(s, at + 1)?;
    octets::plain_at(s, at + 3, 0)?;
    let error = octets::choice_at(2, 1, s, at + 3, 1)?;
    Ok(Part {
        value: Entry { id, crit, error },
        next: at + 3,
    })
}
