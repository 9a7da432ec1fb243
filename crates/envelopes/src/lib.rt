// Elements in their envelopes, and the faults in a run of elements.
#![tactic(auto)]

ghost use Rattle.std.specs.Prelude.{◌≡◌};
ghost use Rattle.rows.specs.Table.{rows_in};
ghost use Rattle.envelopes.specs.Envelope.{criticality_at, envelope_at, scan_at};

use octets::{Span, Stop};
use rows::Rows;

// An element: its id and criticality, and where its value stands.
#[derive(Clone, Copy)]
pub struct Head {
    pub id: u16,
    pub crit: u8,
    pub value: Span,
}

// Two criticality bits and pad.
#[tactic(auto, unfolding(crate::specs::Envelope::criticality_at))]
pub fn criticality_at(s: &[u8], at: usize) -> Result<u8, Stop>
    ensures { result ≡ criticality_at s.now at }
{
    let crit = octets::choice_at(3, 2, s, at, 0)?;
    octets::pad_at(s, at, 2)?;
    Ok(crit)
}

// An element in its envelope.
#[tactic(auto, unfolding(crate::specs::Envelope::envelope_at))]
pub fn envelope_at(s: &[u8], at: usize) -> Result<Head, Stop>
    ensures { result ≡ envelope_at s.now at }
{
    let id = octets::two_at(s, at)?;
    let crit = criticality_at(s, at + 2)?;
    let value = octets::open_at(s, at + 3)?;
    Ok(Head { id, crit, value })
}

// Where n elements end, or the first fault: in an envelope, or in a value that is read.
pub fn scan(t: Rows, s: &[u8], n: usize, from: usize) -> Result<usize, Stop>
    ensures { result ≡ scan_at (rows_in t.entry) s.now n from }
{
    let mut at = from;
    for _ in 0..n {
        let h = envelope_at(s, at)?;
        let to = h.value.to;
        kinds::value_at(rows::kind_of(t, h.id), &s[..to], h.value.from)?;
        at = to;
    }
    Ok(at)
}
