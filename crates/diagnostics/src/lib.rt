// Criticality Diagnostics: what is listed of elements that were not understood or are missing, and about which message.
#![tactic(auto)]

ghost use Rattle.std.specs.Prelude.{◌≡◌, ◌+◌, ◌<◌, length};
ghost use Rattle.diagnostics.specs.Diagnostics.{after, maybe_at, code_at, marks_at, head_at};

use octets::{Part, Stop};

// The fields before the list, and whether there is one.
#[derive(Clone, Copy)]
pub struct Head {
    pub code: Option<u8>,
    pub trigger: Option<u8>,
    pub crit: Option<u8>,
    pub listed: bool,
}

// Which fields are there.
#[derive(Clone, Copy)]
pub struct Marks {
    pub code: bool,
    pub trigger: bool,
    pub crit: bool,
    pub listed: bool,
}

// The first six bits: extension, what is there, extensions present.
#[tactic(auto, unfolding(crate::specs::Diagnostics::marks_at))]
fn marks_at(s: &[u8], at: usize) -> Result<Marks, Stop>
    ensures { result ≡ marks_at s.now at }
{
    octets::plain_at(s, at, 0)?;
    let code = octets::flag_at(s, at, 1)?;
    let trigger = octets::flag_at(s, at, 2)?;
    let crit = octets::flag_at(s, at, 3)?;
    let listed = octets::flag_at(s, at, 4)?;
    octets::plain_at(s, at, 5)?;
    Ok(Marks {
        code,
        trigger,
        crit,
        listed,
    })
}

// The procedure code, if it is there: pad behind the six bits, and an octet.
#[tactic(auto, unfolding(crate::specs::Diagnostics::code_at))]
fn code_at(there: bool, s: &[u8], at: usize) -> Result<Option<u8>, Stop>
    requires { at < length s.now }
    ensures { result ≡ code_at there s.now at }
{
    if !there {
        return Ok(None);
    }
    octets::pad_at(s, at, 6)?;
    let code = octets::octet_at(s, at + 1)?;
    Ok(Some(code))
}

// A choice among n, p bits behind the begin, if it is there.
#[tactic(auto, unfolding(crate::specs::Diagnostics::maybe_at))]
fn maybe_at(n: u8, there: bool, s: &[u8], at: usize, p: u8) -> Result<Option<u8>, Stop>
    requires { at < length s.now }
    ensures { result ≡ maybe_at n there s.now at p }
{
    if !there {
        return Ok(None);
    }
    let v = octets::choice_at(n, 2, s, at + usize::from(p / 8), p)?;
    Ok(Some(v))
}

// The bits behind a field of n bits, if it is there.
fn after_bits(there: bool, n: u8, p: u8) -> u8
    requires { p + n < 256 }
    ensures { result ≡ after there n p }
{
    if there { p + n } else { p }
}

// The fields before the list; the triggering message has n meanings.
#[tactic(auto, using(crate::proofs::Bounds::after_le, crate::proofs::Bounds::marks_in_lem), unfolding(crate::specs::Diagnostics::head_at))]
pub fn head_at(n: u8, s: &[u8], at: usize) -> Result<Part<Head>, Stop>
    ensures { result ≡ head_at n s.now at }
{
    let m = marks_at(s, at)?;
    let p = after_bits(m.code, 10, 6);
    let q = after_bits(m.trigger, 2, p);
    let r = after_bits(m.crit, 2, q);
    let code = code_at(m.code, s, at)?;
    let trigger = maybe_at(n, m.trigger, s, at, p)?;
    let crit = maybe_at(3, m.crit, s, at, q)?;
    octets::pad_at(s, at + usize::from(r / 8), r)?;
    Ok(Part {
        value: Head {
            code,
            trigger,
            crit,
            listed: m.listed,
        },
        next: at + usize::from((r + 7) / 8),
    })
}
