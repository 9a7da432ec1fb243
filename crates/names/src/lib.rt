// The MCE Name: 1 to 150 characters of PrintableString, read from the begin of its octets to the end of what encloses it, and written.
#![tactic(auto)]

ghost use Rattle.std.specs.Prelude.{◌≡◌, ◌+◌, ◌<◌, ◌≤◌, eqb, length};
ghost use Rattle.lists.specs.Lists.{some};
ghost use Rattle.octets.specs.Write.{Wrote};
ghost use Rattle.names.specs.Names.{between, signs, printable, name_allowed, size_at, chars_at, name_at, part_in};
ghost use Rattle.names.specs.Written.{name_octets};

use octets::{Span, Stop};

fn lies_between(a: u8, b: u8, c: u8) -> bool
    ensures { result ≡ between a b c }
{
    (a <= c) & (c <= b)
}

fn is_sign(c: u8) -> bool
    ensures { result ≡ some (eqb c) signs }
{
    let low = (c == b' ') | (c == b'\'') | (c == b'(') | (c == b')');
    let mid = (c == b'+') | (c == b',') | (c == b'-') | (c == b'.') | (c == b'/');
    low | mid | (c == b':') | (c == b'=') | (c == b'?')
}

// Without branches, since a name is looked at octet by octet.
#[tactic(auto, unfolding(crate::specs::Names::printable))]
fn is_printable(c: u8) -> bool
    ensures { result ≡ printable c }
{
    let letter = lies_between(b'A', b'Z', c) | lies_between(b'a', b'z', c);
    letter | lies_between(b'0', b'9', c) | is_sign(c)
}

// How many characters: less 1, in the eight bits behind the first of an octet, so that they lie across it and the next.
#[tactic(auto, using(crate::proofs::Size::across_or), unfolding(crate::specs::Names::size_at))]
fn size_at(s: &[u8], at: usize) -> Result<u8, Stop>
    requires { at < length s.now }
    ensures { result ≡ size_at s.now at }
{
    if s.len() - at < 2 {
        return Err(octets::cut_short(at));
    }
    let less = (packed::bits(s[at], 1, 7) << 1) | packed::bits(s[at + 1], 0, 1);
    if 150 <= less {
        return Err(octets::no_meaning(at));
    }
    if s.len() - at - 2 <= usize::from(less) {
        return Err(octets::no_meaning(at));
    }
    Ok(less + 1)
}

// The n characters from a place on: the first that is not printable is at fault.
#[tactic(auto, using(crate::proofs::Chars::chars_none, crate::proofs::Chars::chars_more, crate::proofs::Chars::chars_stop))]
fn chars_at(n: usize, s: &[u8], at: usize) -> Result<(), Stop>
    requires { at + n ≤ length s.now }
    ensures { result ≡ chars_at n s.now at }
{
    for i in at..at + n {
        if !is_printable(s[i]) {
            return Err(octets::no_meaning(i));
        }
    }
    Ok(())
}

#[tactic(auto, using(crate::proofs::Size::size_got), unfolding(crate::specs::Names::name_at))]
pub fn name_at(s: &[u8], at: usize) -> Result<Span, Stop>
    ensures { result ≡ name_at s.now at }
{
    octets::plain_at(s, at, 0)?;
    let n = usize::from(size_at(s, at)?);
    octets::pad_at(s, at + 1, 1)?;
    let from = at + 2;
    chars_at(n, s, from)?;
    let to = from + n;
    octets::ends_at(s, to)?;
    Ok(Span { from, to })
}

// The octets of s from one place up to another, if they lie in s, are a name that is allowed.
#[tactic(auto, using(crate::proofs::Allowed::allowed_out, crate::proofs::Allowed::allowed_none, crate::proofs::Allowed::allowed_over, crate::proofs::Allowed::allowed_by))]
pub fn is_name(s: &[u8], from: usize, to: usize) -> bool
    ensures { result ≡ name_allowed (part_in s.now from to) }
{
    if s.len() < to {
        return false;
    }
    if to <= from {
        return false;
    }
    if 150 < to - from {
        return false;
    }
    chars_at(to - from, s, from).is_ok()
}

// A name, put into lent room from a place on, as far as it goes, and the place behind it; nothing for one that is not allowed.
pub fn put_name(room: &mut [u8], at: usize, s: &[u8], from: usize, to: usize) -> usize
    ensures { Wrote room.old at (name_octets (part_in s.now from to)) room.new result }
{
    if !is_name(s, from, to) {
        return at.min(room.len());
    }
    let less = numbers::less_one(to - from);
    let second = octets::put_octet(room, at, packed::with_bits(0, 1, 7, less >> 1));
    let chars = octets::put_octet(room, second, packed::with_bits(0, 0, 1, less));
    octets::put_part(room, chars, s, from, to)
}
