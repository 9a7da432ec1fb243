// The fields of aligned PER, read and written. Knows nothing of M3AP.
// A reader takes the octets of what encloses it, from the front of the message, and a place; so places are absolute.
// A packed field begins b bits behind the first bit of the octet at a place; b counts within that octet, so 8 is 0 again.
#![tactic(auto)]

ghost use Rattle.std.specs.Prelude.{◌≡◌, ◌∷◌, [], min, ◌+◌, ◌<◌, ◌%◌, length, replicate, get_or};
ghost use Rattle.std.proofs.Math.Seq.{slice};
ghost use Rattle.octets.specs.Read.{cut_short, no_meaning, left_over, extended};
ghost use Rattle.octets.specs.Field.{flag_at, plain_at, choice_at, pad_at, number_at, string_at, same_at, below_at, length_at, long_length_at, open_at, ends_at};
ghost use Rattle.octets.specs.Write.{number_octets, length_octets, Wrote};

// Where a field at fault begins, counted from the first octet handed in.
#[derive(Clone, Copy)]
pub struct Place {
    pub octet: usize,
}

// Why reading stops: octets that are no encoding, or an extension; and where.
#[derive(Clone, Copy)]
pub enum Stop {
    Fault(Place),
    Extension(Place),
}

// What was read, and the place behind it.
#[derive(Clone, Copy)]
pub struct Part<T> {
    pub value: T,
    pub next: usize,
}

// Where octets begin and end.
#[derive(Clone, Copy)]
pub struct Span {
    pub from: usize,
    pub to: usize,
}

// Where a value stands that is not there.
pub const NOWHERE: Span = Span { from: 0, to: 0 };

// The places of faults are decided by these four and nowhere else.

// The octets end inside the field that begins here.
#[tactic(auto, unfolding(crate::specs::Read::cut_short))]
pub fn cut_short(at: usize) -> Stop
    ensures { result ≡ cut_short at }
{
    Stop::Fault(Place { octet: at })
}

// What the field that begins here holds has no meaning.
#[tactic(auto, unfolding(crate::specs::Read::no_meaning))]
pub fn no_meaning(at: usize) -> Stop
    ensures { result ≡ no_meaning at }
{
    Stop::Fault(Place { octet: at })
}

// Octets are left over from here on.
#[tactic(auto, unfolding(crate::specs::Read::left_over))]
fn left_over(at: usize) -> Stop
    ensures { result ≡ left_over at }
{
    Stop::Fault(Place { octet: at })
}

// An extension, or one that is said to be present, at the field that begins here.
#[tactic(auto, unfolding(crate::specs::Read::extended))]
fn extended_here(at: usize) -> Stop
    ensures { result ≡ extended at }
{
    Stop::Extension(Place { octet: at })
}

// A bit that says yes or no.
#[tactic(auto, unfolding(crate::specs::Field::flag_at))]
pub fn flag_at(s: &[u8], at: usize, b: u8) -> Result<bool, Stop>
    ensures { result ≡ flag_at s.now at b }
{
    if s.len() <= at {
        return Err(cut_short(at));
    }
    Ok(packed::bits(s[at], b, 1) == 1)
}

// An extension bit, or one that says that extensions are present.
#[tactic(auto, unfolding(crate::specs::Field::plain_at))]
pub fn plain_at(s: &[u8], at: usize, b: u8) -> Result<(), Stop>
    ensures { result ≡ plain_at s.now at b }
{
    if s.len() <= at {
        return Err(cut_short(at));
    }
    if packed::bits(s[at], b, 1) == 0 {
        return Ok(());
    }
    Err(extended_here(at))
}

// A number of w bits with n meanings.
#[tactic(auto, unfolding(crate::specs::Field::choice_at))]
pub fn choice_at(n: u8, w: u8, s: &[u8], at: usize, b: u8) -> Result<u8, Stop>
    ensures { result ≡ choice_at n w s.now at b }
{
    if s.len() <= at {
        return Err(cut_short(at));
    }
    let v = packed::bits(s[at], b, w);
    if v < n {
        return Ok(v);
    }
    Err(no_meaning(at))
}

// The bits of an octet behind its first b are pad; there are none where b is at an octet's begin.
#[tactic(auto, unfolding(crate::specs::Field::pad_at))]
pub fn pad_at(s: &[u8], at: usize, b: u8) -> Result<(), Stop>
    ensures { result ≡ pad_at s.now at b }
{
    if b % 8 == 0 {
        return Ok(());
    }
    if s.len() <= at {
        return Err(cut_short(at));
    }
    if packed::bits(s[at], b, 8 - b % 8) == 0 {
        return Ok(());
    }
    Err(no_meaning(at))
}

// An octet; one that is missing is taken for 0.
pub fn octet_in(s: &[u8], at: usize) -> u8
    ensures { result ≡ get_or s.now at 0 }
{
    s.get(at).copied().unwrap_or(0)
}

// N octets as they are.
pub fn array_at<const N: usize>(s: &[u8], at: usize) -> Result<[u8; N], Stop>
    ensures { result ≡ string_at N s.now at }
{
    if s.len() < at {
        return Err(cut_short(at));
    }
    if s.len() - at < N {
        return Err(cut_short(at));
    }
    let mut octets = [0; N];
    octets.copy_from_slice(&s[at..at + N]);
    Ok(octets)
}

// A number of one octet.
pub fn octet_at(s: &[u8], at: usize) -> Result<u8, Stop>
    ensures { result ≡ number_at 1 s.now at }
{
    let v = array_at::<1>(s, at)?;
    Ok(v[0])
}

// A number of two octets, the high one first.
pub fn two_at(s: &[u8], at: usize) -> Result<u16, Stop>
    ensures { result ≡ number_at 2 s.now at }
{
    let v = array_at::<2>(s, at)?;
    Ok(u16::from_be_bytes([v[0], v[1]]))
}

// Two octets that have to say v.
#[tactic(auto, unfolding(crate::specs::Field::same_at))]
pub fn same_at(v: u16, s: &[u8], at: usize) -> Result<(), Stop>
    ensures { result ≡ same_at v s.now at }
{
    if two_at(s, at)? == v {
        return Ok(());
    }
    Err(no_meaning(at))
}

// Two octets that say a number below n.
#[tactic(auto, unfolding(crate::specs::Field::below_at))]
pub fn below_at(n: u16, s: &[u8], at: usize) -> Result<u16, Stop>
    ensures { result ≡ below_at n s.now at }
{
    let v = two_at(s, at)?;
    if v < n {
        return Ok(v);
    }
    Err(no_meaning(at))
}

// A length in two octets, whose first has top bits 10.
#[tactic(auto, unfolding(crate::specs::Field::long_length_at))]
fn long_at(s: &[u8], at: usize) -> Result<Part<usize>, Stop>
    requires { at < length s.now }
    ensures { result ≡ long_length_at s.now at }
{
    if s.len() - at < 2 {
        return Err(cut_short(at));
    }
    let count = (usize::from(packed::bits(s[at], 2, 6)) << 8) | usize::from(s[at + 1]);
    if count < 128 {
        return Err(no_meaning(at));
    }
    Ok(Part {
        value: count,
        next: at + 2,
    })
}

// A length of 0 to 16,383, in the shortest form.
#[tactic(auto, unfolding(crate::specs::Field::length_at))]
pub fn length_at(s: &[u8], at: usize) -> Result<Part<usize>, Stop>
    ensures { result ≡ length_at s.now at }
{
    if s.len() <= at {
        return Err(cut_short(at));
    }
    let x = s[at];
    if packed::bits(x, 0, 1) == 0 {
        return Ok(Part {
            value: usize::from(x),
            next: at + 1,
        });
    }
    if packed::bits(x, 0, 2) == 3 {
        return Err(no_meaning(at));
    }
    long_at(s, at)
}

// A length, and the octets that it counts: at least one, and none past the end.
#[tactic(auto, unfolding(crate::specs::Field::open_at))]
pub fn open_at(s: &[u8], at: usize) -> Result<Span, Stop>
    ensures { result ≡ open_at s.now at }
{
    let n = length_at(s, at)?;
    let count = n.value;
    let from = n.next;
    if count == 0 {
        return Err(no_meaning(at));
    }
    if s.len() - from < count {
        return Err(no_meaning(at));
    }
    Ok(Span {
        from,
        to: from + count,
    })
}

// A value ends here: octets left over are a fault at their first.
#[tactic(auto, unfolding(crate::specs::Field::ends_at))]
pub fn ends_at(s: &[u8], at: usize) -> Result<(), Stop>
    ensures { result ≡ ends_at s.now at }
{
    if at < s.len() {
        return Err(left_over(at));
    }
    Ok(())
}

// Writers put octets into lent room from a place on, as far as it goes, and hand back the place behind them.

// One octet, or one word of a list.
pub fn put<T: Copy>(room: &mut [T], at: usize, v: T) -> usize
    ensures { Wrote room.old at (v ∷ []) room.new result }
{
    if at < room.len() {
        room[at] = v;
        return at + 1;
    }
    room.len()
}

pub fn put_octet(room: &mut [u8], at: usize, v: u8) -> usize
    ensures { Wrote room.old at (v ∷ []) room.new result }
{
    put(room, at, v)
}

// A number in two octets, the high one first.
pub fn put_two(room: &mut [u8], at: usize, v: u16) -> usize
    ensures { Wrote room.old at (number_octets 2 v) room.new result }
{
    let next = put_octet(room, at, (v / 256) as u8);
    put_octet(room, next, (v % 256) as u8)
}

// A length, in the shortest form; nothing for one over 16,383.
pub fn put_length(room: &mut [u8], at: usize, n: usize) -> usize
    ensures { Wrote room.old at (length_octets n) room.new result }
{
    if n < 128 {
        return put_octet(room, at, n as u8);
    }
    if 16384 <= n {
        return at.min(room.len());
    }
    let top = packed::with_bits(packed::with_bits(0, 0, 2, 2), 2, 6, (n / 256) as u8);
    let next = put_octet(room, at, top);
    put_octet(room, next, (n % 256) as u8)
}

// As many octets as there is room for. One by one: with std's copy_from_slice the archive would ask the process for memmove too.
pub fn put_octets(room: &mut [u8], at: usize, vs: &[u8]) -> usize
    ensures { Wrote room.old at vs.now room.new result }
{
    let end = place_behind(at, vs.len(), room.len());
    let start = at.min(end);
    for i in 0..end - start {
        room[start + i] = vs[i];
    }
    end
}

// The octets of s from a place up to another.
pub fn put_part(room: &mut [u8], at: usize, s: &[u8], from: usize, to: usize) -> usize
    ensures { Wrote room.old at (slice from to s.now) room.new result }
{
    let end = to.min(s.len());
    let start = from.min(end);
    put_octets(room, at, &s[start..end])
}

pub fn put_three(room: &mut [u8], at: usize, a: u8, b: u8, c: u8) -> usize
    ensures { Wrote room.old at (a ∷ b ∷ c ∷ []) room.new result }
{
    let second = put_octet(room, at, a);
    let third = put_octet(room, second, b);
    put_octet(room, third, c)
}

// The place that is n further, or the room's end where that comes before it.
fn place_behind(at: usize, n: usize, room: usize) -> usize
    ensures { result ≡ min (at + n) room }
{
    if room <= at {
        return room;
    }
    if room - at <= n {
        return room;
    }
    at + n
}

// Zeros.
pub fn put_zeros(room: &mut [u8], at: usize, n: usize) -> usize
    ensures { Wrote room.old at (replicate n 0) room.new result }
{
    let end = place_behind(at, n, room.len());
    let start = at.min(end);
    room[start..end].fill(0);
    end
}
