// Criticality Diagnostics, written. A writer puts octets into lent room from a place on, as far as it goes, and hands back the place behind them.
#![tactic(auto)]

ghost use Rattle.std.specs.Prelude.{◌≡◌, true, [], ◌∷◌, ◌++◌, map, min, ◌-◌, ◌≤◌, length};
ghost use Rattle.packed.specs.Packed.{bit, packed};
ghost use Rattle.octets.specs.Write.{Wrote, number_octets};
ghost use Rattle.diagnostics.specs.Written.{marks_of, marks, present_number, head_octets, entry_list_octets, diagnostics_octets};
ghost use Rattle.entry_words.specs.EntryWords.{entry_by};
ghost use Rattle.put_diagnostics.specs.Put.{listed_by, listed_size, pairs_from, entry_octets, bits_for};

use diagnostics::Head;
use entries::Entry;

// An octet that has begun, and how many of its bits are used.
#[derive(Clone, Copy)]
struct Begun {
    octet: u8,
    bits: u8,
}

// The six bits that say what is there.
fn marks_octet(head: Head) -> u8
    ensures { result ≡ packed (map bit (marks (marks_of head))) }
{
    let x = packed::with_bits(0, 1, 1, u8::from(head.code.is_some()));
    let y = packed::with_bits(x, 2, 1, u8::from(head.trigger.is_some()));
    let z = packed::with_bits(y, 3, 1, u8::from(head.crit.is_some()));
    packed::with_bits(z, 4, 1, u8::from(head.listed))
}

// An octet of which some bits are used, if any are.
#[tactic(auto, unfolding(crate::specs::Put::pairs_from))]
fn put_begun(room: &mut [u8], at: usize, begun: Begun) -> usize
    ensures { Wrote room.old at (pairs_from begun.octet begun.bits []) room.new result }
{
    if begun.bits == 0 {
        return at.min(room.len());
    }
    octets::put_octet(room, at, begun.octet)
}

// A number of two bits, if it is there, in an octet that has begun; and what is left of that octet.
#[tactic(auto, using(crate::proofs::Putting::pairs_one))]
fn put_last(room: &mut [u8], at: usize, begun: Begun, n: Option<u8>) -> usize
    ensures { Wrote room.old at (pairs_from begun.octet begun.bits (present_number n)) room.new result }
{
    match n {
        Some(v) => octets::put_octet(room, at, packed::with_bits(begun.octet, begun.bits, 2, v)),
        None => put_begun(room, at, begun),
    }
}

// Two of them.
#[tactic(auto, unfolding(crate::specs::Put::pairs_from))]
fn put_numbers(room: &mut [u8], at: usize, begun: Begun, n: Option<u8>, m: Option<u8>) -> usize
    ensures { Wrote room.old at (pairs_from begun.octet begun.bits (present_number n ++ present_number m)) room.new result }
{
    let Some(v) = n else {
        return put_last(room, at, begun, m);
    };
    let octet = packed::with_bits(begun.octet, begun.bits, 2, v);
    if begun.bits < 6 {
        return put_last(
            room,
            at,
            Begun {
                octet,
                bits: begun.bits + 2,
            },
            m,
        );
    }
    let next = octets::put_octet(room, at, octet);
    put_last(room, next, Begun { octet: 0, bits: 0 }, m)
}

// The fields before the list.
fn put_head(room: &mut [u8], at: usize, head: Head) -> usize
    ensures { Wrote room.old at (head_octets head) room.new result }
{
    let octet = marks_octet(head);
    let Some(code) = head.code else {
        return put_numbers(room, at, Begun { octet, bits: 6 }, head.trigger, head.crit);
    };
    let next = octets::put_octet(room, at, octet);
    let behind = octets::put_octet(room, next, code);
    put_numbers(
        room,
        behind,
        Begun { octet: 0, bits: 0 },
        head.trigger,
        head.crit,
    )
}

// An entry up to its id, in an octet that has begun.
fn put_entry(room: &mut [u8], at: usize, begun: Begun, entry: Entry) -> usize
    requires { begun.bits ≤ 2 }
    ensures { Wrote room.old at (entry_octets begun.octet begun.bits entry.crit entry.id) room.new result }
{
    let next = octets::put_octet(
        room,
        at,
        packed::with_bits(begun.octet, begun.bits + 2, 2, entry.crit),
    );
    octets::put_two(room, next, entry.id)
}

// The number of words less 1, and the entries that they say, each in the octet that the type of error before it has begun.
fn put_words(room: &mut [u8], at: usize, words: &[u64]) -> usize
    ensures { Wrote room.old at (entry_list_octets true (map entry_by words.now)) room.new result }
{
    let mut next = octets::put_octet(room, at, numbers::count_octet(words.len()));
    let mut begun = Begun { octet: 0, bits: 0 };
    for w in words {
        let entry = entry_words::entry_of(*w);
        next = put_entry(room, next, begun, entry);
        begun = Begun {
            octet: packed::with_bits(0, 1, 1, entry.error),
            bits: 2,
        };
    }
    octets::put_octet(room, next, begun.octet)
}

// The fields before the list, and if the list is there the entries that words say. A number is written modulo what its field holds.
pub fn put_listed(room: &mut [u8], at: usize, head: Head, words: &[u64]) -> usize
    ensures { Wrote room.old at (diagnostics_octets (listed_by head words.now)) room.new result }
{
    let next = put_head(room, at, head);
    if head.listed {
        return put_words(room, next, words);
    }
    next
}

// How many bits a field takes, if it is there.
fn bits_for(n: Option<u8>, w: usize) -> usize
    ensures { result ≡ bits_for n w }
{
    n.map_or(0, |_v| w)
}

#[tactic(auto, using(crate::proofs::Sizes::bits_le, crate::proofs::Sizes::head_size))]
fn head_size(head: Head) -> usize
    ensures { result ≡ length (head_octets head) }
{
    (6 + bits_for(head.code, 10) + bits_for(head.trigger, 2) + bits_for(head.crit, 2) + 7) / 8
}

// How many octets they take with n entries; more than a number can say are the largest.
#[tactic(auto, using(crate::proofs::Sizes::head_small))]
pub fn listed_size(head: Head, n: usize) -> usize
    ensures { result ≡ min (listed_size head n) 18446744073709551615 }
{
    let size = head_size(head);
    if !head.listed {
        return size;
    }
    n.saturating_mul(3).saturating_add(size + 2)
}
