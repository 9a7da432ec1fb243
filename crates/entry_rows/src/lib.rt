// The entries of a record for C, 1,026 octets from 1,636 on: how many there are, and 256 rows of 4 (criticality, id, type of error), zeros behind the last.
#![tactic(auto)]

ghost use Rattle.std.specs.Prelude.{◌≡◌, [], map, ◌<◌, ◌≤◌, length, get_or, drop};
ghost use Rattle.std.proofs.lemmas.List.Edits.{sets};
ghost use Rattle.octets.specs.Field.{value_at};
ghost use Rattle.octets.specs.Many.{many, each_octets};
ghost use Rattle.octets.specs.Write.{Wrote};
ghost use Rattle.octets.specs.Read.{or_none};
ghost use Rattle.lent.specs.Lent.{same};
ghost use Rattle.lent.specs.Tests.{zeros};
ghost use Rattle.entries.specs.Entries.{entry_at, list_at, maybe_list_at};
ghost use Rattle.entry_words.specs.EntryWords.{entry_word, WroteIf};
ghost use Rattle.meaning.specs.Written.{entry_good, entries_good};
ghost use Rattle.layout.specs.Rows.{entry_row, row_entry, list_octets};
ghost use Rattle.layout.specs.Record.{lists_in};

use entries::Entry;

// ---- put from where they stand in a message

fn put_row(room: &mut [u8], at: usize, e: Entry) -> usize
    ensures { Wrote room.old at (entry_row e) room.new result }
{
    let next = octets::put_octet(room, at, e.crit);
    let last = octets::put_two(room, next, e.id);
    octets::put_octet(room, last, e.error)
}

// n entries, which begin at from, as rows, where they can be read.
fn put_rows(room: &mut [u8], at: usize, n: usize, s: &[u8], from: usize) -> usize
    ensures { WroteIf (each_octets entry_row) (many (entry_at s.now from) n from) room.old at room.new result }
{
    let mut to = at.min(room.len());
    let mut next = from;
    for i in 0..n {
        let Ok(entry) = entries::entry_at(s, from, next) else {
            return to;
        };
        to = put_row(room, to, entry.value);
        next = entry.next;
    }
    to
}

// The list, if it is there; none where it cannot be read.
#[tactic(auto, using(entry_words::proofs::Laws::number_in))]
pub fn entries_out(room: &mut [u8], at: usize, there: bool, s: &[u8], from: usize) -> usize
    ensures { Wrote room.old at (list_octets 1024 entry_row (or_none (maybe_list_at there s.now from))) room.new result }
{
    if !there {
        return octets::put_zeros(room, at, 1026);
    }
    if entry_words::list_gate(true, s, from).is_err() {
        return octets::put_zeros(room, at, 1026);
    }
    let Ok(v) = octets::octet_at(s, from) else {
        return octets::put_zeros(room, at, 1026);
    };
    let n = usize::from(v) + 1;
    let next = octets::put_two(room, at, n as u16);
    let last = put_rows(room, next, n, s, from + 1);
    octets::put_zeros(room, last, 1024 - 4 * n)
}

// ---- what lent octets say

fn row_at(s: &[u8], at: usize) -> Entry
    requires { at < 65536 }
    ensures { result ≡ row_entry (drop at s.now) }
{
    Entry {
        crit: octets::octet_in(s, at),
        id: u16::from_be_bytes([octets::octet_in(s, at + 1), octets::octet_in(s, at + 2)]),
        error: octets::octet_in(s, at + 3),
    }
}

// How many entries octets say: at most 256.
pub fn said_entries(s: &[u8]) -> usize
    ensures { result ≡ length (lists_in s.now).entries }
{
    let n = usize::from(u16::from_be_bytes([octets::octet_in(s, 1636), octets::octet_in(s, 1637)]));
    n.min(256)
}

// The entries into the front of the words, and how many there are.
#[tactic(auto, using(crate::proofs::Saying::said_few))]
pub fn entries_said(s: &[u8], words: &mut [u64]) -> usize
    ensures { (result ≡ length (lists_in s.now).entries) × (words.new ≡ sets words.old 0 (map entry_word (lists_in s.now).entries)) }
{
    let n = said_entries(s);
    let mut to = 0;
    for i in 0..n {
        let e = row_at(s, 1638 + 4 * i);
        to = octets::put(words, to, entry_words::entry_word(e));
    }
    n
}

fn row_good(s: &[u8], at: usize) -> bool
    requires { at < 65536 }
    ensures { result ≡ entry_good (row_entry (drop at s.now)) }
{
    octets::octet_in(s, at) < 3 && octets::octet_in(s, at + 3) < 2
}

// They make a list, and their numbers have meanings. The loop has no exit.
#[tactic(auto, using(crate::proofs::Saying::said_few))]
pub fn are_said_good(s: &[u8]) -> bool
    ensures { result ≡ entries_good (lists_in s.now).entries }
{
    let n = said_entries(s);
    let mut good = true;
    for i in 0..n {
        good &= row_good(s, 1638 + 4 * i);
    }
    0 < n && good
}

// ---- whether octets are those of what they say

// Every row is that of the entry it says: so the count is at most 256, and zeros stand behind the last.
pub fn are_entries(s: &[u8]) -> bool
    ensures { result ≡ same (list_octets 1024 entry_row (lists_in s.now).entries) (drop 1636 s.now) }
{
    if s.len() != 2662 {
        return false;
    }
    let n = usize::from(u16::from_be_bytes([s[1636], s[1637]]));
    if 256 < n {
        return false;
    }
    lent::all_zero(&s[1638 + 4 * n..])
}

// There are no entries.
pub fn no_entries_said(s: &[u8]) -> bool
    ensures { result ≡ same (list_octets 1024 entry_row []) (drop 1636 s.now) }
{
    if s.len() != 2662 {
        return false;
    }
    lent::all_zero(&s[1636..])
}
