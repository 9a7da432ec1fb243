// The list of Criticality Diagnostics as words in lent numbers. A word is an entry's id, 65536 times its criticality, and 16777216 times its type of error.
#![tactic(auto)]

ghost use Rattle.std.specs.Prelude.{◌≡◌, [], ◌∷◌, map};
ghost use Rattle.octets.specs.Many.{many};
ghost use Rattle.octets.specs.Write.{Wrote};
ghost use Rattle.octets.specs.Read.{checked};
ghost use Rattle.entries.specs.Entries.{entry_at, entries_at, maybe_list_at};
ghost use Rattle.diagnostics.specs.Diagnostics.{diagnostics_at};
ghost use Rattle.entry_words.specs.EntryWords.{entry_word, entry_by, WroteIf, EntriesTaking};

use entries::Entry;
use octets::Stop;

pub fn entry_word(e: Entry) -> u64
    ensures { result ≡ entry_word e }
{
    e.id as u64 + 65536 * (e.crit as u64) + 16777216 * (e.error as u64)
}

pub fn entry_of(w: u64) -> Entry
    ensures { result ≡ entry_by w }
{
    Entry {
        id: (w % 65536) as u16,
        crit: (w / 65536 % 256) as u8,
        error: (w / 16777216 % 256) as u8,
    }
}

// n entries, which begin at from, and the pad behind the last can be read, or why not.
fn entries_gate(n: usize, s: &[u8], from: usize) -> Result<(), Stop>
    ensures { result ≡ checked (entries_at n s.now from) }
{
    let mut at = from;
    for i in 0..n {
        at = entries::entry_at(s, from, at)?.next;
    }
    octets::pad_at(s, at, 2)?;
    octets::ends_at(s, at + 1)
}

// The list, if it is there, can be read, or why not. Nothing is kept of it.
#[tactic(auto, using(crate::proofs::Laws::gate_then, crate::proofs::Laws::number_in), unfolding(entries::specs::Entries::list_at))]
pub fn list_gate(there: bool, s: &[u8], at: usize) -> Result<(), Stop>
    ensures { result ≡ checked (maybe_list_at there s.now at) }
{
    if !there {
        return octets::ends_at(s, at);
    }
    let n = octets::octet_at(s, at)?;
    entries_gate(usize::from(n) + 1, s, at + 1)
}

// Criticality Diagnostics can be read, or why not; the triggering message has n meanings.
#[tactic(auto, using(crate::proofs::Laws::same_gate), unfolding(diagnostics::specs::Diagnostics::diagnostics_at))]
pub fn diagnostics_gate(n: u8, s: &[u8], at: usize) -> Result<(), Stop>
    ensures { result ≡ checked (diagnostics_at n s.now at) }
{
    let head = diagnostics::head_at(n, s, at)?;
    list_gate(head.value.listed, s, head.next)
}

// n entries, which begin at from, into the front of the words, where they can be read.
fn words_from(n: usize, s: &[u8], from: usize, words: &mut [u64]) -> usize
    ensures { WroteIf (map entry_word) (many (entry_at s.now from) n from) words.old 0 words.new result }
{
    let mut at = from;
    let mut to = 0;
    for i in 0..n {
        let Ok(entry) = entries::entry_at(s, from, at) else {
            return to;
        };
        to = octets::put(words, to, entry_word(entry.value));
        at = entry.next;
    }
    to
}

// The list, if it is there, into the front of the words; where it cannot be read they stay as they were.
#[tactic(auto, using(crate::proofs::Laws::number_in), unfolding(entries::specs::Entries::list_at))]
pub fn list_into(there: bool, s: &[u8], at: usize, words: &mut [u64]) -> Result<usize, Stop>
    ensures { EntriesTaking (maybe_list_at there s.now at) words.old result words.new }
{
    list_gate(there, s, at)?;
    if !there {
        return Ok(0);
    }
    let n = usize::from(octets::octet_at(s, at)?) + 1;
    words_from(n, s, at + 1, words);
    Ok(n)
}
