// Reset items as words: a word is the MME identity's number and 1, and 2^32 times the MCE identity's number and 1; 0 stands for one that is not there.
// So a list of items is a row of words that a caller lends.
#![tactic(auto)]

ghost use Rattle.std.specs.Prelude.{◌≡◌, true, false, List, [], ◌∷◌, map, ℕ, ◌+◌, ◌-◌, ◌%◌, ◌≤◌, length, take, Ok};
ghost use Rattle.std.proofs.lemmas.List.Edits.{sets};
ghost use Rattle.packed.specs.Packed.{◌bits◌, packed};
ghost use Rattle.octets.specs.Read.{checked};
ghost use Rattle.octets.specs.Many.{many};
ghost use Rattle.octets.specs.Write.{Wrote};
ghost use Rattle.item.specs.Item.{item_element_at};
ghost use Rattle.items.specs.Items.{items_at, chosen_reset_at, reset_at};
ghost use Rattle.items.specs.Written.{item_element_octets, items_octets};
ghost use Rattle.put_values.specs.Put.{crit_of};
ghost use Rattle.item_words.specs.Words.{identity_number, word_of, identity_by, item_of, identified, there_in, half_octets, IfNine, full_octets};
ghost use Rattle.item_words.specs.Taken.{FullAt, IfFull, worded, Filling, Taking, ResetTaking};

use identity::{Identity, Item};
use octets::{Part, Stop};
use put_values::Criticality;

// ---- an item and its word

// One more than an identity of either series, or 0.
fn identity_number<I: Identity>(x: Option<I>) -> u64
    ensures number { result ≡ identity_number I.number x }
    ensures small { result ≤ 65536 }
{
    match x {
        Some(v) => v.number() as u64 + 1,
        None => 0,
    }
}

pub fn word_of(i: Item) -> u64
    ensures { result ≡ word_of i }
{
    identity_number(i.mme) + identity_number(i.mce) * 4294967296
}

// The identity that a number says, if any.
fn identity_by<I: Identity>(n: u64) -> Option<I>
    ensures { result ≡ identity_by I.numbered n }
{
    if n == 0 {
        return None;
    }
    Some(I::numbered(((n - 1) % 65536) as u16))
}

pub fn item_of(w: u64) -> Item
    ensures { result ≡ item_of w }
{
    Item {
        mme: identity_by(w % 4294967296),
        mce: identity_by(w / 4294967296),
    }
}

// ---- read

// The octets of an item with both identities stand here: it has one form, of nine octets.
fn is_full(s: &[u8], at: usize) -> bool
    ensures { IfFull result s.now at }
{
    at < s.len()
        && 9 <= s.len() - at
        && s[at] == 0
        && s[at + 1] == 14
        && s[at + 2] % 64 == 0
        && s[at + 2] < 192
        && s[at + 3] == 5
        && s[at + 4] == 96
}

// The word of such an item.
#[tactic(auto, using(crate::proofs::Full::word_here))]
fn full_word(s: &[u8], at: usize) -> u64
    requires { FullAt s.now at }
    ensures { Ok (record { value = result; next = at + 9 }) ≡ worded (item_element_at s.now at) }
{
    let m = u16::from_be_bytes([s[at + 5], s[at + 6]]);
    let c = u16::from_be_bytes([s[at + 7], s[at + 8]]);
    m as u64 + 1 + (c as u64 + 1) * 4294967296
}

// An item in its envelope as a word, at once where it has both identities.
pub fn word_element_at(s: &[u8], at: usize) -> Result<Part<u64>, Stop>
    ensures { result ≡ worded (item_element_at s.now at) }
{
    if is_full(s, at) {
        return Ok(Part {
            value: full_word(s, at),
            next: at + 9,
        });
    }
    let i = item::item_element_at(s, at)?;
    Ok(Part {
        value: word_of(i.value),
        next: i.next,
    })
}

// A list of items can be read, or why not. Nothing is kept of it. An item with both identities is passed at once.
#[tactic(auto, unfolding(items::specs::Items::items_at))]
pub fn items_gate(s: &[u8], at: usize) -> Result<(), Stop>
    ensures { result ≡ checked (items_at s.now at) }
{
    let count = octets::octet_at(s, at)? as usize + 1;
    let mut next = at + 1;
    for i in 0..count {
        if is_full(s, next) {
            next += 9;
        } else {
            next = item::item_element_at(s, next)?.next;
        }
    }
    octets::ends_at(s, next)
}

#[tactic(auto, using(crate::proofs::Reading::plain_in))]
fn whole_gate(s: &[u8], at: usize) -> Result<(), Stop>
    ensures { result ≡ checked (chosen_reset_at false s.now at) }
{
    octets::plain_at(s, at, 2)?;
    octets::pad_at(s, at, 3)?;
    octets::ends_at(s, at + 1)
}

#[tactic(auto, using(crate::proofs::Reading::pad_in))]
fn part_gate(s: &[u8], at: usize) -> Result<(), Stop>
    ensures { result ≡ checked (chosen_reset_at true s.now at) }
{
    octets::pad_at(s, at, 2)?;
    items_gate(s, at + 1)
}

// A Reset Type can be read, or why not. Nothing is kept of it.
#[tactic(auto, unfolding(items::specs::Items::reset_at))]
pub fn reset_gate(s: &[u8], at: usize) -> Result<(), Stop>
    ensures { result ≡ checked (reset_at s.now at) }
{
    octets::plain_at(s, at, 0)?;
    if octets::flag_at(s, at, 1)? {
        part_gate(s, at)
    } else {
        whole_gate(s, at)
    }
}

// n items from a place on, where they can be read, into the front of the words.
#[tactic(auto, using(crate::proofs::Reading::reading_stop, crate::proofs::Reading::reading_all, crate::proofs::Reading::worded_stop))]
fn words_from(s: &[u8], n: usize, from: usize, words: &mut [u64]) -> usize
    ensures { Filling (many (item_element_at s.now) n from) words.old words.new result }
{
    let mut next = from;
    let mut to = 0;
    for i in 0..n {
        match word_element_at(s, next) {
            Ok(p) => {
                to = octets::put(words, to, p.value);
                next = p.next;
            }
            Err(_) => return to,
        }
    }
    to
}

// A list of items into the front of the words, as far as they go; where it cannot be read they stay as they were.
#[tactic(auto, unfolding(items::specs::Items::items_at))]
pub fn items_into(s: &[u8], at: usize, words: &mut [u64]) -> Result<usize, Stop>
    ensures { Taking (items_at s.now at) words.old result words.new }
{
    items_gate(s, at)?;
    let n = octets::octet_at(s, at)? as usize + 1;
    words_from(s, n, at + 1, words);
    Ok(n)
}

fn whole_into(s: &[u8], at: usize) -> Result<Option<usize>, Stop>
    ensures { (l : List ℕ) → ResetTaking (chosen_reset_at false s.now at) l result l }
{
    whole_gate(s, at)?;
    Ok(None)
}

#[tactic(auto, using(crate::proofs::Reading::pad_in))]
fn part_into(s: &[u8], at: usize, words: &mut [u64]) -> Result<Option<usize>, Stop>
    ensures { ResetTaking (chosen_reset_at true s.now at) words.old result words.new }
{
    octets::pad_at(s, at, 2)?;
    let n = items_into(s, at + 1, words)?;
    Ok(Some(n))
}

// A Reset Type: the number of items of a part, which are put in the front of the words; none for the whole interface, and then the words stay as they were.
#[tactic(auto, unfolding(items::specs::Items::reset_at))]
pub fn reset_into(s: &[u8], at: usize, words: &mut [u64]) -> Result<Option<usize>, Stop>
    ensures { ResetTaking (reset_at s.now at) words.old result words.new }
{
    octets::plain_at(s, at, 0)?;
    if octets::flag_at(s, at, 1)? {
        part_into(s, at, words)
    } else {
        whole_into(s, at)
    }
}

// ---- written

// 1 for a number that says an identity, 0 for none.
pub fn there(n: u64) -> u8
    ensures { (result ≡ there_in n) × (result ≤ 1) }
{
    u8::from(n != 0)
}

// The identity that a half of a word says, if any.
fn put_half(room: &mut [u8], at: usize, n: u64) -> usize
    requires { at ≤ length room.old }
    ensures { Wrote room.old at (half_octets n) room.new result }
{
    if n == 0 {
        return at;
    }
    octets::put_two(room, at, ((n - 1) % 65536) as u16)
}

#[tactic(auto, unfolding(packed::specs::Packed::packed_in))]
fn crit_octet(crit: Criticality) -> u8
    ensures { result ≡ packed (2 bits crit_of crit ∷ []) }
{
    match crit {
        Criticality::Reject => 0,
        Criticality::Ignore => 64,
    }
}

// The item that a word says, in its envelope, octet by octet.
fn put_by_octets(room: &mut [u8], at: usize, crit: Criticality, w: u64) -> usize
    ensures { Wrote room.old at (item_element_octets (crit_of crit) (item_of w)) room.new result }
{
    let m = w % 4294967296;
    let c = w / 4294967296;
    let a = there(m);
    let b = there(c);
    let size = octets::put_three(room, at, 0, 14, crit_octet(crit));
    let marks = octets::put_octet(room, size, 1 + 2 * a + 2 * b);
    let mme = octets::put_octet(room, marks, 64 * a + 32 * b);
    let mce = put_half(room, mme, m);
    put_half(room, mce, c)
}

// Both halves say an identity, and the room has nine octets from here on.
fn is_nine(m: u64, c: u64, at: usize, room: usize) -> bool
    ensures { IfNine result m c at room }
{
    m != 0 && c != 0 && at < room && 9 <= room - at
}

// The nine octets of an item with both identities.
fn put_full(room: &mut [u8], at: usize, crit: u8, m: u16, c: u16) -> usize
    requires { at + 9 ≤ length room.old }
    ensures { Wrote room.old at (full_octets crit m c) room.new result }
{
    room[at..at + 9].copy_from_slice(&[
        0,
        14,
        crit,
        5,
        96,
        (m / 256) as u8,
        (m % 256) as u8,
        (c / 256) as u8,
        (c % 256) as u8,
    ]);
    at + 9
}

// The item that a word says, in its envelope, at once where it has both identities.
pub fn put_word_element(room: &mut [u8], at: usize, crit: Criticality, w: u64) -> usize
    ensures { Wrote room.old at (item_element_octets (crit_of crit) (item_of w)) room.new result }
{
    let m = w % 4294967296;
    let c = w / 4294967296;
    if is_nine(m, c, at, room.len()) {
        let mme = ((m - 1) % 65536) as u16;
        let mce = ((c - 1) % 65536) as u16;
        return put_full(room, at, crit_octet(crit), mme, mce);
    }
    put_by_octets(room, at, crit, w)
}

// The octets of the item that a word says, in its envelope of whatever criticality.
#[tactic(auto, using(crate::proofs::Written::word_length))]
fn word_size(w: u64) -> usize
    ensures { (crit : ℕ) → result ≡ length (item_element_octets crit (item_of w)) }
{
    let a = there(w % 4294967296);
    let b = there(w / 4294967296);
    usize::from(5 + 2 * a + 2 * b)
}

// A list of the items that words say.
pub fn put_words(room: &mut [u8], at: usize, crit: Criticality, words: &[u64]) -> usize
    ensures { Wrote room.old at (items_octets (crit_of crit) (map item_of words.now)) room.new result }
{
    let mut next = octets::put_octet(room, at, numbers::count_octet(words.len()));
    for w in words {
        next = put_word_element(room, next, crit, *w);
    }
    next
}

// The octets of such a list, of whatever criticality.
pub fn words_size(words: &[u64]) -> usize
    ensures { (crit : ℕ) → result ≡ length (items_octets crit (map item_of words.now)) }
{
    let mut size = 1;
    for w in words {
        size += word_size(*w);
    }
    size
}

// ---- items with an identity

// A word behind those that are kept, if its item has an identity.
fn keep_word(words: &mut [u64], kept: usize, w: u64) -> usize
    requires { kept ≤ length words.old }
    ensures { Wrote words.old kept (identified (w ∷ [])) words.new result }
{
    if w == 0 {
        return kept;
    }
    octets::put(words, kept, w)
}

// Of the first n words those of items with an identity, brought to the front in order; how many they are.
pub fn keep_identified(words: &mut [u64], n: usize) -> usize
    ensures { (result ≡ length (identified (take n words.old))) × (words.new ≡ sets words.old 0 (identified (take n words.old))) }
{
    let all = n.min(words.len());
    let mut kept = 0;
    for i in 0..all {
        let w = words[i];
        kept = keep_word(words, kept, w);
    }
    kept
}
