// The items of a record for C: two octets that say how many, a row of six octets for each, and zeros. They are put from where the items stand in a message,
// and taken from where they stand in the record, row by row through a word.
#![tactic(auto)]

ghost use Rattle.std.specs.Prelude.{◌≡◌, ◌&&◌, [], ℕ, ◌+◌, ◌*◌, ◌≤◌, length, get_or, drop};
ghost use Rattle.std.proofs.Math.Seq.{slice};
ghost use Rattle.octets.specs.Write.{Wrote};
ghost use Rattle.octets.specs.Read.{or_none};
ghost use Rattle.lent.specs.Lent.{same};
ghost use Rattle.lent.specs.Tests.{zeros};
ghost use Rattle.items.specs.Items.{items_at};
ghost use Rattle.items.specs.Written.{item_element_octets, items_octets};
ghost use Rattle.put_values.specs.Put.{crit_of};
ghost use Rattle.layout.specs.Rows.{mme_row, item_row, row_mme, row_item, list_octets};
ghost use Rattle.layout.specs.Record.{lists_in};
ghost use Rattle.item_words.specs.Words.{mme_number, word_of, mme_by, item_of};
ghost use Rattle.item_rows.specs.Tests.{half_good, item_rows_good, half_of};

use put_values::Criticality;

// ---- put

// A half of a word: 1 and the identity, or zeros.
#[tactic(auto, using(crate::proofs::Out::half_octets_lem))]
fn half_out(room: &mut [u8], at: usize, n: u64) -> usize
    ensures { Wrote room.old at (mme_row (mme_by n)) room.new result }
{
    if n == 0 {
        return octets::put_three(room, at, 0, 0, 0);
    }
    let v = (n - 1) % 65536;
    octets::put_three(room, at, 1, (v / 256) as u8, (v % 256) as u8)
}

// The row of the item that a word says.
fn row_out(room: &mut [u8], at: usize, w: u64) -> usize
    ensures { Wrote room.old at (item_row (item_of w)) room.new result }
{
    let next = half_out(room, at, w % 4294967296);
    half_out(room, next, w / 4294967296)
}

// The list of items at a place of a message, each put as it is read; zeros where it cannot be read.
pub fn items_out(room: &mut [u8], at: usize, s: &[u8], from: usize) -> usize
    ensures { Wrote room.old at (list_octets 1536 item_row (or_none (items_at s.now from))) room.new result }
{
    let n = match octets::octet_at(s, from) {
        Ok(v) => v as usize + 1,
        Err(_) => return octets::put_zeros(room, at, 1538),
    };
    let mut to = octets::put_two(room, at, n as u16);
    let mut next = from + 1;
    for i in 0..n {
        match item_words::word_element_at(s, next) {
            Ok(p) => {
                to = row_out(room, to, p.value);
                next = p.next;
            }
            Err(_) => return octets::put_zeros(room, at, 1538),
        }
    }
    match octets::ends_at(s, next) {
        Ok(()) => octets::put_zeros(room, to, 1536 - 6 * n),
        Err(_) => octets::put_zeros(room, at, 1538),
    }
}

// ---- judged

// 1 and any identity, or zeros.
#[tactic(auto, using(lent::proofs::Zeros::or_zero))]
fn half_good(flag: u8, high: u8, low: u8) -> bool
    ensures { result ≡ half_good flag high low }
{
    (flag == 1) | ((flag | high | low) == 0)
}

// The first n rows are those of items. The loop has no exit, so that the compiler takes several rows at a time.
#[tactic(auto, using(crate::proofs::Judged::good_more, crate::proofs::Judged::good_all))]
fn rows_good(p: &[u8], n: usize) -> bool
    requires { 6 * n ≤ length p.now }
    ensures { result ≡ item_rows_good n p.now }
{
    let mut good = true;
    for i in 0..n {
        let at = 6 * i;
        let mme = half_good(p[at], p[at + 1], p[at + 2]);
        let mce = half_good(p[at + 3], p[at + 4], p[at + 5]);
        good &= mme & mce;
    }
    good
}

// Octets are n rows of items and zeros behind them.
fn are_rows(p: &[u8], n: usize) -> bool
    requires { 6 * n ≤ length p.now }
    ensures { result ≡ (item_rows_good n p.now && zeros (drop (6 * n) p.now)) }
{
    rows_good(p, n) && lent::all_zero(&p[6 * n..])
}

// The octets of a record where its items stand are those of the items that they say.
pub fn are_items(s: &[u8]) -> bool
    ensures { result ≡ same (list_octets 1536 item_row (lists_in s.now).items) (slice 98 1636 s.now) }
{
    if s.len() < 1636 {
        return false;
    }
    let n = usize::from(u16::from_be_bytes([s[98], s[99]]));
    n <= 256 && are_rows(&s[100..1636], n)
}

// No items stand there: zeros.
pub fn no_items(s: &[u8]) -> bool
    ensures { result ≡ same (list_octets 1536 item_row []) (slice 98 1636 s.now) }
{
    1636 <= s.len() && lent::all_zero(&s[98..1636])
}

// ---- taken

// The half of a word that three octets say.
fn half_of(flag: u8, high: u8, low: u8) -> u64
    ensures { (result ≡ half_of flag high low) × (result ≤ 65536) }
{
    if flag == 0 {
        return 0;
    }
    u16::from_be_bytes([high, low]) as u64 + 1
}

fn half_in(s: &[u8], at: usize) -> u64
    requires { at ≤ 2000 }
    ensures { (result ≡ mme_number (row_mme (drop at s.now))) × (result ≤ 65536) }
{
    half_of(
        octets::octet_in(s, at),
        octets::octet_in(s, at + 1),
        octets::octet_in(s, at + 2),
    )
}

// The word of the item that a row says; the row is looked for once where all of it is there.
fn word_in(s: &[u8], at: usize) -> u64
    requires { at ≤ 1900 }
    ensures { result ≡ word_of (row_item (drop at s.now)) }
{
    if at + 6 <= s.len() {
        let mme = half_of(s[at], s[at + 1], s[at + 2]);
        let mce = half_of(s[at + 3], s[at + 4], s[at + 5]);
        return mme + mce * 4294967296;
    }
    half_in(s, at) + half_in(s, at + 3) * 4294967296
}

// The octets of that item in its envelope, of whatever criticality.
fn row_size(s: &[u8], at: usize) -> usize
    requires { at ≤ 1900 }
    ensures { ((crit : ℕ) → result ≡ length (item_element_octets crit (row_item (drop at s.now)))) × (result ≤ 9) }
{
    let a = item_words::there(octets::octet_in(s, at) as u64);
    let b = item_words::there(octets::octet_in(s, at + 3) as u64);
    usize::from(5 + 2 * a + 2 * b)
}

// How many items octets say, which need not be a record's.
#[tactic(auto, using(crate::proofs::Said::count_by))]
pub fn said_items(s: &[u8]) -> usize
    ensures { result ≡ length (lists_in s.now).items }
{
    (usize::from(u16::from_be_bytes([octets::octet_in(s, 98), octets::octet_in(s, 99)]))).min(256)
}

// The octets of their list in a message, of whatever criticality.
#[tactic(auto, using(crate::proofs::Said::said_small))]
pub fn said_size(s: &[u8]) -> usize
    ensures { (crit : ℕ) → result ≡ length (items_octets crit (lists_in s.now).items) }
{
    let n = said_items(s);
    let mut size = 1;
    for i in 0..n {
        size += row_size(s, 100 + 6 * i);
    }
    size
}

// Their list, as in a message.
#[tactic(auto, using(crate::proofs::Said::said_small))]
pub fn put_said(room: &mut [u8], at: usize, crit: Criticality, s: &[u8]) -> usize
    ensures { Wrote room.old at (items_octets (crit_of crit) (lists_in s.now).items) room.new result }
{
    let n = said_items(s);
    let mut next = octets::put_octet(room, at, numbers::less_one(n));
    for i in 0..n {
        next = item_words::put_word_element(room, next, crit, word_in(s, 100 + 6 * i));
    }
    next
}
