// The partial reset in about linear work: the items are chained by identity, and each association looks in two chains.
#![tactic(auto)]

ghost use Rattle.std.specs.Prelude.{◌&&◌, ◌≡◌, ◌<◌, ◌%◌, map, leb, length, replicate, take};
ghost use Rattle.lists.specs.Lists.{some};
ghost use Rattle.lent.specs.Lent.{first_rows};
ghost use Rattle.item_words.specs.Words.{item_of};
ghost use Rattle.table.specs.Table.{held, table_holding, named, without};
ghost use Rattle.reset.specs.Slots.{item_slot, names_in, Slotted, names_none};

use identity::{Identity, Item};
use table::{Association, Table};

// Where items with an identity are chained: by its low bits, in slots that both series share.
fn slot_of<I: Identity>(x: I) -> usize
    ensures { result ≡ I.number x % 4096 }
{
    usize::from(x.number()) % 4096
}

// Where an item is chained; 4,096 for nowhere.
#[tactic(auto, unfolding(crate::specs::Slots::item_slot))]
fn slot(item: Item) -> usize
    ensures { result ≡ item_slot item }
{
    match (item.mme, item.mce) {
        (Some(m), _) => slot_of(m),
        (None, Some(c)) => slot_of(c),
        (None, None) => 4096,
    }
}

// The chains of the items: each names the one before it in its slot.
fn chain(words: &[u64], head: &mut [u16; 4096], next: &mut [u16; 256])
    requires { (head.old ≡ replicate 4096 0) × (next.old ≡ replicate 256 0) }
    ensures { Slotted words.now head.new next.new }
{
    for i in 0..words.len().min(256) {
        let h = slot(item_words::item_of(words[i]));
        if h < 4096 {
            next[i] = head[h];
            head[h] = (i + 1) as u16;
        }
    }
}

// Some item in the slot names the association.
fn named_in(words: &[u64], head: &[u16; 4096], next: &[u16; 256], a: Association, h: usize) -> bool
    requires h_bound { h < 4096 }
    requires slotted { Slotted words.now head.now next.now }
    ensures { result ≡ some (names_in h a) (map item_of (take 256 words.now)) }
{
    let mut k = head[h];
    while 0 < k {
        let j = (k - 1) as usize;
        if table::names(item_words::item_of(words[j]), a) {
            return true;
        }
        k = next[j];
    }
    false
}

// Some item names the association.
fn named(words: &[u64], head: &[u16; 4096], next: &[u16; 256], a: Association) -> bool
    requires { Slotted words.now head.now next.now }
    ensures { result ≡ named (map item_of (take 256 words.now)) a }
{
    named_in(words, head, next, a, slot_of(a.mme)) || named_in(words, head, next, a, slot_of(a.mce))
}

// The words say up to four items, and none of these names one of the first n rows that are lent; more are not asked about here.
pub fn names_none(s: &[u8], n: usize, words: &[u64]) -> bool
    ensures { result ≡ (leb (length words.now) 4 && names_none (map item_of words.now) (first_rows n s.now)) }
{
    if 4 < words.len() {
        return false;
    }
    !words
        .iter()
        .any(|w| lent::names_row(s, n, item_words::item_of(*w)))
}

// The words say the items. All that some item names are removed, the others keep their order.
pub fn reset(t: Table, words: &[u64]) -> Table
    ensures { result ≡ table_holding (without (map item_of (take 256 words.now)) (held t)) }
{
    let mut head: [u16; 4096] = [0; 4096];
    let mut next: [u16; 256] = [0; 256];
    chain(words, &mut head, &mut next);
    let mut out = table::empty();
    let mut k = 0;
    for i in 0..t.count.min(256) {
        let a = t.rows[i];
        if !named(words, &head, &next, a) {
            out.rows[k] = a;
            k += 1;
        }
    }
    out.count = k;
    out
}
