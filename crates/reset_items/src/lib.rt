// The items that a message announces, as words: from where the value of each row of its table stands.
#![tactic(auto)]

ghost use Rattle.items.specs.Items.{items_at, reset_at};
ghost use Rattle.std.specs.Prelude.{◌∷◌, []};
ghost use Rattle.rows.specs.Table.{rows_in};
ghost use Rattle.octets.specs.Read.{or_none};
ghost use Rattle.item_words.specs.Taken.{part_items};
ghost use Rattle.meaning.specs.Reading.{value_in, values_in};
ghost use Rattle.layout.specs.Record.{lists_of};
ghost use Rattle.reset_items.specs.Items.{InFront};

use octets::Span;
use rows::{Kind, Rows};

// Those of a Reset Type: none where it says the whole interface.
fn part_items(s: &[u8], at: usize, words: &mut [u64]) -> usize
    ensures { InFront (part_items (reset_at s.now at)) words.old result words.new }
{
    match item_words::reset_into(s, at, words) {
        Ok(Some(n)) => n,
        Ok(None) | Err(_) => 0,
    }
}

fn list_items(s: &[u8], at: usize, words: &mut [u64]) -> usize
    ensures { InFront (or_none (items_at s.now at)) words.old result words.new }
{
    item_words::items_into(s, at, words).unwrap_or(0)
}

// Those of one value, by the kind of its row.
fn value_items(kind: Kind, s: &[u8], v: Span, words: &mut [u64]) -> usize
    ensures { InFront (lists_of (value_in kind s.now v ∷ [])).items words.old result words.new }
{
    if v.to == 0 {
        return 0;
    }
    let inside = &s[..v.to.min(s.len())];
    match kind {
        Kind::ResetType => part_items(inside, v.from, words),
        Kind::Acknowledged => list_items(inside, v.from, words),
        _ => 0,
    }
}

// How many items the values announce; they stand in the front of the words. A value that announces any has one at least.
pub fn items_in(t: Rows, s: &[u8], places: &[Span; 12], words: &mut [u64]) -> usize
    ensures { InFront (lists_of (values_in (rows_in t.entry) s.now places.now)).items words.old result words.new }
{
    for (r, v) in t.rows.iter().zip(places) {
        let n = value_items(r.kind, s, *v, words);
        if n != 0 {
            return n;
        }
    }
    0
}
