// Octets are a record's if they are those of what they say: each slot by its row's kind, zeros behind the last, and lists only where a slot announces them.
#![tactic(auto)]

ghost use Rattle.std.specs.Prelude.{◌≡◌, false, ◌+◌, ◌*◌, ◌≤◌, length, take, drop, Some};
ghost use Rattle.rows.specs.Table.{rows_in};
ghost use Rattle.layout.specs.Record.{name_refused};
ghost use Rattle.record_form.specs.BadNames.{name_bad, slot_bad, slots_bad};
ghost use Rattle.record_form.specs.Form.{mark_of, used_by, maybe_good, head_good, head_of, rest_good, slot_good, says_items, says_entries, form_from, items_part, entries_part, behind_slots, formed};

use editions::Edition;
use rows::{Kind, Rows};

// Whether a slot announces items, and whether one announces entries.
#[derive(Clone, Copy)]
struct Announced {
    items: bool,
    entries: bool,
}

// The first octet of a slot whose value is there: 1, or 2 for part of the interface.
fn mark_of(kind: Kind, there: u8) -> u8
    ensures { result ≡ mark_of kind there }
{
    match kind {
        Kind::ResetType if there == 2 => 2,
        _ => 1,
    }
}

// How many octets of a slot its value uses, with the first.
fn used_by(kind: Kind) -> usize
    ensures { result ≡ used_by kind }
{
    match kind {
        Kind::ResetType | Kind::Acknowledged => 1,
        Kind::OneOctet | Kind::Wait => 2,
        Kind::Mme | Kind::Mce | Kind::TwoOctets | Kind::Cause => 3,
        Kind::Carried | Kind::Name => 5,
        Kind::Tmgi => 7,
        Kind::Diagnostics(_) => 8,
    }
}

// 1 and a number, or 0 and 0.
fn is_maybe(there: u8, v: u8) -> bool
    ensures { result ≡ maybe_good there v }
{
    if there == 0 { v == 0 } else { there == 1 }
}

// The slot of the row at k.
fn slot_at(s: &[u8], k: usize) -> &[u8; 8]
    requires { 10 + 8 * k ≤ length s.now }
    ensures { result.now ≡ take 8 (drop (2 + 8 * k) s.now) }
{
    s[2 + 8 * k..].first_chunk().unwrap()
}

// Procedure code, triggering message, criticality, and whether there is a list.
#[tactic(auto, unfolding(crate::specs::Form::head_good))]
fn is_head(p: &[u8; 8]) -> bool
    ensures { result ≡ head_good p.now }
{
    is_maybe(p[1], p[2]) && is_maybe(p[3], p[4]) && is_maybe(p[5], p[6]) && p[7] < 2
}

fn is_head_of(kind: Kind, p: &[u8; 8]) -> bool
    ensures { result ≡ head_of kind p.now }
{
    match kind {
        Kind::Diagnostics(_) => is_head(p),
        _ => true,
    }
}

// What a slot has behind its first octet, where its value is there.
#[tactic(auto, unfolding(crate::specs::Form::rest_good))]
fn is_rest(kind: Kind, p: &[u8; 8]) -> bool
    ensures { result ≡ rest_good kind p.now }
{
    lent::all_zero(&p[used_by(kind)..]) && is_head_of(kind, p)
}

fn is_slot(kind: Kind, p: &[u8; 8]) -> bool
    ensures { result ≡ slot_good kind p.now }
{
    let there = p[0];
    if there == 0 {
        return lent::all_zero(p);
    }
    there == mark_of(kind, there) && is_rest(kind, p)
}

// A part of the interface, or an acknowledgement.
fn says_items(kind: Kind, there: u8) -> bool
    ensures { result ≡ says_items kind there }
{
    match kind {
        Kind::ResetType => there == 2,
        Kind::Acknowledged => there != 0,
        _ => false,
    }
}

// Diagnostics with a list.
fn says_entries(kind: Kind, there: u8, listed: u8) -> bool
    ensures { result ≡ says_entries kind there listed }
{
    match kind {
        Kind::Diagnostics(_) => there != 0 && listed != 0,
        _ => false,
    }
}

// What the slots announce, if they are a record's.
fn form_of(rows: Rows, s: &[u8]) -> Option<Announced>
    requires { length s.now ≡ 2662 }
    ensures { result ≡ form_from false false (rows_in rows.entry) (drop 2 s.now) }
{
    let mut items = false;
    let mut entries = false;
    for (i, row) in rows.rows.iter().enumerate() {
        let slot = slot_at(s, i);
        if !is_slot(row.kind, slot) {
            return None;
        }
        items |= says_items(row.kind, slot[0]);
        entries |= says_entries(row.kind, slot[0], slot[7]);
    }
    Some(Announced { items, entries })
}

// The items that a slot announces, or none.
fn is_items_part(said: bool, s: &[u8]) -> bool
    ensures { result ≡ items_part s.now said }
{
    if said {
        item_rows::are_items(s)
    } else {
        item_rows::no_items(s)
    }
}

// The entries that a slot announces, or none.
fn is_entries_part(said: bool, s: &[u8]) -> bool
    ensures { result ≡ entries_part s.now said }
{
    if said {
        entry_rows::are_entries(s)
    } else {
        entry_rows::no_entries_said(s)
    }
}

// What stands behind the slots of n rows.
fn is_behind(n: usize, s: &[u8], announced: Announced) -> bool
    requires { (n ≤ 12) × (length s.now ≡ 2662) }
    ensures { result ≡ behind_slots n s.now (Some announced) }
{
    if !lent::all_zero(&s[2 + 8 * n..98]) {
        return false;
    }
    is_items_part(announced.items, s) && is_entries_part(announced.entries, s)
}

// Octets are those of a record of this table, behind the first two.
pub fn is_formed(rows: Rows, s: &[u8]) -> bool
    ensures { result ≡ formed (rows_in rows.entry) s.now }
{
    if s.len() != 2662 {
        return false;
    }
    match form_of(rows, s) {
        Some(announced) => is_behind(rows.rows.len(), s, announced),
        None => false,
    }
}

// ---- names

// The slot's name is there, and is not allowed.
fn is_name_bad(p: &[u8; 8], values: &[u8]) -> bool
    ensures { result ≡ name_bad values.now p.now }
{
    if p[0] == 0 {
        return false;
    }
    let from = usize::from(u16::from_be_bytes([p[1], p[2]]));
    let size = usize::from(u16::from_be_bytes([p[3], p[4]]));
    !names::is_name(values, from, from + size)
}

fn is_slot_bad(kind: Kind, p: &[u8; 8], values: &[u8]) -> bool
    ensures { result ≡ slot_bad values.now kind p.now }
{
    match kind {
        Kind::Name => is_name_bad(p, values),
        _ => false,
    }
}

fn are_slots_bad(rows: Rows, s: &[u8], values: &[u8]) -> bool
    requires { length s.now ≡ 2662 }
    ensures { result ≡ slots_bad values.now (rows_in rows.entry) (drop 2 s.now) }
{
    for (i, row) in rows.rows.iter().enumerate() {
        if is_slot_bad(row.kind, slot_at(s, i), values) {
            return true;
        }
    }
    false
}

// A record one of whose values is a name that is not allowed. Only where there is one is it asked whether the octets are a record.
pub fn name_refused(e: Edition, s: &[u8], values: &[u8]) -> bool
    ensures { result ≡ name_refused e s.now values.now }
{
    if s.len() != 2662 {
        return false;
    }
    let Some(m) = editions::numbered(e, s[0]) else {
        return false;
    };
    let rows = editions::rows_of(e, m);
    are_slots_bad(rows, s, values) && is_formed(rows, s)
}
