// A message, written from the octets of a record that are lent, row by row of its table, by the row's kind: nothing is made of them first.
#![tactic(auto)]

ghost use Rattle.std.specs.Prelude.{◌≡◌, true, ℕ, ◌+◌, ◌*◌, ◌<◌, ◌≤◌, length, take, drop, get_or};
ghost use Rattle.lists.specs.Lists.{pick};
ghost use Rattle.octets.specs.Field.{value_at};
ghost use Rattle.octets.specs.Write.{Wrote};
ghost use Rattle.rows.specs.Table.{rows_in};
ghost use Rattle.items.specs.Items.{part};
ghost use Rattle.items.specs.Written.{reset_octets};
ghost use Rattle.diagnostics.specs.Written.{diagnostics_octets};
ghost use Rattle.meaning.specs.Value.{octets_in, cause, wait, name, reset, list, diagnostics};
ghost use Rattle.meaning.specs.Written.{is_list_length, under, entries_good, octets_of, element_octets};
ghost use Rattle.layout.specs.Record.{lists_in, place_in, head_in, written};
ghost use Rattle.plan.specs.Plan.{size_of, size_given, sizes_of, elements_to};
ghost use Rattle.plan.specs.Written.{written_in, Writes};
ghost use Rattle.put_message.specs.Said.{cause_in, tmgi_in, number_by, said_items, reset_type_by, diagnostics_by, value_by, given_by, said_in, Ready, encoded_as};

use diagnostics::Head;
use editions::{Edition, Message};
use identity::{Plmn, Service, Tmgi};
use octets::Span;
use plan::{Unwritten, Written};
use put_values::Criticality;
use rows::{Kind, Row, Rows, Triggers};
use values::Cause;

// ---- what a slot says

// The number of two octets.
fn two_at(p: &[u8; 8], at: usize) -> u16
    requires { at < 7 }
    ensures { result ≡ value_at 2 p.now at }
{
    u16::from_be_bytes([p[at], p[at + 1]])
}

// The place of a carried value, or of a name.
fn span_in(p: &[u8; 8]) -> Span
    ensures { result ≡ place_in p.now }
{
    let from = usize::from(two_at(p, 1));
    let size = usize::from(two_at(p, 3));
    Span {
        from,
        to: from + size,
    }
}

fn cause_in(p: &[u8; 8]) -> Cause
    ensures { result ≡ cause_in p.now }
{
    Cause {
        group: p[1],
        value: p[2],
    }
}

fn tmgi_in(p: &[u8; 8]) -> Tmgi
    ensures { result ≡ tmgi_in p.now }
{
    Tmgi {
        plmn: Plmn(p[1], p[2], p[3]),
        service: Service(p[4], p[5], p[6]),
    }
}

fn number_of(there: u8, v: u8) -> Option<u8>
    ensures { result ≡ number_by there v }
{
    (there != 0).then_some(v)
}

fn head_in(p: &[u8; 8]) -> Head
    ensures { result ≡ head_in p.now }
{
    Head {
        code: number_of(p[1], p[2]),
        trigger: number_of(p[3], p[4]),
        crit: number_of(p[5], p[6]),
        listed: p[7] != 0,
    }
}

// The octets from the first up to the last, if they lie in values.
fn carried(values: &[u8], v: Span) -> &[u8]
    ensures { result.now ≡ octets_in values.now v }
{
    values.get(v.from..v.to).unwrap_or(&[])
}

// ---- sizes: 0 says that a value has no octets

#[tactic(auto, unfolding(plan::specs::Plan::size_of, meaning::specs::Written::has_octets, meaning::specs::Written::octets_of, values::specs::Written::wait_octets))]
fn wait_size(v: u8) -> usize
    ensures { result ≡ size_of (wait v) }
{
    usize::from(v < 6)
}

// Two octets in front of the characters.
fn name_size(values: &[u8], v: Span) -> usize
    ensures { result ≡ size_of (name (octets_in values.now v)) }
{
    if names::is_name(values, v.from, v.to) {
        2 + (v.to - v.from)
    } else {
        0
    }
}

// The acknowledgement's items.
fn list_size(s: &[u8]) -> usize
    ensures { result ≡ size_of (list (said_items s.now)) }
{
    if plan::fits_a_list(item_rows::said_items(s)) {
        item_rows::said_size(s)
    } else {
        0
    }
}

fn part_size(s: &[u8]) -> usize
    ensures { result ≡ size_of (reset (part (said_items s.now))) }
{
    if plan::fits_a_list(item_rows::said_items(s)) {
        1 + item_rows::said_size(s)
    } else {
        0
    }
}

#[tactic(auto, using(crate::proofs::Sizes::whole_size))]
fn reset_size(there: u8, s: &[u8]) -> usize
    ensures { result ≡ size_of (reset (reset_type_by there (said_items s.now))) }
{
    if there == 2 { part_size(s) } else { 1 }
}

// The entries count only where a list is there.
fn is_list_good(listed: bool, s: &[u8]) -> bool
    ensures { result ≡ pick listed (entries_good (lists_in s.now).entries) true }
{
    !listed || entry_rows::are_said_good(s)
}

fn diagnostics_size(t: Triggers, head: Head, s: &[u8]) -> usize
    ensures { result ≡ size_of (diagnostics t (diagnostics_by head s.now)) }
{
    if !plan::is_under(rows::meanings(t), head.trigger) {
        return 0;
    }
    if !plan::is_under(3, head.crit) {
        return 0;
    }
    if !is_list_good(head.listed, s) {
        return 0;
    }
    put_diagnostics::listed_size(head, entry_rows::said_entries(s))
}

#[tactic(auto, using(crate::proofs::Sizes::carried_size, plan::proofs::Sizes::mme_size, plan::proofs::Sizes::mce_size, crate::proofs::Sizes::tmgi_size, crate::proofs::Sizes::one_size, crate::proofs::Sizes::two_size), unfolding(crate::specs::Said::value_by, layout::specs::Record::slot_says, meaning::specs::Value::on_carried))]
fn value_size(kind: Kind, p: &[u8; 8], s: &[u8], values: &[u8]) -> usize
    ensures { result ≡ size_of (value_by values.now s.now kind p.now) }
{
    match kind {
        Kind::Carried => carried(values, span_in(p)).len(),
        Kind::Mme | Kind::Mce | Kind::TwoOctets => 2,
        Kind::Tmgi => 7,
        Kind::OneOctet => 1,
        Kind::Cause => plan::cause_size(cause_in(p)),
        Kind::Wait => wait_size(p[1]),
        Kind::Name => name_size(values, span_in(p)),
        Kind::ResetType => reset_size(p[0], s),
        Kind::Acknowledged => list_size(s),
        Kind::Diagnostics(t) => diagnostics_size(t, head_in(p), s),
    }
}

#[tactic(auto, unfolding(crate::specs::Said::given_by, plan::specs::Plan::size_given))]
fn slot_size(kind: Kind, p: &[u8; 8], s: &[u8], values: &[u8]) -> usize
    ensures { result ≡ size_given (given_by values.now s.now kind p.now) }
{
    if p[0] == 0 {
        return 0;
    }
    plan::fit(value_size(kind, p, s, values))
}

// The slot of the row at k.
fn slot_at(s: &[u8], k: usize) -> &[u8; 8]
    requires { 10 + 8 * k ≤ length s.now }
    ensures { result.now ≡ take 8 (drop (2 + 8 * k) s.now) }
{
    s[2 + 8 * k..].first_chunk().unwrap()
}

fn sizes_of(rows: Rows, s: &[u8], values: &[u8]) -> [usize; 12]
    requires { length s.now ≡ 2662 }
    ensures { result ≡ sizes_of (said_in values.now s.now (rows_in rows.entry)) }
{
    let mut sizes = [0; 12];
    for (i, row) in rows.rows.iter().enumerate() {
        sizes[i] = slot_size(row.kind, slot_at(s, i), s, values);
    }
    sizes
}

// ---- octets

fn put_reset(room: &mut [u8], at: usize, there: u8, s: &[u8]) -> usize
    ensures { Wrote room.old at (reset_octets (reset_type_by there (said_items s.now))) room.new result }
{
    if there != 2 {
        return octets::put_octet(room, at, 0);
    }
    let first = octets::put_octet(room, at, 64);
    item_rows::put_said(room, first, Criticality::Reject, s)
}

// The entries stand as words for as long as they are put.
fn put_list(room: &mut [u8], at: usize, head: Head, s: &[u8]) -> usize
    ensures { Wrote room.old at (diagnostics_octets (diagnostics_by head s.now)) room.new result }
{
    let mut words = [0; 256];
    let n = entry_rows::entries_said(s, &mut words);
    put_diagnostics::put_listed(room, at, head, &words[..n])
}

fn put_diagnostics(room: &mut [u8], at: usize, head: Head, s: &[u8]) -> usize
    ensures { Wrote room.old at (diagnostics_octets (diagnostics_by head s.now)) room.new result }
{
    if head.listed {
        return put_list(room, at, head, s);
    }
    put_diagnostics::put_listed(room, at, head, &[])
}

#[tactic(auto, unfolding(crate::specs::Said::value_by, layout::specs::Record::slot_says, meaning::specs::Value::on_carried, meaning::specs::Written::octets_of))]
fn put_value(room: &mut [u8], at: usize, kind: Kind, p: &[u8; 8], s: &[u8], values: &[u8]) -> usize
    ensures { Wrote room.old at (octets_of (value_by values.now s.now kind p.now)) room.new result }
{
    match kind {
        Kind::Carried => octets::put_octets(room, at, carried(values, span_in(p))),
        Kind::Mme | Kind::Mce | Kind::TwoOctets => octets::put_two(room, at, two_at(p, 1)),
        Kind::Tmgi => put_values::put_tmgi(room, at, tmgi_in(p)),
        Kind::OneOctet => put_values::put_one(room, at, p[1]),
        Kind::Cause => put_values::put_cause(room, at, cause_in(p)),
        Kind::Wait => put_values::put_wait(room, at, p[1]),
        Kind::Name => {
            let v = span_in(p);
            names::put_name(room, at, values, v.from, v.to)
        }
        Kind::ResetType => put_reset(room, at, p[0], s),
        Kind::Acknowledged => item_rows::put_said(room, at, Criticality::Ignore, s),
        Kind::Diagnostics(_) => put_diagnostics(room, at, head_in(p), s),
    }
}

// An element; nothing where the size says that there is no value.
fn put_row(
    room: &mut [u8],
    at: usize,
    row: Row,
    size: usize,
    p: &[u8; 8],
    s: &[u8],
    values: &[u8],
) -> usize
    requires { (at ≤ length room.old) × (row.crit < 4) × (size ≡ size_given (given_by values.now s.now row.kind p.now)) × (size ≤ 8192) }
    ensures { Wrote room.old at (element_octets row (given_by values.now s.now row.kind p.now)) room.new result }
{
    if size == 0 {
        return at;
    }
    let value = plan::put_front(room, at, row.id, row.crit, size);
    put_value(room, value, row.kind, p, s, values)
}

// The elements, row by row.
fn put_rows(
    room: &mut [u8],
    at: usize,
    rows: Rows,
    sizes: &[usize; 12],
    s: &[u8],
    values: &[u8],
) -> usize
    requires { (at ≤ length room.old) × (length s.now ≡ 2662) × ((i : ℕ) → i < length (rows_in rows) → Ready values.now s.now (rows_in rows) sizes.now i) }
    ensures { Wrote room.old at (elements_to (rows_in rows.entry) (said_in values.now s.now (rows_in rows.entry)) (length (rows_in rows.entry))) room.new result }
{
    let mut next = at;
    for (i, row) in rows.rows.iter().enumerate() {
        let slot = slot_at(s, i);
        next = put_row(room, next, *row, sizes[i], slot, s, values);
    }
    next
}

fn write_as(e: Edition, m: Message, s: &[u8], values: &[u8], room: &mut [u8]) -> Written
    requires { length s.now ≡ 2662 }
    ensures { Writes (written_in room.old (encoded_as e m s.now values.now)) result room.new }
{
    let rows = editions::rows_of(e, m);
    if !record_form::is_formed(rows, s) {
        return Err(Unwritten::NotWritten);
    }
    let sizes = sizes_of(rows, s, values);
    let first = plan::begin(room, editions::code_of(e, m), plan::plan_of(rows, &sizes))?;
    Ok(put_rows(room, first, rows, &sizes, s, values))
}

// The octets of the message that a lent record says with the octets lent beside it. 11 comes before 10.
pub fn write(e: Edition, s: &[u8], values: &[u8], room: &mut [u8]) -> Written
    ensures { Writes (written_in room.old (written e s.now values.now)) result room.new }
{
    if s.len() != 2662 {
        return Err(Unwritten::NotWritten);
    }
    if 2 < s[1] {
        return Err(Unwritten::NotWritten);
    }
    let m = editions::numbered(e, s[0]).ok_or(Unwritten::NotWritten)?;
    write_as(e, m, s, values, room)
}
