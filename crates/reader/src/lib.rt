// Octets read as a message, and its record put straight into the room that is lent: row by row, from where each value stands, by the row's kind.
// A slot is made only behind the judging, which has seen that the value can be read.
#![tactic(auto)]

ghost use Rattle.std.specs.Prelude.{◌≡◌, ◌∷◌, [], ◌+◌, ◌-◌, ◌≤◌, length, take, Some};
ghost use Rattle.lists.specs.Lists.{fill};
ghost use Rattle.octets.specs.Many.{each_octets};
ghost use Rattle.octets.specs.Write.{number_octets, Wrote};
ghost use Rattle.values.specs.Values.{tmgi_at, one_at, two_at, cause_at, wait_at};
ghost use Rattle.names.specs.Names.{name_at};
ghost use Rattle.items.specs.Items.{items_at, reset_at};
ghost use Rattle.diagnostics.specs.Diagnostics.{diagnostics_at};
ghost use Rattle.rows.specs.Table.{rows_in, meanings};
ghost use Rattle.meaning.specs.Value.{given, absent, tmgi, one, two, cause, wait, name, reset, diagnostics};
ghost use Rattle.meaning.specs.Reading.{read_as, or_absent, value_in, values_in};
ghost use Rattle.editions.specs.Editions.{table_of, container_of, named_by};
ghost use Rattle.verdicts.specs.Verdict.{opened_at, verdict_of, every, read_of};
ghost use Rattle.layout.specs.Rows.{item_row, entry_row, list_octets};
ghost use Rattle.layout.specs.Record.{number_slot_octets, head_slot_octets, place_octets, lists_of, slot_octets};
ghost use Rattle.verdicts.specs.declared.Refusal.TheVariants.{Stopped};
ghost use Rattle.reader.specs.declared.Unread.TheVariants.{Refused};
ghost use Rattle.reader.specs.Reader.{Answers};
ghost use Rattle.reader.specs.Steps.{Got, ResetIs, given_read, slot_by, Legible, IfPresent, AllLegible, ItemsBegin, EntriesBegin, PutIn};

use diagnostics::Head;
use editions::{Edition, Message};
use frames::Frame;
use identity::Tmgi;
use octets::{Span, Stop};
use rows::{Kind, Rows, Triggers};
use verdicts::{Outcome, Refusal};

// Why nothing is put.
#[derive(Clone, Copy)]
pub enum Unread {
    // 1 to 4
    Refused(Refusal),
    // 10: understood, and the room is too small
    NoRoom,
}

impl From<Stop> for Unread {
    ghost from_gives = { λ x r. r ≡ Refused (Stopped x) };

    fn from(x: Stop) -> Unread {
        Unread::Refused(Refusal::Stopped(x))
    }
}

// ---- a slot

// The slot of a value that is not there.
const ABSENT: [u8; 8] = [0; 8];

// An identity, or another number of two octets.
#[tactic(auto, using(crate::proofs::Slots::number_cut))]
fn number_slot(v: u16) -> [u8; 8]
    ensures { result ≡ fill 0 8 (1 ∷ number_octets 2 v) }
{
    let [high, low] = v.to_be_bytes();
    [1, high, low, 0, 0, 0, 0, 0]
}

// A carried value, or a name: its place, and how many octets it has.
#[tactic(auto, using(crate::proofs::Slots::number_cut))]
fn place_slot(v: Span) -> [u8; 8]
    ensures { result ≡ fill 0 8 (1 ∷ place_octets v) }
{
    let from = v.from;
    let n = v.to.saturating_sub(from);
    [
        1,
        (from / 256 % 256) as u8,
        (from % 256) as u8,
        (n / 256 % 256) as u8,
        (n % 256) as u8,
        0,
        0,
        0,
    ]
}

// Whether a number is there, and which.
fn pair_of(x: Option<u8>) -> (u8, u8)
    ensures { number_slot_octets x ≡ result.0 ∷ result.1 ∷ [] }
{
    match x {
        Some(v) => (1, v),
        None => (0, 0),
    }
}

fn head_slot(h: Head) -> [u8; 8]
    ensures { result ≡ fill 0 8 (1 ∷ head_slot_octets h) }
{
    let code = pair_of(h.code);
    let trigger = pair_of(h.trigger);
    let crit = pair_of(h.crit);
    [
        1,
        code.0,
        code.1,
        trigger.0,
        trigger.1,
        crit.0,
        crit.1,
        u8::from(h.listed),
    ]
}

// Only the first octet is not 0.
fn first_slot(x: u8) -> [u8; 8]
    ensures { result ≡ fill 0 8 (x ∷ []) }
{
    [x, 0, 0, 0, 0, 0, 0, 0]
}

// ---- a value of each kind, which ends with the octets

#[tactic(auto, unfolding(layout::specs::Record::slot_of))]
fn tmgi_slot(s: &[u8], from: usize) -> [u8; 8]
    ensures { result ≡ slot_by tmgi (tmgi_at s.now from) }
{
    match values::tmgi_at(s, from) {
        Ok(Tmgi { plmn, service }) => [
            1, plmn.0, plmn.1, plmn.2, service.0, service.1, service.2, 0,
        ],
        Err(_) => ABSENT,
    }
}

#[tactic(auto, unfolding(layout::specs::Record::slot_of))]
fn one_slot(s: &[u8], from: usize) -> [u8; 8]
    ensures { result ≡ slot_by one (one_at s.now from) }
{
    match values::one_at(s, from) {
        Ok(v) => [1, v, 0, 0, 0, 0, 0, 0],
        Err(_) => ABSENT,
    }
}

// An identity of either series too.
#[tactic(auto, unfolding(layout::specs::Record::slot_of))]
fn two_slot(s: &[u8], from: usize) -> [u8; 8]
    ensures { result ≡ slot_by two (two_at s.now from) }
{
    match values::two_at(s, from) {
        Ok(v) => number_slot(v),
        Err(_) => ABSENT,
    }
}

#[tactic(auto, unfolding(layout::specs::Record::slot_of))]
fn cause_slot(s: &[u8], from: usize) -> [u8; 8]
    ensures { result ≡ slot_by cause (cause_at s.now from) }
{
    match values::cause_at(s, from) {
        Ok(v) => [1, v.group, v.value, 0, 0, 0, 0, 0],
        Err(_) => ABSENT,
    }
}

#[tactic(auto, unfolding(layout::specs::Record::slot_of))]
fn wait_slot(s: &[u8], from: usize) -> [u8; 8]
    ensures { result ≡ slot_by wait (wait_at s.now from) }
{
    match values::wait_at(s, from) {
        Ok(v) => [1, v, 0, 0, 0, 0, 0, 0],
        Err(_) => ABSENT,
    }
}

#[tactic(auto, unfolding(layout::specs::Record::slot_of))]
fn name_slot(s: &[u8], from: usize) -> [u8; 8]
    ensures { result ≡ slot_by name (name_at s.now from) }
{
    match names::name_at(s, from) {
        Ok(v) => place_slot(v),
        Err(_) => ABSENT,
    }
}

// Where it can be read, its second bit says whether it is a part of the interface.
fn is_part(s: &[u8], from: usize) -> bool
    requires { Got (reset_at s.now from) }
    ensures { ResetIs result (reset_at s.now from) (items_at s.now (from + 1)) }
{
    octets::flag_at(s, from, 1).unwrap_or(false)
}

#[tactic(auto, unfolding(layout::specs::Record::slot_of))]
fn reset_slot(s: &[u8], from: usize) -> [u8; 8]
    requires { Got (reset_at s.now from) }
    ensures { result ≡ slot_by reset (reset_at s.now from) }
{
    first_slot(if is_part(s, from) { 2 } else { 1 })
}

#[tactic(auto, unfolding(layout::specs::Record::slot_of))]
fn diagnostics_slot(t: Triggers, s: &[u8], from: usize) -> [u8; 8]
    requires { Got (diagnostics_at (meanings t) s.now from) }
    ensures { result ≡ slot_by (diagnostics t) (diagnostics_at (meanings t) s.now from) }
{
    match diagnostics::head_at(rows::meanings(t), s, from) {
        Ok(read) => head_slot(read.value),
        Err(_) => ABSENT,
    }
}

// ---- the slot of a row

#[tactic(auto, unfolding(meaning::specs::Reading::read_as, layout::specs::Record::slot_of))]
fn value_slot(kind: Kind, s: &[u8], v: Span) -> [u8; 8]
    requires { Legible kind s.now v }
    ensures { result ≡ slot_octets (or_absent (read_as kind s.now v)) }
{
    let inside = &s[..v.to];
    let from = v.from;
    match kind {
        Kind::Carried => place_slot(v),
        Kind::Tmgi => tmgi_slot(inside, from),
        Kind::OneOctet => one_slot(inside, from),
        Kind::Mme | Kind::Mce | Kind::TwoOctets => two_slot(inside, from),
        Kind::Cause => cause_slot(inside, from),
        Kind::Wait => wait_slot(inside, from),
        Kind::Name => name_slot(inside, from),
        Kind::ResetType => reset_slot(inside, from),
        Kind::Acknowledged => first_slot(1),
        Kind::Diagnostics(t) => diagnostics_slot(t, inside, from),
    }
}

#[tactic(auto, unfolding(meaning::specs::Reading::value_in))]
fn slot(kind: Kind, s: &[u8], v: Span) -> [u8; 8]
    requires { IfPresent kind s.now v }
    ensures { result ≡ slot_octets (value_in kind s.now v) }
{
    if v.to == 0 {
        return ABSENT;
    }
    value_slot(kind, s, v)
}

// ---- the slots of all rows

fn put_slot(room: &mut [u8], at: usize, slot: [u8; 8]) -> usize
    requires { at + 8 ≤ length room.old }
    ensures { Wrote room.old at slot room.new result }
{
    room[at..at + 8].copy_from_slice(&slot);
    at + 8
}

fn put_slots(room: &mut [u8], at: usize, t: Rows, s: &[u8], places: &[Span; 12]) -> usize
    requires room { at + 96 ≤ length room.old }
    requires values { AllLegible (rows_in t) s.now places.now }
    ensures { Wrote room.old at (fill 0 96 (each_octets slot_octets (values_in (rows_in t.entry) s.now places.now))) room.new result }
{
    let mut next = at;
    for (r, v) in t.rows.iter().zip(places) {
        next = put_slot(room, next, slot(r.kind, s, *v));
    }
    octets::put_zeros(room, next, 96 - 8 * t.rows.len())
}

// ---- the lists that values announce

// Where the items of a Reset Type or of an acknowledgement begin, if there are any.
fn items_from(kind: Kind, s: &[u8], v: Span) -> Option<usize>
    requires { IfPresent kind s.now v }
    ensures { ItemsBegin (value_in kind s.now v) (take v.to s.now) result }
{
    if v.to == 0 {
        return None;
    }
    match kind {
        Kind::ResetType => is_part(&s[..v.to], v.from).then_some(v.from + 1),
        Kind::Acknowledged => Some(v.from),
        _ => None,
    }
}

fn put_items(room: &mut [u8], at: usize, t: Rows, s: &[u8], places: &[Span; 12]) -> usize
    requires { AllLegible (rows_in t) s.now places.now }
    ensures { Wrote room.old at (list_octets 1536 item_row (lists_of (values_in (rows_in t.entry) s.now places.now)).items) room.new result }
{
    for (r, v) in t.rows.iter().zip(places) {
        if let Some(from) = items_from(r.kind, s, *v) {
            return item_rows::items_out(room, at, &s[..v.to], from);
        }
    }
    octets::put_zeros(room, at, 1538)
}

// Behind the fields of Criticality Diagnostics that have a list.
fn list_from(t: Triggers, s: &[u8], from: usize) -> Option<usize>
    requires { Got (diagnostics_at (meanings t) s.now from) }
    ensures { EntriesBegin (given_read (diagnostics t) (diagnostics_at (meanings t) s.now from)) s.now result }
{
    let read = diagnostics::head_at(rows::meanings(t), s, from).ok()?;
    read.value.listed.then_some(read.next)
}

// Where the entries of Criticality Diagnostics begin, if there are any.
fn entries_from(kind: Kind, s: &[u8], v: Span) -> Option<usize>
    requires { IfPresent kind s.now v }
    ensures { EntriesBegin (value_in kind s.now v) (take v.to s.now) result }
{
    if v.to == 0 {
        return None;
    }
    match kind {
        Kind::Diagnostics(t) => list_from(t, &s[..v.to], v.from),
        _ => None,
    }
}

fn put_entries(room: &mut [u8], at: usize, t: Rows, s: &[u8], places: &[Span; 12]) -> usize
    requires { AllLegible (rows_in t) s.now places.now }
    ensures { Wrote room.old at (list_octets 1024 entry_row (lists_of (values_in (rows_in t.entry) s.now places.now)).entries) room.new result }
{
    for (r, v) in t.rows.iter().zip(places) {
        if let Some(from) = entries_from(r.kind, s, *v) {
            return entry_rows::entries_out(room, at, true, &s[..v.to], from);
        }
    }
    octets::put_zeros(room, at, 1026)
}

// ---- the record

fn put_record(
    room: &mut [u8],
    e: Edition,
    m: Message,
    crit: u8,
    t: Rows,
    s: &[u8],
    places: &[Span; 12],
)
    requires room { 2662 ≤ length room.old }
    requires values { AllLegible (rows_in t) s.now places.now }
    ensures { PutIn e (record { message = m; crit = crit; values = values_in (rows_in t.entry) s.now places.now }) room.old room.new }
{
    let number = editions::number_of(e, m);
    let next = octets::put_octet(room, 0, number);
    let rows = octets::put_octet(room, next, crit);
    let items = put_slots(room, rows, t, s, places);
    let entries = put_items(room, items, t, s, places);
    put_entries(room, entries, t, s, places);
}

fn read_inside(
    e: Edition,
    m: Message,
    f: Frame,
    s: &[u8],
    room: &mut [u8],
) -> Result<Outcome, Unread>
    requires length { length s.now ≤ 8192 }
    requires named { named_by e f.kind f.code ≡ Some m }
    ensures { Answers e (verdict_of (table_of e m) m f s.now (opened_at (table_of e m) (container_of e m) s.now f.from)) room.old result room.new }
{
    let c = editions::has_container(e, m);
    let t = editions::rows_of(e, m);
    let mut places = [octets::NOWHERE; 12];
    let o = judging::opened_at(t, c, s, f.from, &mut places)?;
    if room.len() < 2662 {
        return Err(Unread::NoRoom);
    }
    put_record(room, e, m, f.crit, t, s, &places);
    Ok(o.outcome)
}

// The message's record into the front of the room, if the octets are one of the edition's messages and the room is large enough.
pub fn read(e: Edition, s: &[u8], room: &mut [u8]) -> Result<Outcome, Unread>
    ensures { Answers e (read_of e every s.now) room.old result room.new }
{
    if 8192 < s.len() {
        return Err(Unread::Refused(Refusal::TooLong));
    }
    let f = frames::frame_at(s)?;
    match editions::message_of(e, f.kind, f.code) {
        Some(m) => read_inside(e, m, f, s, room),
        None => Err(Unread::Refused(Refusal::NotAmong)),
    }
}
