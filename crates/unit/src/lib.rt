// The table call: a unit, a message, an offered identity and room for a reply in; one numbered answer out.
#![tactic(auto)]

ghost use Rattle.std.specs.Prelude.{◌≡◌, map, not, ◌&&◌, leb, length, take};
ghost use Rattle.lent.specs.Lent.{first_rows};
ghost use Rattle.reset.specs.Slots.{names_none};
ghost use Rattle.item_words.specs.Words.{item_of};
ghost use Rattle.entry_words.specs.EntryWords.{entry_by};
ghost use Rattle.units.specs.Unit.{open_in, read_unit};
ghost use Rattle.requests.specs.Requests.{ask_of, answers_setup};
ghost use Rattle.editions.specs.Editions.{table_of, container_of};
ghost use Rattle.verdicts.specs.Verdict.{opened_at, verdict_of};
ghost use Rattle.replies.specs.Replies.{Replied, replied};
ghost use Rattle.table.specs.Table.{standing};
ghost use Rattle.carry.specs.Carry.{asked_by, decision};
ghost use Rattle.calls.specs.Decided.{changed};
ghost use Rattle.calls.specs.Call.{settled, call};
ghost use Rattle.unit.specs.Heard.{applied_with, applied_heard};
ghost use Rattle.unit.specs.Unit.{bare_on, unit_in, HasRows, lists_items, NoneListed, resets, carried_on, settled_on, Finished, Called};

mod heard;

use carry::{Answer, Change, Decision, Ruling};
use editions::{Edition, Message};
use frames::Frame;
use heard::Heard;
use identity::{Item, MceId};
use octets::Span;

// The answer, and how many octets the reply has: 0 where there is none.
#[derive(Clone, Copy)]
pub struct Back {
    pub answer: Answer,
    pub octets: usize,
}

const NOBODY: Item = Item {
    mme: None,
    mce: None,
};

fn hand_back(answer: Answer, octets: usize) -> Back
    ensures { result ≡ record { answer = answer; octets = octets } }
{
    Back { answer, octets }
}

// An answer without a reply; 21 comes before it.
fn bare(unit: &[u8], answer: Answer) -> Back
    ensures { result ≡ bare_on (read_unit unit.now) answer }
{
    match units::look_up(unit, NOBODY) {
        Some(_) => hand_back(answer, 0),
        None => hand_back(Answer::NoUnit, 0),
    }
}

// There are few items, and none names one of the first n rows.
fn names_none(unit: &[u8], n: usize, kept: &[u64]) -> bool
    ensures { result ≡ (leb (length kept.now) 4 && names_none (map item_of kept.now) (first_rows n (take 3074 unit.now))) }
{
    let end = unit.len().min(3074);
    reset::names_none(&unit[..end], n, kept)
}

// The answer stands, and the unit of n rows is the new one, if it changes.
fn finish(change: Change, n: usize, kept: &[u64], unit: &mut [u8], octets: usize) -> Back
    requires { HasRows n unit.old }
    ensures { (w : Replied) → Finished (changed (unit_in n unit.old) (map item_of (take 256 kept.now)) w change) unit.old octets result unit.new }
{
    match change {
        Change::Stays(a) => hand_back(a, octets),
        Change::Starts(a) => {
            let t = units::rows_in(unit, n);
            units::table_out(table::start(t, a), n, unit);
            hand_back(Answer::CarriedOut, octets)
        }
        Change::Stops(m, c) => {
            let t = units::rows_in(unit, n);
            units::table_out(table::stop(t, m, c), 0, unit);
            hand_back(Answer::CarriedOut, octets)
        }
        Change::Empties => {
            units::table_out(table::empty(), 0, unit);
            hand_back(Answer::CarriedOut, octets)
        }
        Change::Resets => {
            if names_none(unit, n, kept) {
                return hand_back(Answer::CarriedOut, octets);
            }
            let rows = units::rows_in(unit, n);
            units::table_out(reset::reset(rows, kept), 0, unit);
            hand_back(Answer::CarriedOut, octets)
        }
        Change::SetsUp => {
            units::table_out(table::empty(), 0, unit);
            units::put_open(false, unit);
            hand_back(Answer::CarriedOut, octets)
        }
        Change::SetupFails(w) => {
            units::put_open(false, unit);
            hand_back(Answer::SetupFailed(w), octets)
        }
    }
}

// The reply first, and then the unit: where the reply does not fit, both stay as they were.
fn settle(
    h: &Heard,
    d: Decision,
    n: usize,
    kept: &[u64],
    noted: &[u64],
    unit: &mut [u8],
    room: &mut [u8],
) -> Back
    requires { HasRows n unit.old }
    ensures { Called (settled h.now.edition unit.old room.old (changed (unit_in n unit.old) (map item_of (take 256 kept.now)) (replied h.now.edition h.now.frame (map item_of kept.now) (map entry_by noted.now) d.reply) d.change)) result unit.new room.new }
{
    match put_reply::put_reply(h.edition, h.frame, d.reply, kept, noted, room) {
        Some(octets) => finish(d.change, n, kept, unit, octets),
        None => hand_back(Answer::NoRoom, 0),
    }
}

fn is_reset(x: Change) -> bool
    ensures { result ≡ resets x }
{
    matches!(x, Change::Resets)
}

// With the items of a partial reset that have an identity; nothing else needs any.
fn settle_items(
    h: &Heard,
    d: Decision,
    n: usize,
    noted: &[u64],
    unit: &mut [u8],
    room: &mut [u8],
) -> Back
    requires has_rows { HasRows n unit.old }
    requires reply_value { lists_items d.reply ≡ resets d.change }
    ensures { Called (settled h.now.edition unit.old room.old (applied_with h.now (map entry_by noted.now) (unit_in n unit.old) d)) result unit.new room.new }
{
    if is_reset(d.change) {
        let mut words: [u64; 256] = [0; 256];
        let all = reset_items::items_in(h.rows, h.message, h.places, &mut words);
        let kept = item_words::keep_identified(&mut words, all);
        return settle(h, d, n, &words[..kept], noted, unit, room);
    }
    settle(h, d, n, &[], noted, unit, room)
}

// With what is noted of the message; mostly nothing is.
fn settle_noted(h: &Heard, d: Decision, n: usize, unit: &mut [u8], room: &mut [u8]) -> Back
    requires has_rows { HasRows n unit.old }
    requires reply_value { lists_items d.reply ≡ resets d.change }
    ensures { Called (settled h.now.edition unit.old room.old (applied_heard h.now (unit_in n unit.old) d)) result unit.new room.new }
{
    if h.noted == 0 {
        return settle_items(h, d, n, &[], unit, room);
    }
    let mut words: [u64; 256] = [0; 256];
    let all = judging::noted_into(h.rows, h.container, h.message, h.frame.from, &mut words);
    settle_items(h, d, n, &words[..all], unit, room)
}

// By what is held of the identities that are asked about.
fn carried_out(h: &Heard, q: Ruling, offered: MceId, unit: &mut [u8], room: &mut [u8]) -> Back
    requires { NoneListed q }
    ensures { Called (carried_on h.now.edition unit.old room.old (λ u. applied_heard h.now u (decision (standing (asked_by offered q) u.held) offered q)) (read_unit unit.old)) result unit.new room.new }
{
    match units::look_up(unit, carry::asked(offered, q)) {
        Some(l) => {
            let d = carry::decide(l.standing, offered, q);
            settle_noted(h, d, l.count, unit, room)
        }
        None => hand_back(Answer::NoUnit, 0),
    }
}

// What a message that asks for something does.
fn asked(
    e: Edition,
    m: Message,
    f: Frame,
    unit: &mut [u8],
    message: &[u8],
    offered: MceId,
    room: &mut [u8],
) -> Back
    ensures { Called (settled_on e unit.old (record { message = message.now; offered = offered; room = room.old }) (verdict_of (table_of e m) m f message.now (opened_at (table_of e m) (container_of e m) message.now f.from)) (read_unit unit.old)) result unit.new room.new }
{
    let c = editions::has_container(e, m);
    let t = editions::rows_of(e, m);
    let mut places: [Span; 12] = [octets::NOWHERE; 12];
    match judging::opened_at(t, c, message, f.from, &mut places) {
        Ok(o) => {
            let seen = requests::seen_in(t, message, &places);
            let q = carry::rule(requests::ask_of(m), seen, o.outcome);
            let h = Heard {
                edition: e,
                rows: t,
                container: c,
                frame: f,
                message,
                places: &places,
                noted: o.noted,
            };
            carried_out(&h, q, offered, unit, room)
        }
        Err(x) => bare(unit, Answer::Stopped(x)),
    }
}

// The message answers a setup request, and none is open.
fn is_unasked(m: Message, unit: &[u8]) -> bool
    ensures { result ≡ (answers_setup (ask_of m) && not (open_in unit.now)) }
{
    requests::answers_setup(m) && !units::is_open(unit)
}

// What one message does: over 8,192 octets; the frame; a request, or the answer to one that is open; what is inside, the unit.
pub fn call(e: Edition, unit: &mut [u8], message: &[u8], offered: MceId, room: &mut [u8]) -> Back
    ensures { Called (call e unit.old (record { message = message.now; offered = offered; room = room.old })) result unit.new room.new }
{
    if 8192 < message.len() {
        return bare(unit, Answer::TooLong);
    }
    let f = match frames::frame_at(message) {
        Ok(f) => f,
        Err(x) => return bare(unit, Answer::Stopped(x)),
    };
    let Some(m) = editions::message_of(e, f.kind, f.code) else {
        return bare(unit, Answer::NoRequest);
    };
    if is_unasked(m, unit) {
        return bare(unit, Answer::NoneOpen);
    }
    if requests::asks(m) {
        return asked(e, m, f, unit, message, offered, room);
    }
    bare(unit, Answer::NoRequest)
}
