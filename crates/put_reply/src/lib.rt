// A reply, put into the front of the lent room: the rows of its message's table, one after another. Its size is known before the first octet is put.
#![tactic(auto)]

ghost use Rattle.std.specs.Prelude.{◌≡◌, map, true, ℕ, ◌≤◌, ◌<◌, length};
ghost use Rattle.lists.specs.Lists.{pick};
ghost use Rattle.rows.specs.declared.Triggers.TheVariants.{Three};
ghost use Rattle.rows.specs.Table.{rows_in};
ghost use Rattle.octets.specs.Write.{Wrote};
ghost use Rattle.item_words.specs.Words.{item_of};
ghost use Rattle.entry_words.specs.EntryWords.{entry_by};
ghost use Rattle.put_diagnostics.specs.Put.{listed_by};
ghost use Rattle.plan.specs.Plan.{size_of, size_given, sizes_of, elements_to};
ghost use Rattle.meaning.specs.Value as value;
ghost use Rattle.meaning.specs.Written.{is_list_length, under, entry_good, entries_good, octets_of, element_octets, encoded};
ghost use Rattle.plan.specs.Written.{written_in, Writes};
ghost use Rattle.editions.specs.Editions.{table_of};
ghost use Rattle.replies.specs.Replies.{replied, reply_octets};
ghost use Rattle.put_reply.specs.Parts.{part_of, only_list, frame_part, frame_if_noted, parts_of, replied_by, value_by, given_by, given_rows, Ready, sent_as, sent_in, Sends};

use diagnostics::Head;
use editions::{Edition, Message};
use frames::Frame;
use identity::{MceId, MmeId};
use plan::{Unwritten, Written};
use put_values::Criticality;
use replies::Reply;
use rows::{Kind, Row, Rows};
use values::Cause;

// What a reply gives for a row. The items of a list and the entries of diagnostics stand beside it.
#[derive(Clone, Copy)]
pub enum Part {
    Mme(MmeId),
    Mce(MceId),
    Cause(Cause),
    List,
    Diagnostics(Head),
}

// What a reply gives, and whether it has a list.
#[derive(Clone, Copy)]
pub struct Parts {
    pub mme: Option<MmeId>,
    pub mce: Option<MceId>,
    pub cause: Option<Cause>,
    pub list: bool,
    pub diagnostics: Option<Head>,
}

const NOTHING: Parts = Parts {
    mme: None,
    mce: None,
    cause: None,
    list: false,
    diagnostics: None,
};

// Unknown or inconsistent pair of MBMS M3AP IDs.
const UNKNOWN_PAIR: Cause = Cause { group: 0, value: 2 };

fn part_of(p: Parts, kind: Kind) -> Option<Part>
    ensures { result ≡ part_of p kind }
{
    match kind {
        Kind::Mme => p.mme.map(Part::Mme),
        Kind::Mce => p.mce.map(Part::Mce),
        Kind::Cause => p.cause.map(Part::Cause),
        Kind::Acknowledged => p.list.then_some(Part::List),
        Kind::Diagnostics(_) => p.diagnostics.map(Part::Diagnostics),
        _ => None,
    }
}

// The list of diagnostics alone, if it is not empty.
fn only_list(noted: usize) -> Option<Head>
    ensures { result ≡ only_list noted }
{
    (0 < noted).then_some(Head {
        code: None,
        trigger: None,
        crit: None,
        listed: true,
    })
}

// What the frame said, and the list if it is not empty: of an ERROR INDICATION.
fn frame_part(f: Frame, noted: usize) -> Head
    ensures { result ≡ frame_part f noted }
{
    Head {
        code: Some(f.code),
        trigger: Some(f.kind),
        crit: Some(f.crit),
        listed: 0 < noted,
    }
}

// The same, only with a list.
fn frame_if_noted(f: Frame, noted: usize) -> Option<Head>
    ensures { result ≡ frame_if_noted f noted }
{
    (0 < noted).then_some(frame_part(f, noted))
}

// What a reply gives. kept is how many items have an identity, noted how many diagnostics there are.
#[tactic(auto, unfolding(crate::specs::Parts::parts_of))]
fn parts_of(f: Frame, kept: usize, noted: usize, r: Reply) -> Parts
    ensures { result ≡ parts_of f kept noted r }
{
    let only_noted = Parts {
        diagnostics: only_list(noted),
        ..NOTHING
    };
    match r {
        Reply::None => NOTHING,
        Reply::StartResponse(m, c) | Reply::StopResponse(m, c) => Parts {
            mme: Some(m),
            mce: Some(c),
            ..only_noted
        },
        Reply::StartFailure(m, why) => Parts {
            mme: Some(m),
            cause: Some(why),
            ..only_noted
        },
        Reply::Acknowledge => only_noted,
        // of no item there is no list
        Reply::AcknowledgeItems => Parts {
            list: 0 < kept,
            ..only_noted
        },
        Reply::Rejection(x, y, why) => Parts {
            mme: x,
            mce: y,
            cause: Some(why),
            list: false,
            diagnostics: Some(frame_part(f, noted)),
        },
        Reply::PairNotHeld(m, c) => Parts {
            mme: Some(m),
            mce: Some(c),
            cause: Some(UNKNOWN_PAIR),
            list: false,
            diagnostics: frame_if_noted(f, noted),
        },
    }
}

// Which message a reply is.
fn message_of(r: Reply) -> Option<Message>
    ensures { result ≡ replied_by r }
{
    match r {
        Reply::None => None,
        Reply::StartResponse(_, _) => Some(Message::StartResponse),
        Reply::StartFailure(_, _) => Some(Message::StartFailure),
        Reply::StopResponse(_, _) => Some(Message::StopResponse),
        Reply::Acknowledge | Reply::AcknowledgeItems => Some(Message::ResetAcknowledge),
        Reply::Rejection(..) | Reply::PairNotHeld(..) => Some(Message::ErrorIndication),
    }
}

fn list_size(kept: &[u64]) -> usize
    ensures { result ≡ size_of (value.list (map item_of kept.now)) }
{
    if plan::fits_a_list(kept.len()) {
        item_words::words_size(kept)
    } else {
        0
    }
}

// An entry has a criticality and a type of error of its root.
fn is_entry_good(w: u64) -> bool
    ensures { result ≡ entry_good (entry_by w) }
{
    let e = entry_words::entry_of(w);
    e.crit < 3 && e.error < 2
}

fn are_good(noted: &[u64]) -> bool
    ensures { result ≡ entries_good (map entry_by noted.now) }
{
    if !plan::fits_a_list(noted.len()) {
        return false;
    }
    for w in noted {
        if !is_entry_good(*w) {
            return false;
        }
    }
    true
}

// The entries count only where a list is there.
fn is_list_good(listed: bool, noted: &[u64]) -> bool
    ensures { result ≡ pick listed (entries_good (map entry_by noted.now)) true }
{
    !listed || are_good(noted)
}

// Where no list is there, the entries are not counted.
fn diagnostics_size(h: Head, noted: &[u64]) -> usize
    ensures { result ≡ size_of (value.diagnostics Three (listed_by h noted.now)) }
{
    if !plan::is_under(3, h.trigger) {
        return 0;
    }
    if !plan::is_under(3, h.crit) {
        return 0;
    }
    if !is_list_good(h.listed, noted) {
        return 0;
    }
    put_diagnostics::listed_size(h, noted.len())
}

#[tactic(auto, using(plan::proofs::Sizes::mme_size, plan::proofs::Sizes::mce_size), unfolding(crate::specs::Parts::value_by))]
fn part_size(p: Part, kept: &[u64], noted: &[u64]) -> usize
    ensures { result ≡ size_of (value_by (map item_of kept.now) (map entry_by noted.now) p) }
{
    match p {
        Part::Mme(_) | Part::Mce(_) => 2,
        Part::Cause(c) => plan::cause_size(c),
        Part::List => list_size(kept),
        Part::Diagnostics(h) => diagnostics_size(h, noted),
    }
}

// 0 for a part that is absent, 8,193 for one that is not written.
#[tactic(auto, unfolding(plan::specs::Plan::size_given))]
fn size_of(p: Option<Part>, kept: &[u64], noted: &[u64]) -> usize
    ensures { result ≡ size_given (given_by (map item_of kept.now) (map entry_by noted.now) p) }
{
    match p {
        Some(part) => plan::fit(part_size(part, kept, noted)),
        None => 0,
    }
}

fn sizes_of(t: Rows, p: Parts, kept: &[u64], noted: &[u64]) -> [usize; 12]
    ensures { result ≡ sizes_of (given_rows (map item_of kept.now) (map entry_by noted.now) p (rows_in t.entry)) }
{
    let mut sizes = [0; 12];
    for (i, row) in t.rows.iter().enumerate() {
        sizes[i] = size_of(part_of(p, row.kind), kept, noted);
    }
    sizes
}

#[tactic(auto, unfolding(meaning::specs::Written::octets_of, crate::specs::Parts::value_by))]
fn put_part(room: &mut [u8], at: usize, p: Part, kept: &[u64], noted: &[u64]) -> usize
    ensures { Wrote room.old at (octets_of (value_by (map item_of kept.now) (map entry_by noted.now) p)) room.new result }
{
    match p {
        Part::Mme(m) => put_values::put_identity(room, at, m),
        Part::Mce(c) => put_values::put_identity(room, at, c),
        Part::Cause(c) => put_values::put_cause(room, at, c),
        Part::List => item_words::put_words(room, at, Criticality::Ignore, kept),
        Part::Diagnostics(h) => put_diagnostics::put_listed(room, at, h, noted),
    }
}

// An element; nothing where there is no part.
fn put_row(
    room: &mut [u8],
    at: usize,
    row: Row,
    p: Option<Part>,
    size: usize,
    kept: &[u64],
    noted: &[u64],
) -> usize
    requires { (at ≤ length room.old) × (row.crit < 4) × (size ≡ size_given (given_by (map item_of kept.now) (map entry_by noted.now) p)) × (size ≤ 8192) }
    ensures { Wrote room.old at (element_octets row (given_by (map item_of kept.now) (map entry_by noted.now) p)) room.new result }
{
    let Some(part) = p else {
        return at;
    };
    let value = plan::put_front(room, at, row.id, row.crit, size);
    put_part(room, value, part, kept, noted)
}

// The elements, row by row.
fn put_rows(
    room: &mut [u8],
    at: usize,
    t: Rows,
    p: Parts,
    sizes: &[usize; 12],
    kept: &[u64],
    noted: &[u64],
) -> usize
    requires { (at ≤ length room.old) × ((i : ℕ) → i < length (rows_in t) → Ready (map item_of kept.now) (map entry_by noted.now) p (rows_in t) sizes.now i) }
    ensures { Wrote room.old at (elements_to (rows_in t.entry) (given_rows (map item_of kept.now) (map entry_by noted.now) p (rows_in t.entry)) (length (rows_in t.entry))) room.new result }
{
    let mut next = at;
    for (i, row) in t.rows.iter().enumerate() {
        next = put_row(
            room,
            next,
            *row,
            part_of(p, row.kind),
            sizes[i],
            kept,
            noted,
        );
    }
    next
}

// The message of these parts. Its octets are counted before the first is put.
fn put_parts(
    e: Edition,
    m: Message,
    p: Parts,
    kept: &[u64],
    noted: &[u64],
    room: &mut [u8],
) -> Written
    ensures { Writes (written_in room.old (encoded e (record { message = m; values = given_rows (map item_of kept.now) (map entry_by noted.now) p (table_of e m) }))) result room.new }
{
    let t = editions::rows_of(e, m);
    let sizes = sizes_of(t, p, kept, noted);
    let first = plan::begin(room, editions::code_of(e, m), plan::plan_of(t, &sizes))?;
    Ok(put_rows(room, first, t, p, &sizes, kept, noted))
}

// A message that is not written has no octets.
fn sent_as(w: Written) -> Option<usize>
    ensures { result ≡ sent_as w }
{
    match w {
        Ok(n) => Some(n),
        Err(Unwritten::NotWritten) => Some(0),
        Err(Unwritten::NoRoom) => None,
    }
}

// How many octets the reply has that stands in front of the room; or the room is too small for it. A reply that has no octets leaves the room as it was, as none does.
pub fn put_reply(
    e: Edition,
    f: Frame,
    r: Reply,
    kept: &[u64],
    noted: &[u64],
    room: &mut [u8],
) -> Option<usize>
    ensures { Sends (sent_in room.old (reply_octets e (replied e f (map item_of kept.now) (map entry_by noted.now) r))) result room.new }
{
    let Some(m) = message_of(r) else {
        return Some(0);
    };
    let p = parts_of(f, kept.len(), noted.len(), r);
    sent_as(put_parts(e, m, p, kept, noted, room))
}
