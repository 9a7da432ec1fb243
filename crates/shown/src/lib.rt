// What is shown of an M3 SETUP REQUEST: the characters of its name, a part of the request's octets; where it has none, the front of a label that is lent beside it.
#![tactic(auto)]

ghost use Rattle.std.specs.Prelude.{◌≡◌, None};
ghost use Rattle.rows.specs.Table.{rows_in};
ghost use Rattle.editions.specs.Editions.{table_of, container_of};
ghost use Rattle.meaning.specs.Reading.{value_in, values_in};
ghost use Rattle.verdicts.specs.Verdict.{opened_at, verdict_of};
ghost use Rattle.shown.specs.Shown.{setup_requests, found_with, found_among, if_accepted, found_in, name_in, shown_part, shown_of};

use editions::{Edition, Message};
use frames::Frame;
use octets::Span;
use rows::{Kind, Rows};
use verdicts::Outcome;

// A part of the request, or of the label.
#[derive(Clone, Copy)]
pub struct Part {
    pub of_label: bool,
    pub span: Span,
}

fn is_setup_request(m: Message) -> bool
    ensures { result ≡ setup_requests m }
{
    matches!(m, Message::SetupRequest)
}

// The name that a value is, by the kind of its row.
fn name_of(kind: Kind, s: &[u8], v: Span) -> Option<Span>
    ensures { result ≡ found_with (value_in kind s.now v) None }
{
    if v.to == 0 {
        return None;
    }
    match kind {
        Kind::Name => names::name_at(&s[..v.to.min(s.len())], v.from).ok(),
        _ => None,
    }
}

// The first name among the values, from where the value of each row of a table stands.
fn name_among(t: Rows, s: &[u8], places: &[Span; 12]) -> Option<Span>
    ensures { result ≡ found_among (values_in (rows_in t.entry) s.now places.now) }
{
    for (r, v) in t.rows.iter().zip(places) {
        if let Some(name) = name_of(r.kind, s, *v) {
            return Some(name);
        }
    }
    None
}

fn if_accepted(o: Outcome, x: Option<Span>) -> Option<Span>
    ensures { result ≡ if_accepted o x }
{
    match o {
        Outcome::Accepted => x,
        Outcome::Misplaced(_) | Outcome::Rejected => None,
    }
}

// The name of a message that is accepted.
fn name_inside(e: Edition, m: Message, f: Frame, s: &[u8]) -> Option<Span>
    ensures { result ≡ found_in (verdict_of (table_of e m) m f s.now (opened_at (table_of e m) (container_of e m) s.now f.from)) }
{
    let c = editions::has_container(e, m);
    let t = editions::rows_of(e, m);
    let mut places = [octets::NOWHERE; 12];
    let o = judging::opened_at(t, c, s, f.from, &mut places).ok()?;
    if_accepted(o.outcome, name_among(t, s, &places))
}

// Where the characters of the name stand, if the octets are accepted as an M3 SETUP REQUEST that has one.
#[tactic(auto, unfolding(crate::specs::Shown::name_in, verdicts::specs::Verdict::read_of))]
pub fn name_in(e: Edition, request: &[u8]) -> Option<Span>
    ensures { result ≡ name_in e request.now }
{
    if 8192 < request.len() {
        return None;
    }
    let f = frames::frame_at(request).ok()?;
    let m = editions::message_of(e, f.kind, f.code)?;
    if !is_setup_request(m) {
        return None;
    }
    name_inside(e, m, f, request)
}

// Which part is shown, for a host that cannot be handed one.
#[tactic(auto, unfolding(crate::specs::Shown::shown_part))]
pub fn part_of(e: Edition, request: &[u8], label: &[u8]) -> Part
    ensures { result ≡ shown_part e request.now label.now }
{
    match name_in(e, request) {
        Some(v) => Part {
            of_label: false,
            span: v,
        },
        None => Part {
            of_label: true,
            span: Span {
                from: 0,
                to: label.len().min(150),
            },
        },
    }
}

// The part that is shown.
pub fn shown<'a>(e: Edition, request: &'a [u8], label: &'a [u8]) -> &'a [u8]
    ensures { result.now ≡ shown_of e request.now label.now }
{
    let p = part_of(e, request, label);
    let of = if p.of_label { label } else { request };
    &of[p.span.from..p.span.to]
}
