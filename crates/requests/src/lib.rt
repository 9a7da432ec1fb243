// What a message asks for. Of its values only those are read that say so.
#![tactic(auto)]

ghost use Rattle.std.specs.Prelude.{◌≡◌};
ghost use Rattle.rows.specs.Table.{rows_in};
ghost use Rattle.values.specs.Values.{mme_at, mce_at, tmgi_at, one_at, wait_at};
ghost use Rattle.items.specs.Items.{reset_at};
ghost use Rattle.meaning.specs.Value.{mme, mce, tmgi, one, wait, reset};
ghost use Rattle.meaning.specs.Reading.{value_in, values_in};
ghost use Rattle.requests.specs.Requests.{nothing, also, also_read, reset_seen, seen, ask_of, asks, answers_setup, start_of, stop_of, reset_of, request_of};

use editions::Message;
use identity::{MceId, MmeId, Tmgi};
use octets::Span;
use rows::{Kind, Rows};

// What a Reset Type resets; the items of a part stand beside it.
#[derive(Clone, Copy)]
pub enum Extent {
    Whole,
    Part,
}

// What the rules look at, of all values of a message.
#[derive(Clone, Copy)]
pub struct Seen {
    pub mme: Option<MmeId>,
    pub mce: Option<MceId>,
    pub tmgi: Option<Tmgi>,
    pub session: Option<u8>,
    pub wait: Option<u8>,
    pub reset: Option<Extent>,
}

// Which request a message is.
#[derive(Clone, Copy)]
pub enum Ask {
    Start,
    Stop,
    Reset,
    // ERROR INDICATION
    Indication,
    // the answers to a setup request
    SetupResponse,
    SetupFailure,
    // any other response, failure or acknowledgement, and a setup request
    Nothing,
}

// A request of which nothing is absent.
#[derive(Clone, Copy)]
pub enum Request {
    Start(MmeId, Tmgi, Option<u8>),
    Stop(MmeId, MceId),
    // a reset of the whole interface
    Whole,
    // a partial reset; its items stand beside it
    Part,
    Indication,
    SetupResponse,
    SetupFailure(Option<u8>),
}

const NOTHING: Seen = Seen {
    mme: None,
    mce: None,
    tmgi: None,
    session: None,
    wait: None,
    reset: None,
};

// Which request a message is.
pub fn ask_of(m: Message) -> Ask
    ensures { result ≡ ask_of m }
{
    match m {
        Message::StartRequest => Ask::Start,
        Message::StopRequest => Ask::Stop,
        Message::Reset => Ask::Reset,
        Message::ErrorIndication => Ask::Indication,
        Message::SetupResponse => Ask::SetupResponse,
        Message::SetupFailure => Ask::SetupFailure,
        Message::StartResponse
        | Message::StartFailure
        | Message::StopResponse
        | Message::ResetAcknowledge
        | Message::SetupRequest
        | Message::StopWarningRequest
        | Message::StopWarningResponse
        | Message::WarningErrorIndication => Ask::Nothing,
    }
}

// A response, a failure and an acknowledgement ask for nothing.
pub fn asks(m: Message) -> bool
    ensures { result ≡ asks m }
{
    !matches!(ask_of(m), Ask::Nothing)
}

// It answers a setup request.
pub fn answers_setup(m: Message) -> bool
    ensures { result ≡ answers_setup (ask_of m) }
{
    matches!(ask_of(m), Ask::SetupResponse | Ask::SetupFailure)
}

fn start_of(mme: Option<MmeId>, tmgi: Option<Tmgi>, session: Option<u8>) -> Option<Request>
    ensures { result ≡ start_of mme tmgi session }
{
    Some(Request::Start(mme?, tmgi?, session))
}

fn stop_of(mme: Option<MmeId>, mce: Option<MceId>) -> Option<Request>
    ensures { result ≡ stop_of mme mce }
{
    Some(Request::Stop(mme?, mce?))
}

fn reset_of(reset: Option<Extent>) -> Option<Request>
    ensures { result ≡ reset_of reset }
{
    match reset? {
        Extent::Whole => Some(Request::Whole),
        Extent::Part => Some(Request::Part),
    }
}

// The request, by what is seen of the message.
pub fn request_of(a: Ask, x: Seen) -> Option<Request>
    ensures { result ≡ request_of a x }
{
    match a {
        Ask::Start => start_of(x.mme, x.tmgi, x.session),
        Ask::Stop => stop_of(x.mme, x.mce),
        Ask::Reset => reset_of(x.reset),
        Ask::Indication => Some(Request::Indication),
        Ask::SetupResponse => Some(Request::SetupResponse),
        Ask::SetupFailure => Some(Request::SetupFailure(x.wait)),
        Ask::Nothing => None,
    }
}

// A Reset Type that can be read says in its second bit whether it is a part.
fn reset_in(s: &[u8], at: usize) -> Option<Extent>
    ensures { result ≡ reset_seen (reset_at s.now at) }
{
    item_words::reset_gate(s, at).ok()?;
    let part = octets::flag_at(s, at, 1).ok()?;
    Some(if part { Extent::Part } else { Extent::Whole })
}

fn with_mme(s: &[u8], at: usize, x: Seen) -> Seen
    ensures { result ≡ also_read mme (mme_at s.now at) x }
{
    match values::identity_at::<MmeId>(s, at) {
        Ok(mme) => Seen {
            mme: Some(mme),
            ..x
        },
        Err(_) => x,
    }
}

fn with_mce(s: &[u8], at: usize, x: Seen) -> Seen
    ensures { result ≡ also_read mce (mce_at s.now at) x }
{
    match values::identity_at::<MceId>(s, at) {
        Ok(mce) => Seen {
            mce: Some(mce),
            ..x
        },
        Err(_) => x,
    }
}

fn with_tmgi(s: &[u8], at: usize, x: Seen) -> Seen
    ensures { result ≡ also_read tmgi (tmgi_at s.now at) x }
{
    match values::tmgi_at(s, at) {
        Ok(tmgi) => Seen {
            tmgi: Some(tmgi),
            ..x
        },
        Err(_) => x,
    }
}

fn with_session(s: &[u8], at: usize, x: Seen) -> Seen
    ensures { result ≡ also_read one (one_at s.now at) x }
{
    match values::one_at(s, at) {
        Ok(session) => Seen {
            session: Some(session),
            ..x
        },
        Err(_) => x,
    }
}

fn with_wait(s: &[u8], at: usize, x: Seen) -> Seen
    ensures { result ≡ also_read wait (wait_at s.now at) x }
{
    match values::wait_at(s, at) {
        Ok(wait) => Seen {
            wait: Some(wait),
            ..x
        },
        Err(_) => x,
    }
}

fn with_reset(s: &[u8], at: usize, x: Seen) -> Seen
    ensures { result ≡ also_read reset (reset_at s.now at) x }
{
    match reset_in(s, at) {
        Some(extent) => Seen {
            reset: Some(extent),
            ..x
        },
        None => x,
    }
}

// With the value of a row more, by the row's kind. Of one that cannot be read nothing more is seen.
fn with_value(kind: Kind, s: &[u8], v: Span, x: Seen) -> Seen
    ensures { result ≡ also (value_in kind s.now v) x }
{
    if v.to == 0 {
        return x;
    }
    let inside = &s[..v.to.min(s.len())];
    match kind {
        Kind::Mme => with_mme(inside, v.from, x),
        Kind::Mce => with_mce(inside, v.from, x),
        Kind::Tmgi => with_tmgi(inside, v.from, x),
        Kind::OneOctet => with_session(inside, v.from, x),
        Kind::ResetType => with_reset(inside, v.from, x),
        Kind::Wait => with_wait(inside, v.from, x),
        _ => x,
    }
}

// What is seen of a message, from where the value of each row of its table stands.
pub fn seen_in(t: Rows, s: &[u8], places: &[Span; 12]) -> Seen
    ensures { result ≡ seen (values_in (rows_in t.entry) s.now places.now) }
{
    let mut x = NOTHING;
    for k in (0..t.rows.len()).rev() {
        x = with_value(t.rows[k].kind, s, places[k], x);
    }
    x
}
