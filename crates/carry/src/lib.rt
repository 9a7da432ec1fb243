// 01's rules: the judging ends in a refusal with its reply or in a request, and a request is carried out by what is held.
#![tactic(auto)]

ghost use Rattle.std.specs.Prelude.{◌≡◌};
ghost use Rattle.carry.specs.Carry.{start_rejected, rejection, ruling, stays, started, stopped, asked, carried_out, asked_by, decision};

use identity::{Item, MceId, MmeId, Tmgi};
use octets::Stop;
use replies::Reply;
use requests::{Ask, Request, Seen};
use table::{Association, Standing};
use values::Cause;
use verdicts::Outcome;

#[derive(Clone, Copy)]
pub enum Answer {
    // 0
    CarriedOut,
    // 1: over 8,192 octets
    TooLong,
    // 2 or 3: an encoding fault, or an extension
    Stopped(Stop),
    // 4: none of the messages, or one that asks for nothing
    NoRequest,
    // 5: elements rejected
    Rejected,
    // 6: a start, the MME identity is held
    MmeHeld,
    // 7: a start, the offered MCE identity is held
    OfferHeld,
    // 8: a stop, the pair is not held
    PairNotHeld,
    // 9: a start, 256 are held
    Full,
    // 10: the reply would not fit the lent room
    NoRoom,
    // 14: the answer to a setup request, and none is open
    NoneOpen,
    // 0, of a setup that failed: how long to wait
    SetupFailed(Option<u8>),
    // 21: octets of no unit
    NoUnit,
}

// What the judging of elements ends in: a request of which nothing is absent, or answer 5 with its reply.
pub type Ruling = Result<Request, Reply>;

// What becomes of the table: it stays, with an answer; or it changes, and the answer is 0.
#[derive(Clone, Copy)]
pub enum Change {
    Stays(Answer),
    Starts(Association),
    Stops(MmeId, MceId),
    // a whole reset
    Empties,
    // a partial reset
    Resets,
    // a setup request is accepted: nothing is held any more, and no request is open
    SetsUp,
    // it failed: no request is open
    SetupFails(Option<u8>),
}

// What becomes of the table, and the reply.
#[derive(Clone, Copy)]
pub struct Decision {
    pub change: Change,
    pub reply: Reply,
}

// Unknown or already allocated MME MBMS M3AP ID.
const MME_TAKEN: Cause = Cause { group: 0, value: 0 };

// Radio resources not available.
const NO_RESOURCES: Cause = Cause { group: 0, value: 3 };

// Abstract syntax error (reject).
const ABSTRACT_SYNTAX: Cause = Cause { group: 3, value: 1 };

// Abstract syntax error (falsely constructed message).
const FALSELY_CONSTRUCTED: Cause = Cause { group: 3, value: 5 };

const NOBODY: Item = Item {
    mme: None,
    mce: None,
};

fn stays(a: Answer, reply: Reply) -> Decision
    ensures { result ≡ stays a reply }
{
    Decision {
        change: Change::Stays(a),
        reply,
    }
}

// A start: 6, 7, 9, or the new association stands behind the others.
#[tactic(auto, unfolding(crate::specs::Carry::started))]
fn start(k: Standing, c: MceId, m: MmeId, tmgi: Tmgi, session: Option<u8>) -> Decision
    ensures { result ≡ started k c m tmgi session }
{
    if k.mme {
        return stays(Answer::MmeHeld, Reply::StartFailure(m, MME_TAKEN));
    }
    if k.mce {
        return stays(Answer::OfferHeld, Reply::None);
    }
    if k.full {
        return stays(Answer::Full, Reply::StartFailure(m, NO_RESOURCES));
    }
    let a = Association {
        mme: m,
        mce: c,
        tmgi,
        session,
    };
    Decision {
        change: Change::Starts(a),
        reply: Reply::StartResponse(m, c),
    }
}

// A stop: 8, or the association that has both identities is gone.
#[tactic(auto, unfolding(crate::specs::Carry::stopped))]
fn stop(k: Standing, m: MmeId, c: MceId) -> Decision
    ensures { result ≡ stopped k m c }
{
    if k.pair {
        return Decision {
            change: Change::Stops(m, c),
            reply: Reply::StopResponse(m, c),
        };
    }
    stays(Answer::PairNotHeld, Reply::PairNotHeld(m, c))
}

// Answer 5's reply to a start.
fn start_rejected(x: Option<MmeId>, why: Cause) -> Reply
    ensures { result ≡ start_rejected x why }
{
    match x {
        Some(m) => Reply::StartFailure(m, why),
        None => Reply::Rejection(None, None, why),
    }
}

// Answer 5's reply.
#[tactic(auto, unfolding(crate::specs::Carry::rejection))]
fn rejection(a: Ask, x: Seen, why: Cause) -> Reply
    ensures { result ≡ rejection a x why }
{
    match a {
        Ask::Start => start_rejected(x.mme, why),
        Ask::Stop => Reply::Rejection(x.mme, x.mce, why),
        Ask::Reset | Ask::SetupResponse | Ask::SetupFailure => Reply::Rejection(None, None, why),
        Ask::Indication | Ask::Nothing => Reply::None,
    }
}

// A mandatory element that is missing is rejected.
fn granted(a: Ask, x: Seen) -> Ruling
    ensures { result ≡ ruling a x Outcome.Accepted }
{
    requests::request_of(a, x).ok_or_else(|| rejection(a, x, ABSTRACT_SYNTAX))
}

// What the judging of elements ends in.
pub fn rule(a: Ask, x: Seen, o: Outcome) -> Ruling
    ensures { result ≡ ruling a x o }
{
    match o {
        Outcome::Accepted => granted(a, x),
        Outcome::Misplaced(_) => Err(rejection(a, x, FALSELY_CONSTRUCTED)),
        Outcome::Rejected => Err(rejection(a, x, ABSTRACT_SYNTAX)),
    }
}

// A request, carried out. ERROR INDICATION changes nothing and gets no reply.
fn carry_out(k: Standing, c: MceId, q: Request) -> Decision
    ensures { result ≡ carried_out k c q }
{
    match q {
        Request::Start(m, tmgi, session) => start(k, c, m, tmgi, session),
        Request::Stop(m, x) => stop(k, m, x),
        Request::Whole => Decision {
            change: Change::Empties,
            reply: Reply::Acknowledge,
        },
        Request::Part => Decision {
            change: Change::Resets,
            reply: Reply::AcknowledgeItems,
        },
        Request::Indication => stays(Answer::CarriedOut, Reply::None),
        Request::SetupResponse => Decision {
            change: Change::SetsUp,
            reply: Reply::None,
        },
        Request::SetupFailure(w) => Decision {
            change: Change::SetupFails(w),
            reply: Reply::None,
        },
    }
}

// What is decided, by what is held of the identities that are asked about.
pub fn decide(k: Standing, c: MceId, r: Ruling) -> Decision
    ensures { result ≡ decision k c r }
{
    match r {
        Ok(q) => carry_out(k, c, q),
        Err(reply) => stays(Answer::Rejected, reply),
    }
}

// A start asks about its MME identity and the offered one, a stop about its two; nothing else asks.
fn asked_by_request(c: MceId, q: Request) -> Item
    ensures { result ≡ asked c q }
{
    match q {
        Request::Start(m, _, _) => Item {
            mme: Some(m),
            mce: Some(c),
        },
        Request::Stop(m, x) => Item {
            mme: Some(m),
            mce: Some(x),
        },
        Request::Whole
        | Request::Part
        | Request::Indication
        | Request::SetupResponse
        | Request::SetupFailure(_) => NOBODY,
    }
}

// The identities that are asked about.
pub fn asked(c: MceId, r: Ruling) -> Item
    ensures { result ≡ asked_by c r }
{
    match r {
        Ok(q) => asked_by_request(c, q),
        Err(_) => NOBODY,
    }
}
