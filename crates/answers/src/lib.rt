// 01's and 02's number of each answer, its place, and how long to wait.
#![tactic(auto)]

ghost use Rattle.std.specs.Prelude.{◌≡◌};
ghost use Rattle.answers.specs.Answers.{numbered};

use carry::Answer;
use octets::Stop;

// 01's number of the answer.
pub fn number_of(a: Answer) -> u32
    ensures { result ≡ (numbered a).number }
{
    match a {
        Answer::CarriedOut => 0,
        Answer::TooLong => 1,
        Answer::Stopped(Stop::Fault(_)) => 2,
        Answer::Stopped(Stop::Extension(_)) => 3,
        Answer::NoRequest => 4,
        Answer::Rejected => 5,
        Answer::MmeHeld => 6,
        Answer::OfferHeld => 7,
        Answer::PairNotHeld => 8,
        Answer::Full => 9,
        Answer::NoRoom => 10,
        Answer::NoneOpen => 14,
        Answer::SetupFailed(_) => 0,
        Answer::NoUnit => 21,
    }
}

// The octet at fault for 2 and 3, else 0.
pub fn place_of(a: Answer) -> usize
    ensures { result ≡ (numbered a).place }
{
    match a {
        Answer::Stopped(Stop::Fault(p)) => p.octet,
        Answer::Stopped(Stop::Extension(p)) => p.octet,
        _ => 0,
    }
}

// The seconds to wait of a setup that failed, else 0.
pub fn wait_of(a: Answer) -> u16
    ensures { result ≡ (numbered a).wait }
{
    match a {
        Answer::SetupFailed(Some(v)) => values::seconds_of(v),
        _ => 0,
    }
}
