// The setup call: the request that a lent record says, written and marked open.
#![tactic(auto)]

ghost use Rattle.std.specs.Prelude.{◌≡◌};
ghost use Rattle.setup.specs.Setup.{setup_number, is_request, setup, SetupCalled};

use editions::{Edition, Message};
use identity::Item;
use plan::Unwritten;

#[derive(Clone, Copy)]
pub enum SetupAnswer {
    // 0
    Opened,
    // 12: a name that is not 1 to 150 PrintableString characters
    NameNotAllowed,
    // 13: a request is open
    AlreadyOpen,
    // 11: no record of an M3 SETUP REQUEST, or one that has no message
    NotWritten,
    // 10: the request would not fit the room
    NoRoom,
    // 21: octets of no unit
    NoUnit,
}

// The answer, and how many octets the request has: 0 where there is none.
#[derive(Clone, Copy)]
pub struct SetupBack {
    pub answer: SetupAnswer,
    pub octets: usize,
}

const NOBODY: Item = Item {
    mme: None,
    mce: None,
};

fn refused(answer: SetupAnswer) -> SetupBack
    ensures { result ≡ record { answer = answer; octets = 0 } }
{
    SetupBack { answer, octets: 0 }
}

// 02's number of the answer.
pub fn number_of(a: SetupAnswer) -> u32
    ensures { result ≡ setup_number a }
{
    match a {
        SetupAnswer::Opened => 0,
        SetupAnswer::NoRoom => 10,
        SetupAnswer::NotWritten => 11,
        SetupAnswer::NameNotAllowed => 12,
        SetupAnswer::AlreadyOpen => 13,
        SetupAnswer::NoUnit => 21,
    }
}

// The octets begin as a record of M3 SETUP REQUEST does.
fn is_request(e: Edition, said: &[u8]) -> bool
    ensures { result ≡ is_request e said.now }
{
    said.first().copied().unwrap_or(0) == editions::number_of(e, Message::SetupRequest)
}

// Writes the request, and marks it open. Whatever is refused leaves unit and room.
pub fn set_up(e: Edition, unit: &mut [u8], said: &[u8], values: &[u8], room: &mut [u8]) -> SetupBack
    ensures { SetupCalled (setup e unit.old (record { said = said.now; values = values.now; room = room.old })) result unit.new room.new }
{
    let Some(_) = units::look_up(unit, NOBODY) else {
        return refused(SetupAnswer::NoUnit);
    };
    if record_form::name_refused(e, said, values) {
        return refused(SetupAnswer::NameNotAllowed);
    }
    if units::is_open(unit) {
        return refused(SetupAnswer::AlreadyOpen);
    }
    if !is_request(e, said) {
        return refused(SetupAnswer::NotWritten);
    }
    match put_message::write(e, said, values, room) {
        Ok(octets) => {
            units::put_open(true, unit);
            SetupBack {
                answer: SetupAnswer::Opened,
                octets,
            }
        }
        Err(Unwritten::NotWritten) => refused(SetupAnswer::NotWritten),
        Err(Unwritten::NoRoom) => refused(SetupAnswer::NoRoom),
    }
}
