// The reader, the writer, the table call, the setup call and the shown name for a link process in C, which hands over octets and numbers; and the reader and
// the writer of warnings over SBc-AP. include/m3ap.h and include/sbcap.h are the headers.
#![tactic(auto)]

ghost use Rattle.std.specs.Prelude.{◌≡◌, ◌≤◌};
ghost use Rattle.lists.specs.Lists.{pick};
ghost use Rattle.calls.specs.Call.{call};
ghost use Rattle.editions.specs.declared.Edition.TheVariants.{Release18, Warnings, WarningsLab};
ghost use Rattle.link.specs.Link.{CallHanded, refusal_number, refusal_place, outcome_number, read_for, allowed_for, write_for, SetupHanded, part_for, Put};
ghost use Rattle.setup.specs.Setup.{setup};
ghost use Rattle.shown.specs.Shown.{shown_part};

use editions::Edition;
use identity::MceId;
use octets::Stop;
use plan::Unwritten;
use reader::Unread;
use verdicts::{Outcome, Refusal};

// The number of the answer; the octet at fault for 2 and 3, else 0; how many octets stand in front of the room; 0 yet; the seconds to wait of a setup that
// failed, else 0.
#[repr(C)]
#[derive(Clone, Copy)]
pub struct Answer {
    pub answer: u32,
    pub place: u32,
    pub octets: u32,
    pub bit: u16,
    pub wait: u16,
}

// A part of the request, 0, or of the label, 1: where it begins, and how many octets it has.
#[repr(C)]
#[derive(Clone, Copy)]
pub struct Part {
    pub of_label: u32,
    pub from: u32,
    pub octets: u32,
}

// What one message does.
pub fn m3ap_call(unit: &mut [u8], message: &[u8], offered: u16, room: &mut [u8]) -> Answer
    ensures { CallHanded (call Release18 unit.old (record { message = message.now; offered = record { 0 = offered }; room = room.old })) result unit.new room.new }
{
    let b = unit::call(Edition::Release18, unit, message, MceId(offered), room);
    Answer {
        answer: answers::number_of(b.answer),
        place: answers::place_of(b.answer) as u32,
        octets: b.octets as u32,
        bit: 0,
        wait: answers::wait_of(b.answer),
    }
}

// Nothing is put; place is at most 8,192.
fn plain(answer: u32, place: usize) -> Answer
    requires { place ≤ 8192 }
    ensures { result ≡ record { answer = answer; place = place; octets = 0; bit = 0; wait = 0 } }
{
    Answer {
        answer,
        place: place as u32,
        octets: 0,
        bit: 0,
        wait: 0,
    }
}

// Answers 1 to 4.
fn refused(x: Refusal) -> Answer
    requires { refusal_place x ≤ 8192 }
    ensures { result ≡ record { answer = refusal_number x; place = refusal_place x; octets = 0; bit = 0; wait = 0 } }
{
    match x {
        Refusal::TooLong => plain(1, 0),
        Refusal::Stopped(Stop::Fault(p)) => plain(2, p.octet),
        Refusal::Stopped(Stop::Extension(p)) => plain(3, p.octet),
        Refusal::NotAmong => plain(4, 0),
    }
}

// Of what was read, the number of its outcome.
fn outcome_number(o: Outcome) -> u32
    ensures { result ≡ outcome_number o }
{
    match o {
        Outcome::Accepted => 0,
        Outcome::Misplaced(_) | Outcome::Rejected => 5,
    }
}

// The record of what was read stands in front of the room.
fn recorded(answer: u32) -> Answer
    ensures { result ≡ record { answer = answer; place = 0; octets = 2662; bit = 0; wait = 0 } }
{
    Answer {
        answer,
        place: 0,
        octets: 2662,
        bit: 0,
        wait: 0,
    }
}

// Reads a message of an edition. With 0 and 5 the record of what was read stands in front of the room.
fn read_in(e: Edition, message: &[u8], room: &mut [u8]) -> Answer
    ensures { Put (read_for e message.now room.old) result room.new }
{
    match reader::read(e, message, room) {
        Ok(o) => recorded(outcome_number(o)),
        Err(Unread::Refused(x)) => refused(x),
        Err(Unread::NoRoom) => plain(10, 0),
    }
}

// What becomes of a record whose name is not refused.
fn write_allowed(e: Edition, said: &[u8], values: &[u8], room: &mut [u8]) -> Answer
    ensures { Put (allowed_for e said.now values.now room.old) result room.new }
{
    match put_message::write(e, said, values, room) {
        Ok(n) => Answer {
            answer: 0,
            place: 0,
            octets: n as u32,
            bit: 0,
            wait: 0,
        },
        Err(Unwritten::NoRoom) => plain(10, 0),
        Err(Unwritten::NotWritten) => plain(11, 0),
    }
}

// Writes the record that octets are in an edition. Its name and its carried values lie in values.
fn write_in(e: Edition, said: &[u8], values: &[u8], room: &mut [u8]) -> Answer
    ensures { Put (write_for e said.now values.now room.old) result room.new }
{
    if record_form::name_refused(e, said, values) {
        return plain(12, 0);
    }
    write_allowed(e, said, values, room)
}

pub fn m3ap_read(message: &[u8], room: &mut [u8]) -> Answer
    ensures { Put (read_for Release18 message.now room.old) result room.new }
{
    read_in(Edition::Release18, message, room)
}

pub fn m3ap_write(said: &[u8], values: &[u8], room: &mut [u8]) -> Answer
    ensures { Put (write_for Release18 said.now values.now room.old) result room.new }
{
    write_in(Edition::Release18, said, values, room)
}

// Writes the request that the record says, and marks it open.
pub fn m3ap_setup(unit: &mut [u8], said: &[u8], values: &[u8], room: &mut [u8]) -> Answer
    ensures { SetupHanded (setup Release18 unit.old (record { said = said.now; values = values.now; room = room.old })) result unit.new room.new }
{
    let b = setup::set_up(Edition::Release18, unit, said, values, room);
    Answer {
        answer: setup::number_of(b.answer),
        place: 0,
        octets: b.octets as u32,
        bit: 0,
        wait: 0,
    }
}

// Which part of the request is its name, or else which part of the label is shown.
pub fn m3ap_shown(request: &[u8], label: &[u8]) -> Part
    ensures { result ≡ part_for (shown_part Release18 request.now label.now) }
{
    let p = shown::part_of(Edition::Release18, request, label);
    let v = p.span;
    Part {
        of_label: u32::from(p.of_label),
        from: v.from as u32,
        octets: (v.to - v.from) as u32,
    }
}

// ---- warnings over SBc-AP, in the ordinary profile and in the lab's

pub fn sbcap_read(message: &[u8], room: &mut [u8]) -> Answer
    ensures { Put (read_for Warnings message.now room.old) result room.new }
{
    read_in(Edition::Warnings, message, room)
}

pub fn sbcap_read_lab(message: &[u8], room: &mut [u8]) -> Answer
    ensures { Put (read_for WarningsLab message.now room.old) result room.new }
{
    read_in(Edition::WarningsLab, message, room)
}

pub fn sbcap_write(said: &[u8], values: &[u8], room: &mut [u8]) -> Answer
    ensures { Put (write_for Warnings said.now values.now room.old) result room.new }
{
    write_in(Edition::Warnings, said, values, room)
}

pub fn sbcap_write_lab(said: &[u8], values: &[u8], room: &mut [u8]) -> Answer
    ensures { Put (write_for WarningsLab said.now values.now room.old) result room.new }
{
    write_in(Edition::WarningsLab, said, values, room)
}
