// The reader, the writer, the table call, the setup call and the shown name for a link process in C, which hands over octets and numbers; and the reader and
// the writer of warnings over SBc-AP: each in link's words. include/m3ap.h and include/sbcap.h are the headers.
#![tactic(auto)]

ghost use Rattle.std.specs.Prelude.{◌≡◌};
ghost use Rattle.calls.specs.Call.{call};
ghost use Rattle.editions.specs.declared.Edition.TheVariants.{Release18, Warnings, WarningsLab};
ghost use Rattle.link.specs.Link.{CallHanded, read_for, write_for, SetupHanded, part_for, Put};
ghost use Rattle.setup.specs.Setup.{setup};
ghost use Rattle.shown.specs.Shown.{shown_part};

use link::{Answer, Part};

// What one message does.
#[unsafe(no_mangle)]
pub extern "C" fn m3ap_call(
    unit: &mut [u8],
    message: &[u8],
    offered: u16,
    room: &mut [u8],
) -> Answer
    ensures { CallHanded (call Release18 unit.old (record { message = message.now; offered = record { 0 = offered }; room = room.old })) result unit.new room.new }
{
    link::m3ap_call(unit, message, offered, room)
}

#[unsafe(no_mangle)]
pub extern "C" fn m3ap_read(message: &[u8], room: &mut [u8]) -> Answer
    ensures { Put (read_for Release18 message.now room.old) result room.new }
{
    link::m3ap_read(message, room)
}

#[unsafe(no_mangle)]
pub extern "C" fn m3ap_write(said: &[u8], values: &[u8], room: &mut [u8]) -> Answer
    ensures { Put (write_for Release18 said.now values.now room.old) result room.new }
{
    link::m3ap_write(said, values, room)
}

// Writes the request that the record says, and marks it open.
#[unsafe(no_mangle)]
pub extern "C" fn m3ap_setup(unit: &mut [u8], said: &[u8], values: &[u8], room: &mut [u8]) -> Answer
    ensures { SetupHanded (setup Release18 unit.old (record { said = said.now; values = values.now; room = room.old })) result unit.new room.new }
{
    link::m3ap_setup(unit, said, values, room)
}

// Which part of the request is its name, or else which part of the label is shown.
#[unsafe(no_mangle)]
pub extern "C" fn m3ap_shown(request: &[u8], label: &[u8]) -> Part
    ensures { result ≡ part_for (shown_part Release18 request.now label.now) }
{
    link::m3ap_shown(request, label)
}

// ---- warnings over SBc-AP, in the ordinary profile and in the lab's

#[unsafe(no_mangle)]
pub extern "C" fn sbcap_read(message: &[u8], room: &mut [u8]) -> Answer
    ensures { Put (read_for Warnings message.now room.old) result room.new }
{
    link::sbcap_read(message, room)
}

#[unsafe(no_mangle)]
pub extern "C" fn sbcap_read_lab(message: &[u8], room: &mut [u8]) -> Answer
    ensures { Put (read_for WarningsLab message.now room.old) result room.new }
{
    link::sbcap_read_lab(message, room)
}

#[unsafe(no_mangle)]
pub extern "C" fn sbcap_write(said: &[u8], values: &[u8], room: &mut [u8]) -> Answer
    ensures { Put (write_for Warnings said.now values.now room.old) result room.new }
{
    link::sbcap_write(said, values, room)
}

#[unsafe(no_mangle)]
pub extern "C" fn sbcap_write_lab(said: &[u8], values: &[u8], room: &mut [u8]) -> Answer
    ensures { Put (write_for WarningsLab said.now values.now room.old) result room.new }
{
    link::sbcap_write_lab(said, values, room)
}
