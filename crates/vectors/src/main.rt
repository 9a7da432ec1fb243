// Plays entries from standard input and writes a line for each: what is read of a message, the message written again, what a call on it gives; what a
// record is written as, what a setup by it gives; what is shown of a request.
// An entry: what it is (1 octet), two numbers and a length (2 octets each), and that many octets.
//     0   a message to be read, of M3AP (first number 0) or SBc-AP (1; 2 in the lab profile): the verdict, the octets of the record (docs/LAYOUTS.md, "A lent record"), the list of diagnostics. Of the octets,
//         record= has those in front of the lists, items= and entries= the number of rows and as many rows, since the rows behind are zeros
//     1   a message to be read and written again, into as many octets of room as the second number says; of M3AP (first number 0), or of SBc-AP (1; 2 if the
//         lab profile is to write it)
//     2   a call: the first number is the offered identity, the second the room
//     3   the unit is fresh again
//     4   the octet of the unit at the first number is the second one; nothing is written
//     5   a setup: of the octets, as many as the first number says are a record, and its values lie in the others; the second number is the room
//     6   a record to be written, likewise
//     7   what is shown: of the octets, as many as the first number says are a request, and the others a label
#![tactic(auto)]

ghost use Rattle.std.specs.Prelude.{◌≡◌, length};

use carry::Answer;
use editions::Edition;
use identity::MceId;
use octets::Stop;
use plan::{Unwritten, Written};
use reader::Unread;
use setup::SetupBack;
use std::io::{BufReader, BufWriter, ErrorKind, Read, Write};
use std::{fmt, io};
use unit::Back;
use verdicts::{Outcome, Refusal};

// What an entry is.
#[derive(Clone, Copy)]
enum Kind {
    Read,
    WriteAgain,
    Call,
    Fresh,
    Spoil,
    Setup,
    Write,
    Show,
}

impl From<u8> for Kind {
    fn from(n: u8) -> Kind {
        match n {
            0 => Kind::Read,
            1 => Kind::WriteAgain,
            2 => Kind::Call,
            3 => Kind::Fresh,
            4 => Kind::Spoil,
            5 => Kind::Setup,
            6 => Kind::Write,
            _ => Kind::Show,
        }
    }
}

// An entry in front of its octets.
#[derive(Clone, Copy)]
struct Front {
    kind: Kind,
    first: u16,
    second: u16,
    length: u16,
}

// Octets in hexadecimal.
#[derive(Clone, Copy)]
struct Hex<'a>(&'a [u8]);

impl<'a> fmt::Display for Hex<'a> {
    fn fmt<W: fmt::Write>(&self, f: &mut fmt::Formatter<W>) -> fmt::Result {
        for x in self.0 {
            write!(f, "{x:02x}")?;
        }
        Ok(())
    }
}

// Those from a place up to another, as far as there are any.
fn part<'a>(s: &'a [u8], from: usize, to: usize) -> Hex<'a> {
    let end = to.min(s.len());
    Hex(&s[from.min(end)..end])
}

fn two(s: &[u8], at: usize) -> u16 {
    octets::two_at(s, at).unwrap_or(0)
}

fn entries<W: Write>(output: &mut W, words: &[u64; 256], n: usize) -> io::Result<()> {
    for w in words.iter().take(n) {
        let e = entry_words::entry_of(*w);
        write!(output, " {}.{}.{}", e.crit, e.id, e.error)?;
    }
    Ok(())
}

fn refusal<W: Write>(output: &mut W, x: Refusal) -> io::Result<()> {
    match x {
        Refusal::TooLong => write!(output, "answer=1"),
        Refusal::Stopped(Stop::Fault(p)) => write!(output, "answer=2 offset={}", p.octet),
        Refusal::Stopped(Stop::Extension(p)) => write!(output, "answer=3 offset={}", p.octet),
        Refusal::NotAmong => write!(output, "answer=4"),
    }
}

fn outcome<W: Write>(output: &mut W, o: Outcome) -> io::Result<()> {
    match o {
        Outcome::Accepted => write!(output, "answer=0"),
        Outcome::Misplaced(k) => write!(output, "answer=5 cause=3.5 place={k}"),
        Outcome::Rejected => write!(output, "answer=5 cause=3.1"),
    }
}

fn record<W: Write>(output: &mut W, d: &[u8]) -> io::Result<()> {
    let items = 100 + 6 * usize::from(two(d, 98));
    let entries = 1638 + 4 * usize::from(two(d, 1636));
    write!(output, " record={}", part(d, 0, 98))?;
    write!(output, " items={}", part(d, 98, items))?;
    write!(output, " entries={} noted:", part(d, 1636, entries))
}

fn edition(n: u16) -> Edition {
    match n {
        1 => Edition::Warnings,
        2 => Edition::WarningsLab,
        _ => Edition::Release18,
    }
}

// What is noted of a message that is understood.
fn noted<W: Write>(output: &mut W, e: Edition, m: &[u8]) -> io::Result<()> {
    let Ok(f) = frames::frame_at(m) else {
        return Ok(());
    };
    let Some(x) = editions::message_of(e, f.kind, f.code) else {
        return Ok(());
    };
    let mut words: [u64; 256] = [0; 256];
    let t = editions::rows_of(e, x);
    let c = editions::has_container(e, x);
    let n = judging::noted_into(t, c, m, f.from, &mut words);
    entries(output, &words, n)
}

fn read<W: Write>(output: &mut W, e: Edition, m: &[u8]) -> io::Result<()> {
    let mut d = [0u8; 2662];
    match reader::read(e, m, &mut d) {
        Err(Unread::Refused(x)) => {
            refusal(output, x)?;
            record(output, &d)?;
        }
        Err(Unread::NoRoom) => {}
        Ok(o) => {
            outcome(output, o)?;
            record(output, &d)?;
            noted(output, e, m)?;
        }
    }
    writeln!(output, "")
}

fn show_written<W: Write>(output: &mut W, w: Written, room: &[u8]) -> io::Result<()> {
    match w {
        Ok(n) => writeln!(output, "answer=0 {}", part(room, 0, n)),
        Err(Unwritten::NoRoom) => writeln!(output, "answer=10"),
        Err(Unwritten::NotWritten) => writeln!(output, "answer=11"),
    }
}

// The place stands beside 2 and 3.
fn answer<W: Write>(output: &mut W, a: Answer) -> io::Result<()> {
    let n = answers::number_of(a);
    match n {
        2 | 3 => write!(output, "answer={n} offset={}", answers::place_of(a)),
        _ => write!(output, "answer={n} offset=-"),
    }
}

// How many are held, and the octet that marks an open setup request.
fn state<W: Write>(output: &mut W, unit: &[u8]) -> io::Result<()> {
    let mark = if 3076 < unit.len() { unit[3076] } else { 0 };
    write!(output, " held={} open={mark}", two(unit, 0))
}

// The seconds that a failed setup hands back.
fn wait<W: Write>(output: &mut W, seconds: u16) -> io::Result<()> {
    if seconds == 0 {
        return writeln!(output, " wait=-");
    }
    writeln!(output, " wait={seconds}")
}

fn show_back<W: Write>(output: &mut W, b: Back, unit: &[u8], room: &[u8]) -> io::Result<()> {
    answer(output, b.answer)?;
    write!(output, " reply={}", part(room, 0, b.octets))?;
    state(output, unit)?;
    wait(output, answers::wait_of(b.answer))
}

fn show_setup<W: Write>(output: &mut W, b: SetupBack, unit: &[u8], room: &[u8]) -> io::Result<()> {
    let n = setup::number_of(b.answer);
    write!(
        output,
        "answer={n} offset=- reply={}",
        part(room, 0, b.octets)
    )?;
    state(output, unit)?;
    wait(output, 0)
}

// Fills the space from the input; false where that ends before.
fn filled<R: Read>(input: &mut R, space: &mut [u8]) -> io::Result<bool> {
    match input.read_exact(space) {
        Ok(()) => Ok(true),
        Err(error) => {
            if error.kind() == ErrorKind::UnexpectedEof {
                return Ok(false);
            }
            Err(error)
        }
    }
}

// None where the input ends before.
fn next_front<R: Read>(input: &mut R) -> io::Result<Option<Front>> {
    let mut s = [0u8; 7];
    if !filled(input, &mut s)? {
        return Ok(None);
    }
    Ok(Some(Front {
        kind: Kind::from(s[0]),
        first: two(&s, 1),
        second: two(&s, 3),
        length: two(&s, 5),
    }))
}

// What the lab profile is to write, the ordinary one has read.
fn reading(n: u16) -> Edition {
    match n {
        2 => Edition::Warnings,
        _ => edition(n),
    }
}

fn written_again<W: Write>(output: &mut W, n: u16, m: &[u8], room: &mut [u8]) -> io::Result<()> {
    let mut d = [0u8; 2662];
    // What cannot be read leaves the record zero, and is written so.
    let _ = reader::read(reading(n), m, &mut d);
    let w = put_message::write(edition(n), &d, m, room);
    show_written(output, w, room)
}

fn called<W: Write>(
    output: &mut W,
    unit: &mut [u8],
    m: &[u8],
    offered: u16,
    room: &mut [u8],
) -> io::Result<()> {
    let b = unit::call(Edition::Release18, unit, m, MceId(offered), room);
    show_back(output, b, unit, room)
}

fn set_up<W: Write>(
    output: &mut W,
    unit: &mut [u8],
    said: &[u8],
    values: &[u8],
    room: &mut [u8],
) -> io::Result<()> {
    let b = setup::set_up(Edition::Release18, unit, said, values, room);
    show_setup(output, b, unit, room)
}

// As the writer for C does it.
fn written<W: Write>(
    output: &mut W,
    said: &[u8],
    values: &[u8],
    room: &mut [u8],
) -> io::Result<()> {
    if record_form::name_refused(Edition::Release18, said, values) {
        return writeln!(output, "answer=12");
    }
    let w = put_message::write(Edition::Release18, said, values, room);
    show_written(output, w, room)
}

fn show_name<W: Write>(output: &mut W, request: &[u8], label: &[u8]) -> io::Result<()> {
    let s = shown::shown(Edition::Release18, request, label);
    writeln!(output, "shown={}", Hex(s))
}

// Room for as many octets as two octets can say.
fn large_buffer() -> [u8; 65536]
    ensures { 65536 ≡ length result }
{
    [0; 65536]
}

// What an entry gives, of its octets, whole and in two.
fn played<W: Write>(output: &mut W, f: Front, unit: &mut [u8], m: &[u8]) -> io::Result<()> {
    let (front, behind) = m.split_at(usize::from(f.first).min(m.len()));
    let mut space = large_buffer();
    let room = &mut space[..usize::from(f.second)];
    match f.kind {
        Kind::Read => read(output, edition(f.first), m),
        Kind::WriteAgain => written_again(output, f.first, m, room),
        Kind::Call => called(output, unit, m, f.first, room),
        Kind::Setup => set_up(output, unit, front, behind, room),
        Kind::Write => written(output, front, behind, room),
        Kind::Show | Kind::Fresh | Kind::Spoil => show_name(output, front, behind),
    }
}

// The entry's octets, taken in and played; false where the input ends before. The space is this function's, so that an entry without octets clears none.
fn taken<R: Read, W: Write>(
    input: &mut R,
    output: &mut W,
    f: Front,
    unit: &mut [u8],
) -> io::Result<bool> {
    let mut space = large_buffer();
    let m = &mut space[..usize::from(f.length)];
    if !filled(input, m)? {
        return Ok(false);
    }
    played(output, f, unit, m)?;
    Ok(true)
}

// The next entry; false where the input ends.
fn turn<R: Read, W: Write>(input: &mut R, output: &mut W, unit: &mut [u8]) -> io::Result<bool> {
    let Some(f) = next_front(input)? else {
        return Ok(false);
    };
    match f.kind {
        Kind::Fresh => unit.fill(0),
        Kind::Spoil => {
            let at = usize::from(f.first);
            if at < unit.len() {
                unit[at] = (f.second % 256) as u8;
            }
        }
        _ => return taken(input, output, f, unit),
    }
    Ok(true)
}

fn main(rt: HostRuntime) -> io::Result<()> {
    let mut input = BufReader::new(rt.alloc(), rt.reader())?;
    let mut output = BufWriter::new(rt.alloc(), io::writer(&rt))?;
    let mut unit = [0u8; 3088];
    for _ in 0..10000000 {
        if !turn(&mut input, &mut output, &mut unit)? {
            return output.flush();
        }
    }
    output.flush()
}
