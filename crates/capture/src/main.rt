// Plays a capture from standard input and writes what each entry gives. The play itself is `evening::play`; here are reading and writing.
#![tactic(auto)]

ghost use Rattle.std.specs.Prelude.{◌≡◌, ◌≤◌, length, IfOk};

use evening::Turn;
use std::io;
use std::io::{BufWriter, Read, Write};

// The entries played, the octets left over at the front of the space, and whether more may come.
#[derive(Clone, Copy)]
struct Reading {
    messages: usize,
    left: usize,
    more: bool,
}

// The entries played, and how many octets they have.
#[derive(Clone, Copy)]
struct Progress {
    messages: usize,
    octets: usize,
}

// Any entry fits, twice over.
fn space_for_two() -> [u8; 131072]
    ensures { 131072 ≡ length result }
{
    [0; 131072]
}

// The label goes out as it is, which is quicker than to format it with the number.
fn line<W: Write>(output: &mut W, label: &[u8], n: usize) -> io::Result<()> {
    output.write_all(label)?;
    writeln!(output, "{n}")
}

// The lines of each entry; the last number given before is told.
fn show<W: Write>(output: &mut W, turns: &[Turn], before: usize) -> io::Result<()> {
    let mut message = before;
    for turn in turns {
        message = message.wrapping_add(1);
        line(output, b"message=", message)?;
        line(output, b"answer=", turn.answer)?;
        line(output, b"reply=", turn.reply)?;
        line(output, b"held=", turn.held)?;
    }
    Ok(())
}

// Plays all whole entries of s, as many at a time as there is room for turns.
fn play_whole<W: Write>(
    output: &mut W,
    s: &[u8],
    unit: &mut [u8],
    room: &mut [u8],
    turns: &mut [Turn],
    before: usize,
) -> io::Result<Progress>
    ensures { IfOk result (λ p. p.octets ≤ length s.now) }
{
    let mut messages = before;
    let mut octets: usize = 0;
    while octets < s.len() {
        let p = evening::play(&s[octets..], unit, room, turns);
        if p.octets == 0 {
            break;
        }
        show(output, &turns[..p.entries], messages)?;
        messages = messages.wrapping_add(p.entries);
        octets += p.octets;
    }
    Ok(Progress { messages, octets })
}

// Reads until the space is filled or the input ends, and says how many octets came.
fn read_full<R: Read>(input: &mut R, space: &mut [u8]) -> io::Result<usize>
    ensures { IfOk result (λ n. n ≤ length space.new) }
{
    let mut at: usize = 0;
    while at < space.len() {
        let got = input.read(&mut space[at..])?;
        if got == 0 {
            return Ok(at);
        }
        at += got;
    }
    Ok(at)
}

// Reads behind what is left over, plays what is whole, and keeps the rest in front. Where the space is not filled, the input has ended.
fn read_on<R: Read, W: Write>(
    input: &mut R,
    output: &mut W,
    r: Reading,
    space: &mut [u8],
    unit: &mut [u8],
    room: &mut [u8],
    turns: &mut [Turn],
) -> io::Result<Reading> {
    if space.len() < r.left {
        return Ok(Reading { more: false, ..r });
    }
    let have = r.left + read_full(input, &mut space[r.left..])?;
    let p = play_whole(output, &space[..have], unit, room, turns, r.messages)?;
    space.copy_within(p.octets..have, 0);
    Ok(Reading {
        messages: p.messages,
        left: have - p.octets,
        more: have == space.len(),
    })
}

fn finish<W: Write>(output: &mut W, r: Reading) -> io::Result<()> {
    line(output, b"messages=", r.messages)?;
    line(output, b"cut=", usize::from(r.left != 0))?;
    output.flush()
}

fn main(rt: HostRuntime) -> io::Result<()> {
    let mut input = rt.reader();
    let mut output = BufWriter::new(rt.alloc(), io::writer(&rt))?;
    let mut space = space_for_two();
    let mut room = [0u8; 8192];
    let mut unit = [0u8; 3088];
    let mut turns = [Turn {
        answer: 0,
        reply: 0,
        held: 0,
    }; 1024];
    let mut r = Reading {
        messages: 0,
        left: 0,
        more: true,
    };
    for _ in 0..u64::MAX {
        r = read_on(
            &mut input,
            &mut output,
            r,
            &mut space,
            &mut unit,
            &mut room,
            &mut turns,
        )?;
        if !r.more {
            return finish(&mut output, r);
        }
    }
    Ok(())
}
