// The capture: whole entries played one after another on a lent unit. Reading them in and writing lines is the program's.
#![tactic(auto)]

ghost use Rattle.std.specs.Prelude.{◌≡◌, true, ◌+◌, ◌≤◌, length, Some, None};
ghost use Rattle.lists.specs.Lists.{pick};
ghost use Rattle.octets.specs.Field.{value_at};
ghost use Rattle.editions.specs.declared.Edition.TheVariants.{Release18};
ghost use Rattle.calls.specs.Call.{call};
ghost use Rattle.evening.specs.Capture.{size_in, is_whole, call_in, held_in, played_in, Turned, Plays};

use editions::Edition;
use identity::MceId;

// What an entry gives: the number of the answer, the reply's octets or 0, and how many associations are held afterwards.
#[derive(Clone, Copy)]
pub struct Turn {
    pub answer: usize,
    pub reply: usize,
    pub held: usize,
}

// How many entries were played, and how many octets they have.
#[derive(Clone, Copy)]
pub struct Played {
    pub entries: usize,
    pub octets: usize,
}

// A number of two octets, the high one first.
fn two(s: &[u8], at: usize) -> u16
    requires { at + 2 ≤ length s.now }
    ensures { result ≡ value_at 2 s.now at }
{
    u16::from_be_bytes([s[at], s[at + 1]])
}

#[tactic(auto, unfolding(crate::specs::Capture::held_in))]
fn held(unit: &[u8]) -> usize
    ensures { result ≡ held_in unit.now }
{
    if unit.len() < 2 {
        return 0;
    }
    usize::from(two(unit, 0))
}

// The octets of the entry at the front, if it is whole.
#[tactic(auto, unfolding(crate::specs::Capture::is_whole, crate::specs::Capture::size_in))]
fn size(s: &[u8]) -> Option<usize>
    ensures { result ≡ pick (is_whole s.now) (Some (size_in s.now)) None }
{
    if s.len() < 4 {
        return None;
    }
    let n = 4 + usize::from(two(s, 2));
    if s.len() < n {
        return None;
    }
    Some(n)
}

// The entry at the front, of n octets.
#[tactic(auto, using(crate::proofs::Playing::within, crate::proofs::Playing::four))]
fn take_turn(s: &[u8], n: usize, unit: &mut [u8], room: &mut [u8]) -> Turn
    requires { (n ≡ size_in s.now) × (is_whole s.now ≡ true) }
    ensures { Turned (call Release18 unit.old (call_in s.now room.old)) result unit.new room.new }
{
    let offered = two(s, 0);
    let b = unit::call(Edition::Release18, unit, &s[4..n], MceId(offered), room);
    Turn {
        answer: answers::number_of(b.answer) as usize,
        reply: b.octets,
        held: held(unit),
    }
}

// Plays whole entries at the front of s, as many as turns are lent; what each gave stands in the front of the turns.
pub fn play(s: &[u8], unit: &mut [u8], room: &mut [u8], turns: &mut [Turn]) -> Played
    ensures plays { Plays (played_in (length turns.old) s.now unit.old room.old) turns.old result unit.new room.new turns.new }
    ensures entries { result.entries ≤ length turns.old }
    ensures octets { result.octets ≤ length s.now }
{
    let most = turns.len();
    let mut at: usize = 0;
    for i in 0..most {
        let Some(n) = size(&s[at..]) else {
            return Played {
                entries: i,
                octets: at,
            };
        };
        let x = take_turn(&s[at..], n, unit, room);
        turns[i] = x;
        at += n;
    }
    Played {
        entries: most,
        octets: at,
    }
}
