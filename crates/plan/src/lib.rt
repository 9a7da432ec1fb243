// Writing a message, whatever its values come from: sizes are known before the first octet is put, by them the plan, by it the answer and the frame.
#![tactic(auto)]

ghost use Rattle.std.specs.Prelude.{◌≡◌, ◌≤◌, length, Some};
ghost use Rattle.octets.specs.Write.{length_octets, Wrote};
ghost use Rattle.rows.specs.Table.{rows_in};
ghost use Rattle.meaning.specs.Value.{cause};
ghost use Rattle.meaning.specs.Written.{is_list_length, under};
ghost use Rattle.plan.specs.Plan.{size_of, fitted, Small, step_of, plan_to, message_size, opening_octets, front_octets};
ghost use Rattle.plan.specs.Written.{Writes, begun_in};

use editions::Code;
use rows::Rows;
use values::Cause;

// Why nothing is written: the room is too small (10); the message is not written (11).
#[derive(Clone, Copy)]
pub enum Unwritten {
    NoRoom,
    NotWritten,
}

// What writing answers: how many octets were put (0), or why none.
pub type Written = Result<usize, Unwritten>;

// How many elements there are, and their octets, at most 8,192.
pub type Plan = (u16, usize);

// The octets of a length.
#[tactic(auto, unfolding(octets::specs::Write::length_octets))]
pub fn length_size(n: usize) -> usize
    ensures { result ≡ length (length_octets n) }
{
    if n < 128 {
        return 1;
    }
    if n < 16384 {
        return 2;
    }
    0
}

// A value of 1 to 8,192 octets may be written; for another the message is not.
#[tactic(auto, unfolding(crate::specs::Plan::fitted))]
pub fn fit(size: usize) -> usize
    ensures { result ≡ fitted size }
{
    if size == 0 || 8192 < size { 8193 } else { size }
}

// A list has 1 to 256.
pub fn fits_a_list(n: usize) -> bool
    ensures { result ≡ is_list_length n }
{
    0 < n && n <= 256
}

// A triggering message or a criticality, if it is there, is one of n.
pub fn is_under(n: u8, x: Option<u8>) -> bool
    ensures { result ≡ under n x }
{
    match x {
        Some(v) => v < n,
        None => true,
    }
}

// A cause outside its root has no octets.
#[tactic(auto, unfolding(crate::specs::Plan::size_of, meaning::specs::Written::has_octets, meaning::specs::Written::octets_of, values::specs::Written::cause_octets))]
pub fn cause_size(c: Cause) -> usize
    ensures { result ≡ size_of (cause c) }
{
    usize::from(c.value < values::root_of(c.group))
}

// One row more: a mandatory element may not be absent, and all elements may have 8,192 octets.
#[tactic(auto, unfolding(crate::specs::Plan::step_of), using(crate::proofs::Steps::length_few))]
fn step(plan: Plan, mandatory: bool, size: usize) -> Option<Plan>
    requires { Small 12 (Some plan) }
    ensures { result ≡ step_of (Some plan) mandatory size }
{
    let (count, sum) = plan;
    if size == 0 {
        return if mandatory { None } else { Some(plan) };
    }
    if 8192 < size {
        return None;
    }
    let next = sum + (3 + length_size(size) + size);
    if 8192 < next {
        return None;
    }
    Some((count + 1, next))
}

// By the size of each row's value: 0 where there is none, over 8,192 where the message is not written for it.
pub fn plan_of(rows: Rows, sizes: &[usize; 12]) -> Option<Plan>
    ensures { result ≡ plan_to (Some (0, 0)) (rows_in rows.entry) sizes.now (length (rows_in rows.entry)) }
{
    let mut plan = (0, 0);
    for (row, size) in rows.rows.iter().zip(sizes) {
        plan = step(plan, row.mandatory, *size)?;
    }
    Some(plan)
}

// All octets of a message whose elements have sum: the frame, the extension bit, the count.
#[tactic(auto, using(crate::proofs::Steps::length_few))]
fn message_size(sum: usize) -> usize
    requires { sum ≤ 8192 }
    ensures { result ≡ message_size sum }
{
    let inside = sum + 3;
    3 + length_size(inside) + inside
}

// The frame, its length, the extension bit, and how many elements there are.
fn put_opening(room: &mut [u8], code: Code, inside: usize, count: u16) -> usize
    ensures { Wrote room.old 0 (opening_octets code inside count) room.new result }
{
    let second = octets::put_octet(room, 0, packed::with_bits(0, 1, 2, code.kind));
    let third = octets::put_octet(room, second, code.code);
    let fourth = octets::put_octet(room, third, packed::with_bits(0, 0, 2, code.crit));
    let message = octets::put_length(room, fourth, inside);
    let number = octets::put_octet(room, message, 0);
    octets::put_two(room, number, count)
}

// What stands before the elements, if the whole message is written and has room: the place of the first element. 11 comes before 10.
#[tactic(auto, unfolding(crate::specs::Written::begun_in))]
pub fn begin(room: &mut [u8], code: Code, plan: Option<Plan>) -> Written
    ensures { Writes (begun_in room.old code plan) result room.new }
{
    let (count, sum) = plan.ok_or(Unwritten::NotWritten)?;
    if 8192 < sum {
        return Err(Unwritten::NotWritten);
    }
    let whole = message_size(sum);
    if 8192 < whole {
        return Err(Unwritten::NotWritten);
    }
    if room.len() < whole {
        return Err(Unwritten::NoRoom);
    }
    Ok(put_opening(room, code, sum + 3, count))
}

// What stands before an element's value: id, criticality, length.
pub fn put_front(room: &mut [u8], at: usize, id: u16, crit: u8, size: usize) -> usize
    ensures { Wrote room.old at (front_octets id crit size) room.new result }
{
    let second = octets::put_two(room, at, id);
    let third = octets::put_octet(room, second, packed::with_bits(0, 0, 2, crit));
    octets::put_length(room, third, size)
}
