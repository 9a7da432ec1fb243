// The values, written. A writer puts its octets into lent room from a place on, as far as it goes, and hands back the place behind them.
#![tactic(auto)]

ghost use Rattle.std.specs.Prelude.{◌≡◌, ◌<◌};
ghost use Rattle.octets.specs.Write.{Wrote, number_octets};
ghost use Rattle.values.specs.Values.{root_of};
ghost use Rattle.values.specs.Written.{one_octets, tmgi_octets, cause_octet, cause_octets, wait_octets};

use identity::{Identity, Plmn, Service, Tmgi};
use values::Cause;

// Of the envelopes of items: reject in a RESET, ignore in an acknowledgement.
#[derive(Clone, Copy)]
pub enum Criticality {
    Reject,
    Ignore,
}

// An identity, of the MME's series or of the MCE's.
pub fn put_identity<I: Identity>(room: &mut [u8], at: usize, v: I) -> usize
    ensures { Wrote room.old at (number_octets 2 (I.number v)) room.new result }
{
    octets::put_two(room, at, v.number())
}

#[tactic(auto, using(octets::proofs::Writing::number_one))]
pub fn put_one(room: &mut [u8], at: usize, v: u8) -> usize
    ensures { Wrote room.old at (one_octets v) room.new result }
{
    octets::put_octet(room, at, v)
}

// A TMGI, without extensions.
#[tactic(auto, using(octets::proofs::Writing::wrote_then), unfolding(values::specs::Written::tmgi_octets, packed::specs::Packed::packed_in))]
pub fn put_tmgi(room: &mut [u8], at: usize, t: Tmgi) -> usize
    ensures { Wrote room.old at (tmgi_octets t) room.new result }
{
    let Plmn(a, b, c) = t.plmn;
    let Service(d, e, f) = t.service;
    let plmn = octets::put_octet(room, at, 0);
    let service = octets::put_three(room, plmn, a, b, c);
    octets::put_three(room, service, d, e, f)
}

fn cause_octet(c: Cause) -> u8
    requires { c.value < root_of c.group }
    ensures { result ≡ cause_octet c }
{
    let group = packed::with_bits(0, 1, 3, c.group);
    let plain = packed::with_bits(group, 4, 1, 0);
    packed::with_bits(plain, 5, values::width_of(c.group), c.value)
}

// A cause; nothing for one outside the root.
#[tactic(auto, using(octets::proofs::Writing::wrote_none), unfolding(values::specs::Written::cause_octets))]
pub fn put_cause(room: &mut [u8], at: usize, c: Cause) -> usize
    ensures { Wrote room.old at (cause_octets c) room.new result }
{
    if c.value < values::root_of(c.group) {
        return octets::put_octet(room, at, cause_octet(c));
    }
    at.min(room.len())
}

// A Time to Wait; nothing for one outside the root.
#[tactic(auto, using(octets::proofs::Writing::wrote_none, crate::proofs::Put::wait_together), unfolding(values::specs::Written::wait_octets))]
pub fn put_wait(room: &mut [u8], at: usize, v: u8) -> usize
    ensures { Wrote room.old at (wait_octets v) room.new result }
{
    if v < 6 {
        return octets::put_octet(room, at, packed::with_bits(0, 1, 3, v));
    }
    at.min(room.len())
}
