// The values that are read in full, each from the begin of its octets to the end of what encloses it:
// identities, TMGI, numbers of one octet and of two, Cause, Time to Wait.
#![tactic(auto)]

ghost use Rattle.std.specs.Prelude.{◌≡◌};
ghost use Rattle.values.specs.Values.{identity_at, one_at, two_at, tmgi_at, root_of, bits_of_root, cause_at, wait_at, seconds};

use identity::{Identity, Plmn, Service, Tmgi};
use octets::Stop;

#[derive(Clone, Copy)]
pub struct Cause {
    pub group: u8,
    pub value: u8,
}

// A number of two octets and nothing behind it.
#[tactic(auto, using(octets::proofs::Got::number_got), unfolding(crate::specs::Values::two_at))]
pub fn two_at(s: &[u8], at: usize) -> Result<u16, Stop>
    ensures { result ≡ two_at s.now at }
{
    let v = octets::two_at(s, at)?;
    octets::ends_at(s, at + 2)?;
    Ok(v)
}

// An identity, of the MME's series or of the MCE's.
#[tactic(auto, unfolding(crate::specs::Values::identity_at))]
pub fn identity_at<I: Identity>(s: &[u8], at: usize) -> Result<I, Stop>
    ensures { result ≡ identity_at I.numbered s.now at }
{
    let v = two_at(s, at)?;
    Ok(I::numbered(v))
}

// A number of one octet and nothing behind it.
#[tactic(auto, using(octets::proofs::Got::number_got), unfolding(crate::specs::Values::one_at))]
pub fn one_at(s: &[u8], at: usize) -> Result<u8, Stop>
    ensures { result ≡ one_at s.now at }
{
    let v = octets::octet_at(s, at)?;
    octets::ends_at(s, at + 1)?;
    Ok(v)
}

// A TMGI: no extensions, three octets of PLMN, three of service.
#[tactic(auto, using(octets::proofs::Got::string_got), unfolding(crate::specs::Values::tmgi_at))]
pub fn tmgi_at(s: &[u8], at: usize) -> Result<Tmgi, Stop>
    ensures { result ≡ tmgi_at s.now at }
{
    octets::plain_at(s, at, 0)?; // no extensions
    octets::pad_at(s, at, 1)?;
    let p = octets::array_at::<3>(s, at + 1)?;
    let v = octets::array_at::<3>(s, at + 4)?;
    octets::ends_at(s, at + 7)?;
    Ok(Tmgi {
        plmn: Plmn(p[0], p[1], p[2]),
        service: Service(v[0], v[1], v[2]),
    })
}

// The groups of causes, radio network, transport, NAS, protocol, miscellaneous: how many root values each has, and the bits of their numbers.
const ROOTS: [u8; 5] = [8, 2, 1, 7, 5];

const WIDTHS: [u8; 5] = [3, 1, 0, 3, 3];

// There are none in any other group.
pub fn root_of(group: u8) -> u8
    ensures { result ≡ root_of group }
{
    ROOTS.get(group as usize).copied().unwrap_or(0)
}

pub fn width_of(group: u8) -> u8
    ensures { result ≡ bits_of_root group }
{
    WIDTHS.get(group as usize).copied().unwrap_or(0)
}

// A cause: its group, and its number among the group's root values.
#[tactic(auto, using(octets::proofs::Got::choice_got), unfolding(crate::specs::Values::cause_at))]
pub fn cause_at(s: &[u8], at: usize) -> Result<Cause, Stop>
    ensures { result ≡ cause_at s.now at }
{
    octets::plain_at(s, at, 0)?;
    let group = octets::choice_at(5, 3, s, at, 1)?;
    octets::plain_at(s, at, 4)?;
    let width = width_of(group);
    let value = octets::choice_at(root_of(group), width, s, at, 5)?;
    octets::pad_at(s, at, 5 + width)?;
    octets::ends_at(s, at + 1)?;
    Ok(Cause { group, value })
}

// A Time to Wait: its number among the root values.
#[tactic(auto, using(octets::proofs::Got::choice_got), unfolding(crate::specs::Values::wait_at))]
pub fn wait_at(s: &[u8], at: usize) -> Result<u8, Stop>
    ensures { result ≡ wait_at s.now at }
{
    octets::plain_at(s, at, 0)?;
    let v = octets::choice_at(6, 3, s, at, 1)?;
    octets::pad_at(s, at, 4)?;
    octets::ends_at(s, at + 1)?;
    Ok(v)
}

// The seconds of the root values.
const WAITS: [u16; 6] = [1, 2, 5, 10, 20, 60];

// There are none outside the root.
pub fn seconds_of(v: u8) -> u16
    ensures { result ≡ seconds v }
{
    WAITS.get(v as usize).copied().unwrap_or(0)
}
