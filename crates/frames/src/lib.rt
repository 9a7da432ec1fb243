// The frame around a message, and how a message opens.
#![tactic(auto)]

ghost use Rattle.std.specs.Prelude.{◌≡◌};
ghost use Rattle.lists.specs.Lists.{pick};
ghost use Rattle.frames.specs.Frame.{kind_at, frame_at, container_at, count_at};

use octets::Stop;

// What the frame says, and where the message in it begins.
#[derive(Clone, Copy)]
pub struct Frame {
    pub kind: u8,
    pub code: u8,
    pub crit: u8,
    pub from: usize,
}

// How many elements a message has, and whether a container stands behind them.
#[derive(Clone, Copy)]
pub struct Count {
    pub elements: u16,
    pub container: bool,
}

// The first octet of a frame: extension bit, kind, pad.
#[tactic(auto, unfolding(crate::specs::Frame::kind_at))]
fn kind_at(s: &[u8]) -> Result<u8, Stop>
    ensures { result ≡ kind_at s.now }
{
    octets::plain_at(s, 0, 0)?;
    let kind = octets::choice_at(3, 2, s, 0, 1)?;
    octets::pad_at(s, 0, 3)?;
    Ok(kind)
}

// The frame, from its first octet to the end of what was handed in.
#[tactic(auto, unfolding(crate::specs::Frame::frame_at))]
pub fn frame_at(s: &[u8]) -> Result<Frame, Stop>
    ensures { result ≡ frame_at s.now }
{
    let kind = kind_at(s)?;
    let code = octets::octet_at(s, 1)?;
    let crit = envelopes::criticality_at(s, 2)?;
    let v = octets::open_at(s, 3)?;
    octets::ends_at(s, v.to)?;
    Ok(Frame {
        kind,
        code,
        crit,
        from: v.from,
    })
}

// Whether a container stands beside the elements, in a message that can have one.
#[tactic(auto, unfolding(crate::specs::Frame::container_at))]
fn container_at(c: bool, s: &[u8], from: usize) -> Result<bool, Stop>
    ensures { result ≡ container_at c s.now from }
{
    if c {
        return octets::flag_at(s, from, 1);
    }
    Ok(false)
}

// How many bits a message opens with: the extension bit, and that of the container where it can have one.
fn opening_bits(c: bool) -> u8
    ensures { result ≡ pick c 2 1 }
{
    if c { 2 } else { 1 }
}

// How a message opens: the bits, pad, two octets; c: it can have a container.
#[tactic(auto, unfolding(crate::specs::Frame::count_at))]
pub fn count_at(c: bool, s: &[u8], from: usize) -> Result<Count, Stop>
    ensures { result ≡ count_at c s.now from }
{
    octets::plain_at(s, from, 0)?;
    let container = container_at(c, s, from)?;
    octets::pad_at(s, from, opening_bits(c))?;
    let elements = octets::two_at(s, from + 1)?;
    Ok(Count {
        elements,
        container,
    })
}
