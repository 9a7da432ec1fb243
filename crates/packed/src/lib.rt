// Packed fields of an octet, taken apart and put together. A field begins b bits behind the octet's first; b counts within it, so 8 is 0 again.
#![tactic(auto)]

ghost use Rattle.std.specs.Prelude.{◌≡◌, ◌<◌, ◌%◌, ◌^◌};
ghost use Rattle.std.specs.Int.Bits.{bit_or};
ghost use Rattle.packed.specs.Packed.{bits_of, placed};

// The w bits of an octet behind its first b, for any b and w.
pub fn bits(x: u8, b: u8, w: u8) -> u8
    ensures { result ≡ bits_of x b w }
{
    let k = b % 8;
    if w == 0 {
        return 0;
    }
    if 8 - k <= w {
        return low(x, w);
    }
    (x >> (8 - (k + w))) & (255 >> (8 - w))
}

// The lowest w bits.
fn low(x: u8, w: u8) -> u8
    requires { 0 < w }
    ensures { result ≡ x % 2 ^ w }
{
    if 8 <= w {
        return x;
    }
    x & (255 >> (8 - w))
}

// v in the w bits of an octet behind its first b.
fn place_bits(b: u8, w: u8, v: u8) -> u8
    ensures { result ≡ placed b w v }
{
    let k = b % 8;
    if w == 0 {
        return 0;
    }
    if 8 - k <= w {
        return low(v, w);
    }
    low(v, w) << (8 - (k + w))
}

// An octet with v put in behind its first b bits, where it has none set.
pub fn with_bits(x: u8, b: u8, w: u8, v: u8) -> u8
    ensures { result ≡ bit_or x (placed b w v) }
{
    x | place_bits(b, w, v)
}
