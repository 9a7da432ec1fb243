// A reset item, in its envelope.
#![tactic(auto)]

ghost use Rattle.std.specs.Prelude.{◌≡◌, ◌+◌, ◌^◌, ◌<◌};
ghost use Rattle.item.specs.Item.{maybe_identity_at, behind, item_marks_at, item_at, item_element_at};

use identity::{Identity, Item};
use octets::{Part, Stop};

// Which identities an item says that it has.
#[derive(Clone, Copy)]
pub struct Marks {
    pub mme: bool,
    pub mce: bool,
}

// The first octet of an item.
#[tactic(auto, unfolding(crate::specs::Item::item_marks_at))]
fn marks_at(s: &[u8], at: usize) -> Result<Marks, Stop>
    ensures { result ≡ item_marks_at s.now at }
{
    octets::plain_at(s, at, 0)?;
    let mme = octets::flag_at(s, at, 1)?;
    let mce = octets::flag_at(s, at, 2)?;
    octets::plain_at(s, at, 3)?;
    octets::pad_at(s, at, 4)?;
    Ok(Marks { mme, mce })
}

// An identity, of the MME's series or of the MCE's, where a mark said that it is there.
fn maybe_identity_at<I: Identity>(there: bool, s: &[u8], at: usize) -> Result<Option<I>, Stop>
    ensures { result ≡ maybe_identity_at I.numbered there s.now at }
{
    if there {
        let v = octets::two_at(s, at)?;
        Ok(Some(I::numbered(v)))
    } else {
        Ok(None)
    }
}

// The place behind an identity.
fn place_behind(there: bool, at: usize) -> usize
    requires { at + 2 < 2 ^ 64 }
    ensures { result ≡ behind there at }
{
    if there { at + 2 } else { at }
}

#[tactic(auto, using(crate::proofs::Inside::marks_in_lem, crate::proofs::Inside::behind_le), unfolding(crate::specs::Item::item_at))]
fn item_at(s: &[u8], at: usize) -> Result<Item, Stop>
    ensures { result ≡ item_at s.now at }
{
    let h = marks_at(s, at)?;
    let first = at + 1;
    let second = place_behind(h.mme, first);
    let end = place_behind(h.mce, second);
    let mme = maybe_identity_at(h.mme, s, first)?;
    let mce = maybe_identity_at(h.mce, s, second)?;
    octets::ends_at(s, end)?;
    Ok(Item { mme, mce })
}

// An item in its envelope, whose criticality is not looked at further.
#[tactic(auto, using(crate::proofs::Inside::id_in, crate::proofs::Inside::ends_in), unfolding(crate::specs::Item::item_element_at))]
pub fn item_element_at(s: &[u8], at: usize) -> Result<Part<Item>, Stop>
    ensures { result ≡ item_element_at s.now at }
{
    octets::same_at(14, s, at)?;
    octets::choice_at(3, 2, s, at + 2, 0)?;
    octets::pad_at(s, at + 2, 2)?;
    let v = octets::open_at(s, at + 3)?;
    let to = v.to;
    let i = item_at(&s[..to], v.from)?;
    Ok(Part { value: i, next: to })
}
