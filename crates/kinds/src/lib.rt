// How the value of an element is read, by what 9.3.4 says that it is.
#![tactic(auto)]

ghost use Rattle.std.specs.Prelude.{◌≡◌};
ghost use Rattle.octets.specs.Read.{checked};
ghost use Rattle.kinds.specs.Kinds.{legible_at};

use identity::{MceId, MmeId};
use octets::Stop;
use rows::Kind;

// What was read is let go.
fn checked<T: Drop>(read: Result<T, Stop>) -> Result<(), Stop>
    ensures { result ≡ checked read }
{
    read?;
    Ok(())
}

// A value of a kind can be read, or why not. Nothing is kept of it.
#[tactic(auto, unfolding(crate::specs::Kinds::legible_at))]
pub fn value_at(kind: Kind, s: &[u8], at: usize) -> Result<(), Stop>
    ensures { result ≡ legible_at kind s.now at }
{
    match kind {
        Kind::Carried => Ok(()),
        Kind::Mme => checked(values::identity_at::<MmeId>(s, at)),
        Kind::Mce => checked(values::identity_at::<MceId>(s, at)),
        Kind::Tmgi => checked(values::tmgi_at(s, at)),
        Kind::OneOctet => checked(values::one_at(s, at)),
        Kind::TwoOctets => checked(values::two_at(s, at)),
        Kind::Cause => checked(values::cause_at(s, at)),
        Kind::Wait => checked(values::wait_at(s, at)),
        Kind::Name => checked(names::name_at(s, at)),
        Kind::ResetType => item_words::reset_gate(s, at),
        Kind::Acknowledged => item_words::items_gate(s, at),
        Kind::Diagnostics(t) => entry_words::diagnostics_gate(rows::meanings(t), s, at),
    }
}
