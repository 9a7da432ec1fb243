// The replies, by what each says of its own. No code: their octets are put by `put_reply`.
#![tactic(auto)]

use identity::{MceId, MmeId};
use values::Cause;

#[derive(Clone, Copy)]
pub enum Reply {
    None,
    StartResponse(MmeId, MceId),
    StartFailure(MmeId, Cause),
    StopResponse(MmeId, MceId),
    // without a list
    Acknowledge,
    // of the items that have an identity
    AcknowledgeItems,
    // answer 5's ERROR INDICATION, with the identities that were read
    Rejection(Option<MmeId>, Option<MceId>, Cause),
    // answer 8's
    PairNotHeld(MmeId, MceId),
}
