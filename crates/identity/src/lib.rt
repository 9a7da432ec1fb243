// What must stay apart: identities, TMGI, Session Identity; and the items of a reset, which name associations by identities.
#![tactic(auto)]

ghost use Rattle.std.specs.Prelude.{◌≡◌, ℕ};
ghost use Rattle.identity.specs.Identity.{Numbering, mme_numbering, mce_numbering};

// An identity of one series. The series is the type, so what is written for any identity compares those of one series alone.
pub trait Identity: Copy + Drop {
    ghost numbered: { ℕ → Self };

    ghost number: { Self → ℕ };

    // A number says one identity, and an identity one number.
    ghost numbering: { Numbering numbered number };

    fn numbered(v: u16) -> Self
        ensures { result ≡ numbered v };

    fn number(self) -> u16
        ensures { result ≡ number self };
}

// The MME's numbers and the MCE's numbers are separate series: a value of one is never a value of the other. Laid out as C does, for the console's records.
#[repr(C)]
#[derive(Clone, Copy, PartialEq, Eq)]
pub struct MmeId(pub u16);

#[repr(C)]
#[derive(Clone, Copy, PartialEq, Eq)]
pub struct MceId(pub u16);

impl Identity for MmeId {
    ghost numbered = { λ v. record { 0 = v } };

    ghost number = { λ x. x.0 };

    ghost numbering = { mme_numbering };

    fn numbered(v: u16) -> MmeId {
        MmeId(v)
    }

    fn number(self) -> u16 {
        self.0
    }
}

impl Identity for MceId {
    ghost numbered = { λ v. record { 0 = v } };

    ghost number = { λ x. x.0 };

    ghost numbering = { mce_numbering };

    fn numbered(v: u16) -> MceId {
        MceId(v)
    }

    fn number(self) -> u16 {
        self.0
    }
}

// Three octets each.
#[derive(Clone, Copy, PartialEq, Eq)]
pub struct Plmn(pub u8, pub u8, pub u8);

#[derive(Clone, Copy, PartialEq, Eq)]
pub struct Service(pub u8, pub u8, pub u8);

#[derive(Clone, Copy, PartialEq, Eq)]
pub struct Tmgi {
    pub plmn: Plmn,
    pub service: Service,
}

// A reset item: nothing, an MME identity, an MCE identity, or both.
#[derive(Clone, Copy, PartialEq, Eq)]
pub struct Item {
    pub mme: Option<MmeId>,
    pub mce: Option<MceId>,
}
