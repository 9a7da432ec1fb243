// The messages of an edition, with the number, the frame and the table of elements of each.
#![tactic(auto)]

ghost use Rattle.std.specs.Prelude.{◌≡◌, ◌&&◌, eqb};
ghost use Rattle.rows.specs.Table.{rows_in};
ghost use Rattle.editions.specs.Editions.{printed_form, in_lab, form_of, messages_of, table_of, code_of, container_of, number_of, named_by, numbered_by};
ghost use Rattle.editions.specs.Steps.{Heads};

use rows::{Kind, Row, Rows, Triggers};

#[derive(Clone, Copy)]
pub enum Message {
    StartRequest,
    StartResponse,
    StartFailure,
    StopRequest,
    StopResponse,
    Reset,
    ResetAcknowledge,
    ErrorIndication,
    SetupRequest,
    SetupResponse,
    SetupFailure,
    StopWarningRequest,
    StopWarningResponse,
    WarningErrorIndication,
}

// What the frame of a message says: kind (0 initiating, 1 successful, 2 unsuccessful), procedure code, criticality.
#[derive(Clone, Copy)]
pub struct Code {
    pub kind: u8,
    pub code: u8,
    pub crit: u8,
}

// Which messages there are, and which tables hold: Release 18 of M3AP; warnings over SBc-AP, and their lab profile.
#[derive(Clone, Copy)]
pub enum Edition {
    Release18,
    Warnings,
    WarningsLab,
}

const REJECT: u8 = 0;

const IGNORE: u8 = 1;

// The rows, each written out, since a check follows every step of a constant. With _R mandatory of reject, with _M mandatory of ignore.
const MME: Row = Row {
    id: 0,
    crit: IGNORE,
    kind: Kind::Mme,
    mandatory: false,
};

const MCE: Row = Row {
    id: 1,
    crit: IGNORE,
    kind: Kind::Mce,
    mandatory: false,
};

const CAUSE: Row = Row {
    id: 9,
    crit: IGNORE,
    kind: Kind::Cause,
    mandatory: false,
};

const DIAG: Row = Row {
    id: 8,
    crit: IGNORE,
    kind: Kind::Diagnostics(Triggers::Three),
    mandatory: false,
};

const SESSION: Row = Row {
    id: 3,
    crit: IGNORE,
    kind: Kind::OneOctet,
    mandatory: false,
};

const ITEMS: Row = Row {
    id: 15,
    crit: IGNORE,
    kind: Kind::Acknowledged,
    mandatory: false,
};

const STOP_AT: Row = Row {
    id: 22,
    crit: IGNORE,
    kind: Kind::Carried,
    mandatory: false,
};

const MME_M: Row = Row {
    id: 0,
    crit: IGNORE,
    kind: Kind::Mme,
    mandatory: true,
};

const MCE_M: Row = Row {
    id: 1,
    crit: IGNORE,
    kind: Kind::Mce,
    mandatory: true,
};

const CAUSE_M: Row = Row {
    id: 9,
    crit: IGNORE,
    kind: Kind::Cause,
    mandatory: true,
};

const MME_R: Row = Row {
    id: 0,
    crit: REJECT,
    kind: Kind::Mme,
    mandatory: true,
};

const MCE_R: Row = Row {
    id: 1,
    crit: REJECT,
    kind: Kind::Mce,
    mandatory: true,
};

const TMGI_R: Row = Row {
    id: 2,
    crit: REJECT,
    kind: Kind::Tmgi,
    mandatory: true,
};

const RESET_R: Row = Row {
    id: 13,
    crit: REJECT,
    kind: Kind::ResetType,
    mandatory: true,
};

const QOS: Row = Row {
    id: 4,
    crit: REJECT,
    kind: Kind::Carried,
    mandatory: true,
};

const DURATION: Row = Row {
    id: 5,
    crit: REJECT,
    kind: Kind::Carried,
    mandatory: true,
};

const AREA: Row = Row {
    id: 6,
    crit: REJECT,
    kind: Kind::Carried,
    mandatory: true,
};

const MINIMUM: Row = Row {
    id: 16,
    crit: REJECT,
    kind: Kind::Carried,
    mandatory: true,
};

const TNL: Row = Row {
    id: 7,
    crit: REJECT,
    kind: Kind::Carried,
    mandatory: true,
};

const TIME: Row = Row {
    id: 21,
    crit: IGNORE,
    kind: Kind::Carried,
    mandatory: false,
};

const AGAIN: Row = Row {
    id: 23,
    crit: IGNORE,
    kind: Kind::Carried,
    mandatory: false,
};

const ALTERNATIVE: Row = Row {
    id: 24,
    crit: IGNORE,
    kind: Kind::Carried,
    mandatory: false,
};

const CELLS: Row = Row {
    id: 25,
    crit: REJECT,
    kind: Kind::Carried,
    mandatory: false,
};

const GLOBAL_ID: Row = Row {
    id: 18,
    crit: REJECT,
    kind: Kind::Carried,
    mandatory: true,
};

const NAME: Row = Row {
    id: 19,
    crit: IGNORE,
    kind: Kind::Name,
    mandatory: false,
};

const AREAS: Row = Row {
    id: 20,
    crit: REJECT,
    kind: Kind::Carried,
    mandatory: true,
};

const WAIT: Row = Row {
    id: 12,
    crit: IGNORE,
    kind: Kind::Wait,
    mandatory: false,
};

const IDENTIFIER_R: Row = Row {
    id: 5,
    crit: REJECT,
    kind: Kind::TwoOctets,
    mandatory: true,
};

const SERIAL_R: Row = Row {
    id: 11,
    crit: REJECT,
    kind: Kind::TwoOctets,
    mandatory: true,
};

const TAIS: Row = Row {
    id: 14,
    crit: REJECT,
    kind: Kind::Carried,
    mandatory: false,
};

const WARNING_AREAS: Row = Row {
    id: 15,
    crit: IGNORE,
    kind: Kind::Carried,
    mandatory: false,
};

const OMC: Row = Row {
    id: 19,
    crit: IGNORE,
    kind: Kind::Carried,
    mandatory: false,
};

const SEND_STOP: Row = Row {
    id: 26,
    crit: IGNORE,
    kind: Kind::Carried,
    mandatory: false,
};

const STOP_ALL: Row = Row {
    id: 27,
    crit: REJECT,
    kind: Kind::Carried,
    mandatory: false,
};

const SBC_CAUSE_R: Row = Row {
    id: 1,
    crit: REJECT,
    kind: Kind::OneOctet,
    mandatory: true,
};

const SBC_CAUSE: Row = Row {
    id: 1,
    crit: IGNORE,
    kind: Kind::OneOctet,
    mandatory: false,
};

const SBC_DIAG: Row = Row {
    id: 2,
    crit: IGNORE,
    kind: Kind::Diagnostics(Triggers::Four),
    mandatory: false,
};

const UNKNOWN_AREAS: Row = Row {
    id: 22,
    crit: IGNORE,
    kind: Kind::Carried,
    mandatory: false,
};

static START_REQUEST: [Row; 12] = [
    MME_R,
    TMGI_R,
    SESSION,
    QOS,
    DURATION,
    AREA,
    MINIMUM,
    TNL,
    TIME,
    AGAIN,
    ALTERNATIVE,
    CELLS,
];

static STOP_WARNING_REQUEST: [Row; 7] = [
    IDENTIFIER_R,
    SERIAL_R,
    TAIS,
    WARNING_AREAS,
    OMC,
    SEND_STOP,
    STOP_ALL,
];

static STOP_WARNING_RESPONSE: [Row; 5] = [
    IDENTIFIER_R,
    SERIAL_R,
    SBC_CAUSE_R,
    SBC_DIAG,
    UNKNOWN_AREAS,
];

// ---- of each message its name, its number and frame, and its table. printed_head and printed_rows are proved with no proof written, so a message is said only here.

static MESSAGES: [Message; 11] = [
    Message::StartRequest,
    Message::StartResponse,
    Message::StartFailure,
    Message::StopRequest,
    Message::StopResponse,
    Message::Reset,
    Message::ResetAcknowledge,
    Message::ErrorIndication,
    Message::SetupRequest,
    Message::SetupResponse,
    Message::SetupFailure,
];

static WARNINGS: [Message; 3] = [
    Message::StopWarningRequest,
    Message::StopWarningResponse,
    Message::WarningErrorIndication,
];

// Number for C, kind, procedure code, criticality, whether a container can stand beside the elements.
#[derive(Clone, Copy)]
struct Head(u8, u8, u8, u8, bool);

fn printed_head(m: Message) -> Head
    ensures { Heads (printed_form m) result }
{
    match m {
        Message::StartRequest => Head(1, 0, 0, REJECT, false),
        Message::StartResponse => Head(2, 1, 0, REJECT, false),
        Message::StartFailure => Head(3, 2, 0, REJECT, false),
        Message::StopRequest => Head(4, 0, 1, REJECT, false),
        Message::StopResponse => Head(5, 1, 1, REJECT, false),
        Message::Reset => Head(6, 0, 4, REJECT, false),
        Message::ResetAcknowledge => Head(7, 1, 4, REJECT, false),
        Message::ErrorIndication => Head(8, 0, 2, IGNORE, false),
        Message::SetupRequest => Head(9, 0, 7, REJECT, false),
        Message::SetupResponse => Head(10, 1, 7, REJECT, false),
        Message::SetupFailure => Head(11, 2, 7, REJECT, false),
        Message::StopWarningRequest => Head(1, 0, 1, REJECT, true),
        Message::StopWarningResponse => Head(2, 1, 1, REJECT, true),
        Message::WarningErrorIndication => Head(3, 0, 2, IGNORE, false),
    }
}

fn printed_rows(m: Message) -> Rows<'static>
    ensures { rows_in result ≡ (printed_form m).rows }
{
    match m {
        Message::StartRequest => Rows {
            rows: &START_REQUEST,
        },
        Message::StartResponse => Rows {
            rows: &[MME_M, MCE_M, DIAG],
        },
        Message::StartFailure => Rows {
            rows: &[MME_M, CAUSE_M, DIAG],
        },
        Message::StopRequest => Rows {
            rows: &[MME_R, MCE_R, STOP_AT],
        },
        Message::StopResponse => Rows {
            rows: &[MME_M, MCE_M, DIAG],
        },
        Message::Reset => Rows {
            rows: &[CAUSE_M, RESET_R],
        },
        Message::ResetAcknowledge => Rows {
            rows: &[ITEMS, DIAG],
        },
        Message::ErrorIndication => Rows {
            rows: &[MME, MCE, CAUSE, DIAG],
        },
        Message::SetupRequest => Rows {
            rows: &[GLOBAL_ID, NAME, AREAS],
        },
        Message::SetupResponse => Rows { rows: &[DIAG] },
        Message::SetupFailure => Rows {
            rows: &[CAUSE_M, WAIT, DIAG],
        },
        Message::StopWarningRequest => Rows {
            rows: &STOP_WARNING_REQUEST,
        },
        Message::StopWarningResponse => Rows {
            rows: &STOP_WARNING_RESPONSE,
        },
        Message::WarningErrorIndication => Rows {
            rows: &[SBC_CAUSE, SBC_DIAG],
        },
    }
}

// ---- any edition

fn head_of(e: Edition, m: Message) -> Head
    ensures { Heads (form_of e m) result }
{
    printed_head(m)
}

// Of a Stop-Warning Request the lab profile knows two rows, of the others all.
fn lab_rows(m: Message) -> Rows<'static>
    ensures { rows_in result ≡ (in_lab (printed_form m)).rows }
{
    match m {
        Message::StopWarningRequest => Rows {
            rows: &[IDENTIFIER_R, SERIAL_R],
        },
        _ => printed_rows(m),
    }
}

// The table of a message.
#[tactic(auto, unfolding(crate::specs::Editions::printed))]
pub fn rows_of(e: Edition, m: Message) -> Rows<'static>
    ensures { rows_in result ≡ table_of e m }
{
    match e {
        Edition::Release18 => printed_rows(m),
        Edition::Warnings => printed_rows(m),
        Edition::WarningsLab => lab_rows(m),
    }
}

// The frame of a message.
pub fn code_of(e: Edition, m: Message) -> Code
    ensures { result ≡ code_of e m }
{
    let h = head_of(e, m);
    Code {
        kind: h.1,
        code: h.2,
        crit: h.3,
    }
}

// The number of a message for C.
pub fn number_of(e: Edition, m: Message) -> u8
    ensures { result ≡ number_of e m }
{
    let h = head_of(e, m);
    h.0
}

// Whether a message can have a container beside its elements.
pub fn has_container(e: Edition, m: Message) -> bool
    ensures { result ≡ container_of e m }
{
    let h = head_of(e, m);
    h.4
}

// The messages of an edition.
fn messages_of(e: Edition) -> &'static [Message]
    ensures { result.now ≡ messages_of e }
{
    match e {
        Edition::Release18 => &MESSAGES,
        Edition::Warnings => &WARNINGS,
        Edition::WarningsLab => &WARNINGS,
    }
}

fn is_of(h: Head, kind: u8, code: u8) -> bool
    ensures { result ≡ (eqb kind h.1 && eqb code h.2) }
{
    (kind == h.1) & (code == h.2)
}

// The message of a kind and a procedure code.
pub fn message_of(e: Edition, kind: u8, code: u8) -> Option<Message>
    ensures { result ≡ named_by e kind code }
{
    for m in messages_of(e) {
        if is_of(head_of(e, *m), kind, code) {
            return Some(*m);
        }
    }
    None
}

// The message of a number.
pub fn numbered(e: Edition, n: u8) -> Option<Message>
    ensures { result ≡ numbered_by e n }
{
    for m in messages_of(e) {
        if n == number_of(e, *m) {
            return Some(*m);
        }
    }
    None
}
