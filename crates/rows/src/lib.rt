// What a table of elements is made of: its rows, and how the value of a row's element is read.
#![tactic(auto)]

ghost use Rattle.std.specs.Prelude.{◌≡◌};
ghost use Rattle.rows.specs.Table.{rows_in, kind_of, meanings};

mod table;

pub use table::Rows;

// How many meanings the triggering message of Criticality Diagnostics has.
#[derive(Clone, Copy)]
pub enum Triggers {
    Three,
    Four,
}

// What is carried is not read.
#[derive(Clone, Copy)]
pub enum Kind {
    Carried,
    Mme,
    Mce,
    Tmgi,
    // a number of one octet, and one of two, every one of which means something
    OneOctet,
    TwoOctets,
    Cause,
    // Time to Wait
    Wait,
    // MCE Name
    Name,
    ResetType,
    Acknowledged,
    Diagnostics(Triggers),
}

// A row of a message's table, as 9.3.4 has it.
#[derive(Clone, Copy)]
pub struct Row {
    pub id: u16,
    pub crit: u8,
    pub kind: Kind,
    pub mandatory: bool,
}

// How the value of an element is read.
pub fn kind_of(t: Rows, id: u16) -> Kind
    ensures { result ≡ kind_of (rows_in t.entry) id }
{
    for r in t.rows {
        if r.id == id {
            return r.kind;
        }
    }
    Kind::Carried
}

pub fn meanings(t: Triggers) -> u8
    ensures { result ≡ meanings t }
{
    match t {
        Triggers::Three => 3,
        Triggers::Four => 4,
    }
}
