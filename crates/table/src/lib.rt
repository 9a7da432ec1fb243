// The table by value: what a start, a stop and a reset change. What is held is looked up in the lent octets (crate lent).
#![tactic(auto)]

ghost use Rattle.std.specs.Prelude.{◌≡◌, [], eqb};
ghost use Rattle.table.specs.Table.{empty_association, held, table_holding, has_pair, names, starting, stopping, holding};

use identity::{Item, MceId, MmeId, Plmn, Service, Tmgi};

#[derive(Clone, Copy)]
pub struct Association {
    pub mme: MmeId,
    pub mce: MceId,
    pub tmgi: Tmgi,
    pub session: Option<u8>,
}

// The first count rows hold associations, in order of starting.
#[derive(Drop)]
pub struct Table {
    pub rows: [Association; 256],
    pub count: usize,
}

// What is held of two identities: the first, the second, both in one association. A full table has no room for one more.
#[derive(Clone, Copy)]
pub struct Standing {
    pub mme: bool,
    pub mce: bool,
    pub pair: bool,
    pub full: bool,
}

const NO_ASSOCIATION: Association = Association {
    mme: MmeId(0),
    mce: MceId(0),
    tmgi: Tmgi {
        plmn: Plmn(0, 0, 0),
        service: Service(0, 0, 0),
    },
    session: None,
};

// What is said of a row that holds none.
pub fn no_association() -> Association
    ensures { result ≡ empty_association }
{
    NO_ASSOCIATION
}

// What stands in a row that holds none. Every octet of it is 0, so that a table is cleared many octets at a time.
const UNHELD: Association = NO_ASSOCIATION;

// The table that holds nothing; a whole reset leaves it.
pub fn empty() -> Table
    ensures { result ≡ table_holding [] }
{
    Table {
        rows: [UNHELD; 256],
        count: 0,
    }
}

// The association has both identities. Each is compared within its series alone.
fn has_pair(m: MmeId, c: MceId, a: Association) -> bool
    ensures { result ≡ has_pair m c a }
{
    a.mme == m && a.mce == c
}

// The item names the association.
pub fn names(item: Item, a: Association) -> bool
    ensures { result ≡ names item a }
{
    match (item.mme, item.mce) {
        (Some(m), Some(c)) => has_pair(m, c, a),
        (Some(m), None) => a.mme == m,
        (None, Some(c)) => a.mce == c,
        (None, None) => false,
    }
}

// A start: one more behind those held, where there is room.
pub fn start(t: Table, a: Association) -> Table
    ensures { result ≡ holding (starting a (held t)) t }
{
    let n = t.count.min(256);
    let mut out = t;
    out.count = n;
    if n < 256 {
        out.rows[n] = a;
        out.count = n + 1;
    }
    out
}

// A stop: without what has both identities. A row is emptied as it is passed, and put where it stays.
pub fn stop(t: Table, m: MmeId, c: MceId) -> Table
    ensures { result ≡ holding (stopping m c (held t)) t }
{
    let n = t.count.min(256);
    let mut out = t;
    let mut k = 0;
    for i in 0..n {
        let a = out.rows[i];
        out.rows[i] = UNHELD;
        if !has_pair(m, c, a) {
            out.rows[k] = a;
            k += 1;
        }
    }
    out.count = k;
    out
}
