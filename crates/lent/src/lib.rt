// The table as 3,074 octets that the link process lends: a count of two octets, the high one first, then 256 rows of 12.
// A row: MME identity (2), MCE identity (2), PLMN (3), service (3), 1 for a Session Identity or 0, and the Session Identity or 0.
// Rows past the count are zero, so a table has one form.
#![tactic(auto)]

ghost use Rattle.std.specs.Prelude.{◌≡◌, min, ◌+◌, ◌*◌, ◌≤◌, ◌<◌, length, get_or, drop, None, Some, IfSome};
ghost use Rattle.lists.specs.Lists.{pick, some};
ghost use Rattle.octets.specs.Field.{value_at};
ghost use Rattle.table.specs.Table.{table_holding, names, held_by, standing};
ghost use Rattle.lent.specs.Lent.{session_of, row_in, rows_of, first_rows, read_table, looked_up};
ghost use Rattle.distinct.specs.Bits.{told};
ghost use Rattle.lent.specs.Tests.{session_good, rows_good, rows_right, zeros, is_met, numbers_at, series_held, held_apart, Fits};

use distinct::Set;
use identity::{Identity, Item, MceId, MmeId, Plmn, Service, Tmgi};
use table::{Association, Standing, Table};

// What a table says of an item's identities: what is held of them, and how many rows there are.
#[derive(Clone, Copy)]
pub struct Looked {
    pub standing: Standing,
    pub count: usize,
}

fn session_of(flag: u8, v: u8) -> Option<u8>
    ensures { result ≡ session_of flag v }
{
    if flag == 0 {
        return None;
    }
    Some(v)
}

// The row that the first 12 octets say; fewer say none.
pub fn row_of(p: &[u8]) -> Association
    ensures { result ≡ row_in p.now }
{
    if p.len() < 12 {
        return table::no_association();
    }
    Association {
        mme: identity_at(p, 0),
        mce: identity_at(p, 2),
        tmgi: Tmgi {
            plmn: Plmn(p[4], p[5], p[6]),
            service: Service(p[7], p[8], p[9]),
        },
        session: session_of(p[10], p[11]),
    }
}

// The identity that two octets say.
fn identity_at<I: Identity>(s: &[u8], at: usize) -> I
    requires { at + 2 ≤ length s.now }
    ensures { result ≡ I.numbered (value_at 2 s.now at) }
{
    I::numbered(u16::from_be_bytes([s[at], s[at + 1]]))
}

// The row at a place has 1 and any octet for the Session Identity, or 0 and 0.
fn session_good(s: &[u8], at: usize) -> bool
    requires { at + 12 ≤ length s.now }
    ensures { result ≡ session_good (get_or (drop at s.now) 10 0) (get_or (drop at s.now) 11 0) }
{
    match s[at + 10] {
        1 => true,
        0 => s[at + 11] == 0,
        _ => false,
    }
}

// All octets are zero. The loop has no exit, so that the compiler takes many octets at a time.
pub fn all_zero(s: &[u8]) -> bool
    ensures { result ≡ zeros s.now }
{
    let mut all = 0;
    for x in s {
        all |= *x;
    }
    all == 0
}

// There is an identity, and the set has it.
fn is_met<I: Identity, const W: usize>(set: &mut Set<I, W>, x: Option<I>) -> bool
    ensures is { result ≡ is_met I.number W set.old.words x }
    ensures fits { Fits I.number x }
{
    match x {
        Some(x) => set.meet(x),
        None => false,
    }
}

// The first n rows have good octets for the Session Identity.
fn sessions_good(s: &[u8], n: usize) -> bool
    requires { 2 + 12 * n ≤ length s.now }
    ensures { result ≡ rows_good n (drop 2 s.now) }
{
    for i in 0..n {
        if !session_good(s, 2 + 12 * i) {
            return false;
        }
    }
    true
}

// By a set of W words: no two of the identities at a place of the first n rows are alike by what the words tell apart. Where it is so, whether one of them is alike with x.
fn series_held<I: Identity, const W: usize>(
    s: &[u8],
    n: usize,
    from: usize,
    x: Option<I>,
) -> Option<bool>
    requires { (0 < W) × (W ≤ 1024) × (from ≤ 10) × (2 + 12 * n ≤ length s.now) }
    ensures is { result ≡ series_held I.number (told W) W x (numbers_at from n (drop 2 s.now)) }
    ensures fits { IfSome result (λ _. Fits I.number x) }
{
    let mut set = Set::<I, W>::empty();
    for i in 0..n {
        if set.meet(identity_at(s, 2 + 12 * i + from)) {
            return None;
        }
    }
    Some(is_met(&mut set, x))
}

// The first n rows have good octets for the Session Identity, and no two are alike by what W words tell apart of an identity.
// Where it is so, whether one of them is alike with each of the item's identities. One series after the other, so that one set is there at a time.
fn held_apart<const W: usize>(s: &[u8], n: usize, item: Item) -> Option<(bool, bool)>
    requires { (0 < W) × (W ≤ 1024) × (2 + 12 * n ≤ length s.now) }
    ensures is { result ≡ held_apart W item n (drop 2 s.now) }
    ensures fits { IfSome result (λ _. Fits (λ m. m.0) item.mme × Fits (λ c. c.0) item.mce) }
{
    let mme = series_held::<MmeId, W>(s, n, 0, item.mme)?;
    if !sessions_good(s, n) {
        return None;
    }
    let mce = series_held::<MceId, W>(s, n, 2, item.mce)?;
    Some((mme, mce))
}

// One of the first n rows is named.
fn held_in(s: &[u8], n: usize, item: Item) -> bool
    requires { (n ≤ 256) × (2 + 12 * n ≤ length s.now) }
    ensures { result ≡ some (names item) (rows_of n (drop 2 s.now)) }
{
    for i in 0..n {
        if table::names(item, row_of(&s[2 + 12 * i..])) {
            return true;
        }
    }
    false
}

// What the first n rows hold of an item's identities, of which each is held or not: only what is held can be a pair.
fn with_pair(s: &[u8], n: usize, item: Item, first: bool, second: bool) -> Looked
    requires { (n ≤ 256) × (2 + 12 * n ≤ length s.now) × (first ≡ held_by item.mme None (rows_of n (drop 2 s.now))) × (second ≡ held_by None item.mce (rows_of n (drop 2 s.now))) }
    ensures { result ≡ record { standing = standing item (rows_of n (drop 2 s.now)); count = n } }
{
    let pair = (first || second) && held_in(s, n, item);
    let standing = Standing {
        mme: first,
        mce: second,
        pair,
        full: 256 <= n,
    };
    Looked { standing, count: n }
}

// By going over the rows, which are right.
fn look_few(s: &[u8], n: usize, item: Item) -> Looked
    requires { (n ≤ 256) × (2 + 12 * n ≤ length s.now) }
    ensures { result ≡ record { standing = standing item (rows_of n (drop 2 s.now)); count = n } }
{
    let first = Item { mce: None, ..item };
    let second = Item { mme: None, ..item };
    let mme = held_in(s, n, first);
    let mce = held_in(s, n, second);
    with_pair(s, n, item, mme, mce)
}

// By sets whose words tell all identities apart.
fn look_many(s: &[u8], n: usize, item: Item) -> Option<Looked>
    requires { (n ≤ 256) × (2 + 12 * n ≤ length s.now) }
    ensures { result ≡ pick (rows_right n (drop 2 s.now)) (Some (record { standing = standing item (rows_of n (drop 2 s.now)); count = n })) None }
{
    let (mme, mce) = held_apart::<1024>(s, n, item)?;
    Some(with_pair(s, n, item, mme, mce))
}

// What octets say of an item's identities, if they are a table. A set of 8 KB takes longer to clear than a few rows to go over, so that of few rows the low 12 bits are tried first.
pub fn look_up(s: &[u8], item: Item) -> Option<Looked>
    ensures { result ≡ looked_up item (read_table s.now) }
{
    if s.len() != 3074 {
        return None;
    }
    let n = usize::from(u16::from_be_bytes([s[0], s[1]]));
    if 256 < n {
        return None;
    }
    if !all_zero(&s[2 + 12 * n..]) {
        return None;
    }
    if n <= 64 && held_apart::<64>(s, n, item).is_some() {
        return Some(look_few(s, n, item));
    }
    look_many(s, n, item)
}

// One of the first n rows is named, of octets as many as a table has, whether or not they are one.
pub fn names_row(s: &[u8], n: usize, item: Item) -> bool
    ensures { result ≡ some (names item) (first_rows n s.now) }
{
    if s.len() != 3074 {
        return false;
    }
    held_in(s, n.min(256), item)
}

// The first n rows of octets as many as a table has, whether or not they are one. The table is handed back at one place, so that it is not copied.
pub fn rows_in(s: &[u8], n: usize) -> Table
    ensures { result ≡ table_holding (first_rows n s.now) }
{
    let mut t = table::empty();
    if s.len() == 3074 {
        let n = n.min(256);
        for i in 0..n {
            t.rows[i] = row_of(&s[2 + 12 * i..]);
        }
        t.count = n;
    }
    t
}
