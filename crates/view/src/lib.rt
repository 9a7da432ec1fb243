// What a lent unit holds, for those who look: its rows one by one, how many of them have a TMGI, and its marks. Nothing is changed.
#![tactic(auto)]

ghost use Rattle.std.specs.Prelude.{◌≡◌, ◌+◌, ◌*◌, ◌≤◌, ◌<◌, length, get_or, drop, take};
ghost use Rattle.lists.specs.Lists.{keep};
ghost use Rattle.table.specs.Table.{empty_association};
ghost use Rattle.lent.specs.Lent.{rows_of};
ghost use Rattle.units.specs.Unit.{read_unit};
ghost use Rattle.console.specs.Console.{tmgi_of, has_tmgi};
ghost use Rattle.view.specs.View.{record_of, row_for, count_for, marks_for};

use console::{Counted, Record, Three, TmgiOctets};
use identity::{Item, Plmn, Service, Tmgi};
use table::Association;

// The number of 01's answer, how many associations are held, and the one asked for: all zeros where there is none.
#[repr(C)]
#[derive(Clone, Copy)]
pub struct Row {
    pub answer: u32,
    pub held: u32,
    pub association: Record,
}

// The number of 01's answer, and what a unit remembers beside its rows. Of the marks only that of an open setup request is set yet.
#[repr(C)]
#[derive(Clone, Copy)]
pub struct Marks {
    pub answer: u32,
    pub held: u32,
    pub held_1: u32,
    pub open: u32,
    pub open_1: u32,
    pub edition: u32,
    pub rooms: u32,
    pub next: u32,
    pub settings: u32,
}

const NOBODY: Item = Item {
    mme: None,
    mce: None,
};

// An association as the host has it, of the one link.
fn record_of(a: Association) -> Record
    ensures { result ≡ record_of a }
{
    let (plmn, service) = (a.tmgi.plmn, a.tmgi.service);
    Record {
        mme: a.mme,
        mce: a.mce,
        tmgi: TmgiOctets {
            plmn: Three(plmn.0, plmn.1, plmn.2),
            service: Three(service.0, service.1, service.2),
        },
        flag: a.session.is_some(),
        session: a.session.unwrap_or(0),
        link: 0,
    }
}

fn tmgi_of(t: TmgiOctets) -> Tmgi
    ensures { result ≡ tmgi_of t }
{
    Tmgi {
        plmn: Plmn(t.plmn.0, t.plmn.1, t.plmn.2),
        service: Service(t.service.0, t.service.1, t.service.2),
    }
}

// PLMN and service are the given ones.
fn has_tmgi(a: Association, t: TmgiOctets) -> bool
    ensures { result ≡ has_tmgi (tmgi_of t) a }
{
    a.tmgi == tmgi_of(t)
}

// Row k of n.
fn row_in(table: &[u8], n: usize, k: usize) -> Association
    requires { (k < n) × (2 + 12 * n ≤ length table.now) }
    ensures { result ≡ get_or (rows_of n (drop 2 table.now)) k empty_association }
{
    lent::row_of(&table[2 + 12 * k..])
}

// How many of the first n rows have the TMGI.
fn count_in(table: &[u8], n: usize, tmgi: TmgiOctets) -> usize
    requires { 2 + 12 * n ≤ length table.now }
    ensures { result ≡ length (keep (has_tmgi (tmgi_of tmgi)) (rows_of n (drop 2 table.now))) }
{
    let mut count = 0;
    for i in 0..n {
        if has_tmgi(row_in(table, n, i), tmgi) {
            count += 1;
        }
    }
    count
}

// Row k of the n that the table in front has, or none.
fn row_at(unit: &[u8], n: usize, k: usize) -> Association
    requires { (n ≤ 256) × (3074 ≤ length unit.now) }
    ensures { result ≡ get_or (rows_of n (drop 2 (take 3074 unit.now))) k empty_association }
{
    if n <= k {
        return table::no_association();
    }
    row_in(&unit[..3074], n, k)
}

// Row k of what a unit holds, and how many it holds; 21 where octets are no unit.
pub fn m3ap_row(unit: &[u8], k: u32) -> Row
    ensures { result ≡ row_for (read_unit unit.now) k }
{
    match units::look_up(unit, NOBODY) {
        None => Row {
            answer: 21,
            held: 0,
            association: record_of(table::no_association()),
        },
        Some(found) => Row {
            answer: 0,
            held: found.count as u32,
            association: record_of(row_at(unit, found.count, k as usize)),
        },
    }
}

// How many of what a unit holds have the TMGI; 21 where octets are no unit.
pub fn m3ap_count_in(unit: &[u8], tmgi: TmgiOctets) -> Counted
    ensures { result ≡ count_for (read_unit unit.now) (tmgi_of tmgi) }
{
    match units::look_up(unit, NOBODY) {
        None => Counted {
            answer: 21,
            count: 0,
        },
        Some(found) => Counted {
            answer: 0,
            count: count_in(&unit[..3074], found.count, tmgi),
        },
    }
}

// What is said of octets that are no unit.
const NO_MARKS: Marks = Marks {
    answer: 21,
    held: 0,
    held_1: 0,
    open: 0,
    open_1: 0,
    edition: 0,
    rooms: 0,
    next: 0,
    settings: 0,
};

// What a unit remembers beside its rows; 21 where octets are no unit.
pub fn m3ap_marks(unit: &[u8]) -> Marks
    ensures { result ≡ marks_for (read_unit unit.now) }
{
    match units::look_up(unit, NOBODY) {
        None => NO_MARKS,
        Some(found) => Marks {
            answer: 0,
            held: found.count as u32,
            open: u32::from(units::is_open(unit)),
            edition: 18,
            rooms: 256,
            ..NO_MARKS
        },
    }
}

// The version of the calls.
pub fn m3ap_version() -> u32
    ensures { result ≡ 3 }
{
    3
}
