// The unit as 3,088 octets that the host lends: the table in front, the marks behind it. The mark of an open setup request is the one that may be set.
#![tactic(auto)]

ghost use Rattle.std.specs.Prelude.{◌≡◌, take};
ghost use Rattle.table.specs.Table.{held, table_holding};
ghost use Rattle.lent.specs.Lent.{first_rows};
ghost use Rattle.put_table.specs.Out.{table_out};
ghost use Rattle.units.specs.Unit.{looked_in, read_unit, open_in, open_out, on_front};

use identity::Item;
use lent::Looked;
use table::Table;

// What octets say of an item's identities, if they are a unit.
pub fn look_up(unit: &[u8], item: Item) -> Option<Looked>
    ensures { result ≡ looked_in item (read_unit unit.now) }
{
    if unit.len() != 3088 {
        return None;
    }
    if 1 < unit[3076] {
        return None;
    }
    if !lent::all_zero(&unit[3074..3076]) {
        return None;
    }
    if !lent::all_zero(&unit[3077..]) {
        return None;
    }
    lent::look_up(&unit[..3074], item)
}

// Octets say that a setup request is open.
pub fn is_open(unit: &[u8]) -> bool
    ensures { result ≡ open_in unit.now }
{
    unit.len() >= 3077 && unit[3076] == 1
}

// A setup request is open now, or none is.
pub fn put_open(is: bool, unit: &mut [u8])
    ensures { unit.new ≡ open_out is unit.old }
{
    if unit.len() < 3077 {
        return;
    }
    unit[3076] = u8::from(is);
}

// The first n rows of the table in front, whether or not it is one.
pub fn rows_in(unit: &[u8], n: usize) -> Table
    ensures { result ≡ table_holding (first_rows n (take 3074 unit.now)) }
{
    let end = unit.len().min(3074);
    lent::rows_in(&unit[..end], n)
}

// A table in front, from a row on.
pub fn table_out(t: Table, from: usize, unit: &mut [u8])
    ensures { unit.new ≡ on_front (table_out from (held t)) unit.old }
{
    let end = unit.len().min(3074);
    put_table::table_out(t, from, &mut unit[..end]);
}
