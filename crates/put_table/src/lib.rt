// The table put into the octets that the link process lends.
#![tactic(auto)]

ghost use Rattle.std.specs.Prelude.{◌≡◌, ◌/◌, ◌%◌, length};
ghost use Rattle.table.specs.Table.{held};
ghost use Rattle.lent.specs.Lent.{flag_of, session_octet, row_octets};
ghost use Rattle.put_table.specs.Out.{table_out};

use table::{Association, Table};

// A row into the 12 octets that are its own.
fn put_row(d: &mut [u8], a: Association)
    requires { length d.old ≡ 12 }
    ensures { d.new ≡ row_octets a }
{
    let mme = a.mme.0.to_be_bytes();
    let mce = a.mce.0.to_be_bytes();
    let (plmn, service) = (a.tmgi.plmn, a.tmgi.service);
    d.copy_from_slice(&[
        mme[0],
        mme[1],
        mce[0],
        mce[1],
        plmn.0,
        plmn.1,
        plmn.2,
        service.0,
        service.1,
        service.2,
        u8::from(a.session.is_some()),
        a.session.unwrap_or(0),
    ]);
}

// The table into what is lent, if that is as long as a table: the count, the rows from one on, and zeros behind. The rows before it stay.
pub fn table_out(t: Table, from: usize, d: &mut [u8])
    ensures { d.new ≡ table_out from (held t) d.old }
{
    if d.len() != 3074 {
        return;
    }
    let n = t.count.min(256);
    octets::put_two(d, 0, n as u16);
    for i in from.min(n)..n {
        let at = 2 + 12 * i;
        put_row(&mut d[at..at + 12], t.rows[i]);
    }
    let end = 2 + 12 * n;
    octets::put_zeros(d, end, 3074 - end);
}
