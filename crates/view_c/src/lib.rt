// What a lent unit holds, for a link process in C, in view's words. include/m3ap.h is the header.
#![tactic(auto)]

ghost use Rattle.std.specs.Prelude.{◌≡◌};
ghost use Rattle.units.specs.Unit.{read_unit};
ghost use Rattle.console.specs.Console.{tmgi_of};
ghost use Rattle.view.specs.View.{row_for, count_for, marks_for};

use console::{Counted, TmgiOctets};
use view::{Marks, Row};

// Row k of what a unit holds, and how many it holds; 21 where octets are no unit.
#[unsafe(no_mangle)]
pub extern "C" fn m3ap_row(unit: &[u8], k: u32) -> Row
    ensures { result ≡ row_for (read_unit unit.now) k }
{
    view::m3ap_row(unit, k)
}

// How many of what a unit holds have the TMGI; 21 where octets are no unit.
#[unsafe(no_mangle)]
pub extern "C" fn m3ap_count_in(unit: &[u8], tmgi: TmgiOctets) -> Counted
    ensures { result ≡ count_for (read_unit unit.now) (tmgi_of tmgi) }
{
    view::m3ap_count_in(unit, tmgi)
}

// What a unit remembers beside its rows; 21 where octets are no unit.
#[unsafe(no_mangle)]
pub extern "C" fn m3ap_marks(unit: &[u8]) -> Marks
    ensures { result ≡ marks_for (read_unit unit.now) }
{
    view::m3ap_marks(unit)
}

// The version of the calls.
#[unsafe(no_mangle)]
pub extern "C" fn m3ap_version() -> u32
    ensures { result ≡ 3 }
{
    view::m3ap_version()
}
