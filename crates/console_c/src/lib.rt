// The count of associations of a run for a link process in C, in console's words. include/m3ap.h is the header.
#![tactic(auto)]

ghost use Rattle.std.specs.Prelude.{◌≡◌};
ghost use Rattle.console.specs.Console.{tmgi_of, counted_run};

use console::{Counted, Record, TmgiOctets};

// How many associations of the run have the TMGI; answer 21 where the run is no table.
#[unsafe(no_mangle)]
pub extern "C" fn m3ap_count(run: &[Record], tmgi: TmgiOctets) -> Counted
    ensures { result ≡ counted_run (tmgi_of tmgi) run.now }
{
    console::m3ap_count(run, tmgi)
}
