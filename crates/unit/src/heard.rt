// A message of which all elements were read, and what the call needs of it.
ghost use Rattle.std.specs.Prelude.{◌≡◌, length};
ghost use Rattle.octets.specs.Stands.{Octets};
ghost use Rattle.octets.specs.Many.{Each};
ghost use Rattle.rows.specs.Table.{rows_in};
ghost use Rattle.verdicts.specs.Verdict.{opened_at};
ghost use Rattle.judging.specs.Judging.{noted_of};
ghost use Rattle.unit.specs.Fit.{NumbersFit, rows_prop};

use editions::Edition;
use frames::Frame;
use octets::Span;
use rows::Rows;

// By the rows of its table; where the value of each row stands, and how many diagnostics are noted.
#[derive(Clone, Copy)]
pub struct Heard<'a> {
    pub edition: Edition,
    pub rows: Rows<'static>,
    pub container: bool,
    pub frame: Frame,
    pub message: &'a [u8],
    pub places: &'a [Span; 12],
    pub noted: usize,
    ghost octets: { Octets message.now },
    ghost fit: { Each NumbersFit (rows_in rows) } by { rows_prop (rows_in rows) },
    ghost counted: { noted ≡ length (noted_of (opened_at (rows_in rows) container message.now frame.from)) },
}
