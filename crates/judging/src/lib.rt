// The elements of a message, judged over any table of rows: faults anywhere first, then the judging. What is noted is counted; where it is asked for, the elements are
// gone over again for it.
#![tactic(auto)]

ghost use Rattle.std.specs.Prelude.{◌≡◌, length, take};
ghost use Rattle.rows.specs.Table.{rows_in, known};
ghost use Rattle.kinds.specs.Kinds.{legible_at};
ghost use Rattle.envelopes.specs.Envelope.{heads_at};
ghost use Rattle.elements.specs.Judge.{unknown_of, missing_of, counted_extensions_at, extensions_at, extensions_behind};
ghost use Rattle.verdicts.specs.Verdict.{opened_at};
ghost use Rattle.judging.specs.Judging.{is_noted, tallied, lacks, CountedBehind, Follows, ReadIf, WalkedTo, rejected_by, Opens, Judges, opening_at, place_of, noted_of, NotedIn, OneNoted, NotedBehind, ExtensionsNoted};

use entries::Entry;
use octets::{Span, Stop};
use rows::{Kind, Row, Rows};
use verdicts::Outcome;

// What is inside the frame of a message, before any value is taken over: the outcome, and how many diagnostics are noted. Where the value of each row stands is
// put into places that are lent.
#[derive(Clone, Copy)]
pub struct Opened {
    pub outcome: Outcome,
    pub noted: usize,
}

// How many are noted, and whether any, beyond the first 256 too, is a reason to reject.
#[derive(Clone, Copy)]
struct Tally {
    count: usize,
    reject: bool,
}

// Where the walk stopped, at which octet and behind how many elements, and what it found before.
#[derive(Clone, Copy)]
struct Reached {
    at: usize,
    place: usize,
    tally: Tally,
}

// Whether one more entry is noted: ignore never is, and of the others the first 256 are.
fn is_listed(crit: u8, count: usize) -> bool
    ensures { result ≡ is_noted crit count }
{
    (crit != 1) & (count < 256)
}

// One more entry.
fn tally_with(seen: Tally, crit: u8) -> Tally
    ensures { result ≡ tallied seen crit }
{
    let listed = is_listed(crit, seen.count);
    Tally {
        count: if listed { seen.count + 1 } else { seen.count },
        reject: seen.reject | (crit == 0),
    }
}

// Whether a value can be read. Most are carried, and nothing is looked at.
#[tactic(auto, using(kinds::proofs::Laws::carried))]
fn is_legible(kind: Kind, s: &[u8], at: usize) -> bool
    ensures { ReadIf result (legible_at kind s.now at) }
{
    match kind {
        Kind::Carried => true,
        _ => kinds::value_at(kind, s, at).is_ok(),
    }
}

// The walk over elements and rows: it stops at the first known element that is out of order or repeated, or that cannot be read.
fn walk(t: Rows, s: &[u8], n: usize, from: usize, places: &mut [Span; 12]) -> Reached
    ensures { WalkedTo (rows_in t.entry) s.now n from places.new result }
{
    *places = [octets::NOWHERE; 12];
    let mut tally = Tally {
        count: 0,
        reject: false,
    };
    let mut at = from;
    let mut row: usize = 0;
    let mut i: usize = 0;
    let place = 'walk: loop {
        if n <= i {
            break 'walk i;
        }
        let Ok(h) = envelopes::envelope_at(s, at) else {
            break 'walk i;
        };
        let value = h.value;
        for k in 0..t.rows.len() {
            let r = t.rows[k];
            if r.id == h.id {
                if k < row {
                    break 'walk i;
                }
                if !is_legible(r.kind, &s[..value.to], value.from) {
                    break 'walk i;
                }
                row = k + 1;
                places[k] = value;
                at = value.to;
                i += 1;
                continue 'walk;
            }
        }
        at = value.to;
        i += 1;
        tally = tally_with(tally, h.crit);
    };
    Reached { at, place, tally }
}

// Whether a row is missing, by where its value stands.
fn is_missing(r: Row, v: Span) -> bool
    ensures { result ≡ lacks r v }
{
    r.mandatory && v.to == 0
}

// The tally with the mandatory rows that have no value.
fn with_missing(t: Rows, places: &[Span; 12], seen: Tally) -> Tally
    ensures { CountedBehind (missing_of (rows_in t.entry) (take (length (rows_in t.entry)) places.now)) seen result }
{
    let mut tally = seen;
    for (r, v) in t.rows.iter().zip(places) {
        if is_missing(*r, *v) {
            tally = tally_with(tally, r.crit);
        }
    }
    tally
}

// n extensions, up to the end. Each is unknown, and its value is not read.
fn extensions(s: &[u8], n: usize, from: usize, seen: Tally) -> Result<Tally, Stop>
    ensures { Follows (counted_extensions_at s.now n from) seen result }
{
    let mut tally = seen;
    let mut at = from;
    for _ in 0..n {
        let h = envelopes::envelope_at(s, at)?;
        at = h.value.to;
        tally = tally_with(tally, h.crit);
    }
    octets::ends_at(s, at)?;
    Ok(tally)
}

// Behind the elements, from a place on: nothing, or a container.
fn behind_elements(container: bool, s: &[u8], at: usize, seen: Tally) -> Result<Tally, Stop>
    ensures { Follows (extensions_at container s.now at) seen result }
{
    if !container {
        octets::ends_at(s, at)?;
        return Ok(seen);
    }
    let v = octets::below_at(65535, s, at)?;
    extensions(s, usize::from(v) + 1, at + 2, seen)
}

fn outcome_by(reject: bool) -> Outcome
    ensures { result ≡ rejected_by reject }
{
    if reject {
        Outcome::Rejected
    } else {
        Outcome::Accepted
    }
}

// n elements from a place on, and what stands behind them.
fn opening_at(
    t: Rows,
    container: bool,
    s: &[u8],
    n: usize,
    from: usize,
    places: &mut [Span; 12],
) -> Result<Opened, Stop>
    ensures { Judges (opening_at (rows_in t.entry) container s.now n from) result places.new }
{
    let w = walk(t, s, n, from, places);
    let to = envelopes::scan(t, s, n - w.place, w.at)?;
    let behind = behind_elements(container, s, to, w.tally)?;
    if w.place < n {
        return Ok(Opened {
            outcome: Outcome::Misplaced(w.place),
            noted: w.tally.count,
        });
    }
    let all = with_missing(t, places, behind);
    Ok(Opened {
        outcome: outcome_by(all.reject),
        noted: all.count,
    })
}

// The same of a message, from how it opens on.
fn judged_at(
    t: Rows,
    c: bool,
    s: &[u8],
    from: usize,
    places: &mut [Span; 12],
) -> Result<Opened, Stop>
    ensures { Judges (opened_at (rows_in t.entry) c s.now from) result places.new }
{
    let v = frames::count_at(c, s, from)?;
    opening_at(t, v.container, s, usize::from(v.elements), from + 3, places)
}

// What is inside the frame of a message, from a place on; c: the message can have a container. Of octets at fault no value stands anywhere.
pub fn opened_at(
    t: Rows,
    c: bool,
    s: &[u8],
    from: usize,
    places: &mut [Span; 12],
) -> Result<Opened, Stop>
    ensures { Opens (opened_at (rows_in t.entry) c s.now from) result places.new }
{
    let opened = judged_at(t, c, s, from, places);
    if opened.is_err() {
        *places = [octets::NOWHERE; 12];
    }
    opened
}

// Whether an id has a row.
pub fn is_known(t: Rows, id: u16) -> bool
    ensures { result ≡ known (rows_in t.entry) id }
{
    t.rows.iter().any(|r| r.id == id)
}

// One more entry, if it is listed, as a word behind so many others; how many they are then.
fn note(words: &mut [u64], count: usize, e: Entry) -> usize
    ensures { OneNoted words.old count e words.new result }
{
    if !is_listed(e.crit, count) {
        return count;
    }
    octets::put(words, count, entry_words::entry_word(e));
    count + 1
}

// The unknown ones of n elements, as far as they can be read, behind so many others.
fn note_unknown(t: Rows, s: &[u8], n: usize, from: usize, seen: usize, words: &mut [u64]) -> usize
    ensures { NotedBehind (unknown_of (rows_in t.entry) (heads_at s.now n from)) words.old seen words.new result }
{
    let mut count = seen;
    let mut at = from;
    for _ in 0..n {
        let Ok(h) = envelopes::envelope_at(s, at) else {
            return count;
        };
        at = h.value.to;
        if !is_known(t, h.id) {
            let e = Entry {
                id: h.id,
                crit: h.crit,
                error: 0,
            };
            count = note(words, count, e);
        }
    }
    count
}

// The mandatory rows that have no value, behind so many others.
fn note_missing(t: Rows, places: &[Span; 12], seen: usize, words: &mut [u64]) -> usize
    ensures { NotedBehind (missing_of (rows_in t.entry) (take (length (rows_in t.entry)) places.now)) words.old seen words.new result }
{
    let mut count = seen;
    for (r, v) in t.rows.iter().zip(places) {
        if is_missing(*r, *v) {
            let e = Entry {
                id: r.id,
                crit: r.crit,
                error: 1,
            };
            count = note(words, count, e);
        }
    }
    count
}

// The extensions in a container behind n elements, behind so many others.
fn note_extensions(
    t: Rows,
    container: bool,
    s: &[u8],
    n: usize,
    from: usize,
    seen: usize,
    words: &mut [u64],
) -> usize
    ensures { ExtensionsNoted (extensions_behind (rows_in t.entry) container s.now n from) words.old seen words.new result }
{
    if !container {
        return seen;
    }
    let Ok(to) = envelopes::scan(t, s, n, from) else {
        return seen;
    };
    let Ok(v) = octets::below_at(65535, s, to) else {
        return seen;
    };
    // Whatever the id, an extension is unknown.
    let no_rows = Rows { rows: &[] };
    note_unknown(no_rows, s, usize::from(v) + 1, to + 2, seen, words)
}

// How many of n elements count.
fn place_of(n: usize, o: Outcome) -> usize
    ensures { result ≡ place_of n o }
{
    match o {
        Outcome::Misplaced(place) => place,
        Outcome::Accepted | Outcome::Rejected => n,
    }
}

// What is noted, as words in front, as far as they go; how many there are.
pub fn noted_into(t: Rows, c: bool, s: &[u8], from: usize, words: &mut [u64]) -> usize
    ensures { NotedIn words.old (noted_of (opened_at (rows_in t.entry) c s.now from)) words.new result }
{
    let mut places = [octets::NOWHERE; 12];
    let Ok(o) = opened_at(t, c, s, from, &mut places) else {
        return 0;
    };
    if o.noted == 0 {
        return 0;
    }
    let Ok(v) = frames::count_at(c, s, from) else {
        return 0;
    };
    let n = usize::from(v.elements);
    let upto = place_of(n, o.outcome);
    let first = from + 3;
    let count = note_unknown(t, s, upto, first, 0, words);
    if upto < n {
        return count;
    }
    let more = note_extensions(t, v.container, s, n, first, count, words);
    note_missing(t, &places, more, words)
}
