// How many associations of a run that the host lends have a TMGI: over plain numbers, then over the run.
#![tactic(auto)]

ghost use Rattle.std.specs.Prelude.{◌≡◌, [], ℕ, ◌<◌, eqb, length};
ghost use Rattle.lists.specs.Lists.{keep};
ghost use Rattle.console.specs.Console.{tmgi_of, counted_run};
ghost use Rattle.console.specs.Numbers.{Octets6, six_of, gathered, put_in, counted_in};

use identity::{MceId, MmeId};

// Three octets, as the host lays them out.
#[repr(C)]
#[derive(Clone, Copy)]
pub struct Three(pub u8, pub u8, pub u8);

#[repr(C)]
#[derive(Clone, Copy)]
pub struct TmgiOctets {
    pub plmn: Three,
    pub service: Three,
}

// An association record of the host's: 13 octets, and one of pad. Without the flag the Session Identity says nothing. There is one link, 0.
#[repr(C)]
#[derive(Clone, Copy)]
pub struct Record {
    pub mme: MmeId,
    pub mce: MceId,
    pub tmgi: TmgiOctets,
    pub flag: bool,
    pub session: u8,
    pub link: u8,
}

// The number of 01's answer, and the count, which is 0 beside any answer but 0.
#[repr(C)]
#[derive(Clone, Copy)]
pub struct Counted {
    pub answer: u16,
    pub count: usize,
}

const NO_TABLE: Counted = Counted {
    answer: 21,
    count: 0,
};

// What of up to 256 records is judged and counted, with 0 in the places behind them: their identities, the TMGIs as numbers, whether any is of a link that there is not.
#[derive(Drop)]
pub struct Numbers {
    pub mmes: [MmeId; 256],
    pub mces: [MceId; 256],
    pub tmgis: [u64; 256],
    pub elsewhere: bool,
}

// How many of the numbers are the given one.
pub fn count(tmgis: &[u64], tmgi: u64) -> usize
    ensures { result ≡ length (keep (λ (x : ℕ). eqb x tmgi) tmgis.now) }
{
    let mut n = 0;
    for x in tmgis {
        if *x == tmgi {
            n += 1;
        }
    }
    n
}

// The answer for a table of n associations by their numbers.
pub fn count_numbers(g: Numbers, n: usize, tmgi: u64) -> Counted
    ensures { result ≡ counted_in g n tmgi }
{
    if 256 < n || g.elsewhere {
        return NO_TABLE;
    }
    if !distinct::unequal(&g.mmes[..n]) || !distinct::unequal(&g.mces[..n]) {
        return NO_TABLE;
    }
    Counted {
        answer: 0,
        count: count(&g.tmgis[..n], tmgi),
    }
}

// Six octets as one number, the first the highest; each is an octet, by its type.
fn number_of(t: TmgiOctets) -> u64
    ensures { (result ≡ six_of t) × Octets6 t }
{
    let (p, s) = (t.plmn, t.service);
    u64::from_be_bytes([0, 0, p.0, p.1, p.2, s.0, s.1, s.2])
}

// The numbers of no record.
#[tactic(auto, unfolding(crate::specs::Numbers::gathered))]
fn none_yet() -> Numbers
    ensures { result ≡ gathered [] }
{
    Numbers {
        mmes: [MmeId(0); 256],
        mces: [MceId(0); 256],
        tmgis: [0; 256],
        elsewhere: false,
    }
}

// The record's numbers are stored.
#[tactic(auto, unfolding(crate::specs::Numbers::put_in))]
fn put(g: &mut Numbers, at: usize, row: Record)
    requires { at < 256 }
    ensures { (g.new ≡ put_in g.old at row) × Octets6 row.tmgi }
{
    g.mmes[at] = row.mme;
    g.mces[at] = row.mce;
    g.tmgis[at] = number_of(row.tmgi);
    if row.link != 0 {
        g.elsewhere = true;
    }
}

// The answer for a run of n records, for a TMGI by its octets.
fn judged(g: Numbers, n: usize, tmgi: TmgiOctets) -> Counted
    ensures { (result ≡ counted_in g n (six_of tmgi)) × Octets6 tmgi }
{
    count_numbers(g, n, number_of(tmgi))
}

// How many associations of the run have the TMGI; answer 21 where the run is no table.
pub fn m3ap_count(run: &[Record], tmgi: TmgiOctets) -> Counted
    ensures { result ≡ counted_run (tmgi_of tmgi) run.now }
{
    let mut g = none_yet();
    for i in 0..run.len().min(256) {
        put(&mut g, i, run[i]);
    }
    judged(g, run.len(), tmgi)
}
