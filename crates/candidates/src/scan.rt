// The offers of whole vectors: document 01, 'Vectors', steps 2 and 3, which differ only in what they ask of a list.
ghost use Rattle.std.specs.Prelude.{◌≡◌, ◌+◌, ◌-◌, ◌≤◌, ◌<◌, neg_ℤ};
ghost use Rattle.base.specs.Vector.{mv};
ghost use Rattle.records.specs.Lent as Lent;
ghost use Rattle.records.specs.Seen as Seen;
ghost use Rattle.candidates.specs.Offers as Offers;
ghost use Rattle.candidates.specs.Scan as Scan;

use crate::held::Held;
use base::{Eighth, Mv};
use records::{Pairs, Site};

// What a scan asks of a list: the target frame in step 2, another frame in step 3.
#[derive(Clone, Copy)]
pub struct Ask {
    pub target: i32,
    pub sign_bias: [bool; 4],
    pub other: bool,
}

fn suits(ask: Ask, frame: i32) -> bool
    ensures { result ≡ Scan.suits ask frame }
{
    if ask.other {
        (0 < frame) & (frame != ask.target)
    } else {
        frame == ask.target
    }
}

// List 0 leaves nothing for list 1: "The first list" alone offers in step 2, and step 3 skips list 1 "when both lists' vectors were equal".
fn covered(pairs: Pairs, i: usize, ask: Ask) -> bool
    requires { Lent.PairRoom (i + 1) pairs }
    ensures { result ≡ Scan.covered pairs.entry.frames.now pairs.entry.mvs.now ask i }
{
    if ask.other {
        records::mv_at(pairs.mvs, i, 0) == records::mv_at(pairs.mvs, i, 1)
    } else {
        records::frame_at(pairs.frames, i, 0) == ask.target
    }
}

fn asked(pairs: Pairs, i: usize, list: usize, ask: Ask) -> bool
    requires room { Lent.PairRoom (i + 1) pairs }
    requires list { list < 2 }
    ensures { result ≡ Scan.asked pairs.entry.frames.now pairs.entry.mvs.now ask i list }
{
    if suits(ask, records::frame_at(pairs.frames, i, list)) {
        if list == 1 {
            !covered(pairs, i, ask)
        } else {
            true
        }
    } else {
        false
    }
}

// A frame that is none has no bias, so that nothing need be known of the records here.
fn bias_of(bias: &[bool], frame: i32) -> bool
    ensures { result ≡ Offers.bias_of bias.now frame }
{
    let f = base::natural(frame);
    if f < bias.len() { bias[f] } else { false }
}

fn negated(v: Mv) -> Mv
    requires { Lent.Narrow v }
    ensures { result ≡ mv (neg_ℤ v.row.0) (neg_ℤ v.col.0) }
{
    Mv {
        row: Eighth(-v.row.0),
        col: Eighth(-v.col.0),
    }
}

// "The vector is negated when the sign bias differs". Where the frame is the target it never does.
fn turned(ask: Ask, frame: i32, v: Mv) -> Mv
    requires { Lent.Narrow v }
    ensures { result ≡ Offers.turned ask.sign_bias frame ask.target v }
{
    let bias = ask.sign_bias;
    if bias_of(&bias, frame) == bias_of(&bias, ask.target) {
        v
    } else {
        negated(v)
    }
}

fn offered(pairs: Pairs, i: usize, list: usize, ask: Ask) -> Mv
    requires room { Lent.PairRoom (i + 1) pairs }
    requires list { list < 2 }
    ensures { result ≡ Scan.offered pairs.entry.frames.now pairs.entry.mvs.now ask i list }
{
    turned(
        ask,
        records::frame_at(pairs.frames, i, list),
        records::mv_at(pairs.mvs, i, list),
    )
}

#[inline(always)]
fn one_list(pairs: Pairs, i: usize, list: usize, ask: Ask, h: Held) -> Held
    requires room { Lent.PairRoom (i + 1) pairs }
    requires list { list < 2 }
    ensures { result ≡ Offers.offers h (Scan.list_of pairs.entry.frames.now pairs.entry.mvs.now ask i list) }
{
    if asked(pairs, i, list, ask) {
        h.add(offered(pairs, i, list, ask))
    } else {
        h
    }
}

// Places from `from` on, left as soon as two candidates are held: further offers would change nothing.
pub(crate) fn scan(pairs: Pairs, site: Site, from: usize, ask: Ask, held: Held) -> Held
    requires from { from ≤ 8 }
    requires room { Lent.PairRoom (Lent.cells site.geometry) pairs }
    ensures { result ≡ Offers.offers held
        (Offers.run (Scan.place_of pairs.entry.frames.now pairs.entry.mvs.now site.geometry ask) (8 - from) from) }
{
    let mut h = held;
    for k in from..8 {
        if let Some(i) = site.spot(k) {
            for list in 0..2 {
                h = one_list(pairs, i, list, ask, h);
                if h.count == 2 {
                    return h;
                }
            }
        }
    }
    h
}

// The block's own previous record, if the previous frame is used.
pub(crate) fn previous(prev: Option<Pairs>, site: Site, ask: Ask, held: Held) -> Held
    requires { Lent.PrevRoom (Lent.cells site.geometry) prev }
    ensures { result ≡ Offers.offers held
        (Scan.prev_of (Seen.frames_of prev.entry) (Seen.mvs_of prev.entry) site.geometry ask (Seen.is_used prev.entry)) }
{
    match prev {
        None => held,
        Some(pairs) => {
            let i = site.own();
            let h = one_list(pairs, i, 0, ask, held);
            one_list(pairs, i, 1, ask, h)
        }
    }
}
