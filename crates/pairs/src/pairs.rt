// Rows of filter 3: its taps are 128 - 8p and 8p at the fourth and the fifth sample and zero at the other six, so two products are enough, and an
// eighth of each tap is. Across, the two samples stand side by side; down, a row of the room apart.
ghost use Rattle.std.specs.Prelude.{◌≡◌, true, ◌+◌, ◌-◌, ◌*◌, ◌/◌, ◌%◌, ◌≤◌, ◌<◌, min, length, get_or};
ghost use Rattle.base.specs.Paint.{fill};
ghost use Rattle.taps.specs.Taps.{tap};
ghost use Rattle.taps.specs.Filter.{filtered};
ghost use Rattle.taps.specs.Kernel.{fill_rows, UpTo, UpToRows};
ghost use Rattle.pairs.specs.Pair.{pair_sum, pair_of, low_pair, low_pairs, low_pair_rows, fourth_at, pair_ran, pair_rows, pair_stepped, Low};

use crate::phase::Phase;
use lanes::{either, top_of, top_of_run};

fn product(t: u16, x: u16) -> u32
    requires { t ≤ 16 }
    ensures { (result ≡ t * x) × (result ≤ t * 65535) }
{
    u32::from(t) * u32::from(x)
}

fn sum_of(p: Phase, d: u16, e: u16) -> u32
    ensures { (result ≡ pair_sum p.sixteenths d e) × (result ≤ 1048568) }
{
    product(16 - p.sixteenths, d) + product(p.sixteenths, e) + 8
}

// Of any two samples.
fn pair(p: Phase, d: u16, e: u16, max: u16) -> u16
    ensures { result ≡ pair_of max p.sixteenths d e }
{
    u32::from(max).min(sum_of(p, d, e) / 16) as u16
}

// Of two samples of at most max: the sum stays below 65,536 at every depth, and nothing has to be held.
fn pair_low(p: Phase, d: u16, e: u16) -> u16
    ensures { result ≡ low_pair p.sixteenths d e }
{
    (sum_of(p, d, e) % 65536) as u16 / 16
}

fn low_at(l: &[u16], s: usize, n: usize, p: Phase) -> u16
    requires { s + n < length l.now }
    ensures { result ≡ low_pair p.sixteenths (get_or l.now s 0) (get_or l.now (s + n) 0) }
{
    pair_low(p, l[s], l[s + n])
}

fn pair_at(l: &[u16], s: usize, n: usize, p: Phase, max: u16) -> u16
    requires { s + n < length l.now }
    ensures { result ≡ filtered max (tap 3 p.sixteenths) (fourth_at l.now n s) }
{
    pair(p, l[s], l[s + n], max)
}

// MANY results: all are computed before the first is written, so that they are computed at once. n is a number and no const parameter: down, whole
// columns of a plane are filtered where they stand, and n is the plane's stride.
fn pairs<const MANY: usize>(l: &[u16], s: usize, n: usize, p: Phase, out: &mut [u16], at: usize)
    requires { (s + n + MANY ≤ length l.now) × (at + MANY ≤ length out.old) }
    ensures { out.new ≡ fill out.old at MANY (low_pairs p.sixteenths l.now n s) }
{
    let mut results = [0u16; MANY];
    for k in 0..MANY {
        results[k] = low_at(l, s + k, n, p);
    }
    for k in 0..MANY {
        out[at + k] = results[k];
    }
}

// A wide row: the last sixteen end where the row ends, over some of those before them.
fn row_sixteens(l: &[u16], b: usize, n: usize, p: Phase, w: usize, out: &mut [u16], at: usize)
    requires { (16 ≤ w) × (b + w + n ≤ length l.now) × (at + w ≤ length out.old) }
    ensures { out.new ≡ fill out.old at w (low_pairs p.sixteenths l.now n b) }
{
    for c in (0..w).step_by(16) {
        let o = c.min(w - 16);
        pairs::<16>(l, b + o, n, p, out, at + o);
    }
}

// Wide rows of results, taken from rows that stand line apart.
fn rows_sixteens(
    l: &[u16],
    b: usize,
    n: usize,
    line: usize,
    p: Phase,
    w: usize,
    h: usize,
    out: &mut [u16],
    at: usize,
    stride: usize,
)
    requires w_bound { 16 ≤ w }
    requires n_in_bounds { (b + (h - 1) * line + w + n ≤ length l.now) × (at + (h - 1) * stride + w ≤ length out.old) }
    ensures { out.new ≡ fill_rows out.old at stride w h (low_pair_rows p.sixteenths l.now n b line) }
{
    for i in 0..h {
        row_sixteens(l, b + i * line, n, p, w, out, at + i * stride);
    }
}

// Rows of a narrow width, W.
fn rows_narrow<const W: usize>(
    l: &[u16],
    b: usize,
    n: usize,
    line: usize,
    p: Phase,
    h: usize,
    out: &mut [u16],
    at: usize,
    stride: usize,
)
    requires { (b + (h - 1) * line + W + n ≤ length l.now) × (at + (h - 1) * stride + W ≤ length out.old) }
    ensures { out.new ≡ fill_rows out.old at stride W h (low_pair_rows p.sixteenths l.now n b line) }
{
    for i in 0..h {
        pairs::<W>(l, b + i * line, n, p, out, at + i * stride);
    }
}

// A row of results over any samples.
fn row_plain(
    l: &[u16],
    b: usize,
    n: usize,
    p: Phase,
    w: usize,
    max: u16,
    out: &mut [u16],
    at: usize,
)
    requires { (b + w + n ≤ length l.now) × (at + w ≤ length out.old) }
    ensures { out.new ≡ fill out.old at w (pair_ran max p.sixteenths l.now n b) }
{
    for c in 0..w {
        out[at + c] = pair_at(l, b + c, n, p, max);
    }
}

fn rows_plain(
    l: &[u16],
    b: usize,
    n: usize,
    line: usize,
    p: Phase,
    w: usize,
    max: u16,
    h: usize,
    out: &mut [u16],
    at: usize,
    stride: usize,
)
    requires { (b + (h - 1) * line + w + n ≤ length l.now) × (at + (h - 1) * stride + w ≤ length out.old) }
    ensures { out.new ≡ fill_rows out.old at stride w h (pair_rows max p.sixteenths l.now n b line) }
{
    for i in 0..h {
        row_plain(l, b + i * line, n, p, w, max, out, at + i * stride);
    }
}

// Rows of results over samples of at most max. Down, all are, since the horizontal pass held them.
pub fn rows_low(
    l: &[u16],
    b: usize,
    n: usize,
    line: usize,
    p: Phase,
    w: usize,
    max: u16,
    h: usize,
    out: &mut [u16],
    at: usize,
    stride: usize,
)
    requires max_bound { max ≤ 4095 }
    requires n_in_bounds { (b + (h - 1) * line + w + n ≤ length l.now) × (at + (h - 1) * stride + w ≤ length out.old) }
    requires low { Low max l.now n b line w h }
    ensures { out.new ≡ fill_rows out.old at stride w h (pair_rows max p.sixteenths l.now n b line) }
{
    match w {
        16.. => rows_sixteens(l, b, n, line, p, w, h, out, at, stride),
        8 => rows_narrow::<8>(l, b, n, line, p, h, out, at, stride),
        4 => rows_narrow::<4>(l, b, n, line, p, h, out, at, stride),
        _ => rows_plain(l, b, n, line, p, w, max, h, out, at, stride),
    }
}

// A number that no sample of a row is above. Rows that have no lanes are not looked at.
fn top_of_row(l: &[u16], b: usize, w: usize) -> u16
    requires { b + w ≤ length l.now }
    ensures { UpTo result l.now b w }
{
    match w {
        16.. => top_of_run::<16>(0, l, b, w),
        8 => top_of::<8>(l, b),
        4 => top_of::<4>(l, b),
        _ => 65535,
    }
}

// Whether no sample of h rows of w, or of one more, is above max, which is one less than a power of two.
pub fn rows_are_low(
    l: &[u16],
    b: usize,
    line: usize,
    w: usize,
    more: usize,
    h: usize,
    max: u16,
) -> bool
    requires { (0 < w) × (more ≤ 1) × (b + (h - 1) * line + w + more ≤ length l.now) }
    ensures { result ≡ true → UpToRows max l.now b line (w + more) h }
{
    let mut v = 0u16;
    for i in 0..h {
        let s = b + i * line;
        v = either(v, either(top_of_row(l, s, w), l[s + w - 1 + more]));
    }
    v <= max
}

// Rows of horizontal results over any samples.
pub fn rows_any(
    l: &[u16],
    b: usize,
    line: usize,
    p: Phase,
    w: usize,
    max: u16,
    h: usize,
    out: &mut [u16],
    at: usize,
    stride: usize,
)
    requires max_bound { (max ≤ 4095) × (0 < w) }
    requires w_in_bounds { (b + (h - 1) * line + w + 1 ≤ length l.now) × (at + (h - 1) * stride + w ≤ length out.old) }
    ensures { out.new ≡ fill_rows out.old at stride w h (pair_rows max p.sixteenths l.now 1 b line) }
{
    if rows_are_low(l, b, line, w, 1, h, max) {
        rows_low(l, b, 1, line, p, w, max, h, out, at, stride)
    } else {
        rows_plain(l, b, 1, line, p, w, max, h, out, at, stride)
    }
}

// A row of results whose phase changes from column to column.
pub fn row_stepped(
    l: &[u16],
    d: usize,
    phase: Phase,
    step: usize,
    w: usize,
    max: u16,
    out: &mut [u16],
    at: usize,
)
    requires step_bound { (step ≤ 32) × (w ≤ 64) × (d + (phase.sixteenths + step * (w - 1)) / 16 + 2 ≤ length l.now) }
    requires w_in_bounds { at + w ≤ length out.old }
    ensures { out.new ≡ fill out.old at w (pair_stepped max l.now d phase.sixteenths step) }
{
    for c in 0..w {
        let q = usize::from(phase.sixteenths) + step * c;
        out[at + c] = pair_at(l, d + q / 16, 1, Phase::of(q), max);
    }
}
