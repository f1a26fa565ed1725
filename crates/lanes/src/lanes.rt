// Rows in sums modulo 65,536, of which the machine does eight at once: one sum for samples of at most 255, two for any others.
ghost use Rattle.std.specs.Prelude.{◌≡◌, true, ◌+◌, ◌-◌, ◌*◌, ◌%◌, ◌≤◌, ◌<◌, length};
ghost use Rattle.base.specs.Paint.{fill};
ghost use Rattle.taps.specs.Taps.{tap};
ghost use Rattle.taps.specs.Filter.{filtered};
ghost use Rattle.taps.specs.Kernel.{eighths, onward, BelowRows, UpTo, UpToRows, low_at, low_ran, low_rows};
ghost use Rattle.taps.specs.Kernel.{apart, ran, ran_rows, fill_rows};
ghost use Rattle.lanes.specs.Rows.{LowRows};

use sums::{one_low, one_wide};
use taps::Taps;

// The result over eight samples, APART apart: 1 in a row of samples, 64 in a column of the room. The bound of max is a clause and no type here: each
// function hands max on to the next, and a struct of one number would only be taken apart at the end.
fn wide<const APART: usize>(l: &[u16], s: usize, p: Taps, max: u16) -> u16
    requires s_in_bounds { s + APART * 7 < length l.now }
    requires max_bound { max ≤ 4095 }
    ensures { result ≡ filtered max (tap p.filter p.phase) (apart l.now APART s) }
{
    one_wide(
        p,
        l[s],
        l[s + APART],
        l[s + APART * 2],
        l[s + APART * 3],
        l[s + APART * 4],
        l[s + APART * 5],
        l[s + APART * 6],
        l[s + APART * 7],
        max,
    )
}

// A row of results over any samples.
fn row_wide<const APART: usize>(
    l: &[u16],
    b: usize,
    p: Taps,
    w: usize,
    max: u16,
    out: &mut [u16],
    at: usize,
)
    requires w_in_bounds { (b + w + APART * 7 ≤ length l.now) × (at + w ≤ length out.old) }
    requires max_bound { max ≤ 4095 }
    ensures { out.new ≡ fill out.old at w (ran max (tap p.filter p.phase) l.now APART b) }
{
    for c in 0..w {
        out[at + c] = wide::<APART>(l, b + c, p, max);
    }
}

// The result over eight samples that are at most 255.
fn window<const APART: usize>(l: &[u16], s: usize, p: Taps) -> u16
    requires { s + APART * 7 < length l.now }
    ensures { result ≡ low_at p l.now APART s }
{
    one_low(
        p,
        l[s],
        l[s + APART],
        l[s + APART * 2],
        l[s + APART * 3],
        l[s + APART * 4],
        l[s + APART * 5],
        l[s + APART * 6],
        l[s + APART * 7],
    )
}

// Eight results: all are computed before the first is written, so that they are computed at once. Named one by one: made in an array by a loop they are
// not, and a block that is filtered across takes up to 8 per cent more inside the plane and 25 at an edge.
fn eight<const APART: usize>(l: &[u16], s: usize, p: Taps, out: &mut [u16], at: usize)
    requires { (s + APART * 7 + 8 ≤ length l.now) × (at + 8 ≤ length out.old) }
    ensures { out.new ≡ fill out.old at 8 (low_ran p l.now APART s) }
{
    let a = window::<APART>(l, s, p);
    let b = window::<APART>(l, s + 1, p);
    let c = window::<APART>(l, s + 2, p);
    let d = window::<APART>(l, s + 3, p);
    let e = window::<APART>(l, s + 4, p);
    let f = window::<APART>(l, s + 5, p);
    let g = window::<APART>(l, s + 6, p);
    let h = window::<APART>(l, s + 7, p);
    out[at] = a;
    out[at + 1] = b;
    out[at + 2] = c;
    out[at + 3] = d;
    out[at + 4] = e;
    out[at + 5] = f;
    out[at + 6] = g;
    out[at + 7] = h;
}

fn row_low<const APART: usize>(l: &[u16], b: usize, p: Taps, w: usize, out: &mut [u16], at: usize)
    requires { (w % 8 ≡ 0) × (b + w + APART * 7 ≤ length l.now) × (at + w ≤ length out.old) }
    ensures { out.new ≡ fill out.old at w (low_ran p l.now APART b) }
{
    for i in 0..w / 8 {
        eight::<APART>(l, b + 8 * i, p, out, at + 8 * i);
    }
}

// Rows of results, taken from rows that stand line apart. The taps are made ready once.
fn rows_low<const APART: usize>(
    l: &[u16],
    b: usize,
    line: usize,
    p: Taps,
    w: usize,
    h: usize,
    out: &mut [u16],
    at: usize,
    stride: usize,
)
    requires w_value { (w % 8 ≡ 0) × (b + (h - 1) * line + w + APART * 7 ≤ length l.now) × (at + (h - 1) * stride + w ≤ length out.old) }
    ensures { out.new ≡ fill_rows out.old at stride w h (low_rows p l.now APART b line) }
{
    for i in 0..h {
        row_low::<APART>(l, b + i * line, p, w, out, at + i * stride);
    }
}

// A number that neither is above.
pub fn either(a: u16, b: u16) -> u16
    ensures { (a ≤ result) × (b ≤ result) }
{
    a | b
}

// A number that none of N samples is above.
pub fn top_of<const N: usize>(l: &[u16], s: usize) -> u16
    requires { s + N ≤ length l.now }
    ensures { UpTo result l.now s N }
{
    let mut top = 0u16;
    for k in 0..N {
        top = either(top, l[s + k]);
    }
    top
}

// The same of v and of m samples, N at a time; the last N end where the samples end.
pub fn top_of_run<const N: usize>(v: u16, l: &[u16], b: usize, m: usize) -> u16
    requires { (0 < N) × (N ≤ m) × (b + m ≤ length l.now) }
    ensures { (v ≤ result) × UpTo result l.now b m }
{
    let mut top = v;
    for c in (0..m).step_by(N) {
        top = either(top, top_of::<N>(l, b + c.min(m - N)));
    }
    top
}

// Whether no sample of h rows is above 255.
fn rows_are_low(l: &[u16], b: usize, line: usize, m: usize, h: usize) -> bool
    requires { (8 ≤ m) × (b + (h - 1) * line + m ≤ length l.now) }
    ensures { result ≡ true → UpToRows 255 l.now b line m h }
{
    let mut v = 0u16;
    for i in 0..h {
        v = top_of_run::<8>(v, l, b + i * line, m);
    }
    v < 256
}

// Rows of results over any samples, taken from rows that stand line apart.
fn rows_wide<const APART: usize>(
    l: &[u16],
    b: usize,
    line: usize,
    p: Taps,
    w: usize,
    max: u16,
    h: usize,
    out: &mut [u16],
    at: usize,
    stride: usize,
)
    requires w_in_bounds { (b + (h - 1) * line + w + APART * 7 ≤ length l.now) × (at + (h - 1) * stride + w ≤ length out.old) }
    requires max_bound { max ≤ 4095 }
    ensures { out.new ≡ fill_rows out.old at stride w h (ran_rows max (tap p.filter p.phase) l.now APART b line) }
{
    for i in 0..h {
        row_wide::<APART>(l, b + i * line, p, w, max, out, at + i * stride);
    }
}

// Four samples are all read before one is written, so that the machine moves them together.
fn four_moved(l: &[u16], s: usize, out: &mut [u16], at: usize)
    requires { (s + 4 ≤ length l.now) × (at + 4 ≤ length out.old) }
    ensures { out.new ≡ fill out.old at 4 (onward l.now s) }
{
    let a = l[s];
    let b = l[s + 1];
    let c = l[s + 2];
    let d = l[s + 3];
    out[at] = a;
    out[at + 1] = b;
    out[at + 2] = c;
    out[at + 3] = d;
}

// Fewer than four samples, without a loop: the compiler makes a call of C's memcpy of one whose length it does not know.
fn few_moved(l: &[u16], s: usize, w: usize, out: &mut [u16], at: usize)
    requires { (w < 4) × (s + w ≤ length l.now) × (at + w ≤ length out.old) }
    ensures { out.new ≡ fill out.old at w (onward l.now s) }
{
    if w == 0 {
        return;
    }
    out[at] = l[s];
    if w == 1 {
        return;
    }
    out[at + 1] = l[s + 1];
    if w == 2 {
        return;
    }
    out[at + 2] = l[s + 2];
}

// The samples from place s on, fewer than eight.
pub fn first(l: &[u16], s: usize, w: usize, out: &mut [u16], at: usize)
    requires { (w < 8) × (s + w ≤ length l.now) × (at + w ≤ length out.old) }
    ensures { out.new ≡ fill out.old at w (onward l.now s) }
{
    if w < 4 {
        few_moved(l, s, w, out, at)
    } else {
        four_moved(l, s, out, at);
        few_moved(l, s + 4, w - 4, out, at + 4)
    }
}

// The first w of each eight numbers of a list.
fn rows_first(l: &[u16], w: usize, h: usize, out: &mut [u16], at: usize, stride: usize)
    requires { (w < 8) × (h * 8 ≤ length l.now) × (at + (h - 1) * stride + w ≤ length out.old) }
    ensures { out.new ≡ fill_rows out.old at stride w h (eighths l.now) }
{
    for i in 0..h {
        first(l, i * 8, w, out, at + i * stride);
    }
}

// The same of four, the usual narrow width.
fn rows_four(l: &[u16], h: usize, out: &mut [u16], at: usize, stride: usize)
    requires { (h * 8 ≤ length l.now) × (at + (h - 1) * stride + 4 ≤ length out.old) }
    ensures { out.new ≡ fill_rows out.old at stride 4 h (eighths l.now) }
{
    for i in 0..h {
        four_moved(l, i * 8, out, at + i * stride);
    }
}

// Narrow rows by way of rows of eight: what is computed past their ends is dropped.
fn narrow<const APART: usize>(
    l: &[u16],
    b: usize,
    line: usize,
    p: Taps,
    w: usize,
    h: usize,
    out: &mut [u16],
    at: usize,
    stride: usize,
)
    requires w_bound { (w < 8) × (h ≤ 16) × (b + (h - 1) * line + APART * 7 + 8 ≤ length l.now) × (at + (h - 1) * stride + w ≤ length out.old) }
    ensures { out.new ≡ fill_rows out.old at stride w h (low_rows p l.now APART b line) }
{
    let mut wide = [0u16; 128];
    rows_low::<APART>(l, b, line, p, 8, h, &mut wide, 0, 8);
    if w == 4 {
        rows_four(&wide, h, out, at, stride)
    } else {
        rows_first(&wide, w, h, out, at, stride)
    }
}

// Rows of results over samples of at most 255.
fn bytes<const APART: usize>(
    l: &[u16],
    b: usize,
    line: usize,
    p: Taps,
    w: usize,
    h: usize,
    out: &mut [u16],
    at: usize,
    stride: usize,
)
    requires h_nonzero { 0 < h }
    requires w_in_bounds { (b + (h - 1) * line + w + APART * 7 ≤ length l.now) × (at + (h - 1) * stride + w ≤ length out.old) }
    requires low { LowRows 255 l.now APART b line w h }
    ensures { out.new ≡ fill_rows out.old at stride w h (ran_rows 255 (tap p.filter p.phase) l.now APART b line) }
{
    if w % 8 == 0 {
        rows_low::<APART>(l, b, line, p, w, h, out, at, stride)
    } else if w < 8 && h <= 16 && APART * 7 + 8 <= l.len() - (b + (h - 1) * line) {
        narrow::<APART>(l, b, line, p, w, h, out, at, stride)
    } else {
        rows_wide::<APART>(l, b, line, p, w, 255, h, out, at, stride)
    }
}

// Rows of horizontal results of one phase, taken from h rows that stand line apart, where no column has to be held.
pub fn rows_across(
    l: &[u16],
    b: usize,
    line: usize,
    p: Taps,
    w: usize,
    max: u16,
    h: usize,
    out: &mut [u16],
    at: usize,
    stride: usize,
)
    requires w_nonzero { (0 < w) × (0 < h) }
    requires w_in_bounds { (b + (h - 1) * line + w + 7 ≤ length l.now) × (at + (h - 1) * stride + w ≤ length out.old) }
    requires max_bound { max ≤ 4095 }
    ensures { out.new ≡ fill_rows out.old at stride w h (ran_rows max (tap p.filter p.phase) l.now 1 b line) }
{
    if max == 255 && rows_are_low(l, b, line, w + 7, h) {
        bytes::<1>(l, b, line, p, w, h, out, at, stride)
    } else {
        rows_wide::<1>(l, b, line, p, w, max, h, out, at, stride)
    }
}

// Rows of vertical results of one phase, from h rows of the room on.
pub fn rows_down(
    l: &[u16],
    b: usize,
    p: Taps,
    w: usize,
    max: u16,
    h: usize,
    out: &mut [u16],
    at: usize,
    stride: usize,
)
    requires h_nonzero { 0 < h }
    requires w_in_bounds { (b + (h - 1) * 64 + w + 448 ≤ length l.now) × (at + (h - 1) * stride + w ≤ length out.old) }
    requires below_rows { BelowRows max l.now b w h }
    requires max_bound { max ≤ 4095 }
    ensures { out.new ≡ fill_rows out.old at stride w h (ran_rows max (tap p.filter p.phase) l.now 64 b 64) }
{
    if max == 255 {
        bytes::<64>(l, b, 64, p, w, h, out, at, stride)
    } else {
        rows_wide::<64>(l, b, 64, p, w, max, h, out, at, stride)
    }
}
