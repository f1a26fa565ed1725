// Rows of samples: eight taps over eight samples, rounded and held, for each column of a row.
ghost use Rattle.std.specs.Prelude.{◌≡◌, ◌+◌, ◌-◌, ◌*◌, ◌/◌, ◌%◌, ◌≤◌, ◌<◌, min, length};
ghost use Rattle.base.specs.Paint.{fill};
ghost use Rattle.taps.specs.Taps.{tap};
ghost use Rattle.taps.specs.Filter.{filtered};
ghost use Rattle.taps.specs.Kernel.{apart, stepped, alike, onward, held_from, Gathered, levels};

use lanes::{first, rows_across};
use sums::one;
use taps::{ORIGIN, Taps, held, left_of, moved, repeated, row_clipped, taps_at};

// The result over the eight samples from place s on.
fn window(l: &[u16], s: usize, p: Taps, max: u16) -> u16
    requires { s + 8 ≤ length l.now }
    ensures { result ≡ filtered max (tap p.filter p.phase) (apart l.now 1 s) }
{
    one(
        p,
        l[s],
        l[s + 1],
        l[s + 2],
        l[s + 3],
        l[s + 4],
        l[s + 5],
        l[s + 6],
        l[s + 7],
        max,
    )
}

// A row of results whose phase changes from column to column.
fn row_stepped(
    filter: usize,
    l: &[u16],
    d: usize,
    phase: usize,
    step: usize,
    w: usize,
    max: u16,
    out: &mut [u16],
    at: usize,
)
    requires in_line { (filter < 4) × (phase < 16) × (step ≤ 32) × (w ≤ 64) × (d + (phase + step * (w - 1)) / 16 + 8 ≤ length l.now) }
    requires out_bound { at + w ≤ length out.old }
    ensures { out.new ≡ fill out.old at w (stepped max (tap filter) l.now d phase step) }
{
    for c in 0..w {
        let q = phase + step * c;
        let p = taps_at(filter, q % 16);
        out[at + c] = window(l, d + q / 16, p, max);
    }
}

// Whole eights, up to seven numbers past the run's end: what follows is written later.
fn run_eights(v: u16, n: usize, line: &mut [u16], at: usize)
    requires { at + n + 7 ≤ length line.old }
    ensures { Gathered line.old line.new at n (alike v) }
{
    for i in 0..(n + 7) / 8 {
        repeated(v, 8, line, at + i * 8);
    }
}

// The last eight ends where the run ends, over some of the eight before it.
fn run_overlapped(row: &[u16], s: usize, n: usize, line: &mut [u16], at: usize)
    requires { (8 ≤ n) × (s + n ≤ length row.now) × (at + n ≤ length line.old) }
    ensures { Gathered line.old line.new at n (onward row.now s) }
{
    for i in 0..(n + 7) / 8 {
        let o = (i * 8).min(n - 8);
        moved::<8>(row, s + o, line, at + o);
    }
}

// Fewer than eight are moved as eight where the row has as many.
fn run_moved(row: &[u16], s: usize, n: usize, line: &mut [u16], at: usize)
    requires { (s + n ≤ length row.now) × (at + n + 8 ≤ length line.old) }
    ensures { Gathered line.old line.new at n (onward row.now s) }
{
    if 8 <= n {
        run_overlapped(row, s, n, line, at)
    } else if 8 <= row.len() - s {
        moved::<8>(row, s, line, at)
    } else {
        first(row, s, n, line, at)
    }
}

// The samples of m lifted columns from b on, each column held into the plane: its first sample again and again, the row itself, its last.
// Up to seven places past them are scratch. The row goes on past `last`: it is not cut there, since a short run is moved as eight.
pub fn gather(row: &[u16], last: usize, b: usize, m: usize, line: &mut [u16], at: usize)
    requires { (last < length row.now) × (b ≤ 400067) × (0 < m) × (m ≤ 136) × (at + m + 8 ≤ length line.old) }
    ensures { Gathered line.old line.new at m (held_from row.now last b) }
{
    let l = left_of(b, m);
    let s = held(b, last);
    let k = (last + 1 - s).min(m - l);
    run_eights(row[0], l, line, at);
    run_moved(row, s, k, line, at + l);
    run_eights(row[last], m - l - k, line, at + l + k)
}

// A row of results over samples that need no holding.
fn row_line(
    p: Taps,
    l: &[u16],
    d: usize,
    step: usize,
    w: usize,
    max: u16,
    out: &mut [u16],
    at: usize,
)
    requires step_bound { (p.filter < 4) × (p.phase < 16) × (step ≤ 32) × (0 < w) × (w ≤ 64) }
    requires in_bounds { (d + (p.phase + step * (w - 1)) / 16 + 8 ≤ length l.now) × (at + w ≤ length out.old) }
    requires max_bound { max ≤ 4095 }
    ensures { out.new ≡ fill out.old at w (stepped max (tap p.filter) l.now d p.phase step) }
{
    if step != 16 {
        row_stepped(p.filter, l, d, p.phase, step, w, max, out, at)
    } else if p.phase == 0 {
        row_clipped(l, d + 3, w, max, out, at)
    } else {
        rows_across(l, d, 0, p, w, max, 1, out, at, 0)
    }
}

// A row of at most 32 results near an edge, over a line of held samples. Filter 3 has its like in pair_passes, as of the next two: it starts three
// columns on, looks at two samples of a result and needs no taps, so that one function for both would take three parameters more.
fn few_gathered(
    p: Taps,
    row: &[u16],
    last: usize,
    start: usize,
    step: usize,
    w: usize,
    max: u16,
    out: &mut [u16],
    at: usize,
)
    requires start_bound { (p.filter < 4) × (p.phase ≡ start % 16) × (last < length row.now) × (start ≤ 6401024) × (step ≤ 32) }
    requires w_bound { (0 < w) × (w ≤ 32) × (at + w ≤ length out.old) }
    requires max_bound { max ≤ 4095 }
    ensures { out.new ≡ fill out.old at w (levels max (tap p.filter) row.now last start step) }
{
    let m = (start % 16 + step * (w - 1)) / 16 + 8;
    // Of at most 256 bytes: the compiler has C's memset write zeros to a larger one first.
    let mut line = [1u16; 80];
    gather(row, last, start / 16, m, &mut line, 0);
    row_line(p, &line, 0, step, w, max, out, at)
}

// A row of results near an edge: a wide one in two parts, so that the line is short.
fn row_gathered(
    p: Taps,
    row: &[u16],
    last: usize,
    start: usize,
    step: usize,
    w: usize,
    max: u16,
    out: &mut [u16],
    at: usize,
)
    requires start_bound { (p.filter < 4) × (p.phase ≡ start % 16) × (last < length row.now) × (start ≤ 6400000) × (step ≤ 32) }
    requires w_bound { (0 < w) × (w ≤ 64) × (at + w ≤ length out.old) }
    requires max_bound { max ≤ 4095 }
    ensures { out.new ≡ fill out.old at w (levels max (tap p.filter) row.now last start step) }
{
    if w <= 32 {
        few_gathered(p, row, last, start, step, w, max, out, at)
    } else {
        few_gathered(p, row, last, start, step, 32, max, out, at);
        let on = start + step * 32;
        let q = taps_at(p.filter, on % 16);
        few_gathered(q, row, last, on, step, w - 32, max, out, at + 32)
    }
}

// A row of horizontal results: over the row itself where no column has to be held.
pub fn row_across(
    p: Taps,
    row: &[u16],
    last: usize,
    start: usize,
    step: usize,
    w: usize,
    max: u16,
    out: &mut [u16],
    at: usize,
)
    requires start_bound { (p.filter < 4) × (p.phase ≡ start % 16) × (last < length row.now) × (start ≤ 6400000) × (step ≤ 32) }
    requires w_bound { (0 < w) × (w ≤ 64) × (at + w ≤ length out.old) }
    requires max_bound { max ≤ 4095 }
    ensures { out.new ≡ fill out.old at w (levels max (tap p.filter) row.now last start step) }
{
    let b = start / 16;
    let m = (start % 16 + step * (w - 1)) / 16 + 8;
    match b.checked_sub(ORIGIN) {
        Some(d) if d + m <= last + 1 => row_line(p, row, d, step, w, max, out, at),
        _ => row_gathered(p, row, last, start, step, w, max, out, at),
    }
}
