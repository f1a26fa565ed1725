// Rows of copies: what whole positions in steps of 16 give, each sample held to the depth.
ghost use Rattle.std.specs.Prelude.{◌≡◌, ◌+◌, ◌-◌, ◌%◌, ◌≤◌, ◌<◌, min, length};
ghost use Rattle.base.specs.Paint.{fill, paint};
ghost use Rattle.taps.specs.Kernel.{clipped, listed};
ghost use Rattle.copies.specs.Copy.{Rows, clipped_rows, three_runs, still};

use taps::{held, left_of, lesser, repeated, row_clipped};

// N copies, whose samples are all read before one is written, so that the machine moves them together.
#[tactic(auto, unfolding(taps::specs::Kernel::clipped))]
fn copied<const N: usize>(l: &[u16], s: usize, max: u16, out: &mut [u16], o: usize)
    requires { (s + N ≤ length l.now) × (o + N ≤ length out.old) }
    ensures { out.new ≡ fill out.old o N (clipped max l.now s) }
{
    let mut read = [0u16; N];
    for c in 0..N {
        read[c] = lesser(l[s + c], max);
    }
    for c in 0..N {
        out[o + c] = read[c];
    }
}

// A row whose width is a multiple of sixteen.
fn row_sixteens(l: &[u16], b: usize, w: usize, max: u16, out: &mut [u16], at: usize)
    requires { (w % 16 ≡ 0) × (b + w ≤ length l.now) × (at + w ≤ length out.old) }
    ensures { out.new ≡ fill out.old at w (clipped max l.now b) }
{
    for i in 0..w / 16 {
        copied::<16>(l, b + i * 16, max, out, at + i * 16);
    }
}

// The widest row: its turns are known in number, and the compiler lays them out.
fn sixty_four(l: &[u16], b: usize, max: u16, out: &mut [u16], at: usize)
    requires { (b + 64 ≤ length l.now) × (at + 64 ≤ length out.old) }
    ensures { out.new ≡ fill out.old at 64 (clipped max l.now b) }
{
    for i in 0..8 {
        copied::<8>(l, b + i * 8, max, out, at + i * 8);
    }
}

// The usual widths have a shape of their own.
fn row_copied(l: &[u16], b: usize, w: usize, max: u16, out: &mut [u16], at: usize)
    requires { (b + w ≤ length l.now) × (at + w ≤ length out.old) }
    ensures { out.new ≡ fill out.old at w (clipped max l.now b) }
{
    match w {
        4 => copied::<4>(l, b, max, out, at),
        8 => copied::<8>(l, b, max, out, at),
        64 => sixty_four(l, b, max, out, at),
        _ if w % 16 == 0 => row_sixteens(l, b, w, max, out, at),
        _ => row_clipped(l, b, w, max, out, at),
    }
}

// n rows of w copies, stride apart in the list and rs apart in the output.
pub fn rows_copied(
    l: &[u16],
    at: usize,
    stride: usize,
    w: usize,
    n: usize,
    max: u16,
    out: &mut [u16],
    rs: usize,
)
    requires rows { Rows n stride w at (length l.now) }
    requires rows_2 { Rows n rs w 0 (length out.old) }
    ensures { out.new ≡ paint out.old rs w n (clipped_rows max l.now at stride) }
{
    for i in 0..n {
        row_copied(l, at + i * stride, w, max, out, i * rs);
    }
}

// A row in three runs: column 0 for the columns before it, the columns from d on, the last one for those after it.
fn row_runs(
    row: &[u16],
    last: usize,
    d: usize,
    before: usize,
    inside: usize,
    after: usize,
    max: u16,
    out: &mut [u16],
    at: usize,
)
    requires { (last < length row.now) × (d + inside ≤ length row.now) × (at + before + inside + after ≤ length out.old) }
    ensures { out.new ≡ three_runs out.old at before inside after
        (min (listed row.now 0) max) (clipped max row.now d) (min (listed row.now last) max) }
{
    repeated(lesser(row[0], max), before, out, at);
    row_clipped(row, d, inside, max, out, at + before);
    repeated(lesser(row[last], max), after, out, at + before + inside)
}

// A row of copies near an edge.
pub fn row_held(row: &[u16], last: usize, b: usize, w: usize, max: u16, out: &mut [u16], at: usize)
    requires { (last < length row.now) × (b ≤ 400003) × (w ≤ 64) × (at + w ≤ length out.old) }
    ensures { out.new ≡ fill out.old at w (still max row.now last b) }
{
    let before = left_of(b, w);
    let d = held(b, last);
    let inside = (last + 1 - d).min(w - before);
    row_runs(
        row,
        last,
        d,
        before,
        inside,
        w - before - inside,
        max,
        out,
        at,
    )
}
