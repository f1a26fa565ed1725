// Rows of vertical results, plain and averaged into the output.
ghost use Rattle.std.specs.Prelude.{◌≡◌, ◌+◌, ◌≤◌, ◌<◌, length};
ghost use Rattle.base.specs.Paint.{fill};
ghost use Rattle.taps.specs.Taps.{tap};
ghost use Rattle.taps.specs.Kernel.{Below, ran, mean_of};

use lanes::rows_down;
use taps::{Taps, row_averaged, row_clipped};

// A row of vertical results: phase 0 is the fourth of its eight rows.
pub fn row_down(p: Taps, room: &[u16], b: usize, w: usize, max: u16, out: &mut [u16], at: usize)
    requires w_bound { (p.filter < 4) × (b + w + 448 ≤ length room.now) × (at + w ≤ length out.old) }
    requires below { Below max room.now b w }
    requires max_bound { max ≤ 4095 }
    ensures { out.new ≡ fill out.old at w (ran max (tap p.filter p.phase) room.now 64 b) }
{
    if p.phase == 0 {
        row_clipped(room, b + 192, w, max, out, at)
    } else {
        rows_down(room, b, p, w, max, 1, out, at, 0)
    }
}

// A row of vertical results, averaged with what stands in the output.
pub fn row_down_mean(
    p: Taps,
    room: &[u16],
    b: usize,
    w: usize,
    max: u16,
    out: &mut [u16],
    at: usize,
)
    requires w_bound { (p.filter < 4) × (w ≤ 64) × (b + w + 448 ≤ length room.now) × (at + w ≤ length out.old) }
    requires below { Below max room.now b w }
    requires max_bound { max ≤ 4095 }
    ensures { out.new ≡ fill out.old at w
        (mean_of out.old at (ran max (tap p.filter p.phase) room.now 64 b)) }
{
    let mut line = [0u16; 64];
    row_down(p, room, b, w, max, &mut line, 0);
    row_averaged(&line, 0, w, out, at)
}
