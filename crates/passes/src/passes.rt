// Both passes over a block, on positions lifted by 3,200,000: across into the room or straight into the output, then down.
ghost use Rattle.std.specs.Prelude.{◌≡◌, true, ◌+◌, ◌-◌, ◌*◌, ◌/◌, ◌%◌, ◌≤◌, ◌<◌, min, cond, length, IfSome, is_some};
ghost use Rattle.base.specs.Paint.{fill, paint};
ghost use Rattle.taps.specs.Taps.{tap};
ghost use Rattle.taps.specs.Kernel.{ran, mean_of, Below};
ghost use Rattle.planes.specs.Plane.{holds, row_of};
ghost use Rattle.planes.specs.Seen.{seen};
ghost use Rattle.passes.specs.Lifted as Lifted;
ghost use Rattle.passes.specs.Lifted.{across_from, copy_from, down_at, down_even, block_at, mean_with, written, room_at, HeldRoom, HeldLines, Stands};

use crate::shapes::{Area, Axis};
use copies::{row_held, rows_copied};
use kernels::{gather, row_across, row_down, row_down_mean};
use lanes::{rows_across, rows_down};
use planes::Bands;
use taps::{ORIGIN, Taps, held, row_averaged, taps_at};

// The lifted row y, held into the plane.
pub fn lifted_row<'a>(plane: Bands<'a>, y: usize) -> &'a [u16]
    ensures { (result.now ≡ row_of (seen plane.entry) (min (y - 200003) (plane.entry.height - 1))) × (length result.now ≡ plane.entry.width) }
{
    plane.row(held(y, plane.height - 1))
}

// The n columns or rows from the lifted one b on are all among m. An Option with the place itself, handed on by ?, costs each copy 20 instructions more.
fn unheld(b: usize, n: usize, m: usize) -> bool
    requires { (b ≤ 400003) × (n ≤ 135) }
    ensures { result ≡ Lifted.unheld b n m }
{
    if b < ORIGIN {
        return false;
    }
    b - ORIGIN + n <= m
}

// Where nothing has to be held and one band has them all: that band, and the place in it from which on the n rows of w samples stand.
#[tactic(auto, unfolding(crate::specs::Lifted::is_straight))]
pub fn straight<'a>(
    plane: Bands<'a>,
    b: usize,
    y0: usize,
    w: usize,
    n: usize,
) -> Option<(&'a [u16], usize)>
    requires { (b ≤ 400003) × (y0 ≤ 400003) × (w ≤ 135) × (0 < n) × (n ≤ 135) }
    ensures stands { IfSome result (λ part. Stands (seen plane.entry) b y0 w n part.0.now part.1) }
    ensures told { is_some result ≡ Lifted.is_straight (seen plane.entry) b y0 w n }
{
    if unheld(b, w, plane.width) & unheld(y0, n, plane.height) {
        let d = b - ORIGIN;
        let e = y0 - ORIGIN;
        if e + n <= plane.upper_rows {
            return Some((plane.upper, e * plane.stride + d));
        }
        if plane.upper_rows <= e {
            return Some((plane.lower, (e - plane.upper_rows) * plane.stride + d));
        }
    }
    None
}

// The horizontal pass: the rows from the lifted row y0 on.
fn pass_across<'a>(
    p: Taps,
    plane: Bands<'a>,
    x: Axis,
    y0: usize,
    area: Area,
    room: &mut [u16],
    rs: usize,
)
    requires places { (p.filter < 4) × (p.phase ≡ x.start % 16) × (y0 ≤ 400003) }
    requires room_value { holds area.height rs area.width (length room.old) ≡ true }
    ensures { room.new ≡ paint room.old rs area.width area.height
        (across_from area.max (tap p.filter) (seen plane.entry) x.start x.step y0) }
{
    for i in 0..area.height {
        let row = lifted_row(plane, y0 + i);
        row_across(
            p,
            row,
            plane.width - 1,
            x.start,
            x.step,
            area.width,
            area.max,
            room,
            i * rs,
        );
    }
}

// Rows of copies near an edge, from the lifted row y0 and the lifted column b on. In a frame of its own: put into pass_rows it has too few registers, and
// a row takes up to one and a half times as long.
#[inline(never)]
fn rows_held<'a>(plane: Bands<'a>, b: usize, y0: usize, area: Area, out: &mut [u16], rs: usize)
    requires places { (b ≤ 400003) × (y0 ≤ 400003) }
    requires out_value { holds area.height rs area.width (length out.old) ≡ true }
    ensures { out.new ≡ paint out.old rs area.width area.height
        (copy_from area.max (seen plane.entry) b y0) }
{
    for j in 0..area.height {
        let row = lifted_row(plane, y0 + j);
        row_held(row, plane.width - 1, b, area.width, area.max, out, j * rs);
    }
}

// Rows of copies, straight from the band that has them all where nothing has to be held.
fn pass_copied<'a>(plane: Bands<'a>, b: usize, y0: usize, area: Area, out: &mut [u16], rs: usize)
    requires places { (b ≤ 400003) × (y0 ≤ 400003) }
    requires out_value { holds area.height rs area.width (length out.old) ≡ true }
    ensures { out.new ≡ paint out.old rs area.width area.height
        (copy_from area.max (seen plane.entry) b y0) }
{
    if let Some((band, s)) = straight(plane, b, y0, area.width, area.height) {
        rows_copied(
            band,
            s,
            plane.stride,
            area.width,
            area.height,
            area.max,
            out,
            rs,
        );
        return;
    }
    rows_held(plane, b, y0, area, out, rs)
}

// The held samples of m lifted columns from b on, of n rows from the lifted row y0 on: lines of 71.
pub fn gather_rows<'a>(plane: Bands<'a>, b: usize, y0: usize, n: usize, m: usize, lines: &mut [u16])
    requires { (b ≤ 400003) × (y0 ≤ 400137) × (n ≤ 8) × (0 < m) × (m ≤ 71) × (71 * n + 8 ≤ length lines.old) }
    ensures { HeldLines (seen plane.entry) b y0 n m lines.new }
{
    for j in 0..n {
        let row = lifted_row(plane, y0 + j);
        gather(row, plane.width - 1, b, m, lines, j * 71);
    }
}

// The horizontal pass in steps of 16 near an edge: row by row, over a line of held samples.
fn pass_gathered<'a>(
    p: Taps,
    plane: Bands<'a>,
    start: usize,
    y0: usize,
    area: Area,
    room: &mut [u16],
    rs: usize,
)
    requires places { (p.phase ≡ start % 16) × (start ≤ 6200000) × (y0 ≤ 400003) }
    requires room_value { holds area.height rs area.width (length room.old) ≡ true }
    ensures { room.new ≡ paint room.old rs area.width area.height
        (across_from area.max (tap p.filter) (seen plane.entry) start 16 y0) }
{
    // Of at most 256 bytes: the compiler has C's memset write zeros to a larger one first.
    let mut line = [1u16; 80];
    for j in 0..area.height {
        gather_rows(plane, start / 16, y0 + j, 1, area.width + 7, &mut line);
        rows_across(&line, 0, 71, p, area.width, area.max, 1, room, j * rs, rs);
    }
}

// The horizontal pass in steps of 16: all rows at once from the band that has them, where nothing has to be held.
fn pass_even<'a>(
    p: Taps,
    plane: Bands<'a>,
    start: usize,
    y0: usize,
    area: Area,
    room: &mut [u16],
    rs: usize,
)
    requires places { (p.phase ≡ start % 16) × (start ≤ 6200000) × (y0 ≤ 400003) }
    requires room_value { holds area.height rs area.width (length room.old) ≡ true }
    ensures { room.new ≡ paint room.old rs area.width area.height
        (across_from area.max (tap p.filter) (seen plane.entry) start 16 y0) }
{
    if let Some((band, s)) = straight(plane, start / 16, y0, area.width + 7, area.height) {
        rows_across(
            band,
            s,
            plane.stride,
            p,
            area.width,
            area.max,
            area.height,
            room,
            0,
            rs,
        );
        return;
    }
    pass_gathered(p, plane, start, y0, area, room, rs)
}

// The horizontal pass, whatever the columns: whole ones in steps of 16 are copies and need no taps.
pub fn pass_rows<'a>(
    plane: Bands<'a>,
    x: Axis,
    y0: usize,
    filter: usize,
    area: Area,
    room: &mut [u16],
    rs: usize,
)
    requires filter_bound { (filter < 4) × (y0 ≤ 400003) }
    requires room_value { holds area.height rs area.width (length room.old) ≡ true }
    ensures { room.new ≡ paint room.old rs area.width area.height
        (across_from area.max (tap filter) (seen plane.entry) x.start x.step y0) }
{
    if (x.start % 16 == 0) & (x.step == 16) {
        pass_copied(plane, x.start / 16 + 3, y0, area, room, rs);
        return;
    }
    let p = taps_at(filter, x.start % 16);
    if x.step == 16 {
        pass_even(p, plane, x.start, y0, area, room, rs);
        return;
    }
    pass_across(p, plane, x, y0, area, room, rs)
}

// The vertical pass where the phase is one for all rows.
fn pass_down_even(p: Taps, room: &[u16], area: Area, out: &mut [u16], stride: usize)
    requires high { (area.height ≤ 64) × (8576 ≤ length room.now) }
    requires out_value { holds area.height stride area.width (length out.old) ≡ true }
    requires held_room { HeldRoom area.max room.now (area.height + 7) area.width }
    ensures { out.new ≡ paint out.old stride area.width area.height
        (down_even area.max (tap p.filter p.phase) room.now) }
{
    rows_down(
        room,
        0,
        p,
        area.width,
        area.max,
        area.height,
        out,
        0,
        stride,
    )
}

// A row of vertical results, averaged with what stands in the output where a mean is asked for.
fn row_written(
    p: Taps,
    room: &[u16],
    b: usize,
    w: usize,
    max: u16,
    mean: bool,
    out: &mut [u16],
    at: usize,
)
    requires bounds { (p.filter < 4) × (w ≤ 64) × (b + w + 448 ≤ length room.now) × (at + w ≤ length out.old) × (max ≤ 4095) }
    requires below { Below max room.now b w }
    ensures { out.new ≡ fill out.old at w (cond mean
        (mean_of out.old at (ran max (tap p.filter p.phase) room.now 64 b))
        (ran max (tap p.filter p.phase) room.now 64 b)) }
{
    if mean {
        row_down_mean(p, room, b, w, max, out, at);
        return;
    }
    row_down(p, room, b, w, max, out, at)
}

// The vertical pass where the phase changes from row to row.
fn pass_down_stepped(
    filter: usize,
    room: &[u16],
    y: Axis,
    area: Area,
    mean: bool,
    out: &mut [u16],
    stride: usize,
)
    requires bounds { (filter < 4) × (area.height ≤ 64) × (8576 ≤ length room.now) }
    requires apart { mean ≡ true → area.width ≤ stride }
    requires out_value { holds area.height stride area.width (length out.old) ≡ true }
    requires held_room { HeldRoom area.max room.now ((y.start % 16 + y.step * (area.height - 1)) / 16 + 8) area.width }
    ensures { out.new ≡ paint out.old stride area.width area.height
        (written mean out.old stride (down_at area.max (tap filter) room.now y.start y.step)) }
{
    for r in 0..area.height {
        let q = y.start + y.step * r;
        let b = q / 16 - y.start / 16;
        let p = taps_at(filter, q % 16);
        row_written(p, room, b * 64, area.width, area.max, mean, out, r * stride);
    }
}

// The vertical pass: the rows of the output, averaged with what stands there where a mean is asked for.
fn pass_down(
    filter: usize,
    room: &[u16],
    y: Axis,
    area: Area,
    mean: bool,
    out: &mut [u16],
    stride: usize,
)
    requires bounds { (filter < 4) × (area.height ≤ 64) × (8576 ≤ length room.now) }
    requires apart { mean ≡ true → area.width ≤ stride }
    requires out_value { holds area.height stride area.width (length out.old) ≡ true }
    requires held_room { HeldRoom area.max room.now ((y.start % 16 + y.step * (area.height - 1)) / 16 + 8) area.width }
    ensures { out.new ≡ paint out.old stride area.width area.height
        (written mean out.old stride (down_at area.max (tap filter) room.now y.start y.step)) }
{
    if !mean & (y.step == 16) {
        let p = taps_at(filter, y.start % 16);
        pass_down_even(p, room, area, out, stride);
        return;
    }
    pass_down_stepped(filter, room, y, area, mean, out, stride)
}

// The first h rows of the room, averaged into the output.
pub fn rows_averaged(room: &[u16], w: usize, h: usize, out: &mut [u16], stride: usize)
    requires w_bound { (w ≤ 64) × (h ≤ 64) × (8576 ≤ length room.now) × (w ≤ stride) }
    requires out_value { holds h stride w (length out.old) ≡ true }
    ensures { out.new ≡ paint out.old stride w h (mean_with out.old stride (room_at room.now)) }
{
    for r in 0..h {
        row_averaged(room, r * 64, w, out, r * stride);
    }
}

// A block from one reference, averaged with what stands in the output where a mean is asked for. Whole rows in steps of 16 need no vertical pass.
pub fn block<'a>(
    plane: Bands<'a>,
    x: Axis,
    y: Axis,
    filter: usize,
    area: Area,
    mean: bool,
    room: &mut [u16],
    out: &mut [u16],
    stride: usize,
)
    requires bounds { (filter < 4) × (area.height ≤ 64) × (8576 ≤ length room.old) }
    requires apart { mean ≡ true → area.width ≤ stride }
    requires out_value { holds area.height stride area.width (length out.old) ≡ true }
    ensures { out.new ≡ paint out.old stride area.width area.height (written mean out.old stride
        (block_at area.max (tap filter) (seen plane.entry) x.start x.step y.start y.step)) }
{
    if (y.start % 16 == 0) & (y.step == 16) {
        if mean {
            pass_rows(plane, x, y.start / 16 + 3, filter, area, room, 64);
            rows_averaged(room, area.width, area.height, out, stride);
            return;
        }
        pass_rows(plane, x, y.start / 16 + 3, filter, area, out, stride);
        return;
    }
    let rows = Area {
        width: area.width,
        height: (y.start % 16 + y.step * (area.height - 1)) / 16 + 8,
        max: area.max,
    };
    pass_rows(plane, x, y.start / 16, filter, rows, room, 64);
    pass_down(filter, room, y, area, mean, out, stride)
}
