// Both passes of filter 3 over a block, on positions lifted by 3,200,000. Of the eight columns and rows that a sample's taps reach it reads the
// fourth and the fifth: the horizontal pass makes one row more than the block has, and an edge is held only where these two pass it.
ghost use Rattle.std.specs.Prelude.{◌≡◌, true, cond, ◌+◌, ◌-◌, ◌*◌, ◌/◌, ◌%◌, ◌≤◌, ◌<◌, length};
ghost use Rattle.base.specs.Paint.{fill, paint};
ghost use Rattle.taps.specs.Taps.{tap};
ghost use Rattle.taps.specs.Kernel.{levels, mean_of};
ghost use Rattle.pairs.specs.Pair.{pair_ran, Low};
ghost use Rattle.planes.specs.Plane.{holds};
ghost use Rattle.planes.specs.Seen.{seen};
ghost use Rattle.passes.specs.Lifted.{across_from, block_at, written, HeldRoom};
ghost use Rattle.pair_passes.specs.PairDown.{pair_down};

use kernels::gather;
use pairs::{Phase, row_stepped, rows_any, rows_are_low, rows_low};
use passes::{Area, Axis, gather_rows, lifted_row, pass_rows, rows_averaged, straight};
use planes::Bands;
use taps::{ORIGIN, row_averaged};

// The horizontal pass in steps of 16 near an edge: row by row, over a line of held samples. This, pass_even and pass_stepped are formed as `passes` forms
// its own: a trait over both kinds of rows, with two constants, two methods, their laws and two impls, would be longer than these three.
fn pass_gathered<'a>(
    plane: Bands<'a>,
    start: usize,
    y0: usize,
    area: Area,
    room: &mut [u16],
    rs: usize,
)
    requires places { (start ≤ 6200000) × (y0 ≤ 400003) }
    requires room_value { holds area.height rs area.width (length room.old) ≡ true }
    ensures { room.new ≡ paint room.old rs area.width area.height
        (across_from area.max (tap 3) (seen plane.entry) start 16 y0) }
{
    let p = Phase::of(start);
    // Of at most 256 bytes: the compiler has C's memset write zeros to a larger one first.
    let mut line = [1u16; 80];
    for j in 0..area.height {
        gather_rows(plane, start / 16 + 3, y0 + j, 1, area.width + 1, &mut line);
        rows_any(&line, 0, 71, p, area.width, area.max, 1, room, j * rs, rs);
    }
}

// The horizontal pass in steps of 16: all rows at once from the band that has them, where nothing has to be held.
fn pass_even<'a>(plane: Bands<'a>, start: usize, y0: usize, area: Area, room: &mut [u16], rs: usize)
    requires places { (start ≤ 6200000) × (y0 ≤ 400003) }
    requires room_value { holds area.height rs area.width (length room.old) ≡ true }
    ensures { room.new ≡ paint room.old rs area.width area.height
        (across_from area.max (tap 3) (seen plane.entry) start 16 y0) }
{
    if let Some((band, s)) = straight(plane, start / 16 + 3, y0, area.width + 1, area.height) {
        rows_any(
            band,
            s,
            plane.stride,
            Phase::of(start),
            area.width,
            area.max,
            area.height,
            room,
            0,
            rs,
        );
        return;
    }
    pass_gathered(plane, start, y0, area, room, rs)
}

// At most 32 results whose phase changes, over a line of held samples.
fn few_gathered(
    row: &[u16],
    last: usize,
    start: usize,
    step: usize,
    w: usize,
    max: u16,
    out: &mut [u16],
    at: usize,
)
    requires { (last < length row.now) × (start ≤ 6401024) × (step ≤ 32) × (0 < w) × (w ≤ 32) × (at + w ≤ length out.old) }
    ensures { out.new ≡ fill out.old at w (levels max (tap 3) row.now last start step) }
{
    let b = start / 16 + 3;
    let m = (start % 16 + step * (w - 1)) / 16 + 2;
    // Of at most 256 bytes: the compiler has C's memset write zeros to a larger one first.
    let mut line = [1u16; 80];
    gather(row, last, b, m, &mut line, 0);
    row_stepped(&line, 0, Phase::of(start), step, w, max, out, at)
}

// The same of any width: a wide one in two parts, so that the line is short.
fn row_gathered(
    row: &[u16],
    last: usize,
    start: usize,
    step: usize,
    w: usize,
    max: u16,
    out: &mut [u16],
    at: usize,
)
    requires { (last < length row.now) × (start ≤ 6400000) × (step ≤ 32) × (0 < w) × (w ≤ 64) × (at + w ≤ length out.old) }
    ensures { out.new ≡ fill out.old at w (levels max (tap 3) row.now last start step) }
{
    if w <= 32 {
        few_gathered(row, last, start, step, w, max, out, at);
        return;
    }
    few_gathered(row, last, start, step, 32, max, out, at);
    let on = start + step * 32;
    few_gathered(row, last, on, step, w - 32, max, out, at + 32)
}

// A row of horizontal results whose phase changes: over the row itself where no column has to be held.
fn row_across(
    row: &[u16],
    last: usize,
    start: usize,
    step: usize,
    w: usize,
    max: u16,
    out: &mut [u16],
    at: usize,
)
    requires { (last < length row.now) × (start ≤ 6400000) × (step ≤ 32) × (0 < w) × (w ≤ 64) × (at + w ≤ length out.old) }
    ensures { out.new ≡ fill out.old at w (levels max (tap 3) row.now last start step) }
{
    let b = start / 16 + 3;
    let m = (start % 16 + step * (w - 1)) / 16 + 2;
    match b.checked_sub(ORIGIN) {
        Some(d) if d + m <= last + 1 => row_stepped(
            row,
            d,
            Phase::of(start),
            step,
            w,
            max,
            out,
            at,
        ),
        _ => row_gathered(row, last, start, step, w, max, out, at),
    }
}

// The horizontal pass, row by row.
fn pass_stepped<'a>(plane: Bands<'a>, x: Axis, y0: usize, area: Area, room: &mut [u16], rs: usize)
    requires places { y0 ≤ 400003 }
    requires room_value { holds area.height rs area.width (length room.old) ≡ true }
    ensures { room.new ≡ paint room.old rs area.width area.height
        (across_from area.max (tap 3) (seen plane.entry) x.start x.step y0) }
{
    for i in 0..area.height {
        let row = lifted_row(plane, y0 + i);
        row_across(
            row,
            plane.width - 1,
            x.start,
            x.step,
            area.width,
            area.max,
            room,
            i * rs,
        );
    }
}

// The horizontal pass, whatever the columns: whole ones in steps of 16 are copies.
fn pass_pairs<'a>(plane: Bands<'a>, x: Axis, y0: usize, area: Area, room: &mut [u16], rs: usize)
    requires places { y0 ≤ 400003 }
    requires room_value { holds area.height rs area.width (length room.old) ≡ true }
    ensures { room.new ≡ paint room.old rs area.width area.height
        (across_from area.max (tap 3) (seen plane.entry) x.start x.step y0) }
{
    if x.step != 16 {
        pass_stepped(plane, x, y0, area, room, rs);
        return;
    }
    if x.start % 16 == 0 {
        pass_rows(plane, x, y0, 3, area, room, rs);
        return;
    }
    pass_even(plane, x.start, y0, area, room, rs)
}

// The vertical pass where the phase is one for all rows.
fn down_even(room: &[u16], start: usize, area: Area, out: &mut [u16], stride: usize)
    requires high { (area.height ≤ 64) × (8576 ≤ length room.now) }
    requires out_value { holds area.height stride area.width (length out.old) ≡ true }
    requires held_room { HeldRoom area.max room.now (area.height + 1) area.width }
    ensures { out.new ≡ paint out.old stride area.width area.height
        (pair_down area.max room.now start 16) }
{
    let Area { width, height, max } = area;
    let phase = Phase::of(start);
    rows_low(room, 0, 64, 64, phase, width, max, height, out, 0, stride)
}

// A row of vertical results, averaged with what stands in the output where a mean is asked for.
fn row_written(
    room: &[u16],
    b: usize,
    p: Phase,
    w: usize,
    max: u16,
    mean: bool,
    out: &mut [u16],
    at: usize,
)
    requires bounds { (max ≤ 4095) × (w ≤ 64) × (b + w + 64 ≤ length room.now) × (at + w ≤ length out.old) }
    requires low { Low max room.now 64 b 0 w 1 }
    ensures { out.new ≡ fill out.old at w (cond mean
        (mean_of out.old at (pair_ran max p.sixteenths room.now 64 b))
        (pair_ran max p.sixteenths room.now 64 b)) }
{
    if mean {
        let mut line = [0u16; 64];
        rows_low(room, b, 64, 0, p, w, max, 1, &mut line, 0, 0);
        row_averaged(&line, 0, w, out, at);
        return;
    }
    rows_low(room, b, 64, 0, p, w, max, 1, out, at, 0)
}

// The vertical pass where the phase changes from row to row.
fn down_stepped(room: &[u16], y: Axis, area: Area, mean: bool, out: &mut [u16], stride: usize)
    requires bounds { (area.height ≤ 64) × (8576 ≤ length room.now) }
    requires apart { mean ≡ true → area.width ≤ stride }
    requires out_value { holds area.height stride area.width (length out.old) ≡ true }
    requires held_room { HeldRoom area.max room.now ((y.start % 16 + y.step * (area.height - 1)) / 16 + 2) area.width }
    ensures { out.new ≡ paint out.old stride area.width area.height
        (written mean out.old stride (pair_down area.max room.now y.start y.step)) }
{
    for r in 0..area.height {
        let q = y.start + y.step * r;
        let b = q / 16 - y.start / 16;
        row_written(
            room,
            b * 64,
            Phase::of(q),
            area.width,
            area.max,
            mean,
            out,
            r * stride,
        );
    }
}

// The vertical pass: the rows of the output, averaged with what stands there where a mean is asked for.
fn pass_down(room: &[u16], y: Axis, area: Area, mean: bool, out: &mut [u16], stride: usize)
    requires bounds { (area.height ≤ 64) × (8576 ≤ length room.now) }
    requires apart { mean ≡ true → area.width ≤ stride }
    requires out_value { holds area.height stride area.width (length out.old) ≡ true }
    requires held_room { HeldRoom area.max room.now ((y.start % 16 + y.step * (area.height - 1)) / 16 + 2) area.width }
    ensures { out.new ≡ paint out.old stride area.width area.height
        (written mean out.old stride (pair_down area.max room.now y.start y.step)) }
{
    if !mean & (y.step == 16) {
        down_even(room, y.start, area, out, stride);
        return;
    }
    down_stepped(room, y, area, mean, out, stride)
}

// A block by both passes, the first into the room.
fn through_room<'a>(
    plane: Bands<'a>,
    x: Axis,
    y: Axis,
    area: Area,
    mean: bool,
    room: &mut [u16],
    out: &mut [u16],
    stride: usize,
)
    requires bounds { (area.height ≤ 64) × (8576 ≤ length room.old) }
    requires apart { mean ≡ true → area.width ≤ stride }
    requires out_value { holds area.height stride area.width (length out.old) ≡ true }
    ensures { out.new ≡ paint out.old stride area.width area.height (written mean out.old stride
        (block_at area.max (tap 3) (seen plane.entry) x.start x.step y.start y.step)) }
{
    let rows = Area {
        width: area.width,
        height: (y.start % 16 + y.step * (area.height - 1)) / 16 + 2,
        max: area.max,
    };
    pass_pairs(plane, x, y.start / 16 + 3, rows, room, 64);
    pass_down(room, y, area, mean, out, stride)
}

// A block of whole columns in steps of 16: straight from the band that has its rows, where nothing has to be held, no sample to max either.
fn whole_columns<'a>(
    plane: Bands<'a>,
    x: Axis,
    y: Axis,
    area: Area,
    room: &mut [u16],
    out: &mut [u16],
    stride: usize,
)
    requires even { (x.start % 16 ≡ 0) × (x.step ≡ 16) × (y.step ≡ 16) }
    requires bounds { (area.height ≤ 64) × (8576 ≤ length room.old) }
    requires out_value { holds area.height stride area.width (length out.old) ≡ true }
    ensures { out.new ≡ paint out.old stride area.width area.height
        (block_at area.max (tap 3) (seen plane.entry) x.start x.step y.start y.step) }
{
    let b = x.start / 16 + 3;
    let y0 = y.start / 16 + 3;
    if let Some((band, s)) = straight(plane, b, y0, area.width, area.height + 1) {
        if rows_are_low(
            band,
            s,
            plane.stride,
            area.width,
            0,
            area.height + 1,
            area.max,
        ) {
            rows_low(
                band,
                s,
                plane.stride,
                plane.stride,
                Phase::of(y.start),
                area.width,
                area.max,
                area.height,
                out,
                0,
                stride,
            );
            return;
        }
    }
    through_room(plane, x, y, area, false, room, out, stride)
}

// A block from one reference, averaged with what stands in the output where a mean is asked for. Whole rows in steps of 16 need no vertical pass.
pub fn pair_block<'a>(
    plane: Bands<'a>,
    x: Axis,
    y: Axis,
    area: Area,
    mean: bool,
    room: &mut [u16],
    out: &mut [u16],
    stride: usize,
)
    requires bounds { (area.height ≤ 64) × (8576 ≤ length room.old) }
    requires apart { mean ≡ true → area.width ≤ stride }
    requires out_value { holds area.height stride area.width (length out.old) ≡ true }
    ensures { out.new ≡ paint out.old stride area.width area.height (written mean out.old stride
        (block_at area.max (tap 3) (seen plane.entry) x.start x.step y.start y.step)) }
{
    if (y.start % 16 == 0) & (y.step == 16) {
        if mean {
            pass_pairs(plane, x, y.start / 16 + 3, area, room, 64);
            rows_averaged(room, area.width, area.height, out, stride);
            return;
        }
        pass_pairs(plane, x, y.start / 16 + 3, area, out, stride);
        return;
    }
    if !mean & (x.start % 16 == 0) & (x.step == 16) & (y.step == 16) {
        whole_columns(plane, x, y, area, room, out, stride);
        return;
    }
    through_room(plane, x, y, area, mean, room, out, stride)
}
