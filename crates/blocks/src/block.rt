// The standard's 8.5.2.4 for a block that is already known to be accepted: from one reference, or from two and averaged.
ghost use Rattle.std.specs.Prelude.{◌≡◌, true, ◌&&◌, ◌-◌, ◌^◌, ◌≤◌, eqb, nat_abs, length};
ghost use Rattle.base.specs.Number as Number;
ghost use Rattle.base.specs.Paint.{paint};
ghost use Rattle.base.specs.Position.{to_n};
ghost use Rattle.base.proofs.Lift.{Diff};
ghost use Rattle.planes.specs.Plane as Plane;
ghost use Rattle.planes.specs.Plane.{lent, view, width_of, height_of};
ghost use Rattle.planes.specs.Seen.{seen};
ghost use Rattle.passes.specs.Lifted.{mean_with, written};
ghost use Rattle.blocks.specs.Block as Block;
ghost use Rattle.blocks.specs.Block.{call, from_ref, ref, value};
ghost use Rattle.blocks.specs.Passed.{Legal, Taken};

use base::{Sixteenth, Stepping, natural};
use pair_passes::pair_block;
use passes::{Area, Axis, block};
use planes::{Bands, PlaneGeom};

// The block: its size in samples, which filter, the bit depth, and whether two references are averaged.
#[repr(C)]
#[derive(Clone, Copy)]
pub struct BlockShape {
    pub w: usize,
    pub h: usize,
    pub filter: usize,
    pub depth: u32,
    pub average: bool,
}

// 3,200,000 is a multiple of 16, and more than the lowest start with the taps before it.
fn lift(z: Sixteenth) -> usize
    requires { nat_abs z.0 ≤ 3000000 }
    ensures { (Diff z.0 result 3200000) × (result ≤ 6200000) }
{
    (z.0 + 3200000) as usize
}

fn top(shape: BlockShape) -> u16
    requires { Block.kind shape ≡ true }
    ensures { result ≡ 2 ^ shape.depth - 1 }
{
    (4095u32 >> (12 - shape.depth)) as u16
}

// Whether a block has passes of its own: filter 3 reads two columns and rows where the others read eight.
fn by_pairs(shape: BlockShape) -> bool
    ensures { result ≡ eqb shape.filter 3 }
{
    shape.filter == 3
}

// Where an accepted block starts along one axis, and how it steps.
fn axis(start: Sixteenth, step: Sixteenth) -> Axis
    requires { (nat_abs start.0 ≤ 3000000) × (to_n step.0 ≤ 32) }
    ensures { (Diff start.0 result.start 3200000) × (result.step ≡ to_n step.0) }
{
    Axis {
        start: lift(start),
        step: natural(step.0),
    }
}

// The size of an accepted block, and its greatest sample.
fn area(shape: BlockShape) -> Area
    requires size { (Number.within 1 64 shape.w && Number.within 1 64 shape.h) ≡ true }
    requires depth { Block.kind shape ≡ true }
    ensures { (result.width ≡ shape.w) × (result.height ≡ shape.h) × (result.max ≡ 2 ^ shape.depth - 1) }
{
    Area {
        width: shape.w,
        height: shape.h,
        max: top(shape),
    }
}

// The plane of an accepted reference.
fn bands<'a>(geom: PlaneGeom, upper: &'a [u16], lower: &'a [u16]) -> Bands<'a>
    requires size { Plane.sized geom ≡ true }
    requires hold { Plane.fits (lent geom upper.now lower.now) ≡ true }
    ensures { seen result ≡ view (width_of geom) (height_of geom) geom.stride geom.upper_rows upper.now lower.now }
{
    Bands {
        upper,
        lower,
        width: natural(geom.width),
        height: natural(geom.height),
        stride: geom.stride,
        upper_rows: geom.upper_rows,
    }
}

// An accepted block from one reference, averaged with what stands in the output where a mean is asked for.
fn predict<'a>(
    shape: BlockShape,
    geom: PlaneGeom,
    from: Stepping,
    upper: &'a [u16],
    lower: &'a [u16],
    mean: bool,
    room: &mut [u16],
    out: &mut [u16],
    stride: usize,
)
    requires legal { Legal shape (ref (lent geom upper.now lower.now) from) }
    requires out_value { (Plane.holds shape.h stride shape.w (length out.old) ≡ true) × (8576 ≤ length room.old) }
    requires apart { mean ≡ true → shape.w ≤ stride }
    ensures { out.new ≡ paint out.old stride shape.w shape.h
        (written mean out.old stride (from_ref shape (ref (lent geom upper.now lower.now) from))) }
{
    let plane = bands(geom, upper, lower);
    let x = axis(from.start_x, from.step_x);
    let y = axis(from.start_y, from.step_y);
    let size = area(shape);
    if by_pairs(shape) {
        pair_block(plane, x, y, size, mean, room, out, stride);
        return;
    }
    block(plane, x, y, shape.filter, size, mean, room, out, stride)
}

// An accepted block from one reference.
pub fn predict_one<'a>(
    shape: BlockShape,
    geom: PlaneGeom,
    from: Stepping,
    upper: &'a [u16],
    lower: &'a [u16],
    room: &mut [u16],
    out: &mut [u16],
    stride: usize,
)
    requires legal { Legal shape (ref (lent geom upper.now lower.now) from) }
    requires out_value { (Plane.holds shape.h stride shape.w (length out.old) ≡ true) × (8576 ≤ length room.old) }
    ensures { out.new ≡ paint out.old stride shape.w shape.h
        (from_ref shape (ref (lent geom upper.now lower.now) from)) }
{
    predict(shape, geom, from, upper, lower, false, room, out, stride)
}

// The same, averaged with what stands in the output.
pub fn predict_two<'a>(
    shape: BlockShape,
    geom: PlaneGeom,
    from: Stepping,
    upper: &'a [u16],
    lower: &'a [u16],
    room: &mut [u16],
    out: &mut [u16],
    stride: usize,
)
    requires legal { Legal shape (ref (lent geom upper.now lower.now) from) }
    requires out_value { (Plane.holds shape.h stride shape.w (length out.old) ≡ true) × (8576 ≤ length room.old) × (shape.w ≤ stride) }
    ensures { out.new ≡ paint out.old stride shape.w shape.h
        (mean_with out.old stride (from_ref shape (ref (lent geom upper.now lower.now) from))) }
{
    predict(shape, geom, from, upper, lower, true, room, out, stride)
}

// A call already known to be accepted: list 0 into the output, then, where it is averaged, list 1 on top of it.
// For the whole prediction, which has judged its own call; it asks for the proof and gives no number.
#[inline(always)]
pub fn predict_accepted<'a>(
    shape: BlockShape,
    geom: PlaneGeom,
    from: Stepping,
    upper: &'a [u16],
    lower: &'a [u16],
    geom2: PlaneGeom,
    from2: Stepping,
    upper2: &'a [u16],
    lower2: &'a [u16],
    room: &mut [u16],
    out: &mut [u16],
    stride: usize,
)
    requires { Taken
        (call shape (ref (lent geom upper.now lower.now) from) (ref (lent geom2 upper2.now lower2.now) from2) stride)
        (length out.old) (length room.old) }
    ensures { out.new ≡ paint out.old stride shape.w shape.h
        (value (call shape (ref (lent geom upper.now lower.now) from)
        (ref (lent geom2 upper2.now lower2.now) from2) stride)) }
{
    predict_one(shape, geom, from, upper, lower, room, out, stride);
    if shape.average {
        predict_two(shape, geom2, from2, upper2, lower2, room, out, stride);
    }
}
