// A plane of a reference as block prediction sees it: the two bands beside the plane's own size.
ghost use Rattle.std.specs.Prelude.{◌≡◌};
ghost use Rattle.base.specs.Answer.{answer};
ghost use Rattle.base.specs.Refused.{told};
ghost use Rattle.blocks.specs.Referred.{referred};
ghost use Rattle.planes.specs.Plane.{geom, lent, read_rows, row_or, ReadOutcome};
ghost use Rattle.samples.specs.Call.{call, ref, Outcome};
ghost use Rattle.views.specs.Seen.{size_of, lent_by};

use base::Refusal;
use samples::{
    BlockShape, PlaneGeom, Reference, Stepping, block_inter_predict, row_or_empty, row_read,
};

// The bands, the plane's size in samples, the distance between rows, and how many rows the upper band has; the lower one has the rest.
#[derive(Clone, Copy)]
pub struct RefPlane<'a> {
    pub upper: &'a [u16],
    pub lower: &'a [u16],
    pub width: i32,
    pub height: i32,
    pub stride: usize,
    pub upper_rows: usize,
}

impl<'a> RefPlane<'a> {
    pub fn new(
        upper: &'a [u16],
        lower: &'a [u16],
        width: i32,
        height: i32,
        stride: usize,
        upper_rows: usize,
    ) -> RefPlane<'a>
        ensures { result ≡ record {
          upper = upper.entry;
          lower = lower.entry;
          width = width;
          height = height;
          stride = stride;
          upper_rows = upper_rows;
        } }
    {
        RefPlane {
            upper,
            lower,
            width,
            height,
            stride,
            upper_rows,
        }
    }

    pub fn size(self) -> PlaneGeom
        ensures { result ≡ size_of self.entry }
    {
        PlaneGeom {
            width: self.width,
            height: self.height,
            stride: self.stride,
            upper_rows: self.upper_rows,
        }
    }

    // This plane as a block's reference, which starts and steps like from.
    pub fn reference(self, from: Stepping) -> Reference<'a>
        ensures { referred result ≡ ref (lent_by self.entry) from }
    {
        Reference {
            geom: self.size(),
            from,
            upper: self.upper,
            lower: self.lower,
        }
    }

    // A row, a part of the band that holds it.
    pub fn row(self, y: usize) -> Result<&'a [u16], Refusal>
        ensures { ReadOutcome (size_of self.entry) self.entry.upper self.entry.lower y (told result) (row_or self.entry.upper result) }
    {
        row_read(self.upper, self.lower, self.size(), y)
    }

    // The same for who wants a part of the bands in any case: where the row is refused, an empty part of the upper band.
    pub fn row_or_empty(self, y: usize) -> &'a [u16]
        ensures { ReadOutcome (size_of self.entry) self.entry.upper self.entry.lower y (answer (read_rows (lent_by self.entry) y)) result }
    {
        row_or_empty(self.upper, self.lower, self.size(), y)
    }

    // A block from this plane, which is lent for both lists: where the shape says average, it is one with itself.
    pub fn predict(
        self,
        shape: BlockShape,
        from: Stepping,
        room: &mut [u16],
        out: &mut [u16],
        stride: usize,
    ) -> Result<(), Refusal>
        ensures { Outcome (call shape (ref (lent_by self.entry) from) (ref (lent_by self.entry) from) stride)
            out.old room.old (told result) out.new room.new }
    {
        self.predict_mean(self, shape, from, from, room, out, stride)
    }

    // A block from this plane and, where the shape says average, from the other one too.
    pub fn predict_mean(
        self,
        other: RefPlane<'a>,
        shape: BlockShape,
        from: Stepping,
        from2: Stepping,
        room: &mut [u16],
        out: &mut [u16],
        stride: usize,
    ) -> Result<(), Refusal>
        ensures { Outcome (call shape (ref (lent_by self.entry) from) (ref (lent_by other.entry) from2) stride)
            out.old room.old (told result) out.new room.new }
    {
        block_inter_predict(
            shape,
            self.reference(from),
            other.reference(from2),
            room,
            out,
            stride,
        )
    }
}

// The row read with plain parameters, through a view of its own.
pub fn read_row<'a>(
    upper: &'a [u16],
    lower: &'a [u16],
    width: i32,
    height: i32,
    stride: usize,
    upper_rows: usize,
    y: usize,
) -> Result<&'a [u16], Refusal>
    ensures { ReadOutcome (geom width height stride upper_rows) upper.entry lower.entry y (told result) (row_or upper.entry result) }
{
    RefPlane::new(upper, lower, width, height, stride, upper_rows).row(y)
}

// The same for who wants a part of the bands in any case: where the row is refused, an empty part of the upper band.
pub fn read_row_or_empty<'a>(
    upper: &'a [u16],
    lower: &'a [u16],
    width: i32,
    height: i32,
    stride: usize,
    upper_rows: usize,
    y: usize,
) -> &'a [u16]
    ensures { ReadOutcome (geom width height stride upper_rows) upper.entry lower.entry y
        (answer (read_rows (lent (geom width height stride upper_rows) upper.now lower.now) y)) result }
{
    RefPlane::new(upper, lower, width, height, stride, upper_rows).row_or_empty(y)
}

// Whether row y can be read.
pub fn row_answer<'a>(
    upper: &'a [u16],
    lower: &'a [u16],
    width: i32,
    height: i32,
    stride: usize,
    upper_rows: usize,
    y: usize,
) -> Result<(), Refusal>
    ensures { told result ≡ answer (read_rows (lent (geom width height stride upper_rows) upper.now lower.now) y) }
{
    read_row(upper, lower, width, height, stride, upper_rows, y)?;
    Ok(())
}
