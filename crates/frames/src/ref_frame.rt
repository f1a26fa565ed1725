// A reference as the whole prediction sees it: one plane's two bands beside the size of the frame, from which the plane's own size follows.
ghost use Rattle.std.specs.Prelude.{◌≡◌};
ghost use Rattle.base.specs.Refused.{told};
ghost use Rattle.judgement.specs.Seen.{seen};
ghost use Rattle.prediction.specs.Predict.{whole, Outcome};
ghost use Rattle.frames.specs.Seen.{frame_source};

use base::{Mv, Refusal};
use judgement::{DestGeom, FrameGeom, InterPredArgs, RefGeom, RefSource};
use vectors::BlockGrid;

// The bands of the plane that is lent, the frame's size in luma samples, the distance between rows, and how many rows the upper band has.
#[derive(Clone, Copy)]
pub struct RefFrame<'a> {
    pub upper: &'a [u16],
    pub lower: &'a [u16],
    pub frame_width: i32,
    pub frame_height: i32,
    pub stride: usize,
    pub upper_rows: usize,
}

impl<'a> RefFrame<'a> {
    pub fn new(
        upper: &'a [u16],
        lower: &'a [u16],
        frame_width: i32,
        frame_height: i32,
        stride: usize,
        upper_rows: usize,
    ) -> RefFrame<'a>
        ensures { result ≡ record {
          upper = upper.entry;
          lower = lower.entry;
          frame_width = frame_width;
          frame_height = frame_height;
          stride = stride;
          upper_rows = upper_rows;
        } }
    {
        RefFrame {
            upper,
            lower,
            frame_width,
            frame_height,
            stride,
            upper_rows,
        }
    }

    // The reference as the whole prediction takes it.
    fn source(self) -> RefSource<'a>
        ensures { seen result ≡ frame_source self.entry }
    {
        let geom = RefGeom {
            frame_width: self.frame_width,
            frame_height: self.frame_height,
            stride: self.stride,
            upper_rows: self.upper_rows,
        };
        RefSource {
            geom,
            upper: self.upper,
            lower: self.lower,
        }
    }
}

// The whole prediction of a block, from a view for each list; the second is looked at only when averaging.
pub fn predict_inter<'a>(
    args: InterPredArgs,
    grid: BlockGrid,
    frame: FrameGeom,
    mvs: [[Mv; 4]; 2],
    one: RefFrame<'a>,
    two: RefFrame<'a>,
    room: &mut [u16],
    out: &mut [u16],
    dest: DestGeom,
) -> Result<(), Refusal>
    ensures { Outcome (whole args grid frame mvs (frame_source one.entry) (frame_source two.entry) dest)
        out.old room.old (told result) out.new room.new }
{
    prediction::predict_inter(
        args,
        grid,
        frame,
        mvs,
        one.source(),
        two.source(),
        room,
        out,
        dest,
    )
}
