// The calls of crate prediction.
ghost use Rattle.std.specs.Prelude.{◌≡◌};
ghost use Rattle.host.specs.InC as InC;
ghost use Rattle.reach_inter.specs.InterReach.{inter_reach};
ghost use Rattle.prediction.specs.Predict.{source, whole, Outcome};

use crate::vectors_c::BlockMvs;
use base::told;
use judgement::{DestGeom, FrameGeom, InterPredArgs, RefGeom, RefSource};
use samples::Reach;
use vectors::BlockGrid;

#[unsafe(no_mangle)]
pub extern "C" fn knobspindle_predict_inter<'a>(
    args: InterPredArgs,
    grid: BlockGrid,
    frame: FrameGeom,
    mvs: BlockMvs,
    geom: RefGeom,
    upper: &'a [u16],
    lower: &'a [u16],
    geom2: RefGeom,
    upper2: &'a [u16],
    lower2: &'a [u16],
    room: &mut [u16],
    out: &mut [u16],
    dest: DestGeom,
) -> u32
    ensures { Outcome
        (whole args grid frame (InC.lists mvs) (source geom upper.now lower.now)
        (source geom2 upper2.now lower2.now) dest)
        out.old room.old result out.new room.new }
{
    let one = RefSource { geom, upper, lower };
    let two = RefSource {
        geom: geom2,
        upper: upper2,
        lower: lower2,
    };
    told(prediction::predict_inter(args, grid, frame, mvs.lists(), one, two, room, out, dest))
}

#[unsafe(no_mangle)]
pub extern "C" fn knobspindle_inter_reach(
    args: InterPredArgs,
    grid: BlockGrid,
    frame: FrameGeom,
    mvs: BlockMvs,
    second: bool,
    ref_width: i32,
    ref_height: i32,
) -> Reach
    ensures { result ≡ inter_reach args grid frame (InC.lists mvs) second ref_width ref_height }
{
    let of = mvs.lists();
    Reach::from(prediction::inter_reach(args, grid, frame, of, second, ref_width, ref_height))
}
