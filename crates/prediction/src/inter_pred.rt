// The standard's 8.5.2: a block's vectors selected, clamped and scaled, its samples predicted and averaged, the part inside the destination written.
ghost use Rattle.std.specs.Prelude.{◌≡◌, ◌≤◌, length};
ghost use Rattle.base.specs.Position.{to_n};
ghost use Rattle.base.specs.Refused.{told};
ghost use Rattle.blocks.specs.Referred.{referred};
ghost use Rattle.judgement.specs.Seen.{seen, plane_seen};
ghost use Rattle.samples.specs.Call.{call, ref};
ghost use Rattle.prediction.specs.Predict as Predict;
ghost use Rattle.prediction.specs.Predict.{whole, Outcome};
ghost use Rattle.prediction.specs.Chain.{paint_from, Ready};

use base::{Mv, Refusal, natural};
use blocks::predict_accepted;
use judgement::{DestGeom, FrameGeom, InterPredArgs, RefSource, judge, plane_geom};
use samples::{BlockShape, Reference, Stepping};
use vectors::BlockGrid;

// Of n samples from place at on, those before the end.
fn count_inside(at: i32, n: usize, end: usize) -> usize
    ensures { result ≡ Predict.count_inside at n end }
{
    n.min(end.saturating_sub(natural(at)))
}

fn shape_in(args: InterPredArgs, dest: DestGeom) -> BlockShape
    ensures { result ≡ Predict.shape_in args dest }
{
    let w = count_inside(args.x, args.w, dest.width);
    let h = count_inside(args.y, args.h, dest.height);
    BlockShape {
        w,
        h,
        filter: args.filter,
        depth: args.depth,
        average: args.average,
    }
}

// The place of the block's first sample, which may be beyond the last one.
fn first_in(args: InterPredArgs, dest: DestGeom) -> usize
    requires { (to_n args.y ≤ 65535) × (dest.width ≤ 65536) }
    ensures { result ≡ Predict.first_in args dest }
{
    natural(args.y) * dest.width + natural(args.x)
}

// What block prediction asks of a reference: the size of the plane that is lent, and where the block starts in it.
fn referred_in<'a>(
    args: InterPredArgs,
    frame: FrameGeom,
    source: RefSource<'a>,
    from: Stepping,
) -> Reference<'a>
    ensures { referred result ≡ ref (plane_seen args frame source.entry) from }
{
    let geom = plane_geom(args, frame, source.geom);
    Reference {
        geom,
        from,
        upper: source.upper,
        lower: source.lower,
    }
}

// The part inside the destination, which may be nothing, painted from place i on.
fn predict<'a>(
    shape: BlockShape,
    one: Reference<'a>,
    two: Reference<'a>,
    room: &mut [u16],
    out: &mut [u16],
    i: usize,
    stride: usize,
)
    requires { Ready (call shape (referred one) (referred two) stride) i (length out.old) (length room.old) }
    ensures { out.new ≡ paint_from i (call shape (referred one.entry) (referred two.entry) stride) out.old }
{
    if (shape.w == 0) | (shape.h == 0) {
        return;
    }
    predict_accepted(
        shape,
        one.geom,
        one.from,
        one.upper,
        one.lower,
        two.geom,
        two.from,
        two.upper,
        two.lower,
        room,
        &mut out[i..],
        stride,
    );
}

// The whole prediction of a block into the destination. List 1 is looked at only when averaging.
#[inline(always)]
pub fn predict_inter<'a>(
    args: InterPredArgs,
    grid: BlockGrid,
    frame: FrameGeom,
    mvs: [[Mv; 4]; 2],
    one: RefSource<'a>,
    two: RefSource<'a>,
    room: &mut [u16],
    out: &mut [u16],
    dest: DestGeom,
) -> Result<(), Refusal>
    ensures { Outcome (whole args grid frame mvs (seen one.entry) (seen two.entry) dest) out.old room.old (told result) out.new room.new }
{
    let judged = judge(
        args,
        grid,
        frame,
        mvs,
        one,
        two,
        dest,
        out.len(),
        room.len(),
    );
    judged.answer?;
    let shape = shape_in(args, dest);
    let first = referred_in(args, frame, one, judged.from);
    let second = referred_in(args, frame, two, judged.from2);
    let i = first_in(args, dest);
    predict(shape, first, second, room, out, i, dest.width);
    Ok(())
}
