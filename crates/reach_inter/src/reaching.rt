// The columns and rows of a reference's plane that a whole prediction can read: where its list leads, and how far the block reaches from there.
ghost use Rattle.std.specs.Prelude.{◌≡◌};
ghost use Rattle.base.specs.Refused.{told};
ghost use Rattle.judgement.specs.Chain.{numbers};
ghost use Rattle.reach.specs.Rectangle.{reached};
ghost use Rattle.reach_inter.specs.InterReach as InterReach;
ghost use Rattle.reach_inter.specs.Chain as Chain;

use base::{Mv, Refusal, natural, within};
use judgement::{FrameGeom, InterPredArgs, Led, RefGeom, lead, not_refused_by, plane_geom};
use reach::{Span, readable};
use vectors::BlockGrid;

// The table's rows, from the answers of the calls on vectors for the list, and from the block's size.
#[tactic(auto, unfolding(base::specs::Answer::unless, crate::specs::Chain::refusal))]
fn allowed(args: InterPredArgs, led: Led) -> Result<(), Refusal>
    ensures { told result ≡ Chain.refusal args (numbers led) }
{
    let block = within(1, 64, args.w) & within(1, 64, args.h);
    Refusal::Block.unless(not_refused_by(Refusal::Block, led.select) & block)?;
    Refusal::Grid.unless(not_refused_by(Refusal::Grid, led.clamp))?;
    Refusal::Size.unless(not_refused_by(Refusal::Size, led.scale))?;
    Refusal::Start.unless(not_refused_by(Refusal::Start, led.scale))?;
    Refusal::Vector.unless(not_refused_by(Refusal::Vector, led.select))
}

// What a whole prediction can read of the plane of one list's reference, whose frame has this size.
pub fn inter_reach(
    args: InterPredArgs,
    grid: BlockGrid,
    frame: FrameGeom,
    mvs: [[Mv; 4]; 2],
    second: bool,
    ref_width: i32,
    ref_height: i32,
) -> Result<Span, Refusal>
    ensures { reached result ≡ InterReach.inter_reach args grid frame mvs second ref_width ref_height }
{
    let geom = RefGeom {
        frame_width: ref_width,
        frame_height: ref_height,
        stride: 0,
        upper_rows: 0,
    };
    let list = usize::from(second);
    let led = lead(args, grid, frame, geom, mvs[list]);
    allowed(args, led)?;
    let plane = plane_geom(args, frame, geom);
    let from = led.scale.unwrap_or_default();
    Ok(readable(
        args.w,
        args.h,
        natural(plane.width),
        natural(plane.height),
        from,
    ))
}
