// What a whole prediction is told before it writes, steps 2 to 4 of the standard's 8.5.2: its number, and where the block starts in each reference.
ghost use Rattle.std.specs.Prelude.{◌≡◌, pos};
ghost use Rattle.base.specs.Refused.{number, told};
ghost use Rattle.blocks.specs.Block as Block;
ghost use Rattle.judgement.specs.Whole as Whole;
ghost use Rattle.judgement.specs.Whole.{whole};
ghost use Rattle.judgement.specs.Seen.{seen, plane_seen};
ghost use Rattle.judgement.specs.Chain as Chain;
ghost use Rattle.judgement.specs.Chain.{Judgement, numbers};

use base::{Mv, PlaneMv, Refusal, Stepping, natural, within};
use planes::{PlaneGeom, holds, row_read};
use vectors::{BlockGrid, ScaleGeom, clamp_mv, scale_mv, select_mv};

// The block: its plane, its first sample there, its size in samples, the sub-block, the filter, the bit depth, and whether two lists are averaged.
#[repr(C)]
#[derive(Clone, Copy)]
pub struct InterPredArgs {
    pub plane: usize,
    pub x: i32,
    pub y: i32,
    pub w: usize,
    pub h: usize,
    pub block: usize,
    pub filter: usize,
    pub depth: u32,
    pub average: bool,
}

// The frame's size in luma samples, and the one subsampling pair of frame and references.
#[repr(C)]
#[derive(Clone, Copy)]
pub struct FrameGeom {
    pub width: i32,
    pub height: i32,
    pub subsampling_x: bool,
    pub subsampling_y: bool,
}

// A reference: its frame's size in luma samples; the distance between rows of the plane that is lent, and how many of them the upper band has.
#[repr(C)]
#[derive(Clone, Copy)]
pub struct RefGeom {
    pub frame_width: i32,
    pub frame_height: i32,
    pub stride: usize,
    pub upper_rows: usize,
}

// A reference as it is lent: its numbers, and its plane in two bands.
#[derive(Clone, Copy)]
pub struct RefSource<'a> {
    pub geom: RefGeom,
    pub upper: &'a [u16],
    pub lower: &'a [u16],
}

// The destination plane's size in samples; its stride is its width.
#[repr(C)]
#[derive(Clone, Copy)]
pub struct DestGeom {
    pub width: usize,
    pub height: usize,
}

// What the three calls on vectors gave for one list, each with what the one before it gave, or with no vector where that was refused.
#[derive(Clone, Copy)]
pub struct Led {
    pub select: Result<Mv, Refusal>,
    pub clamp: Result<PlaneMv, Refusal>,
    pub scale: Result<Stepping, Refusal>,
}

// What a call is told of both lists: whether it is accepted, and where the block starts in each reference.
#[derive(Clone, Copy)]
pub struct Judged {
    pub answer: Result<(), Refusal>,
    pub from: Stepping,
    pub from2: Stepping,
}

// Steps 2 to 4 of 8.5.2 for one list, whose vectors are handed down alone: the other list's are not judged here.
pub fn lead(
    args: InterPredArgs,
    grid: BlockGrid,
    frame: FrameGeom,
    geom: RefGeom,
    of: [Mv; 4],
) -> Led
    ensures { numbers result ≡ Chain.lead args grid frame geom of }
{
    let sx = frame.subsampling_x;
    let sy = frame.subsampling_y;
    let select = select_mv(
        [of, of],
        false,
        args.plane,
        grid.mi_size,
        args.block,
        sx,
        sy,
    );
    let clamp = clamp_mv(grid, select.unwrap_or_default(), args.plane, sx, sy);
    let sizes = ScaleGeom {
        ref_frame_width: geom.frame_width,
        ref_frame_height: geom.frame_height,
        frame_width: frame.width,
        frame_height: frame.height,
        subsampling_x: sx,
        subsampling_y: sy,
    };
    let scale = scale_mv(sizes, args.plane, args.x, args.y, clamp.unwrap_or_default());
    Led {
        select,
        clamp,
        scale,
    }
}

// "anything of list 1 only when averaging"
#[tactic(auto, unfolding(crate::specs::Chain::lead_also))]
fn lead_also(
    args: InterPredArgs,
    grid: BlockGrid,
    frame: FrameGeom,
    geom: RefGeom,
    of: [Mv; 4],
) -> Led
    ensures { numbers result ≡ Chain.lead_also args grid frame geom of }
{
    if args.average {
        lead(args, grid, frame, geom, of)
    } else {
        Led {
            select: Ok(Mv::default()),
            clamp: Ok(PlaneMv::default()),
            scale: Ok(Stepping::default()),
        }
    }
}

fn extent(plane: usize, sub: bool, frame: i32) -> i32
    ensures { result ≡ pos (Whole.extent plane sub frame) }
{
    let n = natural(frame);
    let side = if (plane != 0) & sub { n.div_ceil(2) } else { n };
    side as i32
}

pub fn plane_geom(args: InterPredArgs, frame: FrameGeom, geom: RefGeom) -> PlaneGeom
    ensures { result ≡ Whole.plane_geom args frame geom }
{
    let width = extent(args.plane, frame.subsampling_x, geom.frame_width);
    let height = extent(args.plane, frame.subsampling_y, geom.frame_height);
    PlaneGeom {
        width,
        height,
        stride: geom.stride,
        upper_rows: geom.upper_rows,
    }
}

// Whether row 0 can be read: where the plane's size is right, this asks of the bands what block prediction asks.
#[tactic(auto, unfolding(crate::specs::Chain::lends))]
fn lends<'a>(args: InterPredArgs, frame: FrameGeom, from: RefSource<'a>) -> bool
    ensures { result ≡ Chain.lends (plane_seen args frame from.entry) }
{
    let plane = plane_geom(args, frame, from.geom);
    row_read(from.upper, from.lower, plane, 0).is_ok()
}

fn lends_also<'a>(args: InterPredArgs, frame: FrameGeom, from: RefSource<'a>) -> bool
    ensures { result ≡ Block.also args.average (Chain.lends (plane_seen args frame from.entry)) }
{
    !args.average || lends(args, frame, from)
}

#[tactic(auto, unfolding(crate::specs::Whole::dest_fits, base::specs::Number::within))]
fn dest_fits(dest: DestGeom, n: usize) -> bool
    ensures { result ≡ Whole.dest_fits dest n }
{
    within(1, 65536, dest.width)
        && within(1, 65536, dest.height)
        && holds(dest.height, dest.width, dest.width, n)
}

#[tactic(auto, unfolding(crate::specs::Chain::kind))]
fn kind(filter: usize, depth: u32) -> bool
    ensures { result ≡ Chain.kind filter depth }
{
    (filter <= 3) & ((depth == 8) | (depth == 10) | (depth == 12))
}

// Whether a call below answered something else.
#[tactic(auto, unfolding(crate::specs::Chain::other_than))]
pub fn other_than(number: u32, answer: u32) -> bool
    ensures { result ≡ Chain.other_than number answer }
{
    answer != number
}

// Whether a call below was not refused by this row.
#[tactic(auto, unfolding(crate::specs::Chain::other_than))]
pub fn not_refused_by<T: Copy>(row: Refusal, answer: Result<T, Refusal>) -> bool
    ensures { result ≡ Chain.other_than (number row) (told answer) }
{
    match answer {
        Ok(_) => true,
        Err(refusal) => refusal != row,
    }
}

// The table's rows, from the answers of the calls on vectors and from what only this call is given.
#[tactic(auto, unfolding(base::specs::Answer::unless, crate::specs::Chain::refusal))]
fn allowed(args: InterPredArgs, one: Led, two: Led, lent: bool) -> Result<(), Refusal>
    ensures { told result ≡ Chain.refusal args (numbers one) (numbers two) lent }
{
    let block = within(1, 64, args.w) & within(1, 64, args.h);
    Refusal::Block.unless(not_refused_by(Refusal::Block, one.select) & block)?;
    Refusal::Grid.unless(not_refused_by(Refusal::Grid, one.clamp))?;
    Refusal::Filter.unless(kind(args.filter, args.depth))?;
    let size = not_refused_by(Refusal::Size, one.scale) & not_refused_by(Refusal::Size, two.scale);
    Refusal::Size.unless(size)?;
    Refusal::Start.unless(not_refused_by(Refusal::Start, one.scale))?;
    Refusal::Short.unless(lent)?;
    let vector = not_refused_by(Refusal::Vector, one.select)
        & not_refused_by(Refusal::Vector, two.select);
    Refusal::Vector.unless(vector)
}

// What a call is told before it writes: whether it is accepted and, where it is, where the block starts in each reference.
#[inline(always)]
pub fn judge<'a>(
    args: InterPredArgs,
    grid: BlockGrid,
    frame: FrameGeom,
    mvs: [[Mv; 4]; 2],
    one: RefSource<'a>,
    two: RefSource<'a>,
    dest: DestGeom,
    n: usize,
    m: usize,
) -> Judged
    ensures { Judgement (whole args grid frame mvs (seen one.entry) (seen two.entry) dest) n m result }
{
    let first = lead(args, grid, frame, one.geom, mvs[0]);
    let second = lead_also(args, grid, frame, two.geom, mvs[1]);
    let lent = lends(args, frame, one)
        & lends_also(args, frame, two)
        & dest_fits(dest, n)
        & (8576 <= m);
    let answer = allowed(args, first, second, lent);
    let from = first.scale.unwrap_or_default();
    let from2 = second.scale.unwrap_or_default();
    Judged {
        answer,
        from,
        from2,
    }
}
