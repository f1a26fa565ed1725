// The standard's 8.5.2.1 to 8.5.2.3: which vector a plane takes, held near the frame, and where in the reference it leads.
ghost use Rattle.std.specs.Prelude.{◌≡◌, ◌&&◌};
ghost use Rattle.base.specs.Answer.{answer};
ghost use Rattle.base.specs.Refused.{told};
ghost use Rattle.vectors.specs.Select as Select;
ghost use Rattle.vectors.specs.Clamp as Clamp;
ghost use Rattle.vectors.specs.Scale as Scale;

use base::{Mv, PlaneMv, Refusal, Sixteenth, Stepping};
use clamping::Axis;

// ---- selection, 8.5.2.1

// A selected vector as C takes it: a refusal's number beside zeros.
#[repr(C)]
#[derive(Clone, Copy, Debug, PartialEq, Eq)]
pub struct SelectedMv {
    pub answer: u32,
    pub mv: Mv,
}

impl From<Result<Mv, Refusal>> for SelectedMv {
    ghost from_gives = { λ r s. s ≡ Select.selected r };

    fn from(found: Result<Mv, Refusal>) -> SelectedMv {
        match found {
            Ok(mv) => SelectedMv { answer: 0, mv },
            Err(refusal) => SelectedMv {
                answer: refusal.number(),
                mv: Mv::default(),
            },
        }
    }
}

// Rows 1 and 9.
fn select_allowed(
    mvs: [[Mv; 4]; 2],
    plane: usize,
    size: u8,
    block: usize,
    sx: bool,
    sy: bool,
) -> Result<(), Refusal>
    ensures { told result ≡ answer (Select.select_rows mvs plane size block sx sy) }
{
    let partner = selection::partnered(plane, size, block, sx, sy);
    Refusal::Block.unless((size <= 12) & (block <= 3) & (plane <= 2) & partner)?;
    Refusal::Vector.unless(selection::is_legal_block(mvs))
}

// The vector that a plane of a block takes from a list.
pub fn select_mv(
    mvs: [[Mv; 4]; 2],
    second: bool,
    plane: usize,
    size: u8,
    block: usize,
    sx: bool,
    sy: bool,
) -> Result<Mv, Refusal>
    ensures { Select.selected result ≡ Select.select_mv mvs second plane size block sx sy }
{
    select_allowed(mvs, plane, size, block, sx, sy)?;
    let list = usize::from(second);
    let vector = selection::chosen(mvs, list, plane, size, block, sx, sy);
    Ok(vector)
}

// ---- clamping, 8.5.2.2

// Where a block stands, in cells of 8 by 8 luma samples.
#[repr(C)]
#[derive(Clone, Copy, Debug, PartialEq, Eq)]
pub struct BlockGrid {
    pub mi_row: i32,
    pub mi_col: i32,
    pub mi_rows: i32,
    pub mi_cols: i32,
    pub mi_size: u8,
}

impl BlockGrid {
    // The block's first cell lies in a frame of an allowed size.
    fn is_inside(self) -> bool
        ensures { result ≡ Clamp.on_axis self.mi_rows self.mi_row && Clamp.on_axis self.mi_cols self.mi_col }
    {
        let down = clamping::on_axis(self.mi_rows, self.mi_row);
        let across = clamping::on_axis(self.mi_cols, self.mi_col);
        down & across
    }
}

// A clamped vector as C takes it: a refusal's number beside zeros.
#[repr(C)]
#[derive(Clone, Copy, Debug, PartialEq, Eq)]
pub struct ClampedMv {
    pub answer: u32,
    pub mv: PlaneMv,
}

impl From<Result<PlaneMv, Refusal>> for ClampedMv {
    ghost from_gives = { λ r c. c ≡ Clamp.clamped r };

    fn from(held: Result<PlaneMv, Refusal>) -> ClampedMv {
        match held {
            Ok(mv) => ClampedMv { answer: 0, mv },
            Err(refusal) => ClampedMv {
                answer: refusal.number(),
                mv: PlaneMv::default(),
            },
        }
    }
}

// Rows 1, 2 and 9.
fn clamp_allowed(grid: BlockGrid, v: Mv, plane: usize) -> Result<(), Refusal>
    ensures { told result ≡ answer (Clamp.clamp_rows grid v plane) }
{
    Refusal::Block.unless((grid.mi_size <= 12) & (plane <= 2))?;
    Refusal::Grid.unless(grid.is_inside())?;
    Refusal::Vector.unless(base::is_legal_mv(v))
}

// The vector in the plane's own units, held near the frame.
pub fn clamp_mv(
    grid: BlockGrid,
    mv: Mv,
    plane: usize,
    sx: bool,
    sy: bool,
) -> Result<PlaneMv, Refusal>
    ensures { Clamp.clamped result ≡ Clamp.clamp_mv grid mv plane sx sy }
{
    clamp_allowed(grid, mv, plane)?;
    let size = usize::from(grid.mi_size);
    let down = Axis {
        total: grid.mi_rows,
        length: clamping::num_8x8_high(size),
        first: grid.mi_row,
    };
    let across = Axis {
        total: grid.mi_cols,
        length: clamping::num_8x8_wide(size),
        first: grid.mi_col,
    };
    let row = down.clamp(mv.row, clamping::shift(plane, sy));
    let col = across.clamp(mv.col, clamping::shift(plane, sx));
    Ok(PlaneMv { row, col })
}

// ---- scaling, 8.5.2.3

// The sizes of a reference and of the frame in luma samples, and the stream's sub.
#[repr(C)]
#[derive(Clone, Copy, Debug, PartialEq, Eq)]
pub struct ScaleGeom {
    pub ref_frame_width: i32,
    pub ref_frame_height: i32,
    pub frame_width: i32,
    pub frame_height: i32,
    pub subsampling_x: bool,
    pub subsampling_y: bool,
}

impl ScaleGeom {
    // The reference may serve a frame of this size.
    fn is_usable(self) -> bool
        ensures { result
            ≡ Scale.usable self.ref_frame_width self.frame_width && Scale.usable self.ref_frame_height self.frame_height }
    {
        let across = scaling::usable(self.ref_frame_width, self.frame_width);
        let down = scaling::usable(self.ref_frame_height, self.frame_height);
        across & down
    }
}

// A scaled vector as C takes it: a refusal's number beside zeros.
#[repr(C)]
#[derive(Clone, Copy, Debug, PartialEq, Eq)]
pub struct ScaledMv {
    pub answer: u32,
    pub start_x: Sixteenth,
    pub start_y: Sixteenth,
    pub step_x: Sixteenth,
    pub step_y: Sixteenth,
}

impl From<Result<Stepping, Refusal>> for ScaledMv {
    ghost from_gives = { λ r s. s ≡ Scale.scaled r };

    fn from(led: Result<Stepping, Refusal>) -> ScaledMv {
        let (answer, at) = match led {
            Ok(at) => (0, at),
            Err(refusal) => (refusal.number(), Stepping::default()),
        };
        ScaledMv {
            answer,
            start_x: at.start_x,
            start_y: at.start_y,
            step_x: at.step_x,
            step_y: at.step_y,
        }
    }
}

// Rows 1, 5, 6 and 9.
fn scale_allowed(geom: ScaleGeom, plane: usize, x: i32, y: i32, v: PlaneMv) -> Result<(), Refusal>
    ensures { told result ≡ answer (Scale.scale_rows geom plane x y v) }
{
    Refusal::Block.unless(plane <= 2)?;
    Refusal::Size.unless(geom.is_usable())?;
    Refusal::Start.unless(scaling::placed(x) & scaling::placed(y))?;
    Refusal::Vector.unless(scaling::is_legal16(v))
}

// Where a block starts in the reference's plane, and the step from sample to sample.
pub fn scale_mv(
    geom: ScaleGeom,
    plane: usize,
    x: i32,
    y: i32,
    mv: PlaneMv,
) -> Result<Stepping, Refusal>
    ensures { Scale.scaled result ≡ Scale.scale_mv geom plane x y mv }
{
    scale_allowed(geom, plane, x, y, mv)?;
    let start_x = scaling::start_axis(
        geom.ref_frame_width,
        geom.frame_width,
        plane,
        geom.subsampling_x,
        x,
        mv.col,
    );
    let start_y = scaling::start_axis(
        geom.ref_frame_height,
        geom.frame_height,
        plane,
        geom.subsampling_y,
        y,
        mv.row,
    );
    let step_x = scaling::step_axis(geom.ref_frame_width, geom.frame_width);
    let step_y = scaling::step_axis(geom.ref_frame_height, geom.frame_height);
    Ok(Stepping {
        start_x,
        start_y,
        step_x,
        step_y,
    })
}
