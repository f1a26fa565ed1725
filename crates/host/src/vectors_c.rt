// The calls of crate vectors.
ghost use Rattle.std.specs.Prelude.{◌≡◌, cond, []};
ghost use Rattle.vectors.specs.Select.{select_mv};
ghost use Rattle.vectors.specs.Clamp.{clamp_mv};
ghost use Rattle.vectors.specs.Scale.{scale_mv};
ghost use Rattle.lists.specs.MvRef.{find_mv_refs};
ghost use Rattle.records.specs.Tables.{tables};
ghost use Rattle.records.specs.Seen.{seen, has_prev};
ghost use Rattle.host.specs.InC as InC;

use base::{Mv, PlaneMv};
use vectors::{
    BlockGrid, ClampedMv, LentTables, MvRefGeometry, MvRefs, Pairs, ScaleGeom, ScaledMv, SelectedMv,
};

// A block's vectors, sub-blocks 0..3 of each list. C takes no array by value, and a struct that crosses holds no nested one.
#[repr(C)]
#[derive(Clone, Copy)]
pub struct BlockMvs {
    pub list0: [Mv; 4],
    pub list1: [Mv; 4],
}

impl BlockMvs {
    // The two lists as the library takes them.
    pub(crate) fn lists(self) -> [[Mv; 4]; 2]
        ensures { result ≡ InC.lists self }
    {
        let BlockMvs { list0, list1 } = self;
        [list0, list1]
    }
}

// The tables of a search: those of the previous frame only where they are used.
pub(crate) fn lent<'a>(
    modes: &'a [u8],
    frames: &'a [i8],
    mvs: &'a [i16],
    subs: &'a [i16],
    prev_frames: &'a [i8],
    prev_mvs: &'a [i16],
    use_prev: bool,
) -> LentTables<'a>
    ensures tables { seen result ≡ tables modes.now frames.now mvs.now subs.now
        (cond use_prev prev_frames.now []) (cond use_prev prev_mvs.now []) }
    ensures used { has_prev result ≡ use_prev }
{
    let prev = if use_prev {
        Some(Pairs {
            frames: prev_frames,
            mvs: prev_mvs,
        })
    } else {
        None
    };
    LentTables {
        modes,
        frames,
        mvs,
        subs,
        prev,
    }
}

#[unsafe(no_mangle)]
pub extern "C" fn knobspindle_select_mv(
    of: BlockMvs,
    second: bool,
    plane: usize,
    size: u8,
    block: usize,
    sx: bool,
    sy: bool,
) -> SelectedMv
    ensures { result ≡ select_mv (InC.lists of) second plane size block sx sy }
{
    SelectedMv::from(vectors::select_mv(of.lists(), second, plane, size, block, sx, sy))
}

#[unsafe(no_mangle)]
pub extern "C" fn knobspindle_clamp_mv(
    grid: BlockGrid,
    mv: Mv,
    plane: usize,
    sx: bool,
    sy: bool,
) -> ClampedMv
    ensures { result ≡ clamp_mv grid mv plane sx sy }
{
    ClampedMv::from(vectors::clamp_mv(grid, mv, plane, sx, sy))
}

#[unsafe(no_mangle)]
pub extern "C" fn knobspindle_scale_mv(
    geom: ScaleGeom,
    plane: usize,
    x: i32,
    y: i32,
    mv: PlaneMv,
) -> ScaledMv
    ensures { result ≡ scale_mv geom plane x y mv }
{
    ScaledMv::from(vectors::scale_mv(geom, plane, x, y, mv))
}

// Of reference frames 0..3.
#[repr(C)]
#[derive(Clone, Copy)]
pub struct SignBias {
    pub frame: [bool; 4],
}

#[unsafe(no_mangle)]
pub extern "C" fn knobspindle_find_mv_refs(
    modes: &[u8],
    frames: &[i8],
    mvs: &[i16],
    subs: &[i16],
    prev_frames: &[i8],
    prev_mvs: &[i16],
    geometry: MvRefGeometry,
    target: i32,
    block: i32,
    sign_bias: SignBias,
    use_prev: bool,
) -> MvRefs
    ensures { result ≡ find_mv_refs
        (tables modes.now frames.now mvs.now subs.now prev_frames.now prev_mvs.now)
        geometry target block sign_bias.frame use_prev }
{
    let tables = lent(modes, frames, mvs, subs, prev_frames, prev_mvs, use_prev);
    MvRefs::from(vectors::find_mv_refs(tables, geometry, target, block, sign_bias.frame))
}
