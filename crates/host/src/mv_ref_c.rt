// The sub-8x8 list and the best vectors of crate vectors.
ghost use Rattle.std.specs.Prelude.{◌≡◌};
ghost use Rattle.records.specs.Tables.{tables};
ghost use Rattle.lists.specs.MvRef.{append_mvs, best_mvs};

use crate::vectors_c::{SignBias, lent};
use base::Mv;
use vectors::{MvPair, MvRefGeometry};

// The vectors of a block's four sub-blocks in one list.
#[repr(C)]
#[derive(Clone, Copy)]
pub struct SubMvs {
    pub mvs: [Mv; 4],
}

#[unsafe(no_mangle)]
pub extern "C" fn knobspindle_append_sub8x8_mvs(
    modes: &[u8],
    frames: &[i8],
    mvs: &[i16],
    subs: &[i16],
    prev_frames: &[i8],
    prev_mvs: &[i16],
    geometry: MvRefGeometry,
    block: usize,
    target: i32,
    own: SubMvs,
    sign_bias: SignBias,
    use_prev: bool,
) -> MvPair
    ensures { result ≡ append_mvs
        (tables modes.now frames.now mvs.now subs.now prev_frames.now prev_mvs.now)
        geometry target block own.mvs sign_bias.frame use_prev }
{
    let tables = lent(modes, frames, mvs, subs, prev_frames, prev_mvs, use_prev);
    let found = vectors::append_sub8x8_mvs(
        tables,
        geometry,
        block,
        target,
        own.mvs,
        sign_bias.frame,
    );
    MvPair::from(found)
}

#[unsafe(no_mangle)]
pub extern "C" fn knobspindle_find_best_ref_mvs(
    geometry: MvRefGeometry,
    first: Mv,
    second: Mv,
    allowed: bool,
) -> MvPair
    ensures { result ≡ best_mvs geometry first second allowed }
{
    MvPair::from(vectors::find_best_ref_mvs(geometry, first, second, allowed))
}
