// The standard's 8.5.2.4: a block predicted from one reference, or from two and averaged.
ghost use Rattle.std.specs.Prelude.{◌≡◌, ◌&&◌, ◌≤◌, leb, length};
ghost use Rattle.base.specs.Number as Number;
ghost use Rattle.base.specs.Refused.{told};
ghost use Rattle.blocks.specs.Referred.{referred};
ghost use Rattle.planes.specs.Plane as Plane;
ghost use Rattle.samples.specs.Call as Call;
ghost use Rattle.samples.specs.Call.{call, Outcome};

use base::{Refusal, within};
use blocks::{BlockShape, Reference, predict_accepted};
use planes::{fits, holds, sized};
use reach::starts;

#[tactic(auto, unfolding(crate::specs::Call::kind))]
fn kind(shape: BlockShape) -> bool
    ensures { result ≡ Call.kind shape }
{
    (shape.filter <= 3) & ((shape.depth == 8) | (shape.depth == 10) | (shape.depth == 12))
}

// The output of n numbers and the room of m, for a block of at most 64 rows.
#[tactic(auto, using(base::proofs::Tests::within_both))]
fn out_fits(w: usize, h: usize, stride: usize, n: usize, m: usize) -> bool
    requires { h ≤ 64 }
    ensures { result ≡ (Number.within w 131072 stride && Plane.holds h stride w n && leb 8576 m) }
{
    within(w, 131072, stride) && holds(h, stride, w, n) & (8576 <= m)
}

// Whether the call is accepted with an output of n samples and a room of m, in the order of the table's rows. List 1 is looked at only when averaging.
#[tactic(auto, unfolding(base::specs::Answer::unless, base::specs::Number::within, crate::specs::Call::number_of, crate::specs::Call::out_fits))]
#[inline(always)]
fn predictable<'a>(
    shape: BlockShape,
    one: Reference<'a>,
    two: Reference<'a>,
    stride: usize,
    n: usize,
    m: usize,
) -> Result<(), Refusal>
    ensures { told result ≡ Call.number_of (call shape (referred one.entry) (referred two.entry) stride) n m }
{
    Refusal::Block.unless(within(1, 64, shape.w) & within(1, 64, shape.h))?;
    Refusal::Filter.unless(kind(shape))?;
    // Both lists' tests stand apart: among list 0's own, list 1's numbers are laid out for a call that does not average, too.
    if shape.average {
        Refusal::Size.unless(sized(one.geom) && sized(two.geom))?;
        Refusal::Start.unless(starts(one.from) && starts(two.from))?;
        Refusal::Short.unless(fits(one.upper, one.lower, one.geom))?;
        let both = fits(two.upper, two.lower, two.geom);
        return Refusal::Short.unless(both && out_fits(shape.w, shape.h, stride, n, m));
    }
    Refusal::Size.unless(sized(one.geom))?;
    Refusal::Start.unless(starts(one.from))?;
    Refusal::Short.unless(fits(one.upper, one.lower, one.geom))?;
    Refusal::Short.unless(out_fits(shape.w, shape.h, stride, n, m))
}

// The block's samples into the output. List 1 is looked at only when averaging.
#[inline(always)]
pub fn block_inter_predict<'a>(
    shape: BlockShape,
    one: Reference<'a>,
    two: Reference<'a>,
    room: &mut [u16],
    out: &mut [u16],
    stride: usize,
) -> Result<(), Refusal>
    ensures { Outcome (call shape (referred one.entry) (referred two.entry) stride) out.old room.old (told result) out.new room.new }
{
    predictable(shape, one, two, stride, out.len(), room.len())?;
    predict_accepted(
        shape, one.geom, one.from, one.upper, one.lower, two.geom, two.from, two.upper, two.lower,
        room, out, stride,
    );
    Ok(())
}
