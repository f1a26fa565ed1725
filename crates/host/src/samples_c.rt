// The calls of crate samples.
ghost use Rattle.std.specs.Prelude.{◌≡◌, ◌≤◌};
ghost use Rattle.host.specs.InC as InC;
ghost use Rattle.planes.specs.Plane.{lent};
ghost use Rattle.reach.specs.Rectangle.{block_reach};
ghost use Rattle.samples.specs.Call.{call, ref, Outcome};

use base::told;
use samples::{BlockShape, PlaneGeom, Reach, Reference, Stepping};

// Where a row stands: in the upper band (0) or the lower (1), from which sample on, and how many samples.
#[repr(C)]
#[derive(Clone, Copy)]
pub struct RowPlace {
    pub answer: u32,
    pub band: u32,
    pub first: usize,
    pub samples: usize,
}

#[tactic(auto, unfolding(crate::specs::InC::row_spot))]
fn row_spot(geom: PlaneGeom, y: usize) -> RowPlace
    requires { (y ≤ 65536) × (geom.stride ≤ 131072) }
    ensures { result ≡ InC.row_spot geom y }
{
    let k = geom.upper_rows;
    let samples = base::natural(geom.width);
    if y < k {
        return RowPlace {
            answer: 0,
            band: 0,
            first: y * geom.stride,
            samples,
        };
    }
    RowPlace {
        answer: 0,
        band: 1,
        first: (y - k) * geom.stride,
        samples,
    }
}

// No reference crosses the boundary, so C gets the place of the row.
#[unsafe(no_mangle)]
pub extern "C" fn knobspindle_row_read<'a>(
    upper: &'a [u16],
    lower: &'a [u16],
    geom: PlaneGeom,
    y: usize,
) -> RowPlace
    ensures { result ≡ InC.row_place (lent geom upper.now lower.now) y }
{
    match samples::row_read(upper, lower, geom, y) {
        Ok(_) => row_spot(geom, y),
        Err(refusal) => RowPlace {
            answer: refusal.number(),
            band: 0,
            first: 0,
            samples: 0,
        },
    }
}

#[unsafe(no_mangle)]
pub extern "C" fn knobspindle_block_inter_predict<'a>(
    shape: BlockShape,
    geom: PlaneGeom,
    from: Stepping,
    upper: &'a [u16],
    lower: &'a [u16],
    geom2: PlaneGeom,
    from2: Stepping,
    upper2: &'a [u16],
    lower2: &'a [u16],
    room: &mut [u16],
    out: &mut [u16],
    stride: usize,
) -> u32
    ensures { Outcome
        (call shape (ref (lent geom upper.now lower.now) from)
        (ref (lent geom2 upper2.now lower2.now) from2) stride)
        out.old room.old result out.new room.new }
{
    let one = Reference {
        geom,
        from,
        upper,
        lower,
    };
    let two = Reference {
        geom: geom2,
        from: from2,
        upper: upper2,
        lower: lower2,
    };
    told(samples::block_inter_predict(shape, one, two, room, out, stride))
}

#[unsafe(no_mangle)]
pub extern "C" fn knobspindle_block_reach(
    w: usize,
    h: usize,
    width: i32,
    height: i32,
    from: Stepping,
) -> Reach
    ensures { result ≡ block_reach w h width height from }
{
    Reach::from(samples::block_reach(w, h, width, height, from))
}
