// A reference plane lent in two bands: what is asked of it, and a row of it. Document 01, 'Lent tables'.
ghost use Rattle.std.specs.Prelude.{◌≡◌, true, ◌&&◌, ◌-◌, ◌*◌, ◌≤◌, ◌<◌, leb, pos, length, take, drop};
ghost use Rattle.base.specs.Answer.{answer};
ghost use Rattle.base.specs.Number as Number;
ghost use Rattle.planes.specs.Plane as Plane;
ghost use Rattle.planes.specs.Plane.{geom as sizes, lent, view, read_rows, row_of, row_at, sample_at, row_or, ReadOutcome};
ghost use Rattle.base.specs.Refused.{told};

use base::{Refusal, between, natural, within};

// Its size in samples, the distance between rows, and how many rows the upper band has; the lower one has the rest.
#[repr(C)]
#[derive(Clone, Copy)]
pub struct PlaneGeom {
    pub width: i32,
    pub height: i32,
    pub stride: usize,
    pub upper_rows: usize,
}

// "A band of k rows needs (k-1) x stride + W samples, or none if k = 0"
#[tactic(auto, unfolding(crate::specs::Plane::holds))]
pub fn holds(rows: usize, stride: usize, w: usize, len: usize) -> bool
    requires { (rows ≤ 2147483648) × (stride ≤ 131072) × (w ≤ 131072) }
    ensures { result ≡ Plane.holds rows stride w len }
{
    rows == 0 || (rows - 1) * stride + w <= len
}

#[tactic(auto, unfolding(crate::specs::Plane::sized))]
pub fn sized(geom: PlaneGeom) -> bool
    ensures { result ≡ Plane.sized geom }
{
    between(1, 65536, geom.width) & between(1, 65536, geom.height)
}

#[tactic(auto, using(base::proofs::Tests::within_both, base::proofs::Casts::small_nat), unfolding(crate::specs::Plane::fits))]
pub fn fits<'a>(upper: &'a [u16], lower: &'a [u16], geom: PlaneGeom) -> bool
    ensures { result ≡ Plane.fits (lent geom upper.now lower.now) }
{
    let w = natural(geom.width);
    let h = natural(geom.height);
    let k = geom.upper_rows;
    (within(w, 131072, geom.stride) & (k <= h))
        && (holds(k, geom.stride, w, upper.len()) & holds(h - k, geom.stride, w, lower.len()))
}

fn band_row<'a>(band: &'a [u16], rows: usize, stride: usize, w: usize, y: usize) -> &'a [u16]
    requires held { Plane.holds rows stride w (length band.now) ≡ true }
    requires inside { y < rows }
    ensures { (result.now ≡ take w (drop (y * stride) band.now)) × (length result.now ≡ w) × (result.ref_ptr ≡ sample_at band.entry (y * stride)) }
{
    let first = y * stride;
    &band[first..first + w]
}

// Row y, a part of the band that holds it.
pub fn plane_row<'a>(
    upper: &'a [u16],
    lower: &'a [u16],
    w: usize,
    h: usize,
    stride: usize,
    k: usize,
    y: usize,
) -> &'a [u16]
    requires lower_value { Plane.fits (view w h stride k upper.now lower.now) ≡ true }
    requires y_lt_h { y < h }
    ensures { (result.now ≡ row_of (view w h stride k upper.now lower.now) y) × (length result.now ≡ w)
        × (result.ref_ptr ≡ row_at (sizes (pos w) (pos h) stride k) upper.entry lower.entry y) }
{
    if y < k {
        return band_row(upper, k, stride, w, y);
    }
    band_row(lower, h - k, stride, w, y - k)
}

// Whether row y can be read, in the order of the table's rows.
#[tactic(auto, unfolding(base::specs::Answer::unless))]
fn readable<'a>(
    upper: &'a [u16],
    lower: &'a [u16],
    geom: PlaneGeom,
    y: usize,
) -> Result<(), Refusal>
    ensures { told result ≡ answer (read_rows (lent geom upper.now lower.now) y) }
{
    Refusal::Size.unless(sized(geom))?;
    Refusal::Start.unless(y < natural(geom.height))?;
    Refusal::Short.unless(fits(upper, lower, geom))
}

// A row of the plane, not a copy.
pub fn row_read<'a>(
    upper: &'a [u16],
    lower: &'a [u16],
    geom: PlaneGeom,
    y: usize,
) -> Result<&'a [u16], Refusal>
    ensures { ReadOutcome geom upper.entry lower.entry y (told result) (row_or upper.entry result) }
{
    readable(upper, lower, geom, y)?;
    Ok(plane_row(
        upper,
        lower,
        natural(geom.width),
        natural(geom.height),
        geom.stride,
        geom.upper_rows,
        y,
    ))
}

// The same for who wants a part of the bands in any case: where the row is refused, an empty part of the upper band.
pub fn row_or_empty<'a>(upper: &'a [u16], lower: &'a [u16], geom: PlaneGeom, y: usize) -> &'a [u16]
    ensures { ReadOutcome geom upper.entry lower.entry y (answer (read_rows (lent geom upper.now lower.now) y)) result }
{
    row_read(upper, lower, geom, y).unwrap_or(&upper[..0])
}
