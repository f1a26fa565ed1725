// The standard's 8.5.2.3: where in the reference one axis of a vector leads, and the step.
ghost use Rattle.std.specs.Prelude.{◌≡◌, true, ◌≤◌, ◌<◌, ◌*◌, nat_abs};
ghost use Rattle.base.specs.Vector as Vector;
ghost use Rattle.scaling.specs.Scale as Scale;

use base::{PlaneMv, Sixteenth};

fn sized(n: i32) -> bool
    ensures { result ≡ Scale.sized n }
{
    base::between(1, 65536, n)
}

// Taken in 64 bits, so that it can be asked of any sizes.
fn allowed(reference: i32, frame: i32) -> bool
    ensures { result ≡ Scale.allowed reference frame }
{
    let a = i64::from(reference);
    let b = i64::from(frame);
    (a <= 2 * b) & (b <= 16 * a)
}

pub fn usable(reference: i32, frame: i32) -> bool
    ensures { result ≡ Scale.usable reference frame }
{
    sized(reference) & sized(frame) & allowed(reference, frame)
}

pub fn placed(x: i32) -> bool
    ensures { result ≡ Scale.placed x }
{
    base::between(0, 65535, x)
}

pub fn is_legal16(v: PlaneMv) -> bool
    ensures { result ≡ Scale.legal16 v }
{
    base::between(-65534, 65534, v.row.0) & base::between(-65534, 65534, v.col.0)
}

fn scale_of(reference: usize, frame: usize) -> usize
    requires { (reference ≤ 65536) × ((1 ≤ frame) × (reference ≤ 2 * frame)) }
    ensures { (result ≡ Scale.scale_of reference frame) × (result ≤ 32768) }
{
    reference * 16384 / frame
}

fn luma_of(plane: usize, sub: bool, x: usize) -> usize
    requires { x ≤ 65535 }
    ensures { (result ≡ Scale.luma_of plane sub x) × (result ≤ 131070) }
{
    if plane == 0 {
        return x;
    }
    if sub { x * 2 } else { x }
}

fn frac_of(luma: usize, scale: usize) -> usize
    requires { (luma ≤ 131070) × (scale ≤ 32768) }
    ensures { (result ≡ Scale.frac_of luma scale) × (result < 16) }
{
    16 * luma * scale / 16384 % 16
}

// v is a component of a clamped vector.
fn start_of(x: usize, luma: usize, scale: usize, v: i32) -> Sixteenth
    requires place { (x ≤ 65535) × (luma ≤ 131070) }
    requires moved { (scale ≤ 32768) × (nat_abs v ≤ 65534) }
    ensures { result ≡ Vector.sixteenth (Scale.start_of x luma scale v) }
{
    let at = (x * scale / 16384 * 16) as i64;
    let frac = frac_of(luma, scale) as i64;
    let moved = (i64::from(v) * (scale as i64)) >> 14;
    Sixteenth((at + (moved + frac)) as i32)
}

pub fn start_axis(
    reference: i32,
    frame: i32,
    plane: usize,
    sub: bool,
    x: i32,
    v: Sixteenth,
) -> Sixteenth
    requires accepted { (Scale.usable reference frame ≡ true) × (Scale.placed x ≡ true) }
    requires vector { nat_abs v.0 ≤ 65534 }
    ensures { result ≡ Vector.sixteenth (Scale.start_axis reference frame plane sub x v.0) }
{
    let scale = scale_of(base::natural(reference), base::natural(frame));
    let at = base::natural(x);
    start_of(at, luma_of(plane, sub, at), scale, v.0)
}

pub fn step_axis(reference: i32, frame: i32) -> Sixteenth
    requires { Scale.usable reference frame ≡ true }
    ensures { result ≡ Vector.sixteenth (Scale.step_axis reference frame) }
{
    let scale = scale_of(base::natural(reference), base::natural(frame));
    Sixteenth((16 * scale / 16384) as i32)
}
