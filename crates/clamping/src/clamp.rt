// The standard's 8.5.2.2: one axis of a vector in the plane's own units, held near the frame.
ghost use Rattle.std.specs.Prelude.{◌≡◌, true, ◌≤◌, ◌<◌, nat_abs};
ghost use Rattle.base.specs.Vector as Vector;
ghost use Rattle.clamping.specs.Clamp as Clamp;

use crate::axis::Axis;
use base::{Eighth, Sixteenth};

pub fn shift(plane: usize, sub: bool) -> u32
    ensures { (result ≡ Clamp.shift plane sub) × (result < 2) }
{
    if plane == 0 {
        return 0;
    }
    if sub { 1 } else { 0 }
}

fn edge(cells: i32, s: u32) -> i32
    requires { (nat_abs cells ≤ 16392) × (s < 2) }
    ensures { (result ≡ Clamp.edge cells s) × (nat_abs result ≤ 2098176) }
{
    (cells * 8 * 16) >> s
}

fn margin(n: i32, s: u32) -> i32
    requires { (nat_abs n ≤ 8) × (s < 2) }
    ensures { (result ≡ Clamp.margin n s) × (nat_abs result ≤ 1088) }
{
    (4 + ((n * 8) >> s)) * 16
}

impl Axis {
    // The only step from eighths to sixteenths.
    pub fn clamp(self, v: Eighth, s: u32) -> Sixteenth
        requires shifted { s < 2 }
        requires legal { Vector.legal v ≡ true }
        ensures { result ≡ Vector.sixteenth (Clamp.clamp_axis self.total self.length self.first v.0 s) }
    {
        let near = edge(0 - self.first, s);
        let far = edge(self.total - self.length - self.first, s);
        let room = margin(self.length, s);
        let low = near - room;
        let high = far + (room - 16);
        let x = (2 * v.0) >> s;
        Sixteenth(base::clip3(low, high, x))
    }
}

pub fn on_axis(total: i32, first: i32) -> bool
    ensures { result ≡ Clamp.on_axis total first }
{
    base::between(1, 8192, total) & (0 <= first) & (first < total)
}
