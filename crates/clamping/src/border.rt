// The standard's 6.5.3 to 6.5.5: one axis of a candidate, held within a border around the frame.
ghost use Rattle.std.specs.Prelude.{◌≡◌, ◌≤◌, nat_abs};
ghost use Rattle.base.specs.Vector as Vector;
ghost use Rattle.clamping.specs.Border as Border;

use crate::axis::Axis;
use base::Eighth;

impl Axis {
    pub fn clamp_part(self, border: i32, v: Eighth) -> Eighth
        requires { nat_abs border ≤ 1248 }
        ensures { result ≡ Vector.eighth (Border.clamp_part border self.total self.length self.first v.0) }
    {
        Eighth(base::clip3(
            0 - 64 * self.first - border,
            64 * (self.total - self.length - self.first) + border,
            v.0,
        ))
    }
}
