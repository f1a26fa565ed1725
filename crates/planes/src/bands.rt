// A plane that its two bands hold: what block prediction reads, once a call is accepted.
ghost use Rattle.std.specs.Prelude.{◌≡◌, true, ◌<◌};
ghost use Rattle.planes.specs.Plane.{fits, view};

#[derive(Clone, Copy)]
pub struct Bands<'a> {
    pub upper: &'a [u16],
    pub lower: &'a [u16],
    pub width: usize,
    pub height: usize,
    pub stride: usize,
    pub upper_rows: usize,
    pub ghost wide: { 0 < width },
    pub ghost high: { 0 < height },
    pub ghost hold: { fits (view width height stride upper_rows upper.now lower.now) ≡ true },
}

impl<'a> Bands<'a> {
    ghost use Rattle.std.specs.Prelude.{length};
    ghost use Rattle.planes.specs.Seen.{seen};
    ghost use Rattle.planes.specs.Plane.{row_of};

    // Row y, a part of the band that holds it.
    pub fn row(self, y: usize) -> &'a [u16]
        requires { y < self.height }
        ensures { (result.now ≡ row_of (seen self.entry) y) × (length result.now ≡ self.entry.width) }
    {
        crate::plane::plane_row(
            self.upper,
            self.lower,
            self.width,
            self.height,
            self.stride,
            self.upper_rows,
            y,
        )
    }
}
