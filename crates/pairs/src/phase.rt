// A phase of filter 3.
ghost use Rattle.std.specs.Prelude.{◌≡◌, ◌%◌, ◌<◌};

// How far a position stands past a whole one, in sixteenths.
#[derive(Clone, Copy)]
pub struct Phase {
    pub sixteenths: u16,
    pub ghost small: { sixteenths < 16 },
}

impl Phase {
    pub fn of(q: usize) -> Phase
        ensures { result.sixteenths ≡ q % 16 }
    {
        Phase {
            sixteenths: (q % 16) as u16,
        }
    }
}
