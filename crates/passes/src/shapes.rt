// How a block lies: where it starts and how it steps along an axis, and its size.
ghost use Rattle.std.specs.Prelude.{◌≤◌, ◌<◌};

// The start along one axis, lifted by 3,200,000, and the step, both in sixteenths of a sample.
#[derive(Clone, Copy)]
pub struct Axis {
    pub start: usize,
    pub step: usize,
    pub ghost near: { start ≤ 6200000 },
    pub ghost slow: { step ≤ 32 },
}

// So many columns and rows of results, and the largest that a result may be.
#[derive(Clone, Copy)]
pub struct Area {
    pub width: usize,
    pub height: usize,
    pub max: u16,
    pub ghost wide: { 0 < width },
    pub ghost narrow: { width ≤ 64 },
    pub ghost high: { 0 < height },
    pub ghost low: { height ≤ 134 },
    pub ghost deep: { max ≤ 4095 },
}
