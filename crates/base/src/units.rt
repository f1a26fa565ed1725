// Document 01, 'List of forms by place': "a value in eighths must never reach a place that counts sixteenths except through the clamp". So
// the two are two types, also inside vectors, and clamp_mv of crate vectors alone leads from the first to the second.
ghost use Rattle.std.specs.Prelude.{◌≡◌};
ghost use Rattle.base.specs.Vector as Vector;

// Eighths of a luma sample: what candidate vectors count.
#[repr(C)]
#[derive(Clone, Copy, Debug, Default, PartialEq, Eq)]
pub struct Eighth(pub i32);

// Sixteenths of a plane sample: what clamped vectors, starts and steps count.
#[repr(C)]
#[derive(Clone, Copy, Debug, Default, PartialEq, Eq)]
pub struct Sixteenth(pub i32);

// A candidate, or a block's vector.
#[repr(C)]
#[derive(Clone, Copy, Debug, Default, PartialEq, Eq)]
pub struct Mv {
    pub row: Eighth,
    pub col: Eighth,
}

// A clamped vector.
#[repr(C)]
#[derive(Clone, Copy, Debug, Default, PartialEq, Eq)]
pub struct PlaneMv {
    pub row: Sixteenth,
    pub col: Sixteenth,
}

// Where a block starts in a reference's plane and how it steps from sample to sample.
#[repr(C)]
#[derive(Clone, Copy, Debug, Default, PartialEq, Eq)]
pub struct Stepping {
    pub start_x: Sixteenth,
    pub start_y: Sixteenth,
    pub step_x: Sixteenth,
    pub step_y: Sixteenth,
}

// Row 9 of document 01: a component in -32767..32767.
pub fn is_legal(x: Eighth) -> bool
    ensures { result ≡ Vector.legal x }
{
    crate::number::between(-32767, 32767, x.0)
}

pub fn is_legal_mv(v: Mv) -> bool
    ensures { result ≡ Vector.legal_mv v }
{
    is_legal(v.row) & is_legal(v.col)
}
