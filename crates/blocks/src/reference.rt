// A reference of a block, as it is lent: the two bands of its plane with their numbers, and where the block starts in it and how it steps.
use base::Stepping;
use planes::PlaneGeom;

#[derive(Clone, Copy)]
pub struct Reference<'a> {
    pub geom: PlaneGeom,
    pub from: Stepping,
    pub upper: &'a [u16],
    pub lower: &'a [u16],
}
