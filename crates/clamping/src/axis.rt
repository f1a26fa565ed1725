// One axis of a block in its frame.
ghost use Rattle.std.specs.Prelude.{◌≤◌, nat_abs};

// In cells of 8 by 8 luma samples: the frame's length, the block's, and the block's first cell.
#[derive(Clone, Copy)]
pub struct Axis {
    pub total: i32,
    pub length: i32,
    pub first: i32,
    pub ghost total_bound: { nat_abs total ≤ 8192 },
    pub ghost length_bound: { nat_abs length ≤ 8 },
    pub ghost first_bound: { nat_abs first ≤ 8192 },
}
