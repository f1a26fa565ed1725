// Block sizes: the standard's num_8x8_blocks_high_lookup and num_8x8_blocks_wide_lookup, in cells of 8 by 8 luma samples.
ghost use Rattle.std.specs.Prelude.{◌≡◌, ◌≤◌, nat_abs};
ghost use Rattle.clamping.specs.Sizes as Sizes;

const HIGH: [i32; 13] = [1, 1, 1, 1, 2, 1, 2, 4, 2, 4, 8, 4, 8];

const WIDE: [i32; 13] = [1, 1, 1, 1, 1, 2, 2, 2, 4, 4, 4, 8, 8];

pub fn num_8x8_high(size: usize) -> i32
    requires { size ≤ 12 }
    ensures { (result ≡ Sizes.high size) × (nat_abs result ≤ 8) }
{
    HIGH[size]
}

pub fn num_8x8_wide(size: usize) -> i32
    requires { size ≤ 12 }
    ensures { (result ≡ Sizes.wide size) × (nat_abs result ≤ 8) }
{
    WIDE[size]
}
