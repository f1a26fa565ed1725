// The standard's 8.5.2.1: which vector a plane takes.
ghost use Rattle.std.specs.Prelude.{◌≡◌, true, ◌≤◌, ◌<◌, ℕ, nat_abs, get_or};
ghost use Rattle.base.specs.Vector as Vector;
ghost use Rattle.selection.specs.BlockMvs as BlockMvs;
ghost use Rattle.selection.specs.Select as Select;

use base::{Eighth, Mv};

// round_mv_comp_q2 and round_mv_comp_q4: one component of the mean of N vectors, by its sum over them.
fn rounded<const N: usize>(sum: i32) -> Eighth
    requires few { (1 ≤ N) × (N ≤ 4) }
    requires small { nat_abs sum ≤ 131068 }
    ensures { result ≡ Vector.eighth (Select.rounded N sum) }
{
    let n = N as i32;
    let half = n / 2;
    if sum < 0 {
        Eighth((sum - half) / n)
    } else {
        Eighth((sum + half) / n)
    }
}

// The mean of N vectors.
fn mean<const N: usize>(of: [Mv; N]) -> Mv
    requires few { (1 ≤ N) × (N ≤ 4) }
    requires legal { (k : ℕ) → k < N → Vector.legal_mv (get_or of k Vector.zero_mv) ≡ true }
    ensures { result ≡ Select.mean N of.entry }
{
    let mut row = 0;
    let mut col = 0;
    for v in of {
        row += v.row.0;
        col += v.col.0;
    }
    Mv {
        row: rounded::<N>(row),
        col: rounded::<N>(col),
    }
}

// The mean of all four vectors of a list.
fn all_four(m: [[Mv; 4]; 2], list: usize) -> Mv
    requires { (list < 2) × (BlockMvs.legal_list m list ≡ true) }
    ensures { result ≡ Select.all_four m list }
{
    mean([m[list][0], m[list][1], m[list][2], m[list][3]])
}

fn own_vector(plane: usize, size: u8) -> bool
    ensures { result ≡ Select.own_vector plane size }
{
    (plane == 0) | (3 <= size)
}

fn partner_off(sx: bool, sy: bool) -> usize
    ensures { (result ≡ Select.partner_off sx sy) × (result ≤ 2) }
{
    match (sx, sy) {
        (true, false) => 1,
        (false, true) => 2,
        _ => 0,
    }
}

pub fn partnered(plane: usize, size: u8, block: usize, sx: bool, sy: bool) -> bool
    ensures { result ≡ Select.partnered plane size block sx sy }
{
    own_vector(plane, size) | (block <= 3 - partner_off(sx, sy))
}

// The vector of an accepted call.
pub fn chosen(
    m: [[Mv; 4]; 2],
    list: usize,
    plane: usize,
    size: u8,
    b: usize,
    sx: bool,
    sy: bool,
) -> Mv
    requires within { (list < 2) × (b < 4) }
    requires partner { Select.partnered plane size b sx sy ≡ true }
    requires legal { BlockMvs.legal_list m list ≡ true }
    ensures { result ≡ Select.chosen m list plane size b sx sy }
{
    let v = m[list][b];
    if own_vector(plane, size) {
        return v;
    }
    if sx & sy {
        return all_four(m, list);
    }
    if sx | sy {
        let far = partner_off(sx, sy);
        return mean([v, m[list][b + far]]);
    }
    v
}
