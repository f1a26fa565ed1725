// What rows of results share: the lesser of two numbers; a run copied, a row held to the depth, averaged into the output.
ghost use Rattle.base.specs.Paint.{fill};
ghost use Rattle.taps.specs.Kernel.{alike, clipped, onward, mean_of};
ghost use Rattle.std.specs.Prelude.{◌≡◌, ◌+◌, ◌-◌, ◌/◌, ◌≤◌, min, length};

// Where column or row 0 stands for the first of a result's eight samples, which is 3 before it: positions are lifted by 200,000.
pub const ORIGIN: usize = 200_003;

// A lifted column or row, held into 0..last.
pub fn held(b: usize, last: usize) -> usize
    ensures { result ≡ min (b - ORIGIN) last }
{
    b.saturating_sub(ORIGIN).min(last)
}

// How many of m lifted columns from b on stand left of the plane.
pub fn left_of(b: usize, m: usize) -> usize
    ensures { result ≡ min (ORIGIN - b) m }
{
    ORIGIN.saturating_sub(b).min(m)
}

// Up to where a sum stops, and down again: for eight numbers at once that is two instructions, and a choice is three.
pub fn lesser(a: u16, b: u16) -> u16
    ensures { result ≡ min a b }
{
    let up = 65535 - b;
    a.saturating_add(up) - up
}

// One number again and again.
pub fn repeated(x: u16, n: usize, out: &mut [u16], at: usize)
    requires { at + n ≤ length out.old }
    ensures { out.new ≡ fill out.old at n (alike x) }
{
    for c in 0..n {
        out[at + c] = x;
    }
}

// N samples, all read before one is written, so that the machine moves them together.
#[tactic(auto, unfolding(crate::specs::Kernel::onward))]
pub fn moved<const N: usize>(l: &[u16], s: usize, out: &mut [u16], at: usize)
    requires { (s + N ≤ length l.now) × (at + N ≤ length out.old) }
    ensures { out.new ≡ fill out.old at N (onward l.now s) }
{
    let mut read = [0u16; N];
    for c in 0..N {
        read[c] = l[s + c];
    }
    for c in 0..N {
        out[at + c] = read[c];
    }
}

// A run of samples of any length. Nothing in the library calls it: of such a loop the compiler makes a call of C's memcpy, which the archive is not to need.
pub fn run_copied(row: &[u16], s: usize, n: usize, line: &mut [u16], at: usize)
    requires { (s + n ≤ length row.now) × (at + n ≤ length line.old) }
    ensures { line.new ≡ fill line.old at n (onward row.now s) }
{
    for k in 0..n {
        line[at + k] = row[s + k];
    }
}

// A row of samples, each held to the depth: what phase 0 gives.
pub fn row_clipped(l: &[u16], b: usize, w: usize, max: u16, out: &mut [u16], at: usize)
    requires { (b + w ≤ length l.now) × (at + w ≤ length out.old) }
    ensures { out.new ≡ fill out.old at w (clipped max l.now b) }
{
    for c in 0..w {
        out[at + c] = lesser(l[b + c], max);
    }
}

fn average(a: u16, b: u16) -> u16
    ensures { result ≡ (a + b + 1) / 2 }
{
    ((u32::from(a) + u32::from(b) + 1) / 2) as u16
}

// The rounded means of a row of the output and of w numbers of a list.
pub fn row_averaged(l: &[u16], b: usize, w: usize, out: &mut [u16], at: usize)
    requires { (b + w ≤ length l.now) × (at + w ≤ length out.old) }
    ensures { out.new ≡ fill out.old at w (mean_of out.old at (onward l.now b)) }
{
    for c in 0..w {
        out[at + c] = average(out[at + c], l[b + c]);
    }
}
