// What is made of eight samples: the plain sum, the one for samples of at most 255 in sixteen bits, and the one for any samples in sixteen bits.
ghost use Rattle.std.specs.Prelude.{◌≡◌, ◌+◌, ◌-◌, ◌*◌, ◌/◌, ◌%◌, ◌≤◌, ◌<◌, min};
ghost use Rattle.taps.specs.Kernel.{joined_sums, low_one, low_sum, low_tap, products, raised_one, wide_one};

use taps::{Taps, lesser};

fn mul(t: u16, x: u16) -> u32
    requires { t ≤ 152 }
    ensures { (result ≡ t * x) × (result ≤ 9961320) }
{
    u32::from(t) * u32::from(x)
}

fn dot(p: Taps, a: u16, b: u16, c: u16, d: u16, e: u16, f: u16, g: u16, h: u16) -> u32
    ensures { (result ≡ products p a b c d e f g h) × (result ≤ 79690560) }
{
    mul(p.t0, a)
        + mul(p.t1, b)
        + mul(p.t2, c)
        + mul(p.t3, d)
        + mul(p.t4, e)
        + mul(p.t5, f)
        + mul(p.t6, g)
        + mul(p.t7, h)
}

// What the 24 on each tap added to the sum.
fn surplus(a: u16, b: u16, c: u16, d: u16, e: u16, f: u16, g: u16, h: u16) -> u32
    ensures { result ≡ 24 * (a + b + c + d + e + f + g + h) }
{
    24 * (u32::from(a)
        + u32::from(b)
        + u32::from(c)
        + u32::from(d)
        + u32::from(e)
        + u32::from(f)
        + u32::from(g)
        + u32::from(h))
}

// Add 64, divide by 128 rounding down, hold into 0..max.
fn rounded(s: u32, n: u32, max: u16) -> u16
    requires { s ≤ 79690560 }
    ensures { result ≡ min ((s + 64 - n) / 128) max }
{
    ((s + 64).saturating_sub(n) / 128).min(u32::from(max)) as u16
}

pub fn one(p: Taps, a: u16, b: u16, c: u16, d: u16, e: u16, f: u16, g: u16, h: u16, max: u16) -> u16
    ensures { result ≡ raised_one max p a b c d e f g h }
{
    rounded(
        dot(p, a, b, c, d, e, f, g, h),
        surplus(a, b, c, d, e, f, g, h),
        max,
    )
}

// The 24 taken off again, modulo 65,536.
fn lowered(t: u16) -> u16
    requires { t ≤ 152 }
    ensures { result ≡ low_tap t }
{
    if t < 24 { t + 65512 } else { t - 24 }
}

fn product(t: u16, x: u16) -> u64
    requires { t ≤ 152 }
    ensures { (result ≡ low_tap t * x) × (result ≤ 4294836225) }
{
    u64::from(lowered(t)) * u64::from(x)
}

fn low_sum(p: Taps, a: u16, b: u16, c: u16, d: u16, e: u16, f: u16, g: u16, h: u16) -> u64
    ensures { (result ≡ low_sum p a b c d e f g h) × (result ≤ 34358689800) }
{
    product(p.t0, a)
        + product(p.t1, b)
        + product(p.t2, c)
        + product(p.t3, d)
        + product(p.t4, e)
        + product(p.t5, f)
        + product(p.t6, g)
        + product(p.t7, h)
}

// Rounded and held to 8 bits. Nothing is lost, since no sum with the 64 leaves -16,384..49,151; the floor comes before the division.
fn rounded_low(s: u64) -> u16
    requires { s ≤ 34358689800 }
    ensures { result ≡ min (((s + 16448) % 65536 - 16384) / 128) 255 }
{
    let raised = ((s + 16448) % 65536) as u16;
    (raised.saturating_sub(16384) / 128).min(255)
}

pub fn one_low(p: Taps, a: u16, b: u16, c: u16, d: u16, e: u16, f: u16, g: u16, h: u16) -> u16
    ensures { result ≡ low_one p a b c d e f g h }
{
    rounded_low(low_sum(p, a, b, c, d, e, f, g, h))
}

fn high(x: u16) -> u16
    ensures { result ≡ x / 256 }
{
    x / 256
}

// The result from x, the sum of eight samples' high bytes, and z, the sum of the samples: z less 256 times x is the sum of the low bytes.
// Bytes lose nothing, as above. A sum of high bytes below -192 gives 0 whatever the low bytes are; a result that stops at 65,535 is held to max.
fn joined(x: u16, z: u16, max: u16) -> u16
    ensures { result ≡ joined_sums max x z }
{
    let x_raised = ((u32::from(x) + 16448) % 65536) as u16;
    let u = x_raised.saturating_sub(16256);
    let y = x % 256 * 256;
    let v = ((u32::from(z) + 81984 - u32::from(y)) % 65536) as u16;
    let sum = u.saturating_add(u).saturating_add(v / 128);
    lesser(sum.saturating_sub(512), max)
}

fn wrapped(s: u64) -> u16
    ensures { result ≡ s % 65536 }
{
    (s % 65536) as u16
}

pub fn one_wide(
    p: Taps,
    a: u16,
    b: u16,
    c: u16,
    d: u16,
    e: u16,
    f: u16,
    g: u16,
    h: u16,
    max: u16,
) -> u16
    ensures { result ≡ wide_one max p a b c d e f g h }
{
    joined(
        wrapped(low_sum(
            p,
            high(a),
            high(b),
            high(c),
            high(d),
            high(e),
            high(f),
            high(g),
            high(h),
        )),
        wrapped(low_sum(p, a, b, c, d, e, f, g, h)),
        max,
    )
}
