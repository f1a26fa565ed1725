// Total helpers on numbers, each with the standard's own definition as its contract.
ghost use Rattle.std.specs.Prelude.{◌≡◌};
ghost use Rattle.base.specs.Number as Number;
ghost use Rattle.base.specs.Position.{to_n};

// low <= x <= high
pub fn between(low: i32, high: i32, x: i32) -> bool
    ensures { result ≡ Number.between low high x }
{
    (low <= x) & (x <= high)
}

// low <= x <= high, of unsigned numbers
pub fn within(low: usize, high: usize, x: usize) -> bool
    ensures { result ≡ Number.within low high x }
{
    (low <= x) & (x <= high)
}

// Clip3 of the standard: below low is tested first, so that crossed ends give low.
pub fn clip3(low: i32, high: i32, x: i32) -> i32
    ensures { result ≡ Number.clip3 low high x }
{
    if x < low {
        low
    } else if x > high {
        high
    } else {
        x
    }
}

// x as an unsigned number; 0 for one below 0, which no accepted call has
pub fn natural(x: i32) -> usize
    ensures { result ≡ to_n x }
{
    x.max(0) as usize
}
