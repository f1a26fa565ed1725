// Document 01, 'Answer numbers': why a call is refused, and the number that a C caller is told.
ghost use Rattle.std.specs.Prelude.{◌≡◌, cond};
ghost use Rattle.base.specs.Refused as Refused;

use std::error::Error;
use std::fmt;

// The lower number is the greater hindrance: where several apply, the least is told.
#[derive(Clone, Copy, Debug, PartialEq, Eq, PartialOrd, Ord)]
pub enum Refusal {
    Block = 1,
    Grid = 2,
    Target = 3,
    Filter = 4,
    Size = 5,
    Start = 6,
    Short = 7,
    Record = 8,
    Vector = 9,
}

impl Refusal {
    // The row of document 01's table.
    pub fn number(self) -> u32
        ensures { result ≡ Refused.number self }
    {
        self as u32
    }

    // One row of a call's table: the call is refused unless the row's test passes.
    pub fn unless(self, passes: bool) -> Result<(), Refusal>
        ensures { result ≡ Refused.unless self passes }
    {
        if passes { Ok(()) } else { Err(self) }
    }
}

// What a C caller is told of a call that has no other answer: 0 where it was accepted.
pub fn told(answer: Result<(), Refusal>) -> u32
    ensures { result ≡ Refused.told answer }
{
    match answer {
        Ok(()) => 0,
        Err(refusal) => refusal.number(),
    }
}

impl fmt::Display for Refusal {
    fn fmt<W: fmt::Write>(&self, f: &mut fmt::Formatter<W>) -> fmt::Result {
        f.write_str(match self {
            Refusal::Block => "no such block size, sub-block or plane",
            Refusal::Grid => "a block outside its frame or tile, or a frame too large",
            Refusal::Target => "no such reference frame",
            Refusal::Filter => "no such filter or bit depth",
            Refusal::Size => "a reference or plane of a size that is not allowed",
            Refusal::Start => "a start or a step out of range",
            Refusal::Short => "a lent buffer too short, or its stride or bands wrong",
            Refusal::Record => "a neighbour's record that is not legal",
            Refusal::Vector => "a vector out of range",
        })
    }
}

impl Error for Refusal {}
