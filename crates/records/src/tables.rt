// The lent tables: document 01, 'Lent tables', says where a record's numbers stand.
ghost use Rattle.std.specs.Prelude.{◌≡◌, ◌+◌, ◌*◌, ◌<◌, pos, get_or, length};
ghost use Rattle.base.specs.Vector.{mv};
ghost use Rattle.records.specs.Tables as Tables;
ghost use Rattle.records.specs.Lent.{Read};

use base::{Eighth, Mv};

// The frames and the vectors of one frame's records, of both lists.
#[derive(Clone, Copy)]
pub struct Pairs<'a> {
    pub frames: &'a [i8],
    pub mvs: &'a [i16],
}

// All that is lent to a search: the frame's own records, and those of the previous frame where it is used.
#[derive(Clone, Copy)]
pub struct LentTables<'a> {
    pub modes: &'a [u8],
    pub frames: &'a [i8],
    pub mvs: &'a [i16],
    pub subs: &'a [i16],
    pub prev: Option<Pairs<'a>>,
}

impl<'a> LentTables<'a> {
    pub fn pairs(self) -> Pairs<'a>
        ensures { result ≡ record { frames = self.entry.frames; mvs = self.entry.mvs } }
    {
        Pairs {
            frames: self.frames,
            mvs: self.mvs,
        }
    }
}

// Frames as 32-bit numbers, as a target frame is.
pub fn frame_at(frames: &[i8], i: usize, list: usize) -> i32
    requires { 2 * i + list < length frames.now }
    ensures { result ≡ Tables.frame_at frames.now i list }
{
    i32::from(frames[2 * i + list])
}

// The vector whose row stands at `at` and whose column follows it.
fn vector_at(parts: &[i16], at: usize) -> Mv
    requires { at + 1 < length parts.now }
    ensures { Read (mv (get_or parts.now at (pos 0)) (get_or parts.now (at + 1) (pos 0))) result }
{
    Mv {
        row: Eighth(i32::from(parts[at])),
        col: Eighth(i32::from(parts[at + 1])),
    }
}

pub fn mv_at(mvs: &[i16], i: usize, list: usize) -> Mv
    requires { 4 * i + 2 * list + 1 < length mvs.now }
    ensures { Read (Tables.mv_at mvs.now i list) result }
{
    vector_at(mvs, 4 * i + 2 * list)
}

pub fn sub_at(subs: &[i16], i: usize, list: usize, number: usize) -> Mv
    requires { ((2 * i + list) * 4 + number) * 2 + 1 < length subs.now }
    ensures { Read (Tables.sub_at subs.now i list number) result }
{
    vector_at(subs, ((2 * i + list) * 4 + number) * 2)
}
