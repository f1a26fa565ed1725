// Document 02, Req 11: the columns and rows of a reference's plane that a block's prediction can read.
ghost use Rattle.std.specs.Prelude.{◌≡◌, true, ◌≤◌, nat_abs};
ghost use Rattle.base.specs.Answer.{answer};
ghost use Rattle.base.specs.Position as Position;
ghost use Rattle.base.specs.Refused.{told};
ghost use Rattle.base.specs.Position.{to_n};
ghost use Rattle.blocks.specs.Block as Block;
ghost use Rattle.reach.specs.Rectangle as Rectangle;

use base::{Refusal, Sixteenth, between, natural, within};
use blocks::Stepping;

// The first and the last column and row.
#[derive(Clone, Copy, Debug, PartialEq, Eq)]
pub struct Span {
    pub first_col: usize,
    pub last_col: usize,
    pub first_row: usize,
    pub last_row: usize,
}

// The same as it crosses to C; refused, all are 0.
#[repr(C)]
#[derive(Clone, Copy)]
pub struct Reach {
    pub answer: u32,
    pub first_col: usize,
    pub last_col: usize,
    pub first_row: usize,
    pub last_row: usize,
}

impl From<Result<Span, Refusal>> for Reach {
    ghost from_gives = { λ r c. c ≡ Rectangle.reached r };

    fn from(answer: Result<Span, Refusal>) -> Reach {
        match answer {
            Ok(span) => Reach {
                answer: 0,
                first_col: span.first_col,
                last_col: span.last_col,
                first_row: span.first_row,
                last_row: span.last_row,
            },
            Err(refusal) => Reach {
                answer: refusal.number(),
                first_col: 0,
                last_col: 0,
                first_row: 0,
                last_row: 0,
            },
        }
    }
}

#[tactic(auto, unfolding(blocks::specs::Block::starts))]
pub fn starts(from: Stepping) -> bool
    ensures { result ≡ Block.starts from }
{
    between(-3000000, 3000000, from.start_x.0)
        & between(-3000000, 3000000, from.start_y.0)
        & between(1, 32, from.step_x.0)
        & between(1, 32, from.step_y.0)
}

#[tactic(auto, unfolding(base::specs::Position::hold))]
fn hold(last: usize, z: i32) -> usize
    ensures { result ≡ Position.hold last z }
{
    natural(z).min(last)
}

fn first_read(last: usize, start: Sixteenth) -> usize
    requires { nat_abs start.0 ≤ 3000000 }
    ensures { result ≡ Rectangle.first_read last start.0 }
{
    hold(last, (start.0 >> 4) - 3)
}

fn last_read(last: usize, start: Sixteenth, step: Sixteenth, n: usize) -> usize
    requires start_bound { nat_abs start.0 ≤ 3000000 }
    requires step_bound { (to_n step.0 ≤ 32) × (1 ≤ n) × (n ≤ 64) }
    ensures { result ≡ Rectangle.last_read last start.0 (to_n step.0) n }
{
    let far = (natural(step.0) * (n - 1)) as i32;
    hold(last, ((start.0 + far) >> 4) + 4)
}

// The rectangle of an accepted call.
pub fn readable(w: usize, h: usize, width: usize, height: usize, from: Stepping) -> Span
    requires sizes { (1 ≤ w) × (w ≤ 64) × (1 ≤ h) × (h ≤ 64) × (1 ≤ width) × (1 ≤ height) }
    requires started { Block.starts from ≡ true }
    ensures { Rectangle.reached (Ok result) ≡ Rectangle.readable w h width height from }
{
    let first_col = first_read(width - 1, from.start_x);
    let last_col = last_read(width - 1, from.start_x, from.step_x, w);
    let first_row = first_read(height - 1, from.start_y);
    let last_row = last_read(height - 1, from.start_y, from.step_y, h);
    Span {
        first_col,
        last_col,
        first_row,
        last_row,
    }
}

// Whether the call is accepted, in the order of the table's rows.
#[tactic(auto, unfolding(base::specs::Answer::unless))]
fn reachable(w: usize, h: usize, width: i32, height: i32, from: Stepping) -> Result<(), Refusal>
    ensures { told result ≡ answer (Rectangle.reach_rows w h width height from) }
{
    Refusal::Block.unless(within(1, 64, w) & within(1, 64, h))?;
    Refusal::Size.unless(between(1, 65536, width) & between(1, 65536, height))?;
    Refusal::Start.unless(starts(from))
}

// What a block of w by h samples can read of a plane, from a position in it and by steps.
pub fn block_reach(
    w: usize,
    h: usize,
    width: i32,
    height: i32,
    from: Stepping,
) -> Result<Span, Refusal>
    ensures { Rectangle.reached result ≡ Rectangle.block_reach w h width height from }
{
    reachable(w, h, width, height, from)?;
    Ok(readable(w, h, natural(width), natural(height), from))
}
