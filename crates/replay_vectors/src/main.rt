// Replays stored cases of select_mv, clamp_mv and scale_mv: standard input is files of oracle/'s cases, one after the other. A line a file.
#![tactic(auto)]

ghost use Rattle.std.specs.Prelude.{◌<◌, ◌≤◌, IfOk, IsTrue};
ghost use Rattle.std.specs.Io.KnownBytes.{Consumes};

use base::{Eighth, Mv, PlaneMv, Sixteenth};
use std::io;
use std::io::{ErrorKind, Read, Write};
use stored::{flag_at, i32_at, u32_at, usize_at};
use vectors::{BlockGrid, ClampedMv, ScaleGeom, ScaledMv, SelectedMv};

// Room for a record of any call. Its length is known, so that no byte of it is asked for twice, and past a shorter record it has zeros.
type Record = [u8; 96];

// The calls that are replayed, under their numbers in a file of cases.
#[derive(Clone, Copy)]
enum Call {
    Select,
    Clamp,
    Scale,
}

impl TryFrom<u32> for Call {
    type Error = ();

    fn try_from(number: u32) -> Result<Call, ()> {
        match number {
            1 => Ok(Call::Select),
            2 => Ok(Call::Clamp),
            3 => Ok(Call::Scale),
            _ => Err(()),
        }
    }
}

// A record: its size in bytes, and whether the call gives what it says.
impl Call {
    fn size(self) -> usize
        ensures { result ≤ 96 }
    {
        match self {
            Call::Select => 96,
            Call::Clamp => 48,
            Call::Scale => 64,
        }
    }

    fn name(self) -> &'static [u8] {
        match self {
            Call::Select => b"select_mv",
            Call::Clamp => b"clamp_mv",
            Call::Scale => b"scale_mv",
        }
    }

    fn agrees(self, record: &Record) -> bool {
        match self {
            Call::Select => select_agrees(record),
            Call::Clamp => clamp_agrees(record),
            Call::Scale => scale_agrees(record),
        }
    }
}

fn eighth(record: &[u8], at: usize) -> Eighth
    requires { at < 4096 }
{
    Eighth(i32_at(record, at))
}

fn sixteenth(record: &[u8], at: usize) -> Sixteenth
    requires { at < 4096 }
{
    Sixteenth(i32_at(record, at))
}

fn mv(record: &[u8], at: usize) -> Mv
    requires { at < 2048 }
{
    Mv {
        row: eighth(record, at),
        col: eighth(record, at + 4),
    }
}

fn plane_mv(record: &[u8], at: usize) -> PlaneMv
    requires { at < 2048 }
{
    PlaneMv {
        row: sixteenth(record, at),
        col: sixteenth(record, at + 4),
    }
}

fn list(record: &[u8], at: usize) -> [Mv; 4]
    requires { at < 1024 }
{
    [
        mv(record, at),
        mv(record, at + 8),
        mv(record, at + 16),
        mv(record, at + 24),
    ]
}

fn select_agrees(r: &Record) -> bool {
    let told = SelectedMv::from(vectors::select_mv(
        [list(r, 0), list(r, 32)],
        flag_at(r, 81),
        usize_at(r, 64),
        stored::byte_at(r, 80),
        usize_at(r, 72),
        flag_at(r, 82),
        flag_at(r, 83),
    ));
    told == SelectedMv {
        answer: u32_at(r, 84),
        mv: mv(r, 88),
    }
}

fn clamp_agrees(r: &Record) -> bool {
    let grid = BlockGrid {
        mi_row: i32_at(r, 8),
        mi_col: i32_at(r, 12),
        mi_rows: i32_at(r, 16),
        mi_cols: i32_at(r, 20),
        mi_size: stored::byte_at(r, 32),
    };
    let told = ClampedMv::from(vectors::clamp_mv(
        grid,
        mv(r, 24),
        usize_at(r, 0),
        flag_at(r, 33),
        flag_at(r, 34),
    ));
    told == ClampedMv {
        answer: u32_at(r, 36),
        mv: plane_mv(r, 40),
    }
}

fn scale_agrees(r: &Record) -> bool {
    let geom = ScaleGeom {
        ref_frame_width: i32_at(r, 8),
        ref_frame_height: i32_at(r, 12),
        frame_width: i32_at(r, 16),
        frame_height: i32_at(r, 20),
        subsampling_x: flag_at(r, 40),
        subsampling_y: flag_at(r, 41),
    };
    let told = ScaledMv::from(vectors::scale_mv(
        geom,
        usize_at(r, 0),
        i32_at(r, 24),
        i32_at(r, 28),
        plane_mv(r, 32),
    ));
    told == ScaledMv {
        answer: u32_at(r, 44),
        start_x: sixteenth(r, 48),
        start_y: sixteenth(r, 52),
        step_x: sixteenth(r, 56),
        step_y: sixteenth(r, 60),
    }
}

// Fills bytes from the input; false where the input ends before.
fn fill<R: Read>(input: &mut R, bytes: &mut [u8]) -> io::Result<bool>
    ensures { IfOk result (λ full. IsTrue full → Consumes (R.remaining input.old) (R.remaining input.new) bytes.new) }
{
    match input.read_exact(bytes) {
        Ok(()) => Ok(true),
        Err(e) if e.kind() == ErrorKind::UnexpectedEof => Ok(false),
        Err(e) => Err(e),
    }
}

// The next record of a call; one that is missing does not agree.
fn next_agrees<R: Read>(input: &mut R, call: Call) -> io::Result<bool> {
    let mut record = [0u8; 96];
    Ok(fill(input, &mut record[..call.size()])? && call.agrees(&record))
}

fn differences<R: Read>(input: &mut R, call: Call, count: u32) -> io::Result<u32> {
    let mut wrong = 0;
    for i in 0..count {
        if !next_agrees(input, call)? {
            wrong += 1;
        }
    }
    Ok(wrong)
}

// One file of cases; false at the end of the input. No case of a call that is not replayed agrees.
fn file<R: Read, W: Write>(input: &mut R, output: &mut W) -> io::Result<bool> {
    let mut header = [0u8; 16];
    if !fill(input, &mut header)? {
        return Ok(false);
    }
    let count = u32_at(&header, 12);
    match stored::call_of(&header).and_then(|number| Call::try_from(number).ok()) {
        Some(call) => {
            let wrong = differences(input, call, count)?;
            stored::report(output, call.name(), count, wrong)?;
        }
        None => stored::report(output, b"no call of this program", count, count)?,
    }
    Ok(true)
}

fn main(rt: HostRuntime) -> io::Result<()> {
    let mut input = rt.stdin();
    let mut output = rt.stdout();
    for _ in 0..3 {
        if !file(&mut input, &mut output)? {
            break;
        }
    }
    Ok(())
}
