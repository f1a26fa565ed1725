// Numbers of a stored case, in oracle/README.md's format: little-endian, signed ones in two's complement. Past the record's end every byte is 0.
#![tactic(auto)]

ghost use Rattle.std.specs.Prelude.{◌≡◌, ◌<◌, ◌≤◌, ◌++◌, get_or, OnOk, codes, decimal};
ghost use Rattle.std.specs.Io.KnownBytes.{Appends};
ghost use Rattle.stored.specs.Bytes.{little, flag, signed, call_in};

use std::io;
use std::io::Write;

// 'KNOB'
const MAGIC: u32 = 0x424f_4e4b;

pub fn byte_at(bytes: &[u8], at: usize) -> u8
    ensures { result ≡ get_or bytes.now at 0 }
{
    bytes.get(at).copied().unwrap_or(0)
}

pub fn flag_at(bytes: &[u8], at: usize) -> bool
    ensures { result ≡ flag bytes.now at }
{
    byte_at(bytes, at) != 0
}

pub fn u32_at(bytes: &[u8], at: usize) -> u32
    requires { at < 65536 }
    ensures { result ≡ little 4 bytes.now at }
{
    u32::from_le_bytes([
        byte_at(bytes, at),
        byte_at(bytes, at + 1),
        byte_at(bytes, at + 2),
        byte_at(bytes, at + 3),
    ])
}

pub fn i32_at(bytes: &[u8], at: usize) -> i32
    requires { at < 65536 }
    ensures { result ≡ signed (little 4 bytes.now at) }
{
    u32_at(bytes, at).cast_signed()
}

// A u64 of the file is a usize of the call.
pub fn usize_at(bytes: &[u8], at: usize) -> usize
    requires { at < 32768 }
    ensures { result ≡ little 8 bytes.now at }
{
    let low = u32_at(bytes, at) as usize;
    let high = u32_at(bytes, at + 4) as usize;
    low + 4294967296 * high
}

// The number of a file's call, where the file begins as one of cases does.
pub fn call_of(header: &[u8]) -> Option<u32>
    ensures { result ≡ call_in header.now }
{
    if u32_at(header, 0) == MAGIC {
        Some(u32_at(header, 4))
    } else {
        None
    }
}

// Writes 'NAME: N cases, D differences'.
pub fn report<W: Write>(output: &mut W, name: &[u8], cases: u32, differences: u32) -> io::Result<()>
    ensures { OnOk result (Appends (W.contents output.old) (W.contents output.new)
        (name.now ++ (codes ": " ++ (decimal cases ++ (codes " cases, " ++ (decimal differences ++ codes " differences\n")))))) }
{
    output.write_all(name)?;
    writeln!(output, ": {cases} cases, {differences} differences")
}
