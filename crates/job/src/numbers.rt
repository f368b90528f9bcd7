// Numbers in a row of bytes, the most significant byte first, each read at its place, which a body's layout fixes.
ghost use Rattle.std.specs.Prelude.{◌≡◌, ◌+◌, ◌≤◌, length};
ghost use Rattle.job.specs.Numbers.{u16_at, u32_at, i32_at, position_at};

use byteorder::{BigEndian, ByteOrder};

pub fn read_u16(bytes: &[u8], at: usize) -> u16
    requires { at + 2 ≤ length bytes.now }
    ensures { result ≡ u16_at bytes.now at }
{
    BigEndian::read_u16(&bytes[at..])
}

pub fn read_u32(bytes: &[u8], at: usize) -> u32
    requires { at + 4 ≤ length bytes.now }
    ensures { result ≡ u32_at bytes.now at }
{
    BigEndian::read_u32(&bytes[at..])
}

pub fn read_i32(bytes: &[u8], at: usize) -> i32
    requires { at + 4 ≤ length bytes.now }
    ensures { result ≡ i32_at bytes.now at }
{
    BigEndian::read_i32(&bytes[at..])
}

pub fn read_position(bytes: &[u8], at: usize) -> [i32; 3]
    requires { at + 12 ≤ length bytes.now }
    ensures { result ≡ position_at bytes.now at }
{
    [
        read_i32(bytes, at),
        read_i32(bytes, at + 4),
        read_i32(bytes, at + 8),
    ]
}
