//! Writes a reparse buffer.
ghost use Rattle.std.specs.Prelude.{◌≡◌, ◌+◌, ◌^◌, ◌<◌, ◌≤◌, ◌++◌, length, take, drop, All};
ghost use Rattle.byteorder.specs.Endian.{little_bytes};
ghost use Rattle.sis_reparse.specs.Point.{IsPoint, point_text};

use crate::SisPoint;
use crate::layout::{
    DATA_LEN, DATA_LEN_AT, FILE_AT, GUID_AT, INDEX_AT, POINT_LEN, SIGNATURE_AT, STORE_AT, TAG,
    TAG_AT, VERSION, VERSION_AT,
};
use byteorder::{ByteOrder, LittleEndian};

/// Lays a number over the buffer, as two bytes.
fn put_u16(buffer: &mut [u8; POINT_LEN], at: usize, number: u16)
    requires { at + 2 ≤ 64 }
    ensures { buffer.new ≡ take at buffer.old ++ little_bytes 2 number ++ drop (at + 2) buffer.old }
{
    LittleEndian::write_u16(&mut buffer[at..at + 2], number);
}

/// Lays a number over the buffer, as four bytes.
fn put_u32(buffer: &mut [u8; POINT_LEN], at: usize, number: u32)
    requires { at + 4 ≤ 64 }
    ensures { buffer.new ≡ take at buffer.old ++ little_bytes 4 number ++ drop (at + 4) buffer.old }
{
    LittleEndian::write_u32(&mut buffer[at..at + 4], number);
}

/// Lays a number over the buffer, as eight bytes.
fn put_u64(buffer: &mut [u8; POINT_LEN], at: usize, number: u64)
    requires { at + 8 ≤ 64 }
    ensures buffer { buffer.new
        ≡ take at buffer.old ++ little_bytes 8 number ++ drop (at + 8) buffer.old }
    ensures number { number < 2 ^ 64 }
{
    LittleEndian::write_u64(&mut buffer[at..at + 8], number);
}

/// Lays some bytes over the buffer.
fn put(buffer: &mut [u8; POINT_LEN], at: usize, bytes: &[u8])
    requires { at + length bytes.now ≤ 64 }
    ensures buffer { buffer.new
        ≡ take at buffer.old ++ bytes.now ++ drop (at + length bytes.now) buffer.old }
    ensures bytes { All (λ b. b < 256) bytes.now }
{
    buffer[at..at + bytes.len()].copy_from_slice(bytes);
}

/// Writes a reparse buffer, and takes no memory.
pub fn write(point: &SisPoint) -> [u8; POINT_LEN]
    ensures value { result ≡ point_text point.now }
    // So it is read again.
    ensures point { IsPoint point.now }
{
    // The two fields that have to be 0 stay so.
    let mut buffer = [0; POINT_LEN];
    put_u32(&mut buffer, TAG_AT, TAG);
    put_u16(&mut buffer, DATA_LEN_AT, DATA_LEN);
    put_u32(&mut buffer, VERSION_AT, VERSION);
    put(&mut buffer, GUID_AT, &point.guid);
    put_u64(&mut buffer, INDEX_AT, point.index);
    put_u64(&mut buffer, FILE_AT, point.file);
    put_u64(&mut buffer, STORE_AT, point.store);
    put(&mut buffer, SIGNATURE_AT, &point.signature);
    buffer
}
