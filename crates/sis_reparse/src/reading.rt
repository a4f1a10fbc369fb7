//! Reads a reparse buffer from left to right.
ghost use Rattle.std.specs.Prelude.{Some, length, slice_range, ◌≡◌, ◌+◌, ◌≤◌, IfOk};
ghost use Rattle.sis_reading.specs.Steps.{Gives};
ghost use Rattle.sis_reparse.specs.Point.{IsPoint, point_text, head, whole, point_at};

use crate::layout::{
    DATA_LEN, DATA_LEN_AT, FILE_AT, GUID_AT, INDEX_AT, POINT_LEN, RESERVED_AT, SIGNATURE_AT,
    STORE_AT, TAG, TAG_AT, VERSION, VERSION_AT, ZERO_AT,
};
use crate::{PointFault, SisPoint};
use byteorder::{ByteOrder, LittleEndian};

/// There are exactly 64 bytes.
fn whole(bytes: &[u8]) -> Result<(), PointFault>
    ensures value { Gives Some (λ x. x) result (whole bytes.now) }
    ensures ok { IfOk result (λ x. length bytes.now ≡ 64) }
{
    let have = bytes.len() as u64;
    if bytes.len() < POINT_LEN {
        return Err(PointFault::Short { have });
    }
    if bytes.len() > POINT_LEN {
        return Err(PointFault::Long { have });
    }
    Ok(())
}

/// The fields before the GUID have the values that they have in every buffer.
#[tactic(auto, unfolding(crate::specs::Point::head))]
fn head(bytes: &[u8]) -> Result<(), PointFault>
    requires { length bytes.now ≡ 64 }
    ensures { Gives Some (λ x. x) result (head bytes.now) }
{
    let tag = LittleEndian::read_u32(&bytes[TAG_AT..]);
    if tag != TAG {
        return Err(PointFault::Tag { value: tag });
    }
    let data_len = LittleEndian::read_u16(&bytes[DATA_LEN_AT..]);
    if data_len != DATA_LEN {
        return Err(PointFault::Length { value: data_len });
    }
    if LittleEndian::read_u16(&bytes[RESERVED_AT..]) != 0 {
        return Err(PointFault::Reserved {
            at: RESERVED_AT as u64,
        });
    }
    let version = LittleEndian::read_u32(&bytes[VERSION_AT..]);
    if version != VERSION {
        return Err(PointFault::Version { value: version });
    }
    if LittleEndian::read_u32(&bytes[ZERO_AT..]) != 0 {
        return Err(PointFault::Reserved { at: ZERO_AT as u64 });
    }
    Ok(())
}

/// As many bytes as the array has, from this offset on.
fn bytes_at<const N: usize>(bytes: &[u8], at: usize) -> [u8; N]
    requires { at + N ≤ length bytes.now }
    ensures { result ≡ slice_range bytes.now at (at + N) }
{
    let mut part = [0; N];
    part.copy_from_slice(&bytes[at..at + N]);
    part
}

/// Reads a reparse buffer, and takes no memory.
///
/// Whether there is such a link, or such a store file, isn't asked.
#[tactic(auto, unfolding(crate::specs::Point::point_at))]
pub fn read(bytes: &[u8]) -> Result<SisPoint, PointFault>
    ensures value { Gives Some (λ p. p) result (point_at bytes.now) }
    // So the bytes are the one spelling of what is read.
    ensures spelled { IfOk result (λ p. IsPoint p × (bytes.now ≡ point_text p)) }
{
    whole(bytes)?;
    head(bytes)?;
    Ok(SisPoint {
        guid: bytes_at(bytes, GUID_AT),
        index: LittleEndian::read_u64(&bytes[INDEX_AT..]),
        file: LittleEndian::read_u64(&bytes[FILE_AT..]),
        store: LittleEndian::read_u64(&bytes[STORE_AT..]),
        signature: bytes_at(bytes, SIGNATURE_AT),
    })
}
