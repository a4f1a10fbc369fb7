//! Reads a request from left to right.
ghost use Rattle.std.specs.Prelude.{Some, ◌≡◌, ◌+◌, ◌-◌, ◌%◌, ◌<◌, ◌≤◌, length, take, position, slice_range, IfOk};
ghost use Rattle.sis_reading.specs.Steps.{Gives};
ghost use Rattle.sis_request.specs.Request.{IsLentName, units_of, request_of, is_null, number_at};
ghost use Rattle.sis_request.specs.Request.{enough, length_of, name_of, request_at};

use crate::{CopyRequest, Field, RequestFault};
use byteorder::{ByteOrder, LittleEndian};

/// The bytes of the two lengths and the flags.
const HEAD_LEN: usize = 12;
/// The least length of a name, in bytes with the null.
const MIN_NAME_LEN: u32 = 4;
/// The greatest length of a name, in bytes with the null.
const MAX_NAME_LEN: u32 = 65_534;

/// There are so many bytes.
fn enough(bytes: &[u8], need: usize) -> Result<(), RequestFault>
    ensures value { Gives Some (λ x. x) result (enough need bytes.now) }
    ensures ok { IfOk result (λ x. need ≤ length bytes.now) }
{
    if bytes.len() < need {
        return Err(RequestFault::Short {
            have: bytes.len() as u64,
            need: need as u64,
        });
    }
    Ok(())
}

/// The length of a name, in bytes with the null.
#[tactic(auto, unfolding(crate::specs::Request::length_of))]
fn length_of(field: Field, value: u32) -> Result<usize, RequestFault>
    ensures value { Gives Some (λ n. n) result (length_of field value) }
    ensures same { IfOk result (λ n. n ≡ value) }
    ensures even { IfOk result (λ n. n % 2 ≡ 0) }
    ensures low { IfOk result (λ n. 4 ≤ n) }
    ensures high { IfOk result (λ n. n ≤ 65534) }
{
    if value % 2 == 1 {
        return Err(RequestFault::OddLength { field });
    }
    if value < MIN_NAME_LEN || value > MAX_NAME_LEN {
        return Err(RequestFault::LengthRange { field, value });
    }
    Ok(value as usize)
}

/// Where the first null of a name stands, in units from 0.
fn first_null(name: &[u8]) -> Option<usize>
    ensures { result ≡ position is_null (units_of name.now) }
{
    let mut at = 0;
    let mut rest = name;
    while rest.len() >= 2 {
        if LittleEndian::read_u16(rest) == 0 {
            return Some(at);
        }
        at += 1;
        rest = &rest[2..];
    }
    None
}

/// The bytes of a name without the null at their end.
#[tactic(auto, unfolding(crate::specs::Request::name_of))]
fn name_of(field: Field, bytes: &[u8]) -> Result<&[u8], RequestFault>
    requires even { length bytes.now % 2 ≡ 0 }
    requires low { 4 ≤ length bytes.now }
    requires high { length bytes.now ≤ 65534 }
    ensures value { Gives Some (λ name. units_of name.now) result
        (name_of field (units_of bytes.now)) }
    ensures bytes { IfOk result (λ name. name.now ≡ take (length bytes.now - 2) bytes.now) }
    ensures name { IfOk result (λ name. IsLentName name.now) }
{
    let (name, null) = bytes.split_at(bytes.len() - 2);
    if LittleEndian::read_u16(null) != 0 {
        return Err(RequestFault::NoNull { field });
    }
    match first_null(name) {
        Some(at) => Err(RequestFault::EarlyNull {
            field,
            at: at as u64,
        }),
        None => Ok(name),
    }
}

/// Reads a request, whose names it lends.
///
/// Bytes behind the second name are left unread. This leniency, and the rules on lengths and nulls,
/// are this project's own.
#[tactic(auto, unfolding(crate::specs::Request::request_at))]
pub fn read(bytes: &[u8]) -> Result<CopyRequest<'_>, RequestFault>
    ensures value { Gives Some (λ r. request_of r.source.now r.destination.now r.flags) result
        (request_at bytes.now) }
    ensures source { IfOk result (λ r. r.source.now
        ≡ slice_range bytes.now 12 (10 + number_at 0 bytes.now)) }
    ensures destination { IfOk result (λ r. r.destination.now
        ≡ slice_range bytes.now (12 + number_at 0 bytes.now)
        (10 + number_at 0 bytes.now + number_at 4 bytes.now)) }
    ensures names { IfOk result (λ r. IsLentName r.source.now × IsLentName r.destination.now) }
{
    enough(bytes, HEAD_LEN)?;
    let source_len = length_of(Field::Source, LittleEndian::read_u32(bytes))?;
    let destination_len = length_of(Field::Destination, LittleEndian::read_u32(&bytes[4..]))?;
    let middle = HEAD_LEN + source_len;
    let end = middle + destination_len;
    enough(bytes, end)?;
    let source = name_of(Field::Source, &bytes[HEAD_LEN..middle])?;
    let destination = name_of(Field::Destination, &bytes[middle..end])?;
    Ok(CopyRequest {
        source,
        destination,
        flags: LittleEndian::read_u32(&bytes[8..]),
    })
}
