//! Writes a request.
ghost use Rattle.std.specs.Prelude.{◌≡◌, ◌+◌, ◌≤◌, ◌++◌, length, vec_capacity, IsOk, OnOk, OnErr};
ghost use Rattle.sis_request.specs.Request.{IsRequest, IsRequestName, IsLentName, units_of, le4, name_len, name_text, request_of, request_text};

use crate::CopyRequest;
use byteorder::{ByteOrder, LittleEndian};
use std::alloc::AllocError;

/// The null at the end of a name.
const NULL: [u8; 2] = [0; 2];

fn put(out: &mut Vec<u8>, bytes: &[u8])
    requires { length out.old.items + length bytes.now ≤ vec_capacity out.old }
    ensures items { out.new.items ≡ out.old.items ++ bytes.now }
    ensures size { length out.new.items ≡ length out.old.items + length bytes.now }
    ensures room { vec_capacity out.old ≤ vec_capacity out.new }
{
    let _ = out.extend_from_slice(bytes);
}

#[tactic(auto, unfolding(crate::specs::Request::le4))]
fn put_u32(out: &mut Vec<u8>, number: u32)
    requires { length out.old.items + 4 ≤ vec_capacity out.old }
    ensures items { out.new.items ≡ out.old.items ++ le4 number }
    ensures size { length out.new.items ≡ length out.old.items + 4 }
    ensures room { vec_capacity out.old ≤ vec_capacity out.new }
{
    let mut bytes = [0; 4];
    LittleEndian::write_u32(&mut bytes, number);
    put(out, &bytes);
}

/// Writes a name and the null behind it.
fn put_name(out: &mut Vec<u8>, name: &[u8])
    requires name { IsLentName name.now }
    requires room { length out.old.items + (length name.now + 2) ≤ vec_capacity out.old }
    ensures items { out.new.items ≡ out.old.items ++ name_text (units_of name.now) }
    ensures size { length out.new.items ≡ length out.old.items + (length name.now + 2) }
    ensures room { vec_capacity out.old ≤ vec_capacity out.new }
{
    put(out, name);
    put(out, &NULL);
}

/// How many bytes a name takes, with its null.
fn name_len(name: &[u8]) -> u32
    requires { IsLentName name.now }
    ensures value { result ≡ name_len (units_of name.now) }
    ensures bytes { result ≡ length name.now + 2 }
    ensures name { IsRequestName (units_of name.now) }
{
    name.len() as u32 + 2
}

/// Appends the bytes of a request. Takes no memory where there is room.
#[tactic(auto, unfolding(crate::specs::Request::request_text))]
pub fn write(request: &CopyRequest<'_>, out: &mut Vec<u8>) -> Result<(), AllocError>
    requires source { IsLentName request.now.source.now }
    requires destination { IsLentName request.now.destination.now }
    ensures ok { OnOk result (out.new.items ≡ out.old.items ++ request_text
        (request_of request.now.source.now request.now.destination.now request.now.flags)) }
    ensures err { OnErr result (out.new.items ≡ out.old.items) }
    ensures capacity { vec_capacity out.old ≤ vec_capacity out.new }
    ensures room { length out.old.items
        + (16 + length request.now.source.now + length request.now.destination.now)
        ≤ vec_capacity out.old → IsOk result }
    ensures request { IsRequest
        (request_of request.now.source.now request.now.destination.now request.now.flags) }
{
    let CopyRequest {
        source,
        destination,
        flags,
    } = *request;
    let source_len = name_len(source);
    let destination_len = name_len(destination);
    out.reserve(12 + source_len as usize + destination_len as usize)?;
    put_u32(out, source_len);
    put_u32(out, destination_len);
    put_u32(out, flags);
    put_name(out, source);
    put_name(out, destination);
    Ok(())
}
