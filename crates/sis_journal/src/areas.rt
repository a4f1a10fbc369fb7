//! The bytes of an area, and how bytes and numbers are added to a buffer with room for them.
ghost use Rattle.std.specs.Prelude.{◌≡◌, ◌+◌, ◌≤◌, ◌++◌, length, vec_capacity};
ghost use Rattle.byteorder.specs.Endian.{little_bytes};
ghost use Rattle.sis_disk.specs.Areas.{area_bytes};

use crate::Kept;
use byteorder::{ByteOrder, LittleEndian};

/// Adds bytes. There is room, so no memory is taken.
pub fn put(out: &mut Vec<u8>, bytes: &[u8])
    requires { length out.old.items + length bytes.now ≤ vec_capacity out.old }
    ensures items { out.new.items ≡ out.old.items ++ bytes.now }
    ensures size { length out.new.items ≡ length out.old.items + length bytes.now }
    ensures capacity { vec_capacity out.old ≤ vec_capacity out.new }
{
    let _ = out.extend_from_slice(bytes);
}

/// Adds a number of eight bytes. There is room.
pub fn put_u64(out: &mut Vec<u8>, number: u64)
    requires { length out.old.items + 8 ≤ vec_capacity out.old }
    ensures items { out.new.items ≡ out.old.items ++ little_bytes 8 number }
    ensures size { length out.new.items ≡ length out.old.items + 8 }
    ensures capacity { vec_capacity out.old ≤ vec_capacity out.new }
{
    let mut bytes = [0; 8];
    LittleEndian::write_u64(&mut bytes, number);
    put(out, &bytes);
}

/// Adds the bytes of an area that keeps this value: the text's length, and the text. There is room.
#[tactic(auto, unfolding(sis_disk::specs::Areas::area_bytes))]
pub fn put_area<K: Kept>(value: &K, out: &mut Vec<u8>)
    requires { length out.old.items + 8 + length (K.text value.now) ≤ vec_capacity out.old }
    ensures text { out.new.items ≡ out.old.items ++ area_bytes (K.text value.now) }
    ensures size { length out.new.items ≡ length out.old.items + 8 + length (K.text value.now) }
    ensures capacity { vec_capacity out.old ≤ vec_capacity out.new }
{
    put_u64(out, value.encoded_len());
    let _ = value.encode(out);
}

/// The bytes of an area that keeps this value, and nothing else. There is room.
pub fn spell_area<K: Kept>(value: &K, buffer: &mut Vec<u8>)
    requires { 8 + length (K.text value.now) ≤ vec_capacity buffer.old }
    ensures text { buffer.new.items ≡ area_bytes (K.text value.now) }
    ensures capacity { vec_capacity buffer.old ≤ vec_capacity buffer.new }
{
    buffer.clear();
    put_area(value, buffer);
}
