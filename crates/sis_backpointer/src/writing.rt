//! Writes backpointers at the end of a vector that has room for them.
ghost use Rattle.std.specs.Prelude.{◌≡◌, ◌+◌, ◌*◌, ◌≤◌, ◌++◌, length, vec_capacity};
ghost use Rattle.sis_backpointer.specs.Backs.{le8, back_text, backs_text};

use crate::Back;
use byteorder::{ByteOrder, LittleEndian};

#[tactic(auto, unfolding(crate::specs::Backs::le8))]
fn put_u64(out: &mut Vec<u8>, number: u64)
    requires { length out.old.items + 8 ≤ vec_capacity out.old }
    ensures items { out.new.items ≡ out.old.items ++ le8 number }
    ensures size { length out.new.items ≡ length out.old.items + 8 }
    ensures room { vec_capacity out.old ≤ vec_capacity out.new }
{
    let mut bytes = [0; 8];
    LittleEndian::write_u64(&mut bytes, number);
    let _ = out.extend_from_slice(&bytes);
}

#[tactic(auto, unfolding(crate::specs::Backs::back_text))]
fn put_back(out: &mut Vec<u8>, back: &Back)
    requires { length out.old.items + 16 ≤ vec_capacity out.old }
    ensures items { out.new.items ≡ out.old.items ++ back_text back.now }
    ensures size { length out.new.items ≡ length out.old.items + 16 }
    ensures room { vec_capacity out.old ≤ vec_capacity out.new }
{
    let Back { index, file } = *back;
    put_u64(out, index);
    put_u64(out, file);
}

pub fn put_backs(out: &mut Vec<u8>, backs: &[Back])
    requires { length out.old.items + 16 * length backs.now ≤ vec_capacity out.old }
    ensures items { out.new.items ≡ out.old.items ++ backs_text backs.now }
    ensures size { length out.new.items ≡ length out.old.items + 16 * length backs.now }
    ensures room { vec_capacity out.old ≤ vec_capacity out.new }
{
    for back in backs {
        put_back(out, back);
    }
}
