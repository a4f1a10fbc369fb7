//! Makes a disk an image that keeps a value.
ghost use Rattle.std.specs.Prelude.{◌≡◌, ◌⊎◌, ◌+◌, ◌*◌, ◌≤◌, ◌++◌, [], drop, length, vec_capacity, Err, IfOk, IfErr, IfSome, OnErr, OnOk};
ghost use Rattle.std.specs.Option.{option_map};
ghost use Rattle.byteorder.specs.Endian.{little_bytes};
ghost use Rattle.sis_disk.specs.Layout.{IsLayout, table_cap};
ghost use Rattle.sis_disk.specs.Record.{laid, live_of};
ghost use Rattle.sis_disk.specs.Stops.{Elapses, Now};
ghost use Rattle.sis_disk.specs.Superblock.{superblock};
ghost use Rattle.sis_journal.specs.Formatting.{CausedFormat, EndsInSync, new_blocks};
ghost use Rattle.sis_journal.specs.Texts.{HoldsText};

use crate::areas::{put, put_area, put_u64};
use crate::committing::write_stable;
use crate::{FormatFault, Journal, Kept};
use byteorder::{ByteOrder, LittleEndian};
use sis_disk::{BLOCK_LEN, Disk, Layout};
use std::alloc::{AllocError, Global};

/// Adds a number of four bytes. There is room.
fn put_u32(out: &mut Vec<u8>, number: u32)
    requires { length out.old.items + 4 ≤ vec_capacity out.old }
    ensures items { out.new.items ≡ out.old.items ++ little_bytes 4 number }
    ensures size { length out.new.items ≡ length out.old.items + 4 }
    ensures capacity { vec_capacity out.old ≤ vec_capacity out.new }
{
    let mut bytes = [0; 4];
    LittleEndian::write_u32(&mut bytes, number);
    put(out, &bytes);
}

/// The first block of an image. There is room.
fn put_superblock(out: &mut Vec<u8>, layout: &Layout)
    requires empty { out.old.items ≡ [] }
    requires room { 4096 ≤ vec_capacity out.old }
    ensures items { out.new.items ≡ superblock layout.now }
    ensures size { length out.new.items ≡ 4096 }
    ensures capacity { vec_capacity out.old ≤ vec_capacity out.new }
{
    put(out, b"SISIMAGE");
    put_u32(out, 1);
    put_u32(out, u32::from(layout.letter));
    put_u64(out, layout.total);
    put_u64(out, layout.area);
    put_u64(out, layout.log);
    put(out, &[0; 4056]);
}

/// The first blocks of an image that keeps this value in area A.
fn spell_image<K: Kept>(alloc: Global, layout: &Layout, value: &K) -> Result<Vec<u8>, AllocError>
    requires layout { IsLayout layout.now }
    requires fits { length (K.text value.now) ≤ table_cap layout.now }
    ensures bytes { IfOk result (λ bytes.
        bytes.items ≡ new_blocks layout.now (K.text value.now)) }
{
    let area_len = (8 + value.encoded_len()).next_multiple_of(BLOCK_LEN);
    let len = (2 * BLOCK_LEN + area_len) as usize;
    let mut out = Vec::with_capacity(alloc, len)?;
    put_superblock(&mut out, layout);
    // The selector's byte is 0: area A counts.
    put(&mut out, &[0; BLOCK_LEN as usize]);
    put_area(value, &mut out);
    out.resize(len, 0)?;
    Ok(out)
}

impl Journal {
    /// Makes the disk an image that keeps this value, by one write and one sync. The other area and
    /// the data blocks stay as they are.
    pub fn format<D: Disk, K: Kept>(
        alloc: Global,
        disk: &mut D,
        layout: Layout,
        value: &K,
    ) -> Result<(), FormatFault>
        requires layout { IsLayout layout }
        requires log { layout.log ≡ 0 }
        requires fits { length (K.text value.now) ≤ table_cap layout }
        // The disk holds the value, and a stop can't change that.
        ensures holds { OnOk result (IfSome (live_of (D.seen disk.new))
            (HoldsText layout (K.text value.now))) }
        ensures stable { OnOk result (Now (λ s. s.loose ≡ []) (D.seen disk.new)) }
        ensures synced { OnOk result (IfSome (D.seen disk.new).told EndsInSync) }
        // These are its first bytes, and those behind them are the old ones. Also after an error either
        // these are the first ones, or no live byte has changed.
        ensures bytes { OnOk result (live_of (D.seen disk.new)
            ≡ option_map (λ live. laid live 0 (new_blocks layout (K.text value.now)))
            (live_of (D.seen disk.old))) }
        ensures either { (live_of (D.seen disk.new) ≡ live_of (D.seen disk.old))
            ⊎ (live_of (D.seen disk.new)
            ≡ option_map (λ live. laid live 0 (new_blocks layout (K.text value.now)))
            (live_of (D.seen disk.old))) }
        ensures rest { option_map (drop (length (new_blocks layout (K.text value.now))))
            (live_of (D.seen disk.new))
            ≡ option_map (drop (length (new_blocks layout (K.text value.now))))
            (live_of (D.seen disk.old)) }

        // A disk of another length is refused, and nothing is written.
        ensures length { ¬ ((D.seen disk.old).size ≡ 4096 * layout.total)
            → (result ≡ Err (FormatFault.Length (D.seen disk.old).size (4096 * layout.total)))
            × (D.seen disk.new ≡ D.seen disk.old) }
        ensures cause { IfErr result (λ fault.
            CausedFormat fault layout (D.seen disk.old) (D.seen disk.new)) }
        ensures memory { result ≡ Err FormatFault.Memory
            → D.seen disk.new ≡ D.seen disk.old }

        // No call that failed is tried again.
        ensures quiet { OnOk result ((D.seen disk.new).faults ≡ (D.seen disk.old).faults) }
        ensures once { OnErr result ((D.seen disk.new).faults ≤ (D.seen disk.old).faults + 1) }

        ensures elapses { Elapses (D.seen disk.old) (D.seen disk.new) }
        ensures calls { (D.seen disk.new).calls ≤ (D.seen disk.old).calls + 2 }
    {
        let have = disk.len();
        let need = BLOCK_LEN * layout.total;
        if have != need {
            return Err(FormatFault::Length { have, need });
        }
        let bytes = spell_image(alloc, &layout, value)?;
        write_stable(disk, 0, &bytes)?;
        Ok(())
    }
}
