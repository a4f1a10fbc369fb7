//! Reads an image: its first block, its selector, and the area that is selected.
ghost use Rattle.std.specs.Prelude.{◌≡◌, ◌≢◌, ◌^◌, ◌+◌, ◌*◌, ◌≤◌, ◌==◌, ℕ, [], List, Ok, length, take, drop, slice_index, slice_range, vec_capacity, IfOk, IfErr, IfSome, OnOk, OnErr, Result};
ghost use Rattle.byteorder.specs.Endian.{little_bytes, little_number};
ghost use Rattle.sis_disk.specs.Areas.{TextFault, area_bytes, area_start, read_by, shifted, text_at};
ghost use Rattle.sis_disk.specs.Layout.{IsLayout, table_cap};
ghost use Rattle.sis_disk.specs.Record.{Rose, Syncs, Went, live_of};
ghost use Rattle.sis_disk.specs.Stops.{Now};
ghost use Rattle.sis_disk.specs.Superblock.{superblock, superblock_at};
ghost use Rattle.sis_journal.specs.declared.fault.OpenFault.TheVariants as faults;
ghost use Rattle.sis_journal.specs.Inside.{IsOutside, OnlyReads};
ghost use Rattle.sis_journal.specs.Opening.{Caused, CountsFault, FailsReading};
ghost use Rattle.sis_journal.specs.Texts.{HoldsText};
ghost use Rattle.sis_journal.specs.View.{FailsText, IsWithin};

use crate::superblock::read_superblock;
use crate::{Kept, KeptFault, OpenFault};
use byteorder::{ByteOrder, LittleEndian};
use sis_disk::{BLOCK_LEN, Disk, DiskFault, ImageKind, Layout};
use std::alloc::Global;

/// Makes all that was written stable, so that what is read is what every later stop leaves.
#[tactic(auto, using(crate::proofs::ReadCalls::syncs))]
pub fn sync_first<D: Disk>(disk: &mut D) -> Result<(), DiskFault>
    ensures call { Went Syncs result (D.seen disk.old) (D.seen disk.new) }
    ensures stable { OnOk result (Now (λ s. s.loose ≡ []) (D.seen disk.new)) }
    ensures live { live_of (D.seen disk.new) ≡ live_of (D.seen disk.old) }
{
    disk.sync()
}

/// Reads the live bytes from `at` on.
fn read_at<D: Disk>(disk: &mut D, at: u64, into: &mut [u8]) -> Result<(), DiskFault>
    requires { at + length into.old ≤ (D.seen disk.old).size }
    ensures reads { OnlyReads 1 (D.seen disk.old) (D.seen disk.new) }
    ensures bytes { OnOk result (IfSome (live_of (D.seen disk.old))
        (λ live. into.new ≡ slice_range live at (at + length into.old))) }
    ensures cause { OnErr result (Rose (D.seen disk.old).faults (D.seen disk.new).faults) }
    ensures once { OnErr result ((D.seen disk.new).faults ≤ (D.seen disk.old).faults + 1) }
    ensures quiet { OnOk result ((D.seen disk.new).faults ≡ (D.seen disk.old).faults) }
{
    disk.read(at, into)
}

/// The layout that the first block states.
fn read_layout<D: Disk>(disk: &mut D) -> Result<Layout, OpenFault>
    ensures reads { OnlyReads 1 (D.seen disk.old) (D.seen disk.new) }
    ensures value { IfOk result (λ l. IfSome (live_of (D.seen disk.old))
        (λ live. superblock_at (length live) (take 4096 live) ≡ Ok l)) }
    ensures block { IfOk result (λ l. IfSome (live_of (D.seen disk.old))
        (λ live. take 4096 live ≡ superblock l)) }
    ensures layout { IfOk result IsLayout }
    ensures size { IfOk result (λ l. (D.seen disk.old).size ≡ 4096 * l.total) }
    ensures log { IfOk result (λ l. l.log ≡ 0) }
    ensures fault { IfErr result (λ fault. IfSome (live_of (D.seen disk.old))
        (λ live. FailsReading fault (superblock_at (length live) (take 4096 live)))) }
    ensures cause { IfErr result
        (λ fault. Caused fault (D.seen disk.old).faults (D.seen disk.new).faults) }
    ensures quiet { OnOk result ((D.seen disk.new).faults ≡ (D.seen disk.old).faults) }
    ensures refused_quiet { IfErr result
        (λ fault. CountsFault fault (D.seen disk.old).faults (D.seen disk.new).faults) }
{
    let size = disk.len();
    if size < BLOCK_LEN {
        return Err(OpenFault::Image {
            at: 0,
            kind: ImageKind::Length,
        });
    }
    let mut block = [0; BLOCK_LEN as usize];
    read_at(disk, 0, &mut block)?;
    match read_superblock(size, &block) {
        Ok(layout) => Ok(layout),
        Err((at, kind)) => Err(OpenFault::Image { at, kind }),
    }
}

/// Whether area B is selected.
fn read_selector<D: Disk>(disk: &mut D) -> Result<bool, DiskFault>
    requires { 4097 ≤ (D.seen disk.old).size }
    ensures reads { OnlyReads 1 (D.seen disk.old) (D.seen disk.new) }
    ensures value { IfOk result (λ second. IfSome (live_of (D.seen disk.old))
        (λ live. (slice_index live 4096 == 1) ≡ second)) }
    ensures cause { OnErr result (Rose (D.seen disk.old).faults (D.seen disk.new).faults) }
    ensures once { OnErr result ((D.seen disk.new).faults ≤ (D.seen disk.old).faults + 1) }
    ensures quiet { OnOk result ((D.seen disk.new).faults ≡ (D.seen disk.old).faults) }
{
    let mut byte = [0];
    read_at(disk, BLOCK_LEN, &mut byte)?;
    Ok(byte[0] == 1)
}

/// The number that eight bytes spell.
fn number_of(bytes: &[u8]) -> u64
    requires { length bytes.now ≡ 8 }
    ensures value { result ≡ little_number 8 bytes.now }
    ensures spelled { little_bytes 8 result ≡ bytes.now }
{
    LittleEndian::read_u64(bytes)
}

/// How long the text of an area is that begins at `at`, as the area says.
fn read_len<D: Disk>(disk: &mut D, at: u64) -> Result<u64, DiskFault>
    requires { at + 8 ≤ (D.seen disk.old).size }
    ensures reads { OnlyReads 1 (D.seen disk.old) (D.seen disk.new) }
    ensures value { IfOk result (λ len. IfSome (live_of (D.seen disk.old))
        (λ live. little_number 8 (drop at live) ≡ len)) }
    ensures bytes { IfOk result (λ len. IfSome (live_of (D.seen disk.old))
        (λ live. slice_range live at (at + 8) ≡ little_bytes 8 len)) }
    ensures cause { OnErr result (Rose (D.seen disk.old).faults (D.seen disk.new).faults) }
    ensures once { OnErr result ((D.seen disk.new).faults ≤ (D.seen disk.old).faults + 1) }
    ensures quiet { OnOk result ((D.seen disk.new).faults ≡ (D.seen disk.old).faults) }
{
    let mut bytes = [0; 8];
    read_at(disk, at, &mut bytes)?;
    Ok(number_of(&bytes))
}

/// The text of an area that begins at `at`, in a buffer with room for the whole area.
fn read_text<D: Disk>(
    alloc: Global,
    disk: &mut D,
    layout: &Layout,
    at: u64,
    len: u64,
) -> Result<Vec<u8>, OpenFault>
    requires layout { IsLayout layout.now }
    requires fits { len ≤ table_cap layout.now }
    requires size { (D.seen disk.old).size ≡ 4096 * layout.now.total }
    requires inside { at + 4096 * layout.now.area ≤ 4096 * layout.now.total }
    ensures reads { OnlyReads 1 (D.seen disk.old) (D.seen disk.new) }
    ensures text { IfOk result (λ text. IfSome (live_of (D.seen disk.old))
        (λ live. text.items ≡ slice_range live (at + 8) (at + 8 + len))) }
    ensures size { IfOk result (λ text. length text.items ≡ len) }
    ensures room { IfOk result (λ text. 4096 * layout.now.area ≤ vec_capacity text) }
    ensures fault { IfErr result IsOutside }
    ensures cause { IfErr result
        (λ fault. Caused fault (D.seen disk.old).faults (D.seen disk.new).faults) }
    ensures quiet { OnOk result ((D.seen disk.new).faults ≡ (D.seen disk.old).faults) }
    ensures refused_quiet { IfErr result
        (λ fault. CountsFault fault (D.seen disk.old).faults (D.seen disk.new).faults) }
{
    let mut text = Vec::with_capacity(alloc, (BLOCK_LEN * layout.area) as usize)?;
    text.resize(len as usize, 0)?;
    read_at(disk, at + 8, &mut text)?;
    Ok(text)
}

/// The selected area: which it is, where it begins, and its text in a buffer with room for it all.
#[derive(Drop)]
pub struct Area {
    pub second: bool,
    pub at: u64,
    pub buffer: Vec<u8>,
}

/// The area that the selector names: its text's length, and then the text alone.
fn read_area<D: Disk>(alloc: Global, disk: &mut D, layout: &Layout) -> Result<Area, OpenFault>
    requires layout { IsLayout layout.now }
    requires size { (D.seen disk.old).size ≡ 4096 * layout.now.total }
    ensures reads { OnlyReads 3 (D.seen disk.old) (D.seen disk.new) }
    ensures selector { IfOk result (λ area. IfSome (live_of (D.seen disk.old))
        (λ live. (slice_index live 4096 == 1) ≡ area.second)) }
    ensures place { IfOk result (λ area. area.at ≡ area_start layout.now area.second) }
    ensures text { IfOk result (λ area. IfSome (live_of (D.seen disk.old))
        (λ live. text_at layout.now live ≡ Ok area.buffer.items)) }
    ensures bytes { IfOk result (λ area. IfSome (live_of (D.seen disk.old))
        (λ live. slice_range live area.at (area.at + length (area_bytes area.buffer.items))
        ≡ area_bytes area.buffer.items)) }
    ensures fits { IfOk result (λ area. length area.buffer.items ≤ table_cap layout.now) }
    ensures room { IfOk result (λ area. 4096 * layout.now.area ≤ vec_capacity area.buffer) }
    ensures fault { IfErr result (λ fault. IfSome (live_of (D.seen disk.old))
        (λ live. FailsReading fault (text_at layout.now live))) }
    ensures cause { IfErr result
        (λ fault. Caused fault (D.seen disk.old).faults (D.seen disk.new).faults) }
    ensures quiet { OnOk result ((D.seen disk.new).faults ≡ (D.seen disk.old).faults) }
    ensures refused_quiet { IfErr result
        (λ fault. CountsFault fault (D.seen disk.old).faults (D.seen disk.new).faults) }
{
    let second = read_selector(disk)?;
    let at = layout.area_start(second);
    let len = read_len(disk, at)?;
    if len > layout.cap() {
        return Err(OpenFault::Image {
            at,
            kind: ImageKind::TableLength,
        });
    }
    let buffer = read_text(alloc, disk, layout, at, len)?;
    Ok(Area { second, at, buffer })
}

// A text's fault as one of the image, where the text begins at `at`.
fn in_image<K: Kept>(at: u64, fault: KeptFault) -> OpenFault
    requires place { at ≤ 2 ^ 40 }
    requires bound { IsWithin (2 ^ 40) fault }
    ensures value { (read : Result K TextFault) → FailsText fault read
        → FailsReading result (shifted at read) }
    ensures fault { result ≢ faults.Disk }
{
    match fault {
        KeptFault::At { at: place, kind } => OpenFault::Image {
            at: at + place,
            kind: ImageKind::Table(kind),
        },
        KeptFault::Memory => OpenFault::Memory,
    }
}

/// The value that a text spells, where the text's area begins at `at`.
fn value_of<K: Kept>(alloc: Global, text: &[u8], at: u64, layout: Layout) -> Result<K, OpenFault>
    requires layout { IsLayout layout }
    requires fits { length text.now ≤ table_cap layout }
    requires place { at ≤ 4096 * layout.total }
    ensures value { IfOk result (λ value. K.read layout text.now ≡ Ok value) }
    ensures spelled { IfOk result (λ value. K.text value ≡ text.now) }
    ensures fault { IfErr result
        (λ fault. FailsReading fault (shifted (at + 8) (K.read layout text.now))) }
    ensures outside { IfErr result (λ fault. fault ≢ faults.Disk) }
{
    match K::decode(alloc, text, layout) {
        Ok(value) => Ok(value),
        Err(fault) => Err(in_image::<K>(at + 8, fault)),
    }
}

/// Reads the image: its first block, its selector, and the selected area.
pub fn read_image<D: Disk, K: Kept>(
    alloc: Global,
    disk: &mut D,
) -> Result<(Area, Layout, K), OpenFault>
    ensures reads { OnlyReads 4 (D.seen disk.old) (D.seen disk.new) }
    ensures image { IfOk result (λ x. IfSome (live_of (D.seen disk.old))
        (λ live. read_by K.read live ≡ Ok x.2)) }
    ensures holds { IfOk result (λ x. IfSome (live_of (D.seen disk.old))
        (λ live. HoldsText x.1 (K.text x.2) live)) }
    ensures selector { IfOk result (λ x. IfSome (live_of (D.seen disk.old))
        (λ live. (slice_index live 4096 == 1) ≡ x.0.second)) }
    ensures read { IfOk result (λ x. (bytes : List ℕ) × (K.read x.1 bytes ≡ Ok x.2)) }
    ensures fits { IfOk result (λ x. length (K.text x.2) ≤ table_cap x.1) }
    ensures layout { IfOk result (λ x. IsLayout x.1) }
    ensures log { IfOk result (λ x. x.1.log ≡ 0) }
    ensures size { IfOk result (λ x. (D.seen disk.old).size ≡ 4096 * x.1.total) }
    ensures room { IfOk result (λ x. 4096 * x.1.area ≤ vec_capacity x.0.buffer) }
    ensures fault { IfErr result (λ fault. IfSome (live_of (D.seen disk.old))
        (λ live. FailsReading fault (read_by K.read live))) }
    ensures cause { IfErr result
        (λ fault. Caused fault (D.seen disk.old).faults (D.seen disk.new).faults) }
    ensures quiet { OnOk result ((D.seen disk.new).faults ≡ (D.seen disk.old).faults) }
    ensures refused_quiet { IfErr result
        (λ fault. CountsFault fault (D.seen disk.old).faults (D.seen disk.new).faults) }
{
    let layout = read_layout(disk)?;
    let area = read_area(alloc, disk, &layout)?;
    let value = value_of(alloc, &area.buffer, area.at, layout)?;
    Ok((area, layout, value))
}
