//! Reads the first block of an image.
ghost use Rattle.std.specs.Prelude.{◌≡◌, ◌==◌, ◌||◌, nat_lt, nat_le, not, nat_eq, take, length, IfOk, ◌+◌, ◌*◌, position};
ghost use Rattle.std.specs.Cmp.Lexicographic.{pointwise};
ghost use Rattle.sis_disk.specs.Layout.{IsLayout};
ghost use Rattle.sis_disk.specs.Superblock.{superblock, superblock_at, magic};

use byteorder::{ByteOrder, LittleEndian};
use sis_disk::{BLOCK_LEN, ImageKind, Layout};

/// Where the first field is whose rule fails, and the rule.
pub type ImageFault = (u64, ImageKind);

fn is_other_text(block: &[u8]) -> bool
    requires { length block.now ≡ 4096 }
    ensures { result ≡ not (pointwise nat_eq (take 8 block.now) magic) }
{
    &block[..8] != b"SISIMAGE".as_slice()
}

fn is_no_letter(letter: u32) -> bool
    ensures { result ≡ (nat_lt letter 65 || nat_lt 90 letter) }
{
    letter < 65 || letter > 90
}

fn is_bad_total(total: u64) -> bool
    ensures { result ≡ (nat_lt total 16 || nat_lt 1048576 total) }
{
    total < 16 || total > 1_048_576
}

fn is_bad_area(area: u64, total: u64) -> bool
    ensures { result ≡ (nat_lt area 1 || nat_lt 16384 area || nat_le total (2 + 2 * area)) }
{
    area < 1 || area > 16_384 || total <= 2 + 2 * area
}

/// Where the first byte stands that isn't 0.
fn first_set(bytes: &[u8]) -> Option<usize>
    ensures { result ≡ position (λ b. not (b == 0)) bytes.now }
{
    bytes.iter().position(|byte| *byte != 0)
}

// The fields in order, up to the first one whose rule fails.
#[tactic(auto, unfolding(sis_disk::specs::Superblock::superblock_at))]
fn read_fields(size: u64, block: &[u8]) -> Result<Layout, ImageFault>
    requires { length block.now ≡ 4096 }
    ensures value { result ≡ superblock_at size block.now }
    ensures log { IfOk result (λ l. l.log ≡ 0) }
{
    if size < BLOCK_LEN {
        return Err((0, ImageKind::Length));
    }
    if is_other_text(block) {
        return Err((0, ImageKind::Magic));
    }
    if LittleEndian::read_u32(&block[8..]) != 1 {
        return Err((8, ImageKind::Version));
    }
    let letter = LittleEndian::read_u32(&block[12..]);
    if is_no_letter(letter) {
        return Err((12, ImageKind::Letter));
    }
    let total = LittleEndian::read_u64(&block[16..]);
    if is_bad_total(total) {
        return Err((16, ImageKind::Total));
    }
    if size != BLOCK_LEN * total {
        return Err((16, ImageKind::Length));
    }
    let area = LittleEndian::read_u64(&block[24..]);
    if is_bad_area(area, total) {
        return Err((24, ImageKind::Area));
    }
    let log = LittleEndian::read_u64(&block[32..]);
    if log != 0 {
        return Err((32, ImageKind::Log));
    }
    match first_set(&block[40..]) {
        None => Ok(Layout {
            total,
            area,
            log,
            letter: letter as u8,
        }),
        Some(at) => Err((40 + at as u64, ImageKind::Zero)),
    }
}

/// The layout that the first block of an image of `size` bytes states, or its first fault.
pub fn read_superblock(size: u64, block: &[u8]) -> Result<Layout, ImageFault>
    requires { length block.now ≡ 4096 }
    // The value, or the first fault from the left.
    ensures value { result ≡ superblock_at size block.now }
    // What is read is spelled so.
    ensures block { IfOk result (λ l. block.now ≡ superblock l) }
    ensures layout { IfOk result IsLayout }
    ensures size { IfOk result (λ l. size ≡ 4096 * l.total) }
    ensures log { IfOk result (λ l. l.log ≡ 0) }
{
    read_fields(size, block)
}
