//! The image that is picked of those that a stop may leave.
ghost use Rattle.std.specs.Prelude.{◌≡◌, length, if◌then◌else◌, IfOk};
ghost use Rattle.sis_disk.specs.Picks.{loose_byte, picked_from};

use std::alloc::{AllocError, Global};

/// Which bytes an image has at the loose positions. Elsewhere it has the live bytes.
#[derive(Clone, Copy, Debug, PartialEq, Eq)]
pub enum Pick {
    /// Those of the last sync that succeeded.
    Old,
    /// The live ones.
    New,
    /// This byte at each.
    Fill(u8),
    /// The live ones at so many positions, the lowest, and those of the last sync behind.
    Front(u64),
}

// The byte at a loose position, which `before` loose ones come before.
fn loose_byte(pick: Pick, before: u64, old: u8, live: u8) -> u8
    ensures { result ≡ loose_byte pick before old live }
{
    match pick {
        Pick::Old => old,
        Pick::New => live,
        Pick::Fill(byte) => byte,
        Pick::Front(count) if before < count => live,
        Pick::Front(_) => old,
    }
}

fn byte_at(pick: Pick, is_loose: bool, before: u64, old: u8, live: u8) -> u8
    ensures { result ≡ if is_loose then loose_byte pick before old live else live }
{
    if is_loose {
        loose_byte(pick, before, old, live)
    } else {
        live
    }
}

/// The image that is picked, given the loose positions, and the bytes at the last sync and now.
pub fn picked(
    alloc: Global,
    pick: Pick,
    loose: &[bool],
    old: &[u8],
    live: &[u8],
) -> Result<Vec<u8>, AllocError>
    requires loose { length loose.now ≡ length live.now }
    requires old { length old.now ≡ length live.now }
    ensures { IfOk result (λ image. image.items ≡ picked_from pick 0 loose.now old.now live.now) }
{
    let mut image = Vec::with_capacity(alloc, live.len())?;
    let mut before = 0;
    for i in 0..live.len() {
        image.push(byte_at(pick, loose[i], before, old[i], live[i]))?;
        if loose[i] {
            before += 1;
        }
    }
    Ok(image)
}
