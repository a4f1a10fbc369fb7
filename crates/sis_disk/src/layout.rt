//! The numbers of a superblock, and what can be wrong with an image.
ghost use Rattle.std.specs.Prelude.{◌≡◌};
ghost use Rattle.sis_disk.specs.Areas.{area_start};
ghost use Rattle.sis_disk.specs.Layout.{IsLayout, first_place, data_blocks, table_cap};

use thiserror::Error;

/// The length of a block, in bytes.
pub const BLOCK_LEN: u64 = 4096;

/// How an image is divided. All lengths are in blocks of 4,096 bytes.
#[derive(Clone, Copy, Debug, PartialEq, Eq)]
pub struct Layout {
    /// The whole image, 16 to 1,048,576 blocks.
    pub total: u64,
    /// Each of the two areas for a table, 1 to 16,384 blocks.
    pub area: u64,
    /// Each of the two logs, 0 to 4,096 blocks.
    pub log: u64,
    /// The volume's letter, the code of `A` to `Z`.
    pub letter: u8,
}

impl Layout {
    /// The place of the first data block.
    pub fn first_place(&self) -> u64
        requires { IsLayout self.now }
        ensures { result ≡ first_place self.now }
    {
        2 + 2 * (self.area + self.log)
    }

    /// The number of data blocks, at least 1.
    pub fn data_blocks(&self) -> u64
        requires { IsLayout self.now }
        ensures { result ≡ data_blocks self.now }
    {
        self.total - self.first_place()
    }

    /// Where an area begins, in bytes: area B where `second` is set, else area A.
    pub fn area_start(&self, second: bool) -> u64
        requires { IsLayout self.now }
        ensures { result ≡ area_start self.now second }
    {
        if second {
            BLOCK_LEN * (2 + self.area + self.log)
        } else {
            2 * BLOCK_LEN
        }
    }

    /// The greatest length of a table, in bytes.
    pub fn cap(&self) -> u64
        requires { IsLayout self.now }
        ensures { result ≡ table_cap self.now }
    {
        BLOCK_LEN * self.area - 8
    }
}

/// What is wrong with an image, in the order in which its fields are judged.
#[derive(Clone, Copy, Debug, PartialEq, Eq, Error)]
pub enum ImageKind {
    /// It is shorter than a superblock, or its length isn't the superblock's.
    #[error("length")]
    Length,
    /// It doesn't begin with the text `SISIMAGE`.
    #[error("magic")]
    Magic,
    /// The format's version isn't 1.
    #[error("version")]
    Version,
    /// The letter isn't one of `A` to `Z`.
    #[error("letter")]
    Letter,
    /// The number of blocks is out of range.
    #[error("total")]
    Total,
    /// The area's length is out of range, or leaves no data block.
    #[error("area")]
    Area,
    /// The log's length isn't 0: no image has a log yet.
    #[error("log")]
    Log,
    /// A byte of the superblock behind its fields isn't 0.
    #[error("zero")]
    Zero,
    /// The table's length doesn't fit its area.
    #[error("tablelength")]
    TableLength,
    /// The table itself is wrong.
    #[error("{0}")]
    Table(TableKind),
}

/// What is wrong with a table, in the order in which its fields are judged.
#[derive(Clone, Copy, Debug, PartialEq, Eq, Error)]
pub enum TableKind {
    /// The bytes end before the field does.
    #[error("table-short")]
    Short,
    /// The next id is 0 or above the greatest id.
    #[error("table-next")]
    Next,
    /// The greatest index is above its limit.
    #[error("table-greatest")]
    Greatest,
    /// There are too many nodes.
    #[error("table-count")]
    Count,
    /// An id is 0, doesn't rise, or isn't below the next id.
    #[error("table-id")]
    Id,
    /// A name is no name, is a store file's, or stands twice.
    #[error("table-name")]
    Name,
    /// There is no such kind of node.
    #[error("table-kind")]
    Kind,
    /// A size is above its limit.
    #[error("table-size")]
    Size,
    /// A node's version is 0 or above its limit.
    #[error("table-nodeversion")]
    NodeVersion,
    /// A run is empty, out of order, out of range, or could be joined with the one before.
    #[error("table-run")]
    Run,
    /// Bytes follow the last node.
    #[error("table-trailing")]
    Trailing,
}

/// Why the nodes of a table don't go together.
#[derive(Clone, Copy, Debug, PartialEq, Eq, Error)]
pub enum GoodKind {
    /// A place is mapped twice.
    #[error("placetwice")]
    PlaceTwice,
}
