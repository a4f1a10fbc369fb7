//! What a file of the table is.
ghost use Rattle.std.specs.Prelude.{◌≡◌};
ghost use Rattle.sis_table.specs.Kinds.{is_fit, is_plain, is_user, kind_byte, kind_of};

use sis_name::Name;

/// What a file of the table is.
#[derive(Clone, Copy, Debug, PartialEq, Eq)]
pub enum NodeKind {
    /// A user's file whose blocks are its own.
    Plain,
}

impl NodeKind {
    /// A file whose blocks are its own alone.
    pub fn is_plain(self) -> bool
        ensures { result ≡ is_plain self }
    {
        match self {
            NodeKind::Plain => true,
        }
    }

    /// A file that users see.
    pub fn is_user(self) -> bool
        ensures { result ≡ is_user self }
    {
        match self {
            NodeKind::Plain => true,
        }
    }

    /// A file of this kind may have the name.
    pub fn fits(self, name: &Name) -> bool
        ensures { result ≡ is_fit self name.now }
    {
        match self {
            NodeKind::Plain => !name.is_store(),
        }
    }

    /// The byte that spells it.
    pub(crate) fn byte(self) -> u8
        ensures { result ≡ kind_byte self }
    {
        match self {
            NodeKind::Plain => 0,
        }
    }

    /// The kind that a byte spells.
    pub(crate) fn from_byte(byte: u8) -> Option<NodeKind>
        ensures { result ≡ kind_of byte }
    {
        match byte {
            0 => Some(NodeKind::Plain),
            _ => None,
        }
    }
}
