//! A copy request, whose names are lent from the bytes that it was read from.

/// What `FSCTL_SIS_COPYFILE` asks for: that one file become a copy of another.
///
/// The names are UTF-16 with the lower byte of each unit first, without the null at their end.
///
/// Source: the request of FSCTL_SIS_COPYFILE of [MS-FSCC].
#[derive(Clone, Copy, Debug, PartialEq, Eq)]
pub struct CopyRequest<'a> {
    /// The name of the file that is copied.
    pub source: &'a [u8],
    /// The name of the file that becomes its copy.
    pub destination: &'a [u8],
    /// All 32 bits as they were sent.
    pub flags: u32,
}
