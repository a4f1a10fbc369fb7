//! The statuses that calls answer, with the numbers that Windows gives them.
ghost use Rattle.std.specs.Prelude.{◌≡◌};
ghost use Rattle.sis_name.specs.Status.{status_number};

/// A status, named as Windows names it without the prefix `STATUS_`.
///
/// Source: the NTSTATUS values of [MS-ERREF].
#[derive(Clone, Copy, Debug, PartialEq, Eq)]
pub enum Status {
    Success = 0x0000_0000,
    InvalidHandle = 0xC000_0008,
    InvalidParameter = 0xC000_000D,
    InvalidDeviceRequest = 0xC000_0010,
    AccessDenied = 0xC000_0022,
    ObjectTypeMismatch = 0xC000_0024,
    ObjectNameInvalid = 0xC000_0033,
    ObjectNameNotFound = 0xC000_0034,
    ObjectNameCollision = 0xC000_0035,
    SharingViolation = 0xC000_0043,
    DiskFull = 0xC000_007F,
    InsufficientResources = 0xC000_009A,
    NotSameDevice = 0xC000_00D4,
    IoDeviceError = 0xC000_0185,
}

impl Status {
    /// The status as an NTSTATUS value.
    pub fn number(&self) -> u32
        ensures value { result ≡ status_number self.now }
    {
        *self as u32
    }
}
