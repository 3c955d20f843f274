//! The selectors of this machine's segments.

/// Code at CPL 0.
pub(crate) const SUPERVISOR_CODE: u16 = 0x08;

/// The stack at CPL 0.
pub(crate) const SUPERVISOR_STACK: u16 = 0x10;

/// Code at CPL 3.
pub(crate) const USER_CODE: u16 = 0x1B;

/// The stack at CPL 3.
pub(crate) const USER_STACK: u16 = 0x23;
