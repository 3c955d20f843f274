//! Why an access fails.

/// The fault of an access by linear address.
#[derive(Clone, Copy, Debug, PartialEq, Eq)]
pub enum AccessFault {
    /// A page has no translation, or one that doesn't serve the access: #PF.
    Page {
        /// The page-fault error code: SDM volume 3, 4.7.
        code: u64,
        /// The linear address of the access's first byte on that page, for CR2.
        address: u64,
    },
    /// A byte's address isn't canonical: #GP, or #SS where the stack is addressed.
    NonCanonical,
}
