//! The faults of an image.

ghost use Rattle.std.specs.Prelude.{◌≡◌};
ghost use Rattle.elf_image.specs.ImageFaults.{name_of, fault_number};

/// The rows by which the form of an image is judged, in order, and the value of each. Fields are named as in the ELF-64
/// object file format.
#[derive(Clone, Copy, Debug, PartialEq, Eq)]
pub enum FaultKind {
    /// The file is shorter than a file header: its length.
    Short,
    /// The file does not begin as ELF files do: 0.
    Magic,
    /// It is not of 64 bits, least byte first and version 1: the place of the first byte that says so.
    Class,
    /// It is no executable file: the place of `e_type`.
    FileType,
    /// It is not for x86-64: the place of `e_machine`.
    Machine,
    /// The program header table has entries of another size, none or more than 64, or passes the file's end: the
    /// place of `e_phentsize`, `e_phnum` or `e_phoff`.
    Table,
    /// A segment's part of the file is longer than its memory or passes the file's end: the header's index.
    SegmentRange,
    /// A segment's address and offset differ within a page, and it takes bytes of the file: the header's index.
    Align,
    /// A segment lies outside the home: the header's index.
    OutsideHome,
    /// A segment touches a page of an earlier one: the later header's index.
    SharedPage,
    /// A segment may be written and executed: the header's index.
    WritableCode,
    /// The entry lies in no segment that may be executed: the place of `e_entry`.
    BadEntry,
    /// The segments have more than 8,192 pages: their number.
    TooLarge,
}

impl FaultKind {
    /// The number of the kind, 1 to 13, as it is printed.
    pub fn number(self) -> u8
        ensures { result ≡ fault_number self }
    {
        match self {
            FaultKind::Short => 1,
            FaultKind::Magic => 2,
            FaultKind::Class => 3,
            FaultKind::FileType => 4,
            FaultKind::Machine => 5,
            FaultKind::Table => 6,
            FaultKind::SegmentRange => 7,
            FaultKind::Align => 8,
            FaultKind::OutsideHome => 9,
            FaultKind::SharedPage => 10,
            FaultKind::WritableCode => 11,
            FaultKind::BadEntry => 12,
            FaultKind::TooLarge => 13,
        }
    }

    /// The name of the kind, as it is printed.
    pub fn name(&self) -> &'static str
        ensures { result.now ≡ name_of self.now }
    {
        match self {
            FaultKind::Short => "Short",
            FaultKind::Magic => "Magic",
            FaultKind::Class => "Class",
            FaultKind::FileType => "FileType",
            FaultKind::Machine => "Machine",
            FaultKind::Table => "Table",
            FaultKind::SegmentRange => "SegmentRange",
            FaultKind::Align => "Align",
            FaultKind::OutsideHome => "OutsideHome",
            FaultKind::SharedPage => "SharedPage",
            FaultKind::WritableCode => "WritableCode",
            FaultKind::BadEntry => "BadEntry",
            FaultKind::TooLarge => "TooLarge",
        }
    }
}

/// The first fault of a file.
#[derive(Clone, Copy, Debug, PartialEq, Eq)]
pub struct ImageFault {
    /// The row that stands.
    pub kind: FaultKind,
    /// What the kind says: a length or a place in the file, in bytes, the index of a program header, or a number of pages.
    pub value: u64,
}

impl ImageFault {
    pub(crate) fn new(kind: FaultKind, value: u64) -> Self
        ensures { result ≡ record { kind = kind; value = value } }
    {
        ImageFault { kind, value }
    }
}
