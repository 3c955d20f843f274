//! The kinds of frames.

ghost use Rattle.std.specs.Prelude.{◌≡◌, nat_lt};
ghost use Rattle.nk_bits.specs.Kinds.{is_data, level_of};

/// What a frame of memory is used as.
#[derive(Clone, Copy, Debug, PartialEq, Eq)]
pub enum Kind {
    /// Data of the outer kernel and of its processes, and frames that are free.
    Data,
    /// An executable page of the outer kernel's image.
    Code,
    /// A page table of this level, 1 to 4.
    Table(u8),
    /// The nested kernel's text, stack and tables, which no call changes, and the handler slot.
    Fixed,
    /// The trap stack.
    Trap,
    /// Bytes of protected regions, allocated or declared.
    Guarded,
    /// The nested kernel's own books, which no leaf may name.
    Hidden,
}

impl Kind {
    /// The level of a table; 0 for every other kind.
    pub fn level(self) -> u8
        ensures { result ≡ level_of self }
    {
        match self {
            Kind::Table(level) => level,
            _ => 0,
        }
    }

    /// Whether the frame is a page table.
    pub fn is_table(self) -> bool
        ensures { result ≡ nat_lt 0 (level_of self) }
    {
        self.level() > 0
    }

    /// Whether the frame holds data.
    pub fn is_data(self) -> bool
        ensures { result ≡ is_data self }
    {
        match self {
            Kind::Data => true,
            _ => false,
        }
    }
}
