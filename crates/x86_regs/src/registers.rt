//! The general registers, with reads and partial writes. A width is in bits: 8, 16, 32 or 64.

ghost use Rattle.std.specs.Prelude.{◌≡◌, ◌+◌, ◌*◌, ◌/◌, ◌%◌, ◌^◌, ◌<◌};
ghost use Rattle.decode_fields.specs.Bounds.{IsPlace};
ghost use Rattle.decode_fields.specs.Widths.{IsWidth};
ghost use Rattle.x86_regs.specs.Registers.{IsRegister, held, low_written, high_written, written};
ghost use Rattle.x86_regs.specs.Operands.{with_register};

use decode_fields::Place;

/// The registers that instructions name, and the state that a delivery saves.
#[derive(Clone, Copy, Debug, PartialEq, Eq)]
pub struct Regs {
    /// RAX, RCX, RDX, RBX, RSP, RBP, RSI, RDI and R8 to R15.
    pub general: [u64; 16],
    pub rip: u64,
    /// RFLAGS.
    pub flags: u64,
    /// The current privilege level, 0 or 3.
    pub cpl: u8,
    /// The selector in SS.
    pub ss: u16,
}

impl Regs {
    /// What a register or a part of it holds.
    pub fn read(&self, place: &Place, width: u8) -> u64
        requires { IsRegister place.now width }
        ensures { result ≡ held self.now.general place.now width }
    {
        held(&self.general, place, width)
    }

    /// Writes a register or a part of it: a write of 32 bits clears the upper half, and a smaller one keeps the bits
    /// outside.
    pub fn set(&mut self, place: &Place, width: u8, value: u64)
        requires { IsRegister place.now width }
        ensures { self.new ≡ record self.old { general = written self.old.general place.now width value } }
    {
        set_place(&mut self.general, place, width, value);
    }
}

/// What a register or a part of it holds, and 0 for a place of another kind.
#[inline(always)]
pub fn held(general: &[u64; 16], place: &Place, width: u8) -> u64
    requires width { IsWidth width }
    requires place { IsPlace place.now }
    ensures { result ≡ held general.now place.now width }
{
    match *place {
        Place::Reg(number) => low(width, general[number as usize]),
        Place::High(number) => general[number as usize] >> 8 & 0xff,
        Place::Nothing | Place::Mem(_) | Place::Value => 0,
    }
}

/// The registers after a write to one of them or to a part of it; a place of another kind leaves them.
pub fn written(general: &[u64; 16], place: &Place, width: u8, value: u64) -> [u64; 16]
    requires width { IsWidth width }
    requires place { IsPlace place.now }
    ensures { result ≡ written general.now place.now width value }
{
    let mut after = *general;
    set_place(&mut after, place, width, value);
    after
}

/// Writes one of the registers or a part of it in place.
#[inline(always)]
pub fn set_place(general: &mut [u64; 16], place: &Place, width: u8, value: u64)
    requires width { IsWidth width }
    requires place { IsPlace place.now }
    ensures { general.new ≡ written general.old place.now width value }
{
    match *place {
        Place::Reg(number) => {
            let old = general[number as usize];
            general[number as usize] = low_written(width, old, value);
        }
        Place::High(number) => {
            let old = general[number as usize];
            general[number as usize] = high_written(old, value);
        }
        Place::Nothing | Place::Mem(_) | Place::Value => {}
    }
}

/// The registers with this one whole.
pub fn with_register(general: &[u64; 16], number: u8, value: u64) -> [u64; 16]
    requires { number < 16 }
    ensures { result ≡ with_register general.now number value }
{
    let mut after = *general;
    set_register(&mut after, number, value);
    after
}

/// Writes one of the registers whole, in place.
#[inline(always)]
pub fn set_register(general: &mut [u64; 16], number: u8, value: u64)
    requires { number < 16 }
    ensures { general.new ≡ with_register general.old number value }
{
    general[number as usize] = value;
}

/// The low bits of a number, as many as the width.
#[inline(always)]
pub fn low(width: u8, value: u64) -> u64
    requires { IsWidth width }
    ensures { result ≡ value % 2 ^ width }
{
    value & (u64::MAX >> (64 - width))
}

#[inline(always)]
fn low_written(width: u8, old: u64, value: u64) -> u64
    requires { IsWidth width }
    ensures { result ≡ low_written width old value }
{
    if width == 64 {
        value
    } else if width == 32 {
        low(32, value)
    } else {
        joined(width, old, low(width, value))
    }
}

#[inline(always)]
fn high_written(old: u64, value: u64) -> u64
    ensures { result ≡ high_written old value }
{
    joined(16, old, low(8, value) << 8 | low(8, old))
}

/// The bits of `above` from `width` on, over `below`.
#[inline(always)]
fn joined(width: u8, above: u64, below: u64) -> u64
    requires width { width < 64 }
    requires fits { below < 2 ^ width }
    ensures { result ≡ above / 2 ^ width * 2 ^ width + below }
{
    above >> width << width | below
}
