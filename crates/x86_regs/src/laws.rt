//! What follows from the definition of an effect, for those who say what a turn of the processor keeps.

ghost use Rattle.x86_regs.specs.EffectLaws.{EffectLaws, GrantLaws, BoundLaws};
ghost use Rattle.x86_regs.specs.AlikeLaws.{AlikeLaws};

use nk_bits::{access_law, kept_law, span_law};

/// What no instruction does by itself: it leaves the CPL and SS, and loads CR3 with a frame in memory alone. An
/// interrupt or a return moves RIP on, and leaves all else to its delivery.
pub fn effect_law()
    ensures { EffectLaws }
{}

/// Where registers have 64 bits and the instruction is well formed, they stay so, translations keep what holds of each,
/// and such translations grant the write. Only protected operations, at CPL 0, load a control register or a table.
pub fn grant_law()
    ensures { GrantLaws }
{
    access_law();
    kept_law();
}

/// The numbers of the fault of a well-formed instruction have 64 bits, where registers have, and so have those of the
/// fault that an access raises. What an act puts out is a byte, the vector that it asks for is one of 256, and its
/// value for CR2 has 64 bits.
pub fn bound_law()
    ensures { BoundLaws }
{
    access_law();
}

/// Over two memories that are alike where translations that pass a claim lead, an access, a load, the fetch of a byte
/// and an effect are the same: the answer or the fault, and what is kept afterwards.
pub fn alike_law()
    ensures { AlikeLaws }
{
    access_law();
    kept_law();
    span_law();
}
