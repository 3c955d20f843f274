//! A stretch of quick turns: turns by lines of code on up to four pages, which are looked up once.

ghost use Rattle.std.specs.Prelude.{◌≡◌, ℕ, ◌+◌, ◌%◌, ◌<◌, ◌≤◌, true, false, All, length, slice_index_or};
ghost use Rattle.nk_bits.specs.declared.control.Control.{Control};
ghost use Rattle.nk_bits.specs.Translations.{NamesFramesIn, Translations};
ghost use Rattle.mem_access.specs.Windows.{IsWindow};
ghost use Rattle.cpu_step.specs.CodeLines.{AreTurns, IsLineBy, IsStretch, page_place};
ghost use Rattle.cpu_step.specs.KeptFetches.{IsKeptCode};

use crate::kept_code::{KeptCode, code_for, code_slot, kept_code};
use crate::line_turns::lines_run;
use crate::lines::Line;
use exec_quick::Running;
use mem_access::Window;
use nk_bits::Control;
use phys_mem::PhysMem;
use tlb_model::Tlb;

/// Makes quick turns by lines of code, at most so many, as long as they lead to code whose page is kept and serves fetches
/// and none would write a page of code. The first code is kept, and stands under each number until other code does.
pub(crate) fn stretch(
    lines: &mut Vec<Line>,
    stamp: &mut u64,
    first: &KeptCode,
    regs: &mut Running,
    control: &Control,
    mem: &mut PhysMem,
    tlb: &Tlb,
    most: u64,
) -> u64
    requires count { length lines.old.items ≡ 4096 }
    requires lines { All (IsLineBy stamp.old) lines.old.items }
    requires kept { IsKeptCode (length mem.old) control.now regs.old.cpl tlb.now first.now }
    requires frames { NamesFramesIn (length mem.old) tlb.now }
    ensures count { length lines.new.items ≡ 4096 }
    ensures lines { All (IsLineBy stamp.new) lines.new.items }
    ensures most { result ≤ most }
    ensures made { AreTurns result control.now tlb.now regs.old mem.old regs.new mem.new }
{
    if !raise(stamp) {
        return 0;
    }
    let mut codes = same_codes(first);
    let mut window = window_beside(first, mem);
    let mut count = 0;
    while count < most {
        let made = lines_run(
            lines,
            *stamp,
            &codes,
            regs,
            control,
            mem,
            tlb,
            &mut window,
            most - count,
        );
        count += made;
        if made == 0 || !keep_next(&mut codes, &mut window, stamp, regs, control, mem, tlb) {
            break;
        }
    }
    count
}

/// This code under each number.
fn same_codes(code: &KeptCode) -> [KeptCode; 4]
    ensures length { length result ≡ 4 }
    ensures codes { All (λ kept. kept ≡ code.now) result }
{
    [*code; 4]
}

/// A window without a page, which keeps no page for writes that has this code.
fn window_beside(code: &KeptCode, mem: &PhysMem) -> Window
    requires inside { code.now.base + code.now.last + 16 ≤ length mem.now }
    ensures off { (i : ℕ) → i < 4 → slice_index_or result.off i 0 ≡ page_place code.now }
    ensures window { (size : ℕ) (control : Control) (cpl : ℕ) (tlb : Translations) → IsWindow size control cpl tlb result }
{
    let _frames = mem.frames();
    Window::beside(code.place_of(0))
}

/// Keeps the code around RIP under its number, where RIP is in none of the codes that are kept and its page serves fetches;
/// no line counts any longer then. Else says that it doesn't.
#[inline(never)]
fn keep_next(
    codes: &mut [KeptCode; 4],
    window: &mut Window,
    stamp: &mut u64,
    regs: &Running,
    control: &Control,
    mem: &PhysMem,
    tlb: &Tlb,
) -> bool
    requires stretch { IsStretch (length mem.now) control.now regs.now.cpl tlb.now codes.old window.old }
    ensures stretch { IsStretch (length mem.now) control.now regs.now.cpl tlb.now codes.new window.new }
    ensures kept { result ≡ true → stamp.new ≡ stamp.old + 1 }
    ensures left { result ≡ false → stamp.new ≡ stamp.old }
{
    let rip = regs.rip();
    let slot = code_slot(rip);
    if is_in(code_for(codes, rip), rip) {
        return false;
    }
    let _frames = mem.frames();
    match kept_code(mem, tlb, control, &regs.regs()) {
        Some(code) => {
            window.keep_off(slot, code.place_of(0));
            codes[slot] = code;
            raise(stamp)
        }
        None => false,
    }
}

/// Takes the next stamp, which no line bears, if there is one.
fn raise(stamp: &mut u64) -> bool
    ensures raised { result ≡ true → stamp.new ≡ stamp.old + 1 }
    ensures left { result ≡ false → stamp.new ≡ stamp.old }
{
    if *stamp == u64::MAX {
        return false;
    }
    *stamp += 1;
    true
}

/// Whether a turn may begin at this address in the code.
fn is_in(code: &KeptCode, at: u64) -> bool
    requires page { code.now.start % 4096 + code.now.last ≤ 4080 }
{
    code.ahead(at).is_some()
}
