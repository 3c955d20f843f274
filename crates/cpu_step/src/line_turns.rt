//! Turns by lines of code.

ghost use Rattle.std.specs.Prelude.{◌≡◌, ◌+◌, ◌<◌, ◌≤◌, true, false, All, length};
ghost use Rattle.exec_quick.specs.QuickForms.{is_left, next_address, went};
ghost use Rattle.mem_access.specs.Windows.{IsWindow};
ghost use Rattle.nk_bits.specs.Translations.{NamesFramesIn};
ghost use Rattle.cpu_step.specs.KeptFetches.{IsKeptCode};
ghost use Rattle.cpu_step.specs.CodeLines.{AreMadeOn, IsCodeIn, IsFormIn, IsLineOf, IsPageStretch, IsRow, IsStretch};

use crate::kept_code::{KeptCode, code_for};
use crate::lines::{Line, find_line, line_slot};
use exec_quick::{Quick, Running, Went, make_at};
use mem_access::Window;
use nk_bits::{Control, access_law};
use phys_mem::PhysMem;
use tlb_model::Tlb;
use x86_decode::decoding_law;

/// Makes turns by lines of code, at most so many, as long as RIP stays in one of the four codes.
#[inline(never)]
pub(crate) fn lines_run(
    lines: &mut Vec<Line>,
    stamp: u64,
    codes: &[KeptCode; 4],
    regs: &mut Running,
    control: &Control,
    mem: &mut PhysMem,
    tlb: &Tlb,
    window: &mut Window,
    most: u64,
) -> u64
    requires count { length lines.old.items ≡ 4096 }
    requires lines { All (IsLineOf stamp codes.now mem.old) lines.old.items }
    requires stretch { IsStretch (length mem.old) control.now regs.old.cpl tlb.now codes.now window.old }
    ensures count { length lines.new.items ≡ 4096 }
    ensures lines { All (IsLineOf stamp codes.now mem.new) lines.new.items }
    ensures most { result ≤ most }
    ensures made { AreMadeOn result control.now tlb.now regs.old mem.old window.old regs.new mem.new window.new }
{
    let mut count = 0;
    while count < most {
        let rip = regs.rip();
        let slot = line_slot(rip);
        if !find_line(lines, slot, stamp, codes, mem, rip) {
            break;
        }
        let line = &lines[slot];
        let code = code_for(codes, rip);
        let made = line_turns(code, line, regs, control, mem, tlb, window, most - count);
        count += made;
        if made == 0 {
            break;
        }
    }
    count
}

/// Makes turns by the forms of a line one behind the other, RIP at its first byte, and from there again where a turn leads
/// there, at most so many.
#[inline(always)]
fn line_turns(
    code: &KeptCode,
    line: &Line,
    regs: &mut Running,
    control: &Control,
    mem: &mut PhysMem,
    tlb: &Tlb,
    window: &mut Window,
    most: u64,
) -> u64
    requires stretch { IsPageStretch (length mem.old) control.now regs.old.cpl tlb.now code.now window.old }
    requires code { IsCodeIn code.now mem.old line.now }
    requires forms { All (IsFormIn line.now.code line.now.size) line.now.forms }
    requires row { IsRow line.now.forms line.now.count }
    requires here { regs.old.rip ≡ line.now.at }
    ensures most { result ≤ most }
    ensures made { AreMadeOn result control.now tlb.now regs.old mem.old window.old regs.new mem.new window.new }
{
    let start = regs.rip();
    let round = line.forms_within(most);
    let mut left = most;
    let mut forms = round;
    let mut at = start;
    while let Some((quick, behind)) = forms.split_first() {
        match line_turn(code, line, quick, at, regs, control, mem, tlb, window) {
            Went::On => {
                at = at.wrapping_add(u64::from(quick.size));
                forms = behind;
            }
            Went::Off => {
                left -= (round.len() - behind.len()) as u64;
                let there = regs.rip();
                if there != start || left < round.len() as u64 {
                    return most - left;
                }
                forms = round;
                at = start;
            }
            Went::Left => break,
        }
    }
    regs.set_rip(at);
    most - left + (round.len() - forms.len()) as u64
}

/// Makes one turn by a form of a line, which stands at `at`, or changes no register and no memory. RIP isn't read, and is
/// written only where the turn leads elsewhere than behind the form.
#[inline(always)]
fn line_turn(
    code: &KeptCode,
    line: &Line,
    quick: &Quick,
    at: u64,
    regs: &mut Running,
    control: &Control,
    mem: &mut PhysMem,
    tlb: &Tlb,
    window: &mut Window,
) -> Went
    requires kept { IsKeptCode (length mem.old) control.now regs.old.cpl tlb.now code.now }
    requires frames { NamesFramesIn (length mem.old) tlb.now }
    requires window { IsWindow (length mem.old) control.now regs.old.cpl tlb.now window.old }
    requires code { IsCodeIn code.now mem.old line.now }
    requires form { IsFormIn line.now.code line.now.size quick.now }
    requires here { at ≡ line.now.at + quick.now.at }
    ensures made { is_left result ≡ false
        → AreMadeOn 1 control.now tlb.now (record regs.old { rip = at }) mem.old window.old
        (went result (next_address at quick.now.size) regs.new) mem.new window.new }
    ensures left { is_left result ≡ true
        → AreMadeOn 0 control.now tlb.now (record regs.old { rip = at }) mem.old window.old
        (record regs.new { rip = at }) mem.new window.new }
{
    decoding_law();
    access_law();
    mem.bytes_law();
    make_at(quick, at, regs, control, mem, tlb, window)
}
