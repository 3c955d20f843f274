//! The bytes of memory that a step changed, told by a copy of memory as it was.

ghost use Rattle.std.specs.Prelude.{◌≡◌, ◌≢◌, ℕ, List, ◌+◌, ◌-◌, ◌*◌, ◌/◌, ◌<◌, ◌≤◌, ◌++◌, true, drop, length, min, slice_index, IfOk, OnOk};
ghost use Rattle.phys_mem.specs.Memory.{IsBytes, byte_at, frame_bytes};
ghost use Rattle.gate_state.specs.StepsTouched.{KeepsOutside};
ghost use Rattle.gate_state.specs.declared.touched.StepTouched.TheVariants.{Body, Frames};
ghost use Rattle.step_trace.specs.CopiesOfMemory.{AgreesIn, IsCopyFor, IsTouched};
ghost use Rattle.step_trace.specs.StepChanges.{Stored, memory_changes, run_rest, runs, stay};
ghost use Rattle.step_trace.specs.StepTexts.{change_text, changes_text};

use crate::words::{put_bytes, put_named, put_text};
use gate_state::StepTouched;
use phys_mem::PhysMem;
use std::alloc::AllocError;

/// Whether the first eight bytes stay, or all where there are fewer.
fn stay(old: &[u8], new: &[u8]) -> bool
    requires { length old.now ≡ length new.now }
    ensures { result ≡ stay 8 old.now new.now }
{
    for i in 0..new.len().min(8) {
        if old[i] != new[i] {
            return false;
        }
    }
    true
}

/// Where a run of bytes ends that goes on to a place.
fn run_end(old: &[u8], new: &[u8], from: usize) -> usize
    requires same { length old.now ≡ length new.now }
    requires from { from ≤ length new.now }
    ensures run { result ≡ from + run_rest (drop from old.now) (drop from new.now) }
    ensures inside { (from ≤ result) × (result ≤ length new.now) }
{
    for i in from..new.len() {
        if stay(&old[i..], &new[i..]) {
            return i;
        }
    }
    new.len()
}

/// The first place from this one on at which a byte changed, or the end. Behind it are all runs.
fn first_other(old: &[u8], new: &[u8], from: usize) -> usize
    requires same { length old.now ≡ length new.now }
    requires from { from ≤ length new.now }
    ensures runs { (place : ℕ) → runs (place + from) 0 (drop from old.now) (drop from new.now) ≡ runs (place + result) 0 (drop result old.now) (drop result new.now) }
    ensures other { result < length new.now → slice_index old.now result ≢ slice_index new.now result }
    ensures inside { (from ≤ result) × (result ≤ length new.now) }
{
    for i in from..new.len() {
        if old[i] != new[i] {
            return i;
        }
    }
    new.len()
}

/// Puts bytes that a step stored.
fn put_stored(line: &mut Vec<u8>, place: u64, bytes: &[u8]) -> Result<(), AllocError>
    ensures { OnOk result (line.new.items ≡ line.old.items ++ change_text (Stored place bytes.now)) }
{
    put_text(line, "; ")?;
    put_named(line, "mem", place)?;
    put_text(line, " ")?;
    put_bytes(line, bytes)
}

/// Puts the next run of a frame from a place on, and tells the place behind it.
fn put_run(
    line: &mut Vec<u8>,
    frame: u32,
    old: &[u8],
    new: &[u8],
    from: usize,
) -> Result<usize, AllocError>
    requires same { length old.now ≡ length new.now }
    requires small { length new.now ≤ 4096 }
    requires from { from < length new.now }
    ensures text { IfOk result (λ next. line.new.items ++ changes_text (runs (4096 * frame + next) 0 (drop next old.now) (drop next new.now)) ≡ line.old.items ++ changes_text (runs (4096 * frame + from) 0 (drop from old.now) (drop from new.now))) }
    ensures behind { IfOk result (λ next. (from < next) × (next ≤ length new.now)) }
{
    let at = first_other(old, new, from);
    if at == new.len() {
        return Ok(at);
    }
    let end = run_end(old, new, at + 1);
    put_stored(line, 4096 * u64::from(frame) + at as u64, &new[at..end])?;
    Ok(end)
}

/// Puts the changes of a frame.
fn put_frame(line: &mut Vec<u8>, frame: u32, old: &[u8], new: &[u8]) -> Result<(), AllocError>
    requires old { length old.now ≡ 4096 }
    requires new { length new.now ≡ 4096 }
    ensures { OnOk result (line.new.items ≡ line.old.items ++ changes_text (runs (4096 * frame) 0 old.now new.now)) }
{
    let mut at = 0;
    while at < new.len() {
        at = put_run(line, frame, old, new, at)?;
    }
    Ok(())
}

/// Whether eight bytes are those of the copy.
#[inline(always)]
fn is_same_8(mem: &PhysMem, copy: &PhysMem, at: u64) -> bool
    requires mem { at + 8 ≤ length mem.now }
    requires copy { at + 8 ≤ length copy.now }
    requires bytes { (IsBytes mem.now) × (IsBytes copy.now) }
    ensures { result ≡ true → (k : ℕ) → k < 8 → byte_at copy.now (at + k) ≡ byte_at mem.now (at + k) }
{
    mem.load64(at) == copy.load64(at)
}

/// Whether 32 bytes are those of the copy, without a branch.
#[inline(always)]
fn is_same_32(mem: &PhysMem, copy: &PhysMem, at: u64) -> bool
    requires mem { at + 32 ≤ length mem.now }
    requires copy { at + 32 ≤ length copy.now }
    requires bytes { (IsBytes mem.now) × (IsBytes copy.now) }
    ensures { result ≡ true → (k : ℕ) → k < 32 → byte_at copy.now (at + k) ≡ byte_at mem.now (at + k) }
{
    let _frames = mem.frames();
    (is_same_8(mem, copy, at) & is_same_8(mem, copy, at + 8))
        & (is_same_8(mem, copy, at + 16) & is_same_8(mem, copy, at + 24))
}

/// Whether a frame has the same bytes in both. It is asked behind each step, so it goes by 64 bytes.
fn is_same(mem: &PhysMem, copy: &PhysMem, frame: u32) -> bool
    requires mem { 4096 * frame < length mem.now }
    requires size { length copy.now ≡ length mem.now }
    ensures { result ≡ true → frame_bytes copy.now frame ≡ frame_bytes mem.now frame }
{
    let _frames = mem.frames();
    mem.bytes_law();
    copy.bytes_law();
    let start = 4096 * u64::from(frame);
    for i in 0..64 {
        let at = start + 64 * i;
        if !(is_same_32(mem, copy, at) & is_same_32(mem, copy, at + 32)) {
            return false;
        }
    }
    true
}

/// Makes a frame of the copy that of memory.
fn settle_frame(mem: &PhysMem, copy: &mut PhysMem, frame: u32)
    requires mem { 4096 * frame < length mem.now }
    requires size { length copy.old ≡ length mem.now }
    ensures copied { (p : ℕ) → p / 4096 ≡ frame → byte_at copy.new p ≡ byte_at mem.now p }
    ensures others { (p : ℕ) → p / 4096 ≢ frame → byte_at copy.new p ≡ byte_at copy.old p }
    ensures size { length copy.new ≡ length mem.now }
{
    let _frames = mem.frames();
    copy.frame_mut(frame).copy_from_slice(mem.frame(frame));
}

/// Puts the changes of a frame that memory has, and makes its copy the frame as it is.
fn put_changed(
    line: &mut Vec<u8>,
    mem: &PhysMem,
    copy: &mut PhysMem,
    frame: u32,
) -> Result<(), AllocError>
    requires mem { 4096 * frame < length mem.now }
    requires size { length copy.old ≡ length mem.now }
    ensures text { OnOk result (line.new.items ≡ line.old.items ++ changes_text (runs (4096 * frame) 0 (frame_bytes copy.old frame) (frame_bytes mem.now frame))) }
    ensures copied { OnOk result ((p : ℕ) → p / 4096 ≡ frame → byte_at copy.new p ≡ byte_at mem.now p) }
    ensures others { (p : ℕ) → p / 4096 ≢ frame → byte_at copy.new p ≡ byte_at copy.old p }
    ensures size { length copy.new ≡ length mem.now }
{
    if is_same(mem, copy, frame) {
        return Ok(());
    }
    put_frame(line, frame, copy.frame(frame), mem.frame(frame))?;
    settle_frame(mem, copy, frame);
    Ok(())
}

/// The same of a frame that memory may not have.
fn put_touched(
    line: &mut Vec<u8>,
    mem: &PhysMem,
    copy: &mut PhysMem,
    frame: u64,
) -> Result<(), AllocError>
    requires size { length copy.old ≡ length mem.now }
    ensures text { OnOk result (line.new.items ≡ line.old.items ++ changes_text (runs (4096 * frame) 0 (frame_bytes copy.old frame) (frame_bytes mem.now frame))) }
    ensures copied { OnOk result ((p : ℕ) → p / 4096 ≡ frame → byte_at copy.new p ≡ byte_at mem.now p) }
    ensures others { (p : ℕ) → p / 4096 ≢ frame → byte_at copy.new p ≡ byte_at copy.old p }
    ensures size { length copy.new ≡ length mem.now }
{
    if frame < u64::from(mem.frames()) {
        put_changed(line, mem, copy, frame as u32)
    } else {
        Ok(())
    }
}

/// Puts the changes of two frames, unless they are below a number, where no other from there on changed.
fn put_two(
    line: &mut Vec<u8>,
    mem: &PhysMem,
    copy: &mut PhysMem,
    from: u64,
    one: u64,
    two: u64,
) -> Result<(), AllocError>
    requires size { length copy.old ≡ length mem.now }
    ensures text { (before : List ℕ) → length before ≡ length mem.now → KeepsOutside (Body from one two) before mem.now
        → ((p : ℕ) → from ≤ p / 4096 → IsTouched (Frames one two) p → byte_at copy.old p ≡ byte_at before p)
        → OnOk result (line.new.items ≡ line.old.items
        ++ changes_text (memory_changes (length mem.now / 4096 - from) from before mem.now)) }
    ensures copied { KeepsOutside (Body from one two) copy.old mem.now
        → OnOk result ((p : ℕ) → from ≤ p / 4096 → byte_at copy.new p ≡ byte_at mem.now p) }
    ensures below { OnOk result ((p : ℕ) → p / 4096 < from → byte_at copy.new p ≡ byte_at copy.old p) }
    ensures size { length copy.new ≡ length mem.now }
{
    let _frames = mem.frames();
    let first = one.min(two);
    let last = one.max(two);
    if last < from {
        return Ok(());
    }
    if first < from || first == last {
        put_touched(line, mem, copy, last)?;
        return Ok(());
    }
    put_touched(line, mem, copy, first)?;
    put_touched(line, mem, copy, last)?;
    Ok(())
}

/// Puts the changes of the frames below a number.
fn put_below(
    line: &mut Vec<u8>,
    mem: &PhysMem,
    copy: &mut PhysMem,
    end: u32,
) -> Result<(), AllocError>
    requires size { length copy.old ≡ length mem.now }
    requires inside { 4096 * end ≤ length mem.now }
    ensures text { OnOk result (line.new.items ≡ line.old.items ++ changes_text (memory_changes end 0 copy.old mem.now)) }
    ensures copied { OnOk result ((p : ℕ) → p / 4096 < end → byte_at copy.new p ≡ byte_at mem.now p) }
    ensures left { OnOk result ((p : ℕ) → end ≤ p / 4096 → byte_at copy.new p ≡ byte_at copy.old p) }
    ensures size { length copy.new ≡ length mem.now }
{
    for frame in 0..end {
        put_changed(line, mem, copy, frame)?;
    }
    Ok(())
}

/// How many frames below a number memory has.
fn frames_below(mem: &PhysMem, below: u64) -> u32
    ensures least { result ≡ min below (length mem.now / 4096) }
    ensures inside { 4096 * result ≤ length mem.now }
{
    below.min(u64::from(mem.frames())) as u32
}

/// Puts the changes of the frames below a number, and of two more, where no other changed.
fn put_body(
    line: &mut Vec<u8>,
    mem: &PhysMem,
    copy: &mut PhysMem,
    below: u64,
    one: u64,
    two: u64,
) -> Result<(), AllocError>
    requires size { length copy.old ≡ length mem.now }
    ensures text { (before : List ℕ) → IsCopyFor (Body below one two) copy.old before mem.now
        → OnOk result (line.new.items ≡ line.old.items ++ changes_text (memory_changes (length mem.now / 4096) 0 before mem.now)) }
    ensures copy { KeepsOutside (Body below one two) copy.old mem.now → OnOk result (copy.new ≡ mem.now) }
    ensures size { length copy.new ≡ length mem.now }
{
    let _frames = mem.frames();
    let end = frames_below(mem, below);
    put_below(line, mem, copy, end)?;
    put_two(line, mem, copy, below, one, two)?;
    Ok(())
}

/// Puts the changes of all frames.
fn put_all(line: &mut Vec<u8>, mem: &PhysMem, copy: &mut PhysMem) -> Result<(), AllocError>
    requires size { length copy.old ≡ length mem.now }
    ensures text { OnOk result (line.new.items ≡ line.old.items ++ changes_text (memory_changes (length mem.now / 4096) 0 copy.old mem.now)) }
    ensures copy { OnOk result (copy.new ≡ mem.now) }
    ensures size { length copy.new ≡ length mem.now }
{
    let frames = mem.frames();
    put_below(line, mem, copy, frames)?;
    Ok(())
}

/// Puts the changes of memory, of which no more was touched than this, where the copy is memory as it was; and makes it
/// there memory as it is.
pub(crate) fn put_memory(
    line: &mut Vec<u8>,
    mem: &PhysMem,
    copy: &mut PhysMem,
    touched: StepTouched,
) -> Result<(), AllocError>
    requires size { length copy.old ≡ length mem.now }
    ensures text { (before : List ℕ) → IsCopyFor touched copy.old before mem.now
        → OnOk result (line.new.items ≡ line.old.items ++ changes_text (memory_changes (length mem.now / 4096) 0 before mem.now)) }
    ensures copy { KeepsOutside touched copy.old mem.now → OnOk result (copy.new ≡ mem.now) }
    ensures size { length copy.new ≡ length mem.now }
{
    match touched {
        StepTouched::Nothing => {}
        StepTouched::Frames(one, two) => put_two(line, mem, copy, 0, one, two)?,
        StepTouched::Body { below, one, two } => put_body(line, mem, copy, below, one, two)?,
        StepTouched::Any => put_all(line, mem, copy)?,
    }
    Ok(())
}

/// Makes a frame of the copy that of memory, where it isn't.
fn settle_changed(mem: &PhysMem, copy: &mut PhysMem, frame: u32)
    requires mem { 4096 * frame < length mem.now }
    requires size { length copy.old ≡ length mem.now }
    ensures copied { (p : ℕ) → p / 4096 ≡ frame → byte_at copy.new p ≡ byte_at mem.now p }
    ensures others { (p : ℕ) → p / 4096 ≢ frame → byte_at copy.new p ≡ byte_at copy.old p }
    ensures size { length copy.new ≡ length mem.now }
{
    if !is_same(mem, copy, frame) {
        settle_frame(mem, copy, frame);
    }
}

/// Makes the frames of the copy below a number those of memory.
fn settle_below(mem: &PhysMem, copy: &mut PhysMem, end: u32)
    requires size { length copy.old ≡ length mem.now }
    requires inside { 4096 * end ≤ length mem.now }
    ensures copied { (p : ℕ) → p / 4096 < end → byte_at copy.new p ≡ byte_at mem.now p }
    ensures size { length copy.new ≡ length mem.now }
{
    for frame in 0..end {
        settle_changed(mem, copy, frame);
    }
}

/// Makes the copy memory as it is.
pub(crate) fn settle(mem: &PhysMem, copy: &mut PhysMem)
    requires size { length copy.old ≡ length mem.now }
    ensures copy { copy.new ≡ mem.now }
    ensures size { length copy.new ≡ length mem.now }
{
    let frames = mem.frames();
    settle_below(mem, copy, frames);
}

/// Makes a frame of the copy, which memory may not have, that of memory.
fn settle_touched(mem: &PhysMem, copy: &mut PhysMem, frame: u64)
    requires size { length copy.old ≡ length mem.now }
    ensures copied { (p : ℕ) → p / 4096 ≡ frame → byte_at copy.new p ≡ byte_at mem.now p }
    ensures others { (p : ℕ) → p / 4096 ≢ frame → byte_at copy.new p ≡ byte_at copy.old p }
    ensures size { length copy.new ≡ length mem.now }
{
    if frame < u64::from(mem.frames()) {
        settle_changed(mem, copy, frame as u32);
    }
}

/// Makes two frames of the copy those of memory.
fn settle_two(mem: &PhysMem, copy: &mut PhysMem, one: u64, two: u64)
    requires size { length copy.old ≡ length mem.now }
    ensures copied { AgreesIn (Frames one two) copy.new mem.now }
    ensures left { (p : ℕ) → byte_at copy.old p ≡ byte_at mem.now p → byte_at copy.new p ≡ byte_at mem.now p }
    ensures size { length copy.new ≡ length mem.now }
{
    settle_touched(mem, copy, one);
    settle_touched(mem, copy, two);
}

/// Makes the copy memory as it is, where a step may change it.
pub(crate) fn settle_in(mem: &PhysMem, copy: &mut PhysMem, touched: StepTouched)
    requires size { length copy.old ≡ length mem.now }
    ensures copy { AgreesIn touched copy.new mem.now }
    ensures size { length copy.new ≡ length mem.now }
{
    match touched {
        StepTouched::Nothing => {}
        StepTouched::Frames(one, two) => settle_two(mem, copy, one, two),
        StepTouched::Body { below, one, two } => {
            let _frames = mem.frames();
            let end = frames_below(mem, below);
            settle_below(mem, copy, end);
            settle_two(mem, copy, one, two);
        }
        StepTouched::Any => settle(mem, copy),
    }
}
