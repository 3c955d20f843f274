//! The search for the least spelling: by row, prefixes, ModRM and scale each candidate is put together that may spell the
//! instruction and isn't behind the best one, and the best of those that do spell it is kept.

ghost use Rattle.std.specs.Prelude.{◌≡◌, ◌+◌, ◌*◌, ◌≤◌, ◌<◌, [], false, length, true};
ghost use Rattle.asm_text.specs.Candidates.{best_of, by_alone, by_front, by_modrm, by_modrms, by_rex, by_rexes, by_row, by_scale, by_scales, by_stem, candidates};
ghost use Rattle.asm_text.specs.Fitting.{is_plain_layout};
ghost use Rattle.asm_text.specs.Operations.{number_of_operation};
ghost use Rattle.asm_text.specs.RowPlaces.{IsIndexFrom, by_row_place, has_number, table_row};
ghost use Rattle.asm_text.specs.Skipping.{IsOperand, IsRexOption, IsStem, begins_code, by_each_rex, by_field, by_mode, names_low, rex_bits, row_least};

use crate::assembly::{asks_sib, assembled, stem, tail};
use crate::best::{Best, keep_better};
use crate::fitting::{
    Form, is_option_of, is_plain_layout, low_of, modrm_fits, place_disp, shape_fits, sib_low,
    size_fits, wanted_form,
};
use crate::operation::op_number;
use crate::row_index::{PLACES, RowIndex, map_at, opcode_at, table_row};
use crate::skipping::{
    RexBits, form_length, is_ahead, is_behind, mode_may_fit, narrow_length, rex_bits, rex_may_fit,
    rm_may_fit, row_least,
};
use x86_decode::{Instr, Map, TableRow, decoding_law, number_bytes};

#[tactic(auto, unfolding(crate::specs::Candidates::by_scale, crate::specs::Candidates::best_of))]
fn try_scale(
    instr: &Instr,
    best: &mut Best,
    stem: &[u8],
    form: &Form,
    tail: &[u8],
    modrm: u8,
    scale: u8,
)
    requires front { length stem.now ≤ 6 }
    requires number { length tail.now ≤ 8 }
    requires four { scale < 4 }
    ensures { best.new.items ≡ best_of instr.now best.old.items (by_scale stem.now form.now tail.now modrm scale) }
{
    let sib = 64 * scale + sib_low(form.place);
    let bytes = assembled(stem, form.layout, modrm, sib, place_disp(form.place), tail);
    keep_better(instr, best, bytes.as_slice());
}

#[tactic(auto, unfolding(crate::specs::Candidates::by_scales))]
fn try_scales(instr: &Instr, best: &mut Best, stem: &[u8], form: &Form, tail: &[u8], modrm: u8)
    requires front { length stem.now ≤ 6 }
    requires number { length tail.now ≤ 8 }
    ensures { best.new.items ≡ best_of instr.now best.old.items (by_scales stem.now form.now tail.now modrm) }
{
    for scale in 0..4 {
        try_scale(instr, best, stem, form, tail, modrm, scale);
    }
}

/// The ModRM byte without SIB.
#[tactic(auto, unfolding(crate::specs::Candidates::by_alone, crate::specs::Candidates::best_of))]
fn try_alone(instr: &Instr, best: &mut Best, stem: &[u8], form: &Form, tail: &[u8], modrm: u8)
    requires front { length stem.now ≤ 6 }
    requires number { length tail.now ≤ 8 }
    ensures { best.new.items ≡ best_of instr.now best.old.items (by_alone stem.now form.now tail.now modrm) }
{
    let bytes = assembled(stem, form.layout, modrm, 0, place_disp(form.place), tail);
    keep_better(instr, best, bytes.as_slice());
}

#[tactic(auto, unfolding(crate::specs::Candidates::by_modrm, crate::specs::Candidates::best_of))]
fn try_modrm(instr: &Instr, best: &mut Best, stem: &[u8], form: &Form, tail: &[u8], modrm: u8)
    requires front { length stem.now ≤ 6 }
    requires number { length tail.now ≤ 8 }
    ensures { best.new.items ≡ best_of instr.now best.old.items (by_modrm stem.now form.now tail.now modrm) }
{
    if !modrm_fits(form, modrm) {
        return;
    }
    if asks_sib(form.layout, modrm) {
        try_scales(instr, best, stem, form, tail, modrm);
    } else {
        try_alone(instr, best, stem, form, tail, modrm);
    }
}

/// The byte of ModRM that has this in rm too, for an operand in memory.
fn try_rm(instr: &Instr, best: &mut Best, stem: &[u8], form: &Form, tail: &[u8], field: u8, rm: u8)
    requires front { length stem.now ≤ 6 }
    requires number { length tail.now ≤ 8 }
    requires begun { IsStem stem.now }
    requires operand { IsOperand instr.now form.now.place }
    requires formed { is_plain_layout form.now.layout ≡ false }
    requires few { field < 32 }
    requires small { rm < 8 }
    ensures { best.new.items ≡ best_of instr.now best.old.items (by_modrm stem.now form.now tail.now (8 * field + rm)) }
{
    decoding_law();
    if rm_may_fit(form.place, field / 8, rm) {
        try_modrm(instr, best, stem, form, tail, 8 * field + rm);
    }
}

/// The bytes of ModRM that have this in mod and reg, for an operand in memory.
#[tactic(auto, unfolding(crate::specs::Skipping::by_field))]
fn try_memory(instr: &Instr, best: &mut Best, stem: &[u8], form: &Form, tail: &[u8], field: u8)
    requires front { length stem.now ≤ 6 }
    requires number { length tail.now ≤ 8 }
    requires begun { IsStem stem.now }
    requires operand { IsOperand instr.now form.now.place }
    requires formed { is_plain_layout form.now.layout ≡ false }
    requires few { field < 32 }
    ensures { best.new.items ≡ best_of instr.now best.old.items (by_field stem.now form.now tail.now field) }
{
    for rm in 0..8 {
        try_rm(instr, best, stem, form, tail, field, rm);
    }
}

/// The bytes of ModRM that have this in mod and reg.
fn try_field(instr: &Instr, best: &mut Best, stem: &[u8], form: &Form, tail: &[u8], field: u8)
    requires front { length stem.now ≤ 6 }
    requires number { length tail.now ≤ 8 }
    requires begun { IsStem stem.now }
    requires operand { IsOperand instr.now form.now.place }
    requires formed { is_plain_layout form.now.layout ≡ false }
    requires few { field < 32 }
    ensures { best.new.items ≡ best_of instr.now best.old.items (by_field stem.now form.now tail.now field) }
{
    match low_of(form.place) {
        Some(low) => try_modrm(instr, best, stem, form, tail, 8 * field + low),
        None => try_memory(instr, best, stem, form, tail, field),
    }
}

/// The bytes of ModRM that have this in mod, for any reg.
#[tactic(auto, unfolding(crate::specs::Skipping::by_mode))]
fn try_regs(instr: &Instr, best: &mut Best, stem: &[u8], form: &Form, tail: &[u8], mode: u8)
    requires front { length stem.now ≤ 6 }
    requires number { length tail.now ≤ 8 }
    requires begun { IsStem stem.now }
    requires operand { IsOperand instr.now form.now.place }
    requires formed { is_plain_layout form.now.layout ≡ false }
    requires few { mode < 4 }
    ensures { best.new.items ≡ best_of instr.now best.old.items (by_mode stem.now form.now tail.now mode) }
{
    for reg in 0..8 {
        try_field(instr, best, stem, form, tail, 8 * mode + reg);
    }
}

/// The bytes of ModRM that have this in mod, and the reg that is wanted.
fn try_wanted(instr: &Instr, best: &mut Best, stem: &[u8], form: &Form, tail: &[u8], mode: u8)
    requires front { length stem.now ≤ 6 }
    requires number { length tail.now ≤ 8 }
    requires begun { IsStem stem.now }
    requires operand { IsOperand instr.now form.now.place }
    requires formed { is_plain_layout form.now.layout ≡ false }
    requires few { mode < 4 }
    ensures { best.new.items ≡ best_of instr.now best.old.items (by_mode stem.now form.now tail.now mode) }
{
    match form.reg {
        Some(reg) => if reg < 8 {
            try_field(instr, best, stem, form, tail, 8 * mode + reg);
        },
        None => try_regs(instr, best, stem, form, tail, mode),
    }
}

/// The bytes of ModRM that have this in mod.
fn try_mode(instr: &Instr, best: &mut Best, stem: &[u8], form: &Form, tail: &[u8], mode: u8)
    requires front { length stem.now ≤ 6 }
    requires number { length tail.now ≤ 8 }
    requires begun { IsStem stem.now }
    requires operand { IsOperand instr.now form.now.place }
    requires formed { is_plain_layout form.now.layout ≡ false }
    requires few { mode < 4 }
    ensures { best.new.items ≡ best_of instr.now best.old.items (by_mode stem.now form.now tail.now mode) }
{
    if mode_may_fit(form.layout, form.place, mode) {
        try_wanted(instr, best, stem, form, tail, mode);
    }
}

fn try_modrms(instr: &Instr, best: &mut Best, stem: &[u8], form: &Form, tail: &[u8])
    requires front { length stem.now ≤ 6 }
    requires number { length tail.now ≤ 8 }
    requires begun { IsStem stem.now }
    requires operand { IsOperand instr.now form.now.place }
    requires formed { is_plain_layout form.now.layout ≡ false }
    ensures { best.new.items ≡ best_of instr.now best.old.items (by_modrms stem.now form.now tail.now) }
{
    for mode in 0..4 {
        try_mode(instr, best, stem, form, tail, mode);
    }
}

#[tactic(auto, unfolding(crate::specs::Candidates::by_stem))]
fn try_stem(instr: &Instr, best: &mut Best, stem: &[u8], form: &Form, tail: &[u8])
    requires front { length stem.now ≤ 6 }
    requires number { length tail.now ≤ 8 }
    requires begun { IsStem stem.now }
    requires operand { IsOperand instr.now form.now.place }
    ensures { best.new.items ≡ best_of instr.now best.old.items (by_stem stem.now form.now tail.now) }
{
    if is_plain_layout(form.layout) {
        try_alone(instr, best, stem, form, tail, 0);
    } else {
        try_modrms(instr, best, stem, form, tail);
    }
}

#[tactic(auto, unfolding(crate::specs::Candidates::by_front, crate::specs::Candidates::best_of))]
fn try_front(
    instr: &Instr,
    best: &mut Best,
    map: Map,
    opcode: u8,
    row: &TableRow,
    narrow: bool,
    rex: Option<u8>,
)
    requires opcode { begins_code map opcode ≡ true }
    requires rex { IsRexOption rex }
    ensures { best.new.items ≡ best_of instr.now best.old.items (by_front instr.now map opcode row.now narrow rex) }
{
    if !size_fits(row.shape, instr, narrow, rex) {
        return;
    }
    let front = stem(narrow, instr.lock, instr.rep, rex, map, opcode);
    let size = number_bytes(row.shape.number, instr.width);
    if is_ahead(
        best,
        front.as_slice(),
        front.len() + form_length(row.shape.layout) + size,
    ) {
        return;
    }
    let number = tail(size, instr.value);
    let form = wanted_form(row, instr);
    try_stem(instr, best, front.as_slice(), &form, number.as_slice());
}

#[tactic(auto, unfolding(crate::specs::Candidates::by_rex))]
fn try_rex(
    instr: &Instr,
    best: &mut Best,
    map: Map,
    opcode: u8,
    row: &TableRow,
    narrow: bool,
    low: u8,
)
    requires opcode { begins_code map opcode ≡ true }
    requires small { low < 16 }
    ensures { best.new.items ≡ best_of instr.now best.old.items (by_rex instr.now map opcode row.now narrow low) }
{
    try_front(instr, best, map, opcode, row, narrow, Some(0x40 + low));
}

/// With a REX that has these low bits, where it may fit.
fn try_low(
    instr: &Instr,
    best: &mut Best,
    map: Map,
    opcode: u8,
    row: &TableRow,
    narrow: bool,
    bits: RexBits,
    low: u8,
)
    requires opcode { begins_code map opcode ≡ true }
    requires bits { bits ≡ rex_bits row.now.shape instr.now narrow }
    requires small { low < 16 }
    ensures { best.new.items ≡ best_of instr.now best.old.items (by_rex instr.now map opcode row.now narrow low) }
{
    if rex_may_fit(bits, low) {
        try_rex(instr, best, map, opcode, row, narrow, low);
    }
}

/// With each REX that there is.
#[tactic(auto, unfolding(crate::specs::Skipping::by_each_rex))]
fn try_each_rex(instr: &Instr, best: &mut Best, map: Map, opcode: u8, row: &TableRow, narrow: bool)
    requires opcode { begins_code map opcode ≡ true }
    ensures { best.new.items ≡ best_of instr.now best.old.items (by_each_rex instr.now map opcode row.now narrow) }
{
    let bits = rex_bits(row.shape, instr, narrow);
    for low in 0..16 {
        try_low(instr, best, map, opcode, row, narrow, bits, low);
    }
}

/// The same, unless all these bytes are behind the best ones.
fn try_longer(
    instr: &Instr,
    best: &mut Best,
    map: Map,
    opcode: u8,
    row: &TableRow,
    narrow: bool,
    least: usize,
)
    requires opcode { begins_code map opcode ≡ true }
    requires least { least ≡ row_least map row.now.shape instr.now }
    requires few { least ≤ 11 }
    ensures { best.new.items ≡ best_of instr.now best.old.items (by_each_rex instr.now map opcode row.now narrow) }
{
    if is_behind(best, least + narrow_length(narrow) + 1) {
        return;
    }
    try_each_rex(instr, best, map, opcode, row, narrow);
}

/// Without REX, and with each that there is, unless all these bytes are behind the best ones.
#[tactic(auto, using(crate::proofs::Bests::best_append), unfolding(crate::specs::Candidates::by_rexes, crate::specs::Skipping::by_each_rex))]
fn try_rexes(
    instr: &Instr,
    best: &mut Best,
    map: Map,
    opcode: u8,
    row: &TableRow,
    narrow: bool,
    least: usize,
)
    requires opcode { begins_code map opcode ≡ true }
    requires least { least ≡ row_least map row.now.shape instr.now }
    requires few { least ≤ 11 }
    ensures { best.new.items ≡ best_of instr.now best.old.items (by_rexes instr.now map opcode row.now narrow) }
{
    if is_behind(best, least + narrow_length(narrow)) {
        return;
    }
    try_front(instr, best, map, opcode, row, narrow, None);
    try_longer(instr, best, map, opcode, row, narrow, least);
}

#[tactic(auto, using(crate::proofs::Bests::best_append), unfolding(crate::specs::Candidates::by_row))]
fn try_row(instr: &Instr, best: &mut Best, map: Map, opcode: u8, row: &TableRow)
    requires { begins_code map opcode ≡ true }
    ensures { best.new.items ≡ best_of instr.now best.old.items (by_row instr.now map opcode row.now) }
{
    let least = row_least(map, row.shape, instr);
    try_rexes(instr, best, map, opcode, row, false, least);
    try_rexes(instr, best, map, opcode, row, true, least);
}

/// The row of a place, whose operation is the instruction's.
fn try_place(instr: &Instr, best: &mut Best, place: u16)
    requires { has_number (table_row place) (number_of_operation instr.now.op) ≡ true }
    ensures { best.new.items ≡ best_of instr.now best.old.items (by_row_place instr.now place) }
{
    let map = map_at(place);
    let opcode = opcode_at(place);
    if let Some(row) = table_row(place) {
        if shape_fits(instr, opcode, row.shape) {
            try_row(instr, best, map, opcode, &row);
        }
    }
}

/// Whether one of the operands is a register with these low bits.
fn names_low(instr: &Instr, low: u8) -> bool
    ensures { result ≡ names_low instr.now low }
{
    is_option_of(low_of(instr.to), low) | is_option_of(low_of(instr.from), low)
}

/// The row of a place, unless the opcode names another register.
fn try_named(instr: &Instr, index: &RowIndex, best: &mut Best, place: u16)
    requires within { place < 4096 }
    requires right { IsIndexFrom 0 index.now }
    requires there { has_number (table_row place) (number_of_operation instr.now.op) ≡ true }
    ensures { best.new.items ≡ best_of instr.now best.old.items (by_row_place instr.now place) }
{
    if index.by_opcode[place as usize] {
        if !names_low(instr, opcode_at(place) % 8) {
            return;
        }
    }
    try_place(instr, best, place);
}

/// Keeps the best of all candidates, where the best so far is none.
pub(crate) fn find_best(instr: &Instr, index: &RowIndex, best: &mut Best)
    requires right { IsIndexFrom 0 index.now }
    requires none { best.old.items ≡ [] }
    ensures { best.new.items ≡ best_of instr.now [] (candidates instr.now) }
{
    let number = op_number(instr.op);
    let mut place = index.first[number as usize];
    while place < PLACES {
        try_named(instr, index, best, place);
        place = index.next[place as usize];
    }
}
