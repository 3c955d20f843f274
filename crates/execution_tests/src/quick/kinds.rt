//! The kinds of instructions, by their bytes.

use exec_quick::{Kind, quick_of};
use test_kit::first_wrong;
use x86_decode::{Decoded, decode};

/// The kind of the instruction that begins so.
fn kind_of(bytes: &[u8]) -> Option<Kind> {
    if bytes.len() > 15 {
        return None;
    }
    match decode(bytes) {
        Decoded::Whole(instr, size) => Some(quick_of(&instr, size).kind),
        _ => None,
    }
}

/// Whether these bytes begin an instruction of this kind.
fn is_right((bytes, kind): &(&'static [u8], Kind)) -> bool {
    kind_of(bytes) == Some(*kind)
}

/// Bytes of an instruction, and the kind of its quick form.
static KINDS: [(&[u8], Kind); 110] = [
    // over registers and memory
    (b"\x48\x01\xC8", Kind::Add64),
    (b"\x48\x83\xC0\x01", Kind::Add64),
    (b"\x48\xFF\xC0", Kind::Inc64),
    (b"\x48\xC1\xE0\x03", Kind::Shl64),
    (b"\x48\x0F\x44\xC1", Kind::Combine),
    (b"\x48\x03\x03", Kind::AddLoad64),
    (b"\x48\x01\x03", Kind::AddStore64),
    (b"\x48\xFF\x03", Kind::IncStore64),
    (b"\x48\x39\xC8", Kind::Cmp64),
    (b"\x48\x3B\x03", Kind::CmpLoad64),
    (b"\x48\x39\x03", Kind::CmpStore64),
    (b"\x80\x3B\x05", Kind::CmpStore8),
    (b"\x48\x89\xC8", Kind::Mov64),
    (b"\x0F\x94\xC0", Kind::Move),
    (b"\x48\x8B\x03", Kind::Load64),
    (b"\x0F\xB6\x03", Kind::LoadByte),
    (b"\x48\x8B\x05\x10\x00\x00\x00", Kind::Load64),
    (b"\x48\x89\x03", Kind::Store64),
    (b"\x48\x8D\x44\x8B\x08", Kind::Address),
    // the most frequent operations at other widths, and others at theirs
    (b"\x01\xC8", Kind::Add32),
    (b"\x66\x01\xC8", Kind::Combine),
    (b"\x00\xC8", Kind::Combine),
    (b"\x48\x11\xC8", Kind::Adc64),
    (b"\x48\x29\xC8", Kind::Sub64),
    (b"\x83\xE0\x01", Kind::And32),
    (b"\x48\x09\xC8", Kind::Or64),
    (b"\x31\xC0", Kind::Xor32),
    (b"\x48\xFF\xC8", Kind::Dec64),
    (b"\x85\xC0", Kind::Test32),
    (b"\x39\xC8", Kind::Cmp32),
    (b"\x66\x39\xC8", Kind::Compare),
    (b"\x48\xC7\xC0\x05\x00\x00\x00", Kind::Mov64),
    (b"\x8B\x03", Kind::Load32),
    (b"\x8A\x03", Kind::Load8),
    (b"\x89\x03", Kind::Store32),
    (b"\x74\xFE", Kind::JumpZero),
    (b"\x7F\xFE", Kind::JumpGreater),
    (b"\x70\xFE", Kind::Branch),
    (b"\xE3\xFE", Kind::CountDown),
    // over the stack, and branches
    (b"\x50", Kind::Push64),
    (b"\x6A\x05", Kind::Push64),
    (b"\x66\x50", Kind::Push),
    (b"\x58", Kind::Pop64),
    (b"\x66\x58", Kind::Pop),
    (b"\xE8\x10\x00\x00\x00", Kind::Call),
    (b"\xFF\xD0", Kind::Call),
    (b"\xC3", Kind::Return),
    (b"\xC2\x08\x00", Kind::Return),
    (b"\x75\xFE", Kind::JumpNotZero),
    (b"\xEB\xFE", Kind::Jump),
    (b"\xFF\xE0", Kind::Jump),
    (b"\xE2\xFE", Kind::Loop),
    // push [rbx], push word [rbx], jmp [rbx], jmp [rip + 16], call [rbx], leave
    (b"\xFF\x33", Kind::PushLoad),
    (b"\x66\xFF\x33", Kind::PushLoad),
    (b"\xFF\x23", Kind::BranchLoad),
    (b"\xFF\x25\x10\x00\x00\x00", Kind::BranchLoad),
    (b"\xFF\x13", Kind::CallLoad),
    (b"\xC9", Kind::Leave),
    // no quick form: a high byte register that is written, LOCK, POP to memory, and what only a
    // supervisor does
    (b"\x88\xC4", Kind::Slow),
    (b"\xF0\x48\x01\x03", Kind::Slow),
    (b"\x8F\x03", Kind::Slow),
    (b"\xF4", Kind::Slow),
    (b"\x0F\x22\xC0", Kind::Slow),
    // pushfq, popfq, mov rax, cr0
    (b"\x9C", Kind::PushFlags),
    (b"\x9D", Kind::PopFlags),
    (b"\x0F\x20\xC0", Kind::FromControl),
    // strings
    (b"\xA4", Kind::MoveString),
    (b"\xF3\x48\xA5", Kind::MoveString),
    (b"\xF3\xAA", Kind::StoreString),
    (b"\xAD", Kind::LoadString),
    (b"\xF3\xA6", Kind::CompareStrings),
    (b"\xF2\xAE", Kind::ScanString),
    (b"\xF0\xA4", Kind::Slow),
    // nop, also of other lengths; pause, endbr64
    (b"\x90", Kind::Nothing),
    (b"\x0F\x1F\x00", Kind::Nothing),
    (b"\x0F\x1F\x44\x00\x00", Kind::Nothing),
    (b"\xF3\x90", Kind::Nothing),
    (b"\xF3\x0F\x1E\xFA", Kind::Nothing),
    // cbw, cwde, cdqe; cwd, cdq, cqo
    (b"\x66\x98", Kind::Widen),
    (b"\x98", Kind::Widen),
    (b"\x48\x98", Kind::Widen),
    (b"\x66\x99", Kind::Double),
    (b"\x99", Kind::Double),
    (b"\x48\x99", Kind::Double),
    // cmc, clc, stc, cld, std; cli; and sti, which is for others
    (b"\xF5", Kind::ChangeFlag),
    (b"\xF8", Kind::ChangeFlag),
    (b"\xF9", Kind::ChangeFlag),
    (b"\xFC", Kind::ChangeFlag),
    (b"\xFD", Kind::ChangeFlag),
    (b"\xFA", Kind::ClearInterrupts),
    (b"\xFB", Kind::Slow),
    // mov al, ah; add al, ah; cmp al, ah; movzx eax, ah; mov ah, al
    (b"\x88\xE0", Kind::Move),
    (b"\x00\xE0", Kind::Combine),
    (b"\x38\xE0", Kind::Cmp8),
    (b"\x0F\xB6\xC4", Kind::MovzxByte32),
    (b"\x88\xC4", Kind::Slow),
    // mul rcx, mul ah, imul rcx; mul [rbx], imul [rbx]
    (b"\x48\xF7\xE1", Kind::Multiply),
    (b"\xF6\xE4", Kind::Multiply),
    (b"\x48\xF7\xE9", Kind::Multiply),
    (b"\x48\xF7\x23", Kind::MultiplyLoad),
    (b"\x48\xF7\x2B", Kind::MultiplyLoad),
    // imul rax, rcx
    (b"\x48\x0F\xAF\xC1", Kind::Combine),
    // div rcx, div ah, idiv rcx; div [rbx], idiv [rbx]
    (b"\x48\xF7\xF1", Kind::Divide),
    (b"\xF6\xF4", Kind::Divide),
    (b"\x48\xF7\xF9", Kind::Divide),
    (b"\x48\xF7\x33", Kind::DivideLoad),
    (b"\x48\xF7\x3B", Kind::DivideLoad),
    // bsf rax, rcx; bsr rax, rcx; bsr rax, [rbx]
    (b"\x48\x0F\xBC\xC1", Kind::ScanBits),
    (b"\x48\x0F\xBD\xC1", Kind::ScanBits),
    (b"\x48\x0F\xBD\x03", Kind::ScanBitsLoad),
];

#[test]
fn kinds(rt: HostRuntime) {
    assert_eq!(rt; first_wrong(&KINDS, is_right), None);
}

/// Bytes of an instruction that has a kind of one operation and width, or nearly.
static WIDTHS: [(&[u8], Kind); 50] = [
    // shl rax, cl; shl eax, cl
    (b"\x48\xD3\xE0", Kind::Shl64),
    (b"\xD3\xE0", Kind::Shl32),
    // shr rax, cl; shr eax, cl
    (b"\x48\xD3\xE8", Kind::Shr64),
    (b"\xD3\xE8", Kind::Shr32),
    // sar rax, cl; sar eax, cl
    (b"\x48\xD3\xF8", Kind::Sar64),
    (b"\xD3\xF8", Kind::Sar32),
    // rol rax, cl; rol eax, cl
    (b"\x48\xD3\xC0", Kind::Rol64),
    (b"\xD3\xC0", Kind::Rol32),
    // ror rax, cl; ror eax, cl
    (b"\x48\xD3\xC8", Kind::Ror64),
    (b"\xD3\xC8", Kind::Ror32),
    // shl rax, 3; shl rax, 1; shl ax, cl
    (b"\x48\xC1\xE0\x03", Kind::Shl64),
    (b"\x48\xD1\xE0", Kind::Shl64),
    (b"\x66\xD3\xE0", Kind::Combine),
    // neg rax; neg eax
    (b"\x48\xF7\xD8", Kind::Neg64),
    (b"\xF7\xD8", Kind::Neg32),
    // not rax; not eax
    (b"\x48\xF7\xD0", Kind::Not64),
    (b"\xF7\xD0", Kind::Not32),
    // adc rax, rcx; adc eax, ecx
    (b"\x48\x11\xC8", Kind::Adc64),
    (b"\x11\xC8", Kind::Adc32),
    // sbb rax, rcx; sbb eax, ecx
    (b"\x48\x19\xC8", Kind::Sbb64),
    (b"\x19\xC8", Kind::Sbb32),
    // add rax, [rbx]; add eax, [rbx]
    (b"\x48\x03\x03", Kind::AddLoad64),
    (b"\x03\x03", Kind::AddLoad32),
    // sub rax, [rbx]; sub eax, [rbx]
    (b"\x48\x2B\x03", Kind::SubLoad64),
    (b"\x2B\x03", Kind::SubLoad32),
    // and rax, [rbx]; and eax, [rbx]
    (b"\x48\x23\x03", Kind::AndLoad64),
    (b"\x23\x03", Kind::AndLoad32),
    // or rax, [rbx]; or eax, [rbx]
    (b"\x48\x0B\x03", Kind::OrLoad64),
    (b"\x0B\x03", Kind::OrLoad32),
    // xor rax, [rbx]; xor eax, [rbx]
    (b"\x48\x33\x03", Kind::XorLoad64),
    (b"\x33\x03", Kind::XorLoad32),
    // add al, [rbx]
    (b"\x02\x03", Kind::CombineLoad),
    // add [rbx], rax; add [rbx], eax
    (b"\x48\x01\x03", Kind::AddStore64),
    (b"\x01\x03", Kind::AddStore32),
    // sub [rbx], rax; sub [rbx], eax
    (b"\x48\x29\x03", Kind::SubStore64),
    (b"\x29\x03", Kind::SubStore32),
    // and [rbx], rax; and [rbx], eax
    (b"\x48\x21\x03", Kind::AndStore64),
    (b"\x21\x03", Kind::AndStore32),
    // or [rbx], rax; or [rbx], eax
    (b"\x48\x09\x03", Kind::OrStore64),
    (b"\x09\x03", Kind::OrStore32),
    // inc qword [rbx]; inc dword [rbx]
    (b"\x48\xFF\x03", Kind::IncStore64),
    (b"\xFF\x03", Kind::IncStore32),
    // dec qword [rbx]; dec dword [rbx]
    (b"\x48\xFF\x0B", Kind::DecStore64),
    (b"\xFF\x0B", Kind::DecStore32),
    // inc byte [rbx]; dec byte [rbx]; and [rbx], al; or [rbx], al
    (b"\xFE\x03", Kind::IncStore8),
    (b"\xFE\x0B", Kind::DecStore8),
    (b"\x20\x03", Kind::AndStore8),
    (b"\x08\x03", Kind::OrStore8),
    // xor [rbx], rax; shl qword [rbx], cl
    (b"\x48\x31\x03", Kind::CombineStore),
    (b"\x48\xD3\x23", Kind::CombineStore),
];

/// The same of comparisons and moves.
static WIDTHS_OF_MOVES: [(&[u8], Kind); 32] = [
    // cmp al, cl; test al, cl; bt rax, rcx
    (b"\x38\xC8", Kind::Cmp8),
    (b"\x84\xC8", Kind::Test8),
    (b"\x48\x0F\xA3\xC8", Kind::Compare),
    // cmp rax, [rbx]; cmp eax, [rbx]; cmp al, [rbx]; cmp ax, [rbx]
    (b"\x48\x3B\x03", Kind::CmpLoad64),
    (b"\x3B\x03", Kind::CmpLoad32),
    (b"\x3A\x03", Kind::CmpLoad8),
    (b"\x66\x3B\x03", Kind::CompareLoad),
    // cmp [rbx], rax; cmp [rbx], eax; cmp [rbx], al; cmp [rbx], ax
    (b"\x48\x39\x03", Kind::CmpStore64),
    (b"\x39\x03", Kind::CmpStore32),
    (b"\x38\x03", Kind::CmpStore8),
    (b"\x66\x39\x03", Kind::CompareStore),
    // test [rbx], rax; test [rbx], eax; test [rbx], al
    (b"\x48\x85\x03", Kind::TestStore64),
    (b"\x85\x03", Kind::TestStore32),
    (b"\x84\x03", Kind::TestStore8),
    // movzx eax, cl; movzx eax, cx; movzx rax, cl
    (b"\x0F\xB6\xC1", Kind::MovzxByte32),
    (b"\x0F\xB7\xC1", Kind::MovzxWord32),
    (b"\x48\x0F\xB6\xC1", Kind::Move),
    // movsx rax, cl; movsx eax, cl; movsx rax, cx; movsx eax, cx; movsxd rax, ecx
    (b"\x48\x0F\xBE\xC1", Kind::MovsxByte64),
    (b"\x0F\xBE\xC1", Kind::MovsxByte32),
    (b"\x48\x0F\xBF\xC1", Kind::MovsxWord64),
    (b"\x0F\xBF\xC1", Kind::MovsxWord32),
    (b"\x48\x63\xC1", Kind::Movsxd64),
    // mov al, [rbx]; movzx eax, word [rbx]
    (b"\x8A\x03", Kind::Load8),
    (b"\x0F\xB7\x03", Kind::MovzxWordLoad32),
    // the same as above of memory
    (b"\x48\x0F\xBE\x03", Kind::MovsxByteLoad64),
    (b"\x0F\xBE\x03", Kind::MovsxByteLoad32),
    (b"\x48\x0F\xBF\x03", Kind::MovsxWordLoad64),
    (b"\x0F\xBF\x03", Kind::MovsxWordLoad32),
    (b"\x48\x63\x03", Kind::MovsxdLoad64),
    // mov ax, [rbx]
    (b"\x66\x8B\x03", Kind::MoveLoad),
    // mov [rbx], ax; mov [rbx], al
    (b"\x66\x89\x03", Kind::Store16),
    (b"\x88\x03", Kind::Store8),
];

#[test]
fn kinds_of_one_width(rt: HostRuntime) {
    assert_eq!(rt; first_wrong(&WIDTHS, is_right), None);
    assert_eq!(rt; first_wrong(&WIDTHS_OF_MOVES, is_right), None);
}

/// The second row has another kind.
static WRONG: [(&[u8], Kind); 3] = [
    (b"\x50", Kind::Push64),
    (b"\x50", Kind::Pop64),
    (b"\x58", Kind::Pop64),
];

#[test]
fn another_kind_is_found(rt: HostRuntime) {
    assert_eq!(rt; first_wrong(&WRONG, is_right), Some(1));
}
