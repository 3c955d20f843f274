//! The programs of the tests.

use nk_bits::GATE;

/// A program.
#[derive(Clone, Copy)]
pub(super) enum Program {
    /// A call by its number and its first argument, and a trap behind it.
    Call(u64, u64),
    /// Two calls, of which the first names the handler of an interrupt.
    Twice,
    /// Whether IF is set, the offset in the gates' text that is jumped to, and RAX.
    Jump(bool, u16, u32),
    /// A jump to the call gate with this RSP.
    Stack(u64),
    /// A jump to the call gate at CPL 3.
    ToUser,
    /// A region is allocated, and four bytes from this address on are written there.
    Write(u64),
    /// A byte goes to the console.
    Console,
    /// UD2 at the entry.
    Undefined,
}

/// mov rsp, STACK; mov rdi, number; mov rsi, a; mov edx, 2; mov ecx, 3; mov r8d, 4; mov rax, GATE; call rax; int3; hlt.
pub(super) fn call(number: u64, a: u64) -> [u8; 60] {
    let [n0, n1, n2, n3, n4, n5, n6, n7] = number.to_le_bytes();
    let [a0, a1, a2, a3, a4, a5, a6, a7] = a.to_le_bytes();
    [
        0x48, 0xBC, 0x00, 0x80, 0x04, 0x00, 0x00, 0x80, 0xFF, 0xFF, 0x48, 0xBF, n0, n1, n2, n3, n4,
        n5, n6, n7, 0x48, 0xBE, a0, a1, a2, a3, a4, a5, a6, a7, 0xBA, 0x02, 0x00, 0x00, 0x00, 0xB9,
        0x03, 0x00, 0x00, 0x00, 0x41, 0xB8, 0x04, 0x00, 0x00, 0x00, 0x48, 0xB8, 0x00, 0x10, 0x00,
        0x00, 0x80, 0xFF, 0xFF, 0xFF, 0xFF, 0xD0, 0xCC, 0xF4,
    ]
}

/// nop, or sti; mov rcx, GATE + offset; mov eax, number; jmp rcx. Four turns.
pub(super) fn jump(sets_if: bool, offset: u16, rax: u32) -> [u8; 18] {
    let [a0, a1, a2, a3, a4, a5, a6, a7] = (GATE + u64::from(offset)).to_le_bytes();
    let [n0, n1, n2, n3] = rax.to_le_bytes();
    let first = if sets_if { 0xFB } else { 0x90 };
    [
        first, 0x48, 0xB9, a0, a1, a2, a3, a4, a5, a6, a7, 0xB8, n0, n1, n2, n3, 0xFF, 0xE1,
    ]
}

/// mov rsp, number; mov rax, GATE; jmp rax. Three turns.
pub(super) fn with_stack(rsp: u64) -> [u8; 22] {
    let [a0, a1, a2, a3, a4, a5, a6, a7] = rsp.to_le_bytes();
    [
        0x48, 0xBC, a0, a1, a2, a3, a4, a5, a6, a7, 0x48, 0xB8, 0x00, 0x10, 0x00, 0x00, 0x80, 0xFF,
        0xFF, 0xFF, 0xFF, 0xE0,
    ]
}

/// mov rsp, STACK; mov edi, 7; mov esi, 4; mov edx, 1; mov rbx, GATE; call rbx; mov edi, 9; mov esi, eax; xor edx, edx; mov
/// rcx, source; mov r8d, 4; call rbx; hlt.
pub(super) fn write(source: u64) -> [u8; 65] {
    let [s0, s1, s2, s3, s4, s5, s6, s7] = source.to_le_bytes();
    [
        0x48, 0xBC, 0x00, 0x80, 0x04, 0x00, 0x00, 0x80, 0xFF, 0xFF, 0xBF, 0x07, 0x00, 0x00, 0x00,
        0xBE, 0x04, 0x00, 0x00, 0x00, 0xBA, 0x01, 0x00, 0x00, 0x00, 0x48, 0xBB, 0x00, 0x10, 0x00,
        0x00, 0x80, 0xFF, 0xFF, 0xFF, 0xFF, 0xD3, 0xBF, 0x09, 0x00, 0x00, 0x00, 0x89, 0xC6, 0x31,
        0xD2, 0x48, 0xB9, s0, s1, s2, s3, s4, s5, s6, s7, 0x41, 0xB8, 0x04, 0x00, 0x00, 0x00, 0xFF,
        0xD3, 0xF4,
    ]
}

/// With IF set call 1 names the handler, call 0 is refused, and the machine halts.
#[rattlefmt::skip]
pub(super) const TWICE: [u8; 51] = [
    0x48, 0xBC, 0x00, 0x80, 0x04, 0x00, 0x00, 0x80, 0xFF, 0xFF, // 00 mov rsp, STACK
    0xFB,                                                       // 0A sti
    0xBF, 0x01, 0x00, 0x00, 0x00,                               // 0B mov edi, 1
    0x48, 0xBE, 0x2D, 0x00, 0x00, 0x80, 0xFF, 0xFF, 0xFF, 0xFF, // 10 mov rsi, HANDLER
    0x48, 0xBB, 0x00, 0x10, 0x00, 0x00, 0x80, 0xFF, 0xFF, 0xFF, // 1A mov rbx, GATE
    0xFF, 0xD3,                                                 // 24 call rbx
    0x31, 0xFF,                                                 // 26 xor edi, edi
    0xFF, 0xD3,                                                 // 28 call rbx
    0xF4,                                                       // 2A hlt
    0xEB, 0xFD,                                                 // 2B jmp 2A
    0x48, 0x83, 0xC4, 0x08,                                     // 2D add rsp, 8
    0x48, 0xCF,                                                 // 31 iretq
];

/// push 23; push 0; push 2; push 1B; mov rax, GATE; push rax; iretq.
pub(super) const TO_USER: [u8; 21] = [
    0x6A, 0x23, 0x6A, 0x00, 0x6A, 0x02, 0x6A, 0x1B, 0x48, 0xB8, 0x00, 0x10, 0x00, 0x00, 0x80, 0xFF,
    0xFF, 0xFF, 0x50, 0x48, 0xCF,
];

/// mov al, 41; out E9, al; hlt.
pub(super) const CONSOLE: [u8; 5] = [0xB0, 0x41, 0xE6, 0xE9, 0xF4];

/// ud2.
pub(super) const UNDEFINED: [u8; 2] = [0x0F, 0x0B];
