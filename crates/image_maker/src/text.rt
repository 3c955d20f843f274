//! The text, which goes through the script at CPL 0, and the code of a user.

ghost use Rattle.std.specs.Prelude.{◌≡◌, ◌<◌, slice_index};
ghost use Rattle.image_maker.specs.MadeImage.{text, user_code};

#[rattlefmt::skip]
static TEXT: [u8; 69] = [
    0x48, 0xC7, 0xC3, 0x00, 0x10, 0x00, 0x80,                   //  0: mov rbx, the script
    0x48, 0x8B, 0x3B,                                           //  7: mov rdi, [rbx]
    0x48, 0x85, 0xFF,                                           // 10: test rdi, rdi
    0x74, 0x33,                                                 // 13: jz 66
    0x78, 0x22,                                                 // 15: js 51
    0x48, 0x8B, 0x73, 0x08,                                     // 17: mov rsi, [rbx + 8]
    0x48, 0x8B, 0x53, 0x10,                                     // 21: mov rdx, [rbx + 16]
    0x48, 0x8B, 0x4B, 0x18,                                     // 25: mov rcx, [rbx + 24]
    0x4C, 0x8B, 0x43, 0x20,                                     // 29: mov r8, [rbx + 32]
    0x48, 0xB8, 0x00, 0x10, 0x00, 0x00, 0x80, 0xFF, 0xFF, 0xFF, // 33: mov rax, the gates
    0xFF, 0xD0,                                                 // 43: call rax
    0x48, 0x83, 0xC3, 0x28,                                     // 45: add rbx, 40; the trap handler
    0xEB, 0xD4,                                                 // 49: jmp 7
    0x6A, 0x23,                                                 // 51: push 0x23, SS
    0x6A, 0x00,                                                 // 53: push 0, RSP
    0x6A, 0x02,                                                 // 55: push 2, RFLAGS
    0x6A, 0x1B,                                                 // 57: push 0x1B, CS
    0x68, 0x00, 0x10, 0x00, 0x00,                               // 59: push 0x1000, RIP
    0x48, 0xCF,                                                 // 64: iretq
    0xF4,                                                       // 66: hlt
    0xEB, 0xFD,                                                 // 67: jmp 66
];

#[rattlefmt::skip]
static USER_CODE: [u8; 9] = [
    0xB9, 0xFA, 0x24, 0x00, 0x00, // 0: mov ecx, 9466
    0xE2, 0xFE,                   // 5: loop 5
    0xCD, 0x2F,                   // 7: int 47
];

/// The byte at a place of the text.
pub fn text_byte(at: u64) -> u8
    requires { at < 69 }
    ensures { result ≡ slice_index text at }
{
    TEXT[at as usize]
}

/// The byte at a place of the user's code.
pub fn user_code_byte(at: u64) -> u8
    requires { at < 9 }
    ensures { result ≡ slice_index user_code at }
{
    USER_CODE[at as usize]
}
