//! Texts at worked values, each name once, and texts that aren't read.

use asm_text::{print, read, round_trip};
use decode_fields::{Address, Place, Rep};
use test_kit::first_wrong;
use x86_decode::{Instr, Op};

/// An instruction without prefixes.
fn plain(op: Op, width: u8, to: Place, from: Place, value: u64) -> Instr {
    Instr {
        op,
        width,
        to,
        from,
        value,
        rep: Rep::No,
        lock: false,
    }
}

fn at(base: Option<u8>, index: Option<u8>, scale: u8, disp: u64, rip: bool) -> Place {
    Place::Mem(Address {
        base,
        index,
        scale,
        disp,
        rip,
    })
}

/// A text and an instruction.
type Row<'t> = (&'t str, Instr);

/// Whether the text is read as the instruction, which is printed as the text.
fn is_so(row: &Row) -> bool {
    let (text, instr) = *row;
    match read(text.as_bytes()) {
        Some(found) => found == instr && print(&found).as_str() == text,
        None => false,
    }
}

#[test]
fn registers_and_numbers(rt: HostRuntime) {
    let rows = [
        (
            "mov.8 r0 value 41",
            plain(Op::Mov, 8, Place::Reg(0), Place::Value, 0x41),
        ),
        (
            "mov.32 r0 r1 0",
            plain(Op::Mov, 32, Place::Reg(0), Place::Reg(1), 0),
        ),
        (
            "mov.64 r0 value c0220f",
            plain(Op::Mov, 64, Place::Reg(0), Place::Value, 0xC0_220F),
        ),
        (
            "mov.64 r3 value ffffffff80001000",
            plain(
                Op::Mov,
                64,
                Place::Reg(3),
                Place::Value,
                0xFFFF_FFFF_8000_1000,
            ),
        ),
        (
            "movzx8.32 r9 h2 0",
            plain(Op::Movzx8, 32, Place::Reg(9), Place::High(2), 0),
        ),
        (
            "je.64 - value 10",
            plain(Op::J(14), 64, Place::Nothing, Place::Value, 0x10),
        ),
        (
            "add.255 r255 h255 ffffffffffffffff",
            plain(Op::Add, 255, Place::Reg(255), Place::High(255), u64::MAX),
        ),
    ];
    assert_eq!(rt; first_wrong(&rows, is_so), None);
}

#[test]
fn places_in_memory(rt: HostRuntime) {
    let sum = at(Some(5), Some(12), 8, 0xFFFF_FFFF_FFFF_FFF0, false);
    let rows = [
        (
            "lea.64 r2 [rip,-,1,1234] 0",
            plain(
                Op::Lea,
                64,
                Place::Reg(2),
                at(None, None, 1, 0x1234, true),
                0,
            ),
        ),
        (
            "mov.16 [r5,r12,8,fffffffffffffff0] r10 0",
            plain(Op::Mov, 16, sum, Place::Reg(10), 0),
        ),
        (
            "mov.8 [-,-,1,7f] value ff",
            plain(
                Op::Mov,
                8,
                at(None, None, 1, 0x7F, false),
                Place::Value,
                0xFF,
            ),
        ),
        (
            "mov.8 [-,r1,4,0] h0 0",
            plain(
                Op::Mov,
                8,
                at(None, Some(1), 4, 0, false),
                Place::High(0),
                0,
            ),
        ),
        (
            "push.64 - [r4,-,1,8] 0",
            plain(
                Op::Push,
                64,
                Place::Nothing,
                at(Some(4), None, 1, 8, false),
                0,
            ),
        ),
    ];
    assert_eq!(rt; first_wrong(&rows, is_so), None);
}

#[test]
fn prefixes(rt: HostRuntime) {
    let add = plain(Op::Add, 32, at(Some(0), None, 1, 0, false), Place::Value, 1);
    let movs = plain(Op::Movs, 8, Place::Nothing, Place::Nothing, 0);
    let rows = [
        ("add.32 [r0,-,1,0] value 1", add),
        (
            "lock add.32 [r0,-,1,0] value 1",
            Instr { lock: true, ..add },
        ),
        (
            "repe movs.8 - - 0",
            Instr {
                rep: Rep::WhileEqual,
                ..movs
            },
        ),
        (
            "repne movs.8 - - 0",
            Instr {
                rep: Rep::WhileNot,
                ..movs
            },
        ),
        (
            "lock repne movs.8 - - 0",
            Instr {
                rep: Rep::WhileNot,
                lock: true,
                ..movs
            },
        ),
    ];
    assert_eq!(rt; first_wrong(&rows, is_so), None);
}

#[test]
fn by_way_of_the_text(rt: HostRuntime) {
    let mov = plain(Op::Mov, 8, Place::Reg(0), Place::Value, 0x41);
    assert_eq!(rt; round_trip(&[0xB0, 0x41, 0x90]), Some(mov));
    assert_eq!(rt; round_trip(&[0xB0]), None);
}

#[test]
fn a_wrong_row_is_found(rt: HostRuntime) {
    let rows = [
        (
            "mov.8 r0 value 41",
            plain(Op::Mov, 8, Place::Reg(0), Place::Value, 0x41),
        ),
        (
            "mov.8 r0 value 41",
            plain(Op::Mov, 8, Place::Reg(0), Place::Value, 0x42),
        ),
    ];
    assert_eq!(rt; first_wrong(&rows, is_so), Some(1));
}

static NAMES_TO_MOVS: [(&str, Op); 47] = [
    ("add.64 - - 0", Op::Add),
    ("or.64 - - 0", Op::Or),
    ("adc.64 - - 0", Op::Adc),
    ("sbb.64 - - 0", Op::Sbb),
    ("and.64 - - 0", Op::And),
    ("sub.64 - - 0", Op::Sub),
    ("xor.64 - - 0", Op::Xor),
    ("cmp.64 - - 0", Op::Cmp),
    ("test.64 - - 0", Op::Test),
    ("not.64 - - 0", Op::Not),
    ("neg.64 - - 0", Op::Neg),
    ("inc.64 - - 0", Op::Inc),
    ("dec.64 - - 0", Op::Dec),
    ("mul.64 - - 0", Op::Mul),
    ("imul.64 - - 0", Op::Imul),
    ("imul3.64 - - 0", Op::Imul3),
    ("div.64 - - 0", Op::Div),
    ("idiv.64 - - 0", Op::Idiv),
    ("rol.64 - - 0", Op::Rol),
    ("ror.64 - - 0", Op::Ror),
    ("shl.64 - - 0", Op::Shl),
    ("shr.64 - - 0", Op::Shr),
    ("sar.64 - - 0", Op::Sar),
    ("bt.64 - - 0", Op::Bt),
    ("bts.64 - - 0", Op::Bts),
    ("btr.64 - - 0", Op::Btr),
    ("btc.64 - - 0", Op::Btc),
    ("bsf.64 - - 0", Op::Bsf),
    ("bsr.64 - - 0", Op::Bsr),
    ("mov.64 - - 0", Op::Mov),
    ("movsxd.64 - - 0", Op::Movsxd),
    ("movzx8.64 - - 0", Op::Movzx8),
    ("movzx16.64 - - 0", Op::Movzx16),
    ("movsx8.64 - - 0", Op::Movsx8),
    ("movsx16.64 - - 0", Op::Movsx16),
    ("lea.64 - - 0", Op::Lea),
    ("xchg.64 - - 0", Op::Xchg),
    ("xadd.64 - - 0", Op::Xadd),
    ("cmpxchg.64 - - 0", Op::Cmpxchg),
    ("bswap.64 - - 0", Op::Bswap),
    ("cmov0.64 - - 0", Op::Cmov(0)),
    ("cmova.64 - - 0", Op::Cmov(10)),
    ("set5.64 - - 0", Op::Set(5)),
    ("setf.64 - - 0", Op::Set(15)),
    ("cbw.64 - - 0", Op::Cbw),
    ("cwde.64 - - 0", Op::Cwde),
    ("cdqe.64 - - 0", Op::Cdqe),
];

static NAMES_FROM_MOVS: [(&str, Op); 47] = [
    ("cwd.64 - - 0", Op::Cwd),
    ("cdq.64 - - 0", Op::Cdq),
    ("cqo.64 - - 0", Op::Cqo),
    ("push.64 - - 0", Op::Push),
    ("pop.64 - - 0", Op::Pop),
    ("pushfq.64 - - 0", Op::Pushfq),
    ("popfq.64 - - 0", Op::Popfq),
    ("leave.64 - - 0", Op::Leave),
    ("movs.64 - - 0", Op::Movs),
    ("cmps.64 - - 0", Op::Cmps),
    ("stos.64 - - 0", Op::Stos),
    ("lods.64 - - 0", Op::Lods),
    ("scas.64 - - 0", Op::Scas),
    ("j9.64 - - 0", Op::J(9)),
    ("je.64 - - 0", Op::J(14)),
    ("jmp.64 - - 0", Op::Jmp),
    ("call.64 - - 0", Op::Call),
    ("ret.64 - - 0", Op::Ret),
    ("loop.64 - - 0", Op::Loop),
    ("loope.64 - - 0", Op::Loope),
    ("loopne.64 - - 0", Op::Loopne),
    ("jrcxz.64 - - 0", Op::Jrcxz),
    ("int3.64 - - 0", Op::Int3),
    ("int.64 - - 0", Op::Int),
    ("iretq.64 - - 0", Op::Iretq),
    ("ud2.64 - - 0", Op::Ud2),
    ("nop.64 - - 0", Op::Nop),
    ("cmc.64 - - 0", Op::Cmc),
    ("clc.64 - - 0", Op::Clc),
    ("stc.64 - - 0", Op::Stc),
    ("cli.64 - - 0", Op::Cli),
    ("sti.64 - - 0", Op::Sti),
    ("cld.64 - - 0", Op::Cld),
    ("std.64 - - 0", Op::Std),
    ("hlt.64 - - 0", Op::Hlt),
    ("in.64 - - 0", Op::In),
    ("out.64 - - 0", Op::Out),
    ("movfc.64 - - 0", Op::Movfc),
    ("movtc.64 - - 0", Op::Movtc),
    ("movtd.64 - - 0", Op::Movtd),
    ("wrmsr.64 - - 0", Op::Wrmsr),
    ("lldt.64 - - 0", Op::Lldt),
    ("ltr.64 - - 0", Op::Ltr),
    ("lgdt.64 - - 0", Op::Lgdt),
    ("lidt.64 - - 0", Op::Lidt),
    ("lmsw.64 - - 0", Op::Lmsw),
    ("invlpg.64 - - 0", Op::Invlpg),
];

/// Whether the text names the operation.
fn is_name_of((text, op): &(&str, Op)) -> bool {
    is_so(&(*text, plain(*op, 64, Place::Nothing, Place::Nothing, 0)))
}

#[test]
fn each_name(rt: HostRuntime) {
    assert_eq!(rt; first_wrong(&NAMES_TO_MOVS, is_name_of), None);
    assert_eq!(rt; first_wrong(&NAMES_FROM_MOVS, is_name_of), None);
}

static NO_TEXTS: [&str; 41] = [
    "",
    "mov.9",
    "mov.8 r0 r1",
    "mov.8 r0 r1 ",
    "mov.8 r0 r1 0 ",
    " mov.8 r0 r1 0",
    "mov.8  r0 r1 0",
    "mov.8 r0 r1 0\n",
    "Mov.8 r0 r1 0",
    "mov.8 R0 r1 0",
    "mov.64 r0 value C0220F",
    "mov.08 r0 r1 0",
    "mov.8 r00 r1 0",
    "mov.8 r0 value 041",
    "mov.8 r0 value 00",
    "mov.64 r0 value 10000000000000000",
    "mov.64 r0 value 0ffffffffffffffff",
    "mov.256 r0 r1 0",
    "mov.8 r256 r1 0",
    "mov.8 h256 r1 0",
    "mov. r0 r1 0",
    "mov r0 r1 0",
    ".8 r0 r1 0",
    "move.8 r0 r1 0",
    "j10.64 - value 0",
    "jle.64 - value 0",
    "jg.64 - value 0",
    "j.64 - value 0",
    "rep movs.8 - - 0",
    "repne repe movs.8 - - 0",
    "repe lock movs.8 - - 0",
    "lock lock add.8 r0 r1 0",
    "lock",
    "mov.8 [r5,r12,8] r1 0",
    "mov.8 [r5,r12,8,0 r1 0",
    "mov.8 [r5,r12,,0] r1 0",
    "mov.8 [rip,r12,08,0] r1 0",
    "mov.8 [h5,-,1,0] r1 0",
    "mov.8 [,-,1,0] r1 0",
    "mov.8 r0 valu 0",
    "mov.8 r0 -1 0",
];

#[test]
fn other_texts(rt: HostRuntime) {
    let first = NO_TEXTS
        .iter()
        .position(|text| read(text.as_bytes()).is_some());
    assert_eq!(rt; first, None);
}
