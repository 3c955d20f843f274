//! The operations in a row, with the number and the name of each.

ghost use Rattle.std.specs.Prelude.{◌≡◌, ◌<◌};
ghost use Rattle.asm_text.specs.declared.operation.TheConstants.{NUMBERS};
ghost use Rattle.asm_text.specs.Operations.{is_operation, number_of_operation};

use x86_decode::Op;
use x86_decode::Op::*;

/// The table of operations, for a macro that reads it: in brackets the number of one without a condition, the operation
/// and its name in a text; then in parentheses a condition and the names of CMOVcc, SETcc and Jcc with it.
macro_rules! operations {
    ($reader:ident $($of:ident)?) => {
        $reader! {
            $($of)?
            // arithmetic and logic
            [0 Add "add"] [1 Or "or"] [2 Adc "adc"] [3 Sbb "sbb"] [4 And "and"] [5 Sub "sub"] [6 Xor "xor"]
            [7 Cmp "cmp"] [8 Test "test"] [9 Not "not"] [10 Neg "neg"] [11 Inc "inc"] [12 Dec "dec"]
            [13 Mul "mul"] [14 Imul "imul"] [15 Imul3 "imul3"] [16 Div "div"] [17 Idiv "idiv"] [18 Rol "rol"]
            [19 Ror "ror"] [20 Shl "shl"] [21 Shr "shr"] [22 Sar "sar"] [23 Bt "bt"] [24 Bts "bts"]
            [25 Btr "btr"] [26 Btc "btc"] [27 Bsf "bsf"] [28 Bsr "bsr"]
            // moves
            [29 Mov "mov"] [30 Movsxd "movsxd"] [31 Movzx8 "movzx8"] [32 Movzx16 "movzx16"] [33 Movsx8 "movsx8"]
            [34 Movsx16 "movsx16"] [35 Lea "lea"] [36 Xchg "xchg"] [37 Xadd "xadd"] [38 Cmpxchg "cmpxchg"]
            [39 Bswap "bswap"] [40 Cbw "cbw"] [41 Cwde "cwde"] [42 Cdqe "cdqe"] [43 Cwd "cwd"] [44 Cdq "cdq"]
            [45 Cqo "cqo"]
            // the stack
            [46 Push "push"] [47 Pop "pop"] [48 Pushfq "pushfq"] [49 Popfq "popfq"] [50 Leave "leave"]
            // strings
            [51 Movs "movs"] [52 Cmps "cmps"] [53 Stos "stos"] [54 Lods "lods"] [55 Scas "scas"]
            // flow
            [56 Jmp "jmp"] [57 Call "call"] [58 Ret "ret"] [59 Loop "loop"] [60 Loope "loope"]
            [61 Loopne "loopne"] [62 Jrcxz "jrcxz"] [63 Int3 "int3"] [64 Int "int"] [65 Iretq "iretq"]
            [66 Ud2 "ud2"] [67 Nop "nop"]
            // flags
            [68 Cmc "cmc"] [69 Clc "clc"] [70 Stc "stc"] [71 Cli "cli"] [72 Sti "sti"] [73 Cld "cld"]
            [74 Std "std"]
            // the system
            [75 Hlt "hlt"] [76 In "in"] [77 Out "out"] [78 Movfc "movfc"] [79 Movtc "movtc"] [80 Movtd "movtd"]
            [81 Wrmsr "wrmsr"] [82 Lldt "lldt"] [83 Ltr "ltr"] [84 Lgdt "lgdt"] [85 Lidt "lidt"]
            [86 Lmsw "lmsw"] [87 Invlpg "invlpg"]
            // by condition
            (0 "cmov0" "set0" "j0")
            (1 "cmov1" "set1" "j1")
            (2 "cmov2" "set2" "j2")
            (3 "cmov3" "set3" "j3")
            (4 "cmov4" "set4" "j4")
            (5 "cmov5" "set5" "j5")
            (6 "cmov6" "set6" "j6")
            (7 "cmov7" "set7" "j7")
            (8 "cmov8" "set8" "j8")
            (9 "cmov9" "set9" "j9")
            (10 "cmova" "seta" "ja")
            (11 "cmovb" "setb" "jb")
            (12 "cmovc" "setc" "jc")
            (13 "cmovd" "setd" "jd")
            (14 "cmove" "sete" "je")
            (15 "cmovf" "setf" "jf")
        }
    };
}

macro_rules! in_a_row {
    (
        $([$number:literal $op:ident $name:literal])*
        $(($condition:literal $cmov:literal $set:literal $jump:literal))*
    ) => {
        [$($op,)* $(Cmov($condition), Set($condition), J($condition),)*]
    };
}

macro_rules! names_in_a_row {
    (
        $([$number:literal $op:ident $name:literal])*
        $(($condition:literal $cmov:literal $set:literal $jump:literal))*
    ) => {
        [$($name,)* $($cmov, $set, $jump,)*]
    };
}

macro_rules! number {
    (
        $of:ident
        $([$number:literal $op:ident $name:literal])*
        $(($condition:literal $cmov:literal $set:literal $jump:literal))*
    ) => {
        match $of {
            $($op => $number,)*
            Cmov(condition) => 88 + 3 * condition as u16,
            Set(condition) => 89 + 3 * condition as u16,
            J(condition) => 90 + 3 * condition as u16,
        }
    };
}

/// How many operations there are, those of each condition among them.
pub(crate) const OPERATIONS: usize = 136;

/// How many numbers there are, those of conditions past the sixteen among them.
pub(crate) const NUMBERS: usize = OPERATIONS + 3 * 240;

/// All operations: first those without a condition, then by condition the three that have one.
pub(crate) static ALL_OPS: [Op; OPERATIONS] = operations!(in_a_row);

/// The names of all operations, in the same order.
pub(crate) static OP_NAMES: [&str; OPERATIONS] = operations!(names_in_a_row);

/// The place of an operation in `ALL_OPS`. A condition past the sixteen that there are has its number too, past the
/// last place, so that no two operations have one number.
pub(crate) fn op_number(op: Op) -> u16
    ensures value { result ≡ number_of_operation op }
    ensures small { result < NUMBERS }
{
    operations!(number op)
}

/// Whether two operations are the same, their conditions included.
pub(crate) fn is_same_op(op: Op, other: Op) -> bool
    ensures { result ≡ is_operation op other }
{
    op_number(op) == op_number(other)
}
