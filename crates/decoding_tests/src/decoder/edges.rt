//! What prefix bytes and ends of bytes do. Written by examples/opcodes/make_vectors.py.

#[rattlefmt::skip]
pub(super) static EDGES: [u8; 2587] = *b"\
# No bytes, prefix bytes and the escape alone, and instructions that are cut
= Short
66 = Short
F3 48 = Short
0F = Short
0F 22 = Short
8F = Short
C7 44 8B F0 A4 B3 C2 = Short
# A prefix of the address size or of FS and GS begins no spelling
64 = Unknown
65 = Unknown
67 = Unknown
66 67 = Unknown
2E 64 = Unknown
67 8B 74 8B F0 = Unknown
# Operand size and REX in either order: REX counts as the last prefix byte alone, and W is more than 66
66 48 01 E7 = ADD 64 r7 r4
48 66 01 E7 = ADD 16 r7 r4
4F 66 01 F2 = ADD 16 r2 r6
41 4C 01 E7 = ADD 64 r7 r12
4D 40 00 E7 = ADD 8 r7 r4
48 2E 00 E7 = ADD 8 bh ah
48 F3 01 E7 = ADD 32 r7 r4
# Segment prefixes have no effect
2E 01 E7 = ADD 32 r7 r4
36 01 E7 = ADD 32 r7 r4
3E 01 E7 = ADD 32 r7 r4
26 01 E7 = ADD 32 r7 r4
3E 74 91 = J.4 64 - imm FFFFFFFFFFFFFF91
# The last repeat counts, on string instructions alone
F3 A4 = MOVS 8 - - rep
F2 A5 = MOVS 32 - - repne
F3 66 A6 = CMPS 8 - - rep
F2 48 A7 = CMPS 64 - - repne
F3 F2 AA = STOS 8 - - repne
F2 F3 AB = STOS 32 - - rep
66 F3 AC = LODS 8 - - rep
F3 4F AD = LODS 64 - - rep
F2 F3 F2 AE = SCAS 8 - - repne
48 F3 AF = SCAS 32 - - rep
F3 90 = NOP 64 - -
F3 49 90 = XCHG 64 r0 r8
F3 0F BC E7 = BSF 32 r4 r7
F2 0F BD E7 = BSR 32 r4 r7
F2 E9 A4 B3 C2 D1 = JMP 64 - imm FFFFFFFFD1C2B3A4
F3 0F 1E FA = NOP 64 - -
F3 C3 = RET 64 - imm
F3 0F AE E8 = NOP 64 - -
# LOCK is kept wherever it stands, whether or not it is lawful
F0 01 74 8B F0 = ADD 32 [r3+r1*4-16] r6 lock
66 F0 48 01 35 FE FF FF FF = ADD 64 [rip-2] r6 lock
F0 01 E7 = ADD 32 r7 r4 lock
F0 90 = NOP 64 - - lock
F0 F3 A4 = MOVS 8 - - rep lock
F0 0F 22 C7 = MOVTC 64 - r7 lock
48 F0 A5 = MOVS 32 - - lock
# An encoding of a load of a control register inside an immediate is none
48 C7 C7 0F 22 C0 00 = MOV 64 r7 imm C0220F
# Fifteen bytes are the most: the longest spelling, and what is one byte more
66 66 66 66 66 66 66 66 66 66 66 66 66 66 = Short
66 66 66 66 66 66 66 66 66 66 66 66 66 66 66 = TooLong
66 66 66 66 66 66 66 66 66 66 66 66 66 66 90 = NOP 64 - -
66 66 66 66 66 66 66 66 66 66 66 66 66 66 0F = TooLong
66 66 66 66 66 66 66 66 66 66 66 66 66 66 06 = Unknown
66 66 66 66 66 66 66 66 66 66 66 66 66 6A 91 = PUSH 16 - imm FF91
66 66 66 66 66 66 66 66 66 66 66 66 66 68 A4 = TooLong
2E 2E 2E 2E 48 B8 81 92 A3 B4 C5 D6 E7 F8 = MOV 64 r0 imm F8E7D6C5B4A39281
2E 2E 2E 2E 2E 48 B8 81 92 A3 B4 C5 D6 E7 F8 = MOV 64 r0 imm F8E7D6C5B4A39281
2E 2E 2E 2E 2E 2E 48 B8 81 92 A3 B4 C5 D6 E7 = TooLong
2E 2E 2E 66 66 81 B4 8B F0 FF FF FF A4 B3 = XOR 16 [r3+r1*4-16] imm B3A4
2E 2E 2E 2E 2E 66 81 74 8B F0 A4 B3 = XOR 16 [r3+r1*4-16] imm B3A4
";
