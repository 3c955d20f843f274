//! Opcodes C0 to FF (SDM volume 2, table A-2) at the operand sizes 16, 32 and 64.
//! Written by examples/opcodes/make_vectors.py.

#[rattlefmt::skip]
pub(super) static FROM_C0: [u8; 9321] = *b"\
# C0/0 ROL Eb,Ub
66 C0 C7 91 = ROL 8 bh imm 91
66 47 C0 44 8B F0 91 = ROL 8 [r11+r9*4-16] imm 91
C0 44 8B F0 91 = ROL 8 [r3+r1*4-16] imm 91
44 C0 C7 91 = ROL 8 r7 imm 91
48 C0 05 FE FF FF FF 91 = ROL 8 [rip-2] imm 91
4F C0 C2 91 = ROL 8 r10 imm 91
# C0/1 ROR Eb,Ub
66 C0 CF 91 = ROR 8 bh imm 91
66 47 C0 4C 8B F0 91 = ROR 8 [r11+r9*4-16] imm 91
C0 4C 8B F0 91 = ROR 8 [r3+r1*4-16] imm 91
44 C0 CF 91 = ROR 8 r7 imm 91
48 C0 0D FE FF FF FF 91 = ROR 8 [rip-2] imm 91
4F C0 CA 91 = ROR 8 r10 imm 91
# C0/4 SHL Eb,Ub
66 C0 E7 91 = SHL 8 bh imm 91
66 47 C0 64 8B F0 91 = SHL 8 [r11+r9*4-16] imm 91
C0 64 8B F0 91 = SHL 8 [r3+r1*4-16] imm 91
44 C0 E7 91 = SHL 8 r7 imm 91
48 C0 25 FE FF FF FF 91 = SHL 8 [rip-2] imm 91
4F C0 E2 91 = SHL 8 r10 imm 91
# C0/5 SHR Eb,Ub
66 C0 EF 91 = SHR 8 bh imm 91
66 47 C0 6C 8B F0 91 = SHR 8 [r11+r9*4-16] imm 91
C0 6C 8B F0 91 = SHR 8 [r3+r1*4-16] imm 91
44 C0 EF 91 = SHR 8 r7 imm 91
48 C0 2D FE FF FF FF 91 = SHR 8 [rip-2] imm 91
4F C0 EA 91 = SHR 8 r10 imm 91
# C0/7 SAR Eb,Ub
66 C0 FF 91 = SAR 8 bh imm 91
66 47 C0 7C 8B F0 91 = SAR 8 [r11+r9*4-16] imm 91
C0 7C 8B F0 91 = SAR 8 [r3+r1*4-16] imm 91
44 C0 FF 91 = SAR 8 r7 imm 91
48 C0 3D FE FF FF FF 91 = SAR 8 [rip-2] imm 91
4F C0 FA 91 = SAR 8 r10 imm 91
C0 10 = Unknown
C0 D0 = Unknown
C0 18 = Unknown
C0 D8 = Unknown
C0 30 = Unknown
C0 F0 = Unknown
# C1/0 ROL Ev,Ub
66 C1 C7 91 = ROL 16 r7 imm 91
66 47 C1 44 8B F0 91 = ROL 16 [r11+r9*4-16] imm 91
C1 44 8B F0 91 = ROL 32 [r3+r1*4-16] imm 91
44 C1 C7 91 = ROL 32 r7 imm 91
48 C1 05 FE FF FF FF 91 = ROL 64 [rip-2] imm 91
4F C1 C2 91 = ROL 64 r10 imm 91
# C1/1 ROR Ev,Ub
66 C1 CF 91 = ROR 16 r7 imm 91
66 47 C1 4C 8B F0 91 = ROR 16 [r11+r9*4-16] imm 91
C1 4C 8B F0 91 = ROR 32 [r3+r1*4-16] imm 91
44 C1 CF 91 = ROR 32 r7 imm 91
48 C1 0D FE FF FF FF 91 = ROR 64 [rip-2] imm 91
4F C1 CA 91 = ROR 64 r10 imm 91
# C1/4 SHL Ev,Ub
66 C1 E7 91 = SHL 16 r7 imm 91
66 47 C1 64 8B F0 91 = SHL 16 [r11+r9*4-16] imm 91
C1 64 8B F0 91 = SHL 32 [r3+r1*4-16] imm 91
44 C1 E7 91 = SHL 32 r7 imm 91
48 C1 25 FE FF FF FF 91 = SHL 64 [rip-2] imm 91
4F C1 E2 91 = SHL 64 r10 imm 91
# C1/5 SHR Ev,Ub
66 C1 EF 91 = SHR 16 r7 imm 91
66 47 C1 6C 8B F0 91 = SHR 16 [r11+r9*4-16] imm 91
C1 6C 8B F0 91 = SHR 32 [r3+r1*4-16] imm 91
44 C1 EF 91 = SHR 32 r7 imm 91
48 C1 2D FE FF FF FF 91 = SHR 64 [rip-2] imm 91
4F C1 EA 91 = SHR 64 r10 imm 91
# C1/7 SAR Ev,Ub
66 C1 FF 91 = SAR 16 r7 imm 91
66 47 C1 7C 8B F0 91 = SAR 16 [r11+r9*4-16] imm 91
C1 7C 8B F0 91 = SAR 32 [r3+r1*4-16] imm 91
44 C1 FF 91 = SAR 32 r7 imm 91
48 C1 3D FE FF FF FF 91 = SAR 64 [rip-2] imm 91
4F C1 FA 91 = SAR 64 r10 imm 91
C1 10 = Unknown
C1 D0 = Unknown
C1 18 = Unknown
C1 D8 = Unknown
C1 30 = Unknown
C1 F0 = Unknown
# C2 RET Uw (f64)
66 C2 A4 B3 = RET 64 - imm B3A4
C2 A4 B3 = RET 64 - imm B3A4
41 C2 A4 B3 = RET 64 - imm B3A4
48 C2 A4 B3 = RET 64 - imm B3A4
# C3 RET (f64)
66 C3 = RET 64 - imm
C3 = RET 64 - imm
41 C3 = RET 64 - imm
48 C3 = RET 64 - imm
C4 = Unknown
C5 = Unknown
# C6/0 MOV Eb,Ib
66 C6 C7 91 = MOV 8 bh imm 91
66 47 C6 44 8B F0 91 = MOV 8 [r11+r9*4-16] imm 91
C6 44 8B F0 91 = MOV 8 [r3+r1*4-16] imm 91
44 C6 C7 91 = MOV 8 r7 imm 91
48 C6 05 FE FF FF FF 91 = MOV 8 [rip-2] imm 91
4F C6 C2 91 = MOV 8 r10 imm 91
C6 08 = Unknown
C6 C8 = Unknown
C6 10 = Unknown
C6 D0 = Unknown
C6 18 = Unknown
C6 D8 = Unknown
C6 20 = Unknown
C6 E0 = Unknown
C6 28 = Unknown
C6 E8 = Unknown
C6 30 = Unknown
C6 F0 = Unknown
C6 38 = Unknown
C6 F8 = Unknown
# C7/0 MOV Ev,Iz
66 C7 C7 A4 B3 = MOV 16 r7 imm B3A4
66 47 C7 44 8B F0 A4 B3 = MOV 16 [r11+r9*4-16] imm B3A4
C7 44 8B F0 A4 B3 C2 D1 = MOV 32 [r3+r1*4-16] imm D1C2B3A4
44 C7 C7 A4 B3 C2 D1 = MOV 32 r7 imm D1C2B3A4
48 C7 05 FE FF FF FF A4 B3 C2 D1 = MOV 64 [rip-2] imm FFFFFFFFD1C2B3A4
4F C7 C2 A4 B3 C2 D1 = MOV 64 r10 imm FFFFFFFFD1C2B3A4
C7 08 = Unknown
C7 C8 = Unknown
C7 10 = Unknown
C7 D0 = Unknown
C7 18 = Unknown
C7 D8 = Unknown
C7 20 = Unknown
C7 E0 = Unknown
C7 28 = Unknown
C7 E8 = Unknown
C7 30 = Unknown
C7 F0 = Unknown
C7 38 = Unknown
C7 F8 = Unknown
C8 = Unknown
# C9 LEAVE (f64)
66 C9 = LEAVE 64 - -
C9 = LEAVE 64 - -
41 C9 = LEAVE 64 - -
48 C9 = LEAVE 64 - -
CA = Unknown
CB = Unknown
# CC INT3
66 CC = INT3 64 - -
CC = INT3 64 - -
41 CC = INT3 64 - -
48 CC = INT3 64 - -
# CD INT Ub
66 CD 91 = INT 64 - imm 91
CD 91 = INT 64 - imm 91
41 CD 91 = INT 64 - imm 91
48 CD 91 = INT 64 - imm 91
CE = Unknown
# CF IRETQ (with REX.W)
48 CF = IRETQ 64 - -
66 CF = Unknown
CF = Unknown
# D0/0 ROL Eb,1
66 D0 C7 = ROL 8 bh imm 1
66 47 D0 44 8B F0 = ROL 8 [r11+r9*4-16] imm 1
D0 44 8B F0 = ROL 8 [r3+r1*4-16] imm 1
44 D0 C7 = ROL 8 r7 imm 1
48 D0 05 FE FF FF FF = ROL 8 [rip-2] imm 1
4F D0 C2 = ROL 8 r10 imm 1
# D0/1 ROR Eb,1
66 D0 CF = ROR 8 bh imm 1
66 47 D0 4C 8B F0 = ROR 8 [r11+r9*4-16] imm 1
D0 4C 8B F0 = ROR 8 [r3+r1*4-16] imm 1
44 D0 CF = ROR 8 r7 imm 1
48 D0 0D FE FF FF FF = ROR 8 [rip-2] imm 1
4F D0 CA = ROR 8 r10 imm 1
# D0/4 SHL Eb,1
66 D0 E7 = SHL 8 bh imm 1
66 47 D0 64 8B F0 = SHL 8 [r11+r9*4-16] imm 1
D0 64 8B F0 = SHL 8 [r3+r1*4-16] imm 1
44 D0 E7 = SHL 8 r7 imm 1
48 D0 25 FE FF FF FF = SHL 8 [rip-2] imm 1
4F D0 E2 = SHL 8 r10 imm 1
# D0/5 SHR Eb,1
66 D0 EF = SHR 8 bh imm 1
66 47 D0 6C 8B F0 = SHR 8 [r11+r9*4-16] imm 1
D0 6C 8B F0 = SHR 8 [r3+r1*4-16] imm 1
44 D0 EF = SHR 8 r7 imm 1
48 D0 2D FE FF FF FF = SHR 8 [rip-2] imm 1
4F D0 EA = SHR 8 r10 imm 1
# D0/7 SAR Eb,1
66 D0 FF = SAR 8 bh imm 1
66 47 D0 7C 8B F0 = SAR 8 [r11+r9*4-16] imm 1
D0 7C 8B F0 = SAR 8 [r3+r1*4-16] imm 1
44 D0 FF = SAR 8 r7 imm 1
48 D0 3D FE FF FF FF = SAR 8 [rip-2] imm 1
4F D0 FA = SAR 8 r10 imm 1
D0 10 = Unknown
D0 D0 = Unknown
D0 18 = Unknown
D0 D8 = Unknown
D0 30 = Unknown
D0 F0 = Unknown
# D1/0 ROL Ev,1
66 D1 C7 = ROL 16 r7 imm 1
66 47 D1 44 8B F0 = ROL 16 [r11+r9*4-16] imm 1
D1 44 8B F0 = ROL 32 [r3+r1*4-16] imm 1
44 D1 C7 = ROL 32 r7 imm 1
48 D1 05 FE FF FF FF = ROL 64 [rip-2] imm 1
4F D1 C2 = ROL 64 r10 imm 1
# D1/1 ROR Ev,1
66 D1 CF = ROR 16 r7 imm 1
66 47 D1 4C 8B F0 = ROR 16 [r11+r9*4-16] imm 1
D1 4C 8B F0 = ROR 32 [r3+r1*4-16] imm 1
44 D1 CF = ROR 32 r7 imm 1
48 D1 0D FE FF FF FF = ROR 64 [rip-2] imm 1
4F D1 CA = ROR 64 r10 imm 1
# D1/4 SHL Ev,1
66 D1 E7 = SHL 16 r7 imm 1
66 47 D1 64 8B F0 = SHL 16 [r11+r9*4-16] imm 1
D1 64 8B F0 = SHL 32 [r3+r1*4-16] imm 1
44 D1 E7 = SHL 32 r7 imm 1
48 D1 25 FE FF FF FF = SHL 64 [rip-2] imm 1
4F D1 E2 = SHL 64 r10 imm 1
# D1/5 SHR Ev,1
66 D1 EF = SHR 16 r7 imm 1
66 47 D1 6C 8B F0 = SHR 16 [r11+r9*4-16] imm 1
D1 6C 8B F0 = SHR 32 [r3+r1*4-16] imm 1
44 D1 EF = SHR 32 r7 imm 1
48 D1 2D FE FF FF FF = SHR 64 [rip-2] imm 1
4F D1 EA = SHR 64 r10 imm 1
# D1/7 SAR Ev,1
66 D1 FF = SAR 16 r7 imm 1
66 47 D1 7C 8B F0 = SAR 16 [r11+r9*4-16] imm 1
D1 7C 8B F0 = SAR 32 [r3+r1*4-16] imm 1
44 D1 FF = SAR 32 r7 imm 1
48 D1 3D FE FF FF FF = SAR 64 [rip-2] imm 1
4F D1 FA = SAR 64 r10 imm 1
D1 10 = Unknown
D1 D0 = Unknown
D1 18 = Unknown
D1 D8 = Unknown
D1 30 = Unknown
D1 F0 = Unknown
# D2/0 ROL Eb,CL
66 D2 C7 = ROL 8 bh r1
66 47 D2 44 8B F0 = ROL 8 [r11+r9*4-16] r1
D2 44 8B F0 = ROL 8 [r3+r1*4-16] r1
44 D2 C7 = ROL 8 r7 r1
48 D2 05 FE FF FF FF = ROL 8 [rip-2] r1
4F D2 C2 = ROL 8 r10 r1
# D2/1 ROR Eb,CL
66 D2 CF = ROR 8 bh r1
66 47 D2 4C 8B F0 = ROR 8 [r11+r9*4-16] r1
D2 4C 8B F0 = ROR 8 [r3+r1*4-16] r1
44 D2 CF = ROR 8 r7 r1
48 D2 0D FE FF FF FF = ROR 8 [rip-2] r1
4F D2 CA = ROR 8 r10 r1
# D2/4 SHL Eb,CL
66 D2 E7 = SHL 8 bh r1
66 47 D2 64 8B F0 = SHL 8 [r11+r9*4-16] r1
D2 64 8B F0 = SHL 8 [r3+r1*4-16] r1
44 D2 E7 = SHL 8 r7 r1
48 D2 25 FE FF FF FF = SHL 8 [rip-2] r1
4F D2 E2 = SHL 8 r10 r1
# D2/5 SHR Eb,CL
66 D2 EF = SHR 8 bh r1
66 47 D2 6C 8B F0 = SHR 8 [r11+r9*4-16] r1
D2 6C 8B F0 = SHR 8 [r3+r1*4-16] r1
44 D2 EF = SHR 8 r7 r1
48 D2 2D FE FF FF FF = SHR 8 [rip-2] r1
4F D2 EA = SHR 8 r10 r1
# D2/7 SAR Eb,CL
66 D2 FF = SAR 8 bh r1
66 47 D2 7C 8B F0 = SAR 8 [r11+r9*4-16] r1
D2 7C 8B F0 = SAR 8 [r3+r1*4-16] r1
44 D2 FF = SAR 8 r7 r1
48 D2 3D FE FF FF FF = SAR 8 [rip-2] r1
4F D2 FA = SAR 8 r10 r1
D2 10 = Unknown
D2 D0 = Unknown
D2 18 = Unknown
D2 D8 = Unknown
D2 30 = Unknown
D2 F0 = Unknown
# D3/0 ROL Ev,CL
66 D3 C7 = ROL 16 r7 r1
66 47 D3 44 8B F0 = ROL 16 [r11+r9*4-16] r1
D3 44 8B F0 = ROL 32 [r3+r1*4-16] r1
44 D3 C7 = ROL 32 r7 r1
48 D3 05 FE FF FF FF = ROL 64 [rip-2] r1
4F D3 C2 = ROL 64 r10 r1
# D3/1 ROR Ev,CL
66 D3 CF = ROR 16 r7 r1
66 47 D3 4C 8B F0 = ROR 16 [r11+r9*4-16] r1
D3 4C 8B F0 = ROR 32 [r3+r1*4-16] r1
44 D3 CF = ROR 32 r7 r1
48 D3 0D FE FF FF FF = ROR 64 [rip-2] r1
4F D3 CA = ROR 64 r10 r1
# D3/4 SHL Ev,CL
66 D3 E7 = SHL 16 r7 r1
66 47 D3 64 8B F0 = SHL 16 [r11+r9*4-16] r1
D3 64 8B F0 = SHL 32 [r3+r1*4-16] r1
44 D3 E7 = SHL 32 r7 r1
48 D3 25 FE FF FF FF = SHL 64 [rip-2] r1
4F D3 E2 = SHL 64 r10 r1
# D3/5 SHR Ev,CL
66 D3 EF = SHR 16 r7 r1
66 47 D3 6C 8B F0 = SHR 16 [r11+r9*4-16] r1
D3 6C 8B F0 = SHR 32 [r3+r1*4-16] r1
44 D3 EF = SHR 32 r7 r1
48 D3 2D FE FF FF FF = SHR 64 [rip-2] r1
4F D3 EA = SHR 64 r10 r1
# D3/7 SAR Ev,CL
66 D3 FF = SAR 16 r7 r1
66 47 D3 7C 8B F0 = SAR 16 [r11+r9*4-16] r1
D3 7C 8B F0 = SAR 32 [r3+r1*4-16] r1
44 D3 FF = SAR 32 r7 r1
48 D3 3D FE FF FF FF = SAR 64 [rip-2] r1
4F D3 FA = SAR 64 r10 r1
D3 10 = Unknown
D3 D0 = Unknown
D3 18 = Unknown
D3 D8 = Unknown
D3 30 = Unknown
D3 F0 = Unknown
D4 = Unknown
D5 = Unknown
D6 = Unknown
D7 = Unknown
D8 = Unknown
D9 = Unknown
DA = Unknown
DB = Unknown
DC = Unknown
DD = Unknown
DE = Unknown
DF = Unknown
";

#[rattlefmt::skip]
pub(super) static FROM_E0: [u8; 7341] = *b"\
# E0 LOOPNE Jb (f64)
66 E0 91 = LOOPNE 64 - imm FFFFFFFFFFFFFF91
E0 91 = LOOPNE 64 - imm FFFFFFFFFFFFFF91
41 E0 91 = LOOPNE 64 - imm FFFFFFFFFFFFFF91
48 E0 91 = LOOPNE 64 - imm FFFFFFFFFFFFFF91
# E1 LOOPE Jb (f64)
66 E1 91 = LOOPE 64 - imm FFFFFFFFFFFFFF91
E1 91 = LOOPE 64 - imm FFFFFFFFFFFFFF91
41 E1 91 = LOOPE 64 - imm FFFFFFFFFFFFFF91
48 E1 91 = LOOPE 64 - imm FFFFFFFFFFFFFF91
# E2 LOOP Jb (f64)
66 E2 91 = LOOP 64 - imm FFFFFFFFFFFFFF91
E2 91 = LOOP 64 - imm FFFFFFFFFFFFFF91
41 E2 91 = LOOP 64 - imm FFFFFFFFFFFFFF91
48 E2 91 = LOOP 64 - imm FFFFFFFFFFFFFF91
# E3 JRCXZ Jb (f64)
66 E3 91 = JRCXZ 64 - imm FFFFFFFFFFFFFF91
E3 91 = JRCXZ 64 - imm FFFFFFFFFFFFFF91
41 E3 91 = JRCXZ 64 - imm FFFFFFFFFFFFFF91
48 E3 91 = JRCXZ 64 - imm FFFFFFFFFFFFFF91
# E4 IN AL,Ub
66 E4 91 = IN 8 r0 imm 91
E4 91 = IN 8 r0 imm 91
41 E4 91 = IN 8 r0 imm 91
48 E4 91 = IN 8 r0 imm 91
E5 = Unknown
# E6 OUT Ub,AL
66 E6 91 = OUT 8 imm r0 91
E6 91 = OUT 8 imm r0 91
41 E6 91 = OUT 8 imm r0 91
48 E6 91 = OUT 8 imm r0 91
E7 = Unknown
# E8 CALL Jz (f64)
66 E8 A4 B3 C2 D1 = CALL 64 - imm FFFFFFFFD1C2B3A4
E8 A4 B3 C2 D1 = CALL 64 - imm FFFFFFFFD1C2B3A4
41 E8 A4 B3 C2 D1 = CALL 64 - imm FFFFFFFFD1C2B3A4
48 E8 A4 B3 C2 D1 = CALL 64 - imm FFFFFFFFD1C2B3A4
# E9 JMP Jz (f64)
66 E9 A4 B3 C2 D1 = JMP 64 - imm FFFFFFFFD1C2B3A4
E9 A4 B3 C2 D1 = JMP 64 - imm FFFFFFFFD1C2B3A4
41 E9 A4 B3 C2 D1 = JMP 64 - imm FFFFFFFFD1C2B3A4
48 E9 A4 B3 C2 D1 = JMP 64 - imm FFFFFFFFD1C2B3A4
EA = Unknown
# EB JMP Jb (f64)
66 EB 91 = JMP 64 - imm FFFFFFFFFFFFFF91
EB 91 = JMP 64 - imm FFFFFFFFFFFFFF91
41 EB 91 = JMP 64 - imm FFFFFFFFFFFFFF91
48 EB 91 = JMP 64 - imm FFFFFFFFFFFFFF91
# EC IN AL,DX
66 EC = IN 8 r0 r2
EC = IN 8 r0 r2
41 EC = IN 8 r0 r2
48 EC = IN 8 r0 r2
ED = Unknown
# EE OUT DX,AL
66 EE = OUT 8 r2 r0
EE = OUT 8 r2 r0
41 EE = OUT 8 r2 r0
48 EE = OUT 8 r2 r0
EF = Unknown
F1 = Unknown
# F4 HLT
66 F4 = HLT 64 - -
F4 = HLT 64 - -
41 F4 = HLT 64 - -
48 F4 = HLT 64 - -
# F5 CMC
66 F5 = CMC 64 - -
F5 = CMC 64 - -
41 F5 = CMC 64 - -
48 F5 = CMC 64 - -
# F6/0 TEST Eb,Ib
66 F6 C7 91 = TEST 8 bh imm 91
66 47 F6 44 8B F0 91 = TEST 8 [r11+r9*4-16] imm 91
F6 44 8B F0 91 = TEST 8 [r3+r1*4-16] imm 91
44 F6 C7 91 = TEST 8 r7 imm 91
48 F6 05 FE FF FF FF 91 = TEST 8 [rip-2] imm 91
4F F6 C2 91 = TEST 8 r10 imm 91
# F6/2 NOT Eb
66 F6 D7 = NOT 8 bh -
66 47 F6 54 8B F0 = NOT 8 [r11+r9*4-16] -
F6 54 8B F0 = NOT 8 [r3+r1*4-16] -
44 F6 D7 = NOT 8 r7 -
48 F6 15 FE FF FF FF = NOT 8 [rip-2] -
4F F6 D2 = NOT 8 r10 -
# F6/3 NEG Eb
66 F6 DF = NEG 8 bh -
66 47 F6 5C 8B F0 = NEG 8 [r11+r9*4-16] -
F6 5C 8B F0 = NEG 8 [r3+r1*4-16] -
44 F6 DF = NEG 8 r7 -
48 F6 1D FE FF FF FF = NEG 8 [rip-2] -
4F F6 DA = NEG 8 r10 -
# F6/4 MUL Eb
66 F6 E7 = MUL 8 bh -
66 47 F6 64 8B F0 = MUL 8 [r11+r9*4-16] -
F6 64 8B F0 = MUL 8 [r3+r1*4-16] -
44 F6 E7 = MUL 8 r7 -
48 F6 25 FE FF FF FF = MUL 8 [rip-2] -
4F F6 E2 = MUL 8 r10 -
# F6/5 IMUL Eb
66 F6 EF = IMUL 8 bh -
66 47 F6 6C 8B F0 = IMUL 8 [r11+r9*4-16] -
F6 6C 8B F0 = IMUL 8 [r3+r1*4-16] -
44 F6 EF = IMUL 8 r7 -
48 F6 2D FE FF FF FF = IMUL 8 [rip-2] -
4F F6 EA = IMUL 8 r10 -
# F6/6 DIV Eb
66 F6 F7 = DIV 8 bh -
66 47 F6 74 8B F0 = DIV 8 [r11+r9*4-16] -
F6 74 8B F0 = DIV 8 [r3+r1*4-16] -
44 F6 F7 = DIV 8 r7 -
48 F6 35 FE FF FF FF = DIV 8 [rip-2] -
4F F6 F2 = DIV 8 r10 -
# F6/7 IDIV Eb
66 F6 FF = IDIV 8 bh -
66 47 F6 7C 8B F0 = IDIV 8 [r11+r9*4-16] -
F6 7C 8B F0 = IDIV 8 [r3+r1*4-16] -
44 F6 FF = IDIV 8 r7 -
48 F6 3D FE FF FF FF = IDIV 8 [rip-2] -
4F F6 FA = IDIV 8 r10 -
F6 08 = Unknown
F6 C8 = Unknown
# F7/0 TEST Ev,Iz
66 F7 C7 A4 B3 = TEST 16 r7 imm B3A4
66 47 F7 44 8B F0 A4 B3 = TEST 16 [r11+r9*4-16] imm B3A4
F7 44 8B F0 A4 B3 C2 D1 = TEST 32 [r3+r1*4-16] imm D1C2B3A4
44 F7 C7 A4 B3 C2 D1 = TEST 32 r7 imm D1C2B3A4
48 F7 05 FE FF FF FF A4 B3 C2 D1 = TEST 64 [rip-2] imm FFFFFFFFD1C2B3A4
4F F7 C2 A4 B3 C2 D1 = TEST 64 r10 imm FFFFFFFFD1C2B3A4
# F7/2 NOT Ev
66 F7 D7 = NOT 16 r7 -
66 47 F7 54 8B F0 = NOT 16 [r11+r9*4-16] -
F7 54 8B F0 = NOT 32 [r3+r1*4-16] -
44 F7 D7 = NOT 32 r7 -
48 F7 15 FE FF FF FF = NOT 64 [rip-2] -
4F F7 D2 = NOT 64 r10 -
# F7/3 NEG Ev
66 F7 DF = NEG 16 r7 -
66 47 F7 5C 8B F0 = NEG 16 [r11+r9*4-16] -
F7 5C 8B F0 = NEG 32 [r3+r1*4-16] -
44 F7 DF = NEG 32 r7 -
48 F7 1D FE FF FF FF = NEG 64 [rip-2] -
4F F7 DA = NEG 64 r10 -
# F7/4 MUL Ev
66 F7 E7 = MUL 16 r7 -
66 47 F7 64 8B F0 = MUL 16 [r11+r9*4-16] -
F7 64 8B F0 = MUL 32 [r3+r1*4-16] -
44 F7 E7 = MUL 32 r7 -
48 F7 25 FE FF FF FF = MUL 64 [rip-2] -
4F F7 E2 = MUL 64 r10 -
# F7/5 IMUL Ev
66 F7 EF = IMUL 16 r7 -
66 47 F7 6C 8B F0 = IMUL 16 [r11+r9*4-16] -
F7 6C 8B F0 = IMUL 32 [r3+r1*4-16] -
44 F7 EF = IMUL 32 r7 -
48 F7 2D FE FF FF FF = IMUL 64 [rip-2] -
4F F7 EA = IMUL 64 r10 -
# F7/6 DIV Ev
66 F7 F7 = DIV 16 r7 -
66 47 F7 74 8B F0 = DIV 16 [r11+r9*4-16] -
F7 74 8B F0 = DIV 32 [r3+r1*4-16] -
44 F7 F7 = DIV 32 r7 -
48 F7 35 FE FF FF FF = DIV 64 [rip-2] -
4F F7 F2 = DIV 64 r10 -
# F7/7 IDIV Ev
66 F7 FF = IDIV 16 r7 -
66 47 F7 7C 8B F0 = IDIV 16 [r11+r9*4-16] -
F7 7C 8B F0 = IDIV 32 [r3+r1*4-16] -
44 F7 FF = IDIV 32 r7 -
48 F7 3D FE FF FF FF = IDIV 64 [rip-2] -
4F F7 FA = IDIV 64 r10 -
F7 08 = Unknown
F7 C8 = Unknown
# F8 CLC
66 F8 = CLC 64 - -
F8 = CLC 64 - -
41 F8 = CLC 64 - -
48 F8 = CLC 64 - -
# F9 STC
66 F9 = STC 64 - -
F9 = STC 64 - -
41 F9 = STC 64 - -
48 F9 = STC 64 - -
# FA CLI
66 FA = CLI 64 - -
FA = CLI 64 - -
41 FA = CLI 64 - -
48 FA = CLI 64 - -
# FB STI
66 FB = STI 64 - -
FB = STI 64 - -
41 FB = STI 64 - -
48 FB = STI 64 - -
# FC CLD
66 FC = CLD 64 - -
FC = CLD 64 - -
41 FC = CLD 64 - -
48 FC = CLD 64 - -
# FD STD
66 FD = STD 64 - -
FD = STD 64 - -
41 FD = STD 64 - -
48 FD = STD 64 - -
# FE/0 INC Eb
66 FE C7 = INC 8 bh -
66 47 FE 44 8B F0 = INC 8 [r11+r9*4-16] -
FE 44 8B F0 = INC 8 [r3+r1*4-16] -
44 FE C7 = INC 8 r7 -
48 FE 05 FE FF FF FF = INC 8 [rip-2] -
4F FE C2 = INC 8 r10 -
# FE/1 DEC Eb
66 FE CF = DEC 8 bh -
66 47 FE 4C 8B F0 = DEC 8 [r11+r9*4-16] -
FE 4C 8B F0 = DEC 8 [r3+r1*4-16] -
44 FE CF = DEC 8 r7 -
48 FE 0D FE FF FF FF = DEC 8 [rip-2] -
4F FE CA = DEC 8 r10 -
FE 10 = Unknown
FE D0 = Unknown
FE 18 = Unknown
FE D8 = Unknown
FE 20 = Unknown
FE E0 = Unknown
FE 28 = Unknown
FE E8 = Unknown
FE 30 = Unknown
FE F0 = Unknown
FE 38 = Unknown
FE F8 = Unknown
# FF/0 INC Ev
66 FF C7 = INC 16 r7 -
66 47 FF 44 8B F0 = INC 16 [r11+r9*4-16] -
FF 44 8B F0 = INC 32 [r3+r1*4-16] -
44 FF C7 = INC 32 r7 -
48 FF 05 FE FF FF FF = INC 64 [rip-2] -
4F FF C2 = INC 64 r10 -
# FF/1 DEC Ev
66 FF CF = DEC 16 r7 -
66 47 FF 4C 8B F0 = DEC 16 [r11+r9*4-16] -
FF 4C 8B F0 = DEC 32 [r3+r1*4-16] -
44 FF CF = DEC 32 r7 -
48 FF 0D FE FF FF FF = DEC 64 [rip-2] -
4F FF CA = DEC 64 r10 -
# FF/2 CALL Ev (f64)
66 FF D7 = CALL 64 - r7
66 47 FF 54 8B F0 = CALL 64 - [r11+r9*4-16]
FF 54 8B F0 = CALL 64 - [r3+r1*4-16]
44 FF D7 = CALL 64 - r7
48 FF 15 FE FF FF FF = CALL 64 - [rip-2]
4F FF D2 = CALL 64 - r10
# FF/4 JMP Ev (f64)
66 FF E7 = JMP 64 - r7
66 47 FF 64 8B F0 = JMP 64 - [r11+r9*4-16]
FF 64 8B F0 = JMP 64 - [r3+r1*4-16]
44 FF E7 = JMP 64 - r7
48 FF 25 FE FF FF FF = JMP 64 - [rip-2]
4F FF E2 = JMP 64 - r10
# FF/6 PUSH Ev (d64)
66 FF F7 = PUSH 16 - r7
66 47 FF 74 8B F0 = PUSH 16 - [r11+r9*4-16]
FF 74 8B F0 = PUSH 64 - [r3+r1*4-16]
44 FF F7 = PUSH 64 - r7
48 FF 35 FE FF FF FF = PUSH 64 - [rip-2]
4F FF F2 = PUSH 64 - r10
FF 18 = Unknown
FF D8 = Unknown
FF 28 = Unknown
FF E8 = Unknown
FF 38 = Unknown
FF F8 = Unknown
";
