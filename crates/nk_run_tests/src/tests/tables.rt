//! Worked cases of `run` with calls on page tables: the closing section shows what differs from the opening's.
use super::NAME;
use super::cases::Failing::Put;
use super::cases::File::Code;
use super::cases::Table::{Cases, Runs};
use super::cases::Wanted::Text;
use super::cases::{Case, Run, UNCHANGED, first_other};
use super::run::{NO_INPUT, NO_PLAN, RUN};
use std::test::Fail;

/// MOV RBX, the direct map's address of frame 71, which is the first free one; MOV [RBX], AL. MOV EDI, 3; MOV ESI, 70;
/// MOV EDX, 71; MOV RCX, a leaf of frame 71 that grants reads alone; MOV RAX, the gates; CALL RAX; MOV [RBX], AL. MOV
/// EDI, 2; MOV ESI, 1; MOV EDX, 71; MOV RAX, the gates; CALL RAX; MOV [RBX], AL. The second store goes through the
/// translation that the first one kept. The declaration empties the translations, so the third store faults.
pub(super) const DECLARES: [u8; 80] = [
    0x48, 0xbb, 0x00, 0x70, 0x04, 0x00, 0x00, 0x80, 0xff, 0xff, 0x88, 0x03, 0xbf, 0x03, 0x00, 0x00,
    0x00, 0xbe, 0x46, 0x00, 0x00, 0x00, 0xba, 0x47, 0x00, 0x00, 0x00, 0x48, 0xb9, 0x21, 0x70, 0x04,
    0x00, 0x00, 0x00, 0x00, 0x80, 0x48, 0xb8, 0x00, 0x10, 0x00, 0x00, 0x80, 0xff, 0xff, 0xff, 0xff,
    0xd0, 0x88, 0x03, 0xbf, 0x02, 0x00, 0x00, 0x00, 0xbe, 0x01, 0x00, 0x00, 0x00, 0xba, 0x47, 0x00,
    0x00, 0x00, 0x48, 0xb8, 0x00, 0x10, 0x00, 0x00, 0x80, 0xff, 0xff, 0xff, 0xff, 0xd0, 0x88, 0x03,
];

/// What a run of it writes.
pub(super) const DECLARED: &str =
    "k 3 46 47 8000000000047021 0 - 0 -\nk 2 1 47 8000000000047021 0 - 0 -\n\
    i 14 3 ffffffff8000004e ffff800000047000\nend halted\nturns 62\nroot 5\n\
    trap ffffff80000011da\nf 71 table1\nt 70 71 8000000000047021\n";

/// Kinds and entries that changed are told.
static CHANGED: [Run; 1] = [(&[&DECLARES], "", "100", DECLARED)];

/// Those of the opening are not.
static OPENED: [Run; 1] = [(&[&DECLARES], "", "0", "end steps\nturns 0")];

/// What is written of it up to the middle of the first line of the closing section that tells a change.
const CUT: &str = "k 3 46 47 8000000000047021 0 - 0 -\nk 2 1 47 8000000000047021 0 - 0 -\n\
    i 14 3 ffffffff8000004e ffff800000047000\nend halted\nturns 62\nroot 5\n\
    trap ffffff80000011da\nf 71";

/// A line of the closing section may be cut.
static CUTS: [Case; 1] = [(
    &RUN,
    &[(NAME, Code(&[&DECLARES])), NO_INPUT, NO_PLAN],
    Put(8, 4),
    4,
    Text(CUT),
)];

#[test]
fn the_closing_section_tells_what_changed(rt: HostRuntime) -> Result<(), Fail> {
    let tables = [
        Runs(0, "", &CHANGED),
        Runs(0, UNCHANGED, &OPENED),
        Cases(&CUTS),
    ];
    assert_eq!(rt; first_other(rt.alloc(), &tables)?, None);
    Ok(())
}
