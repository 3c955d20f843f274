//! How large the parts of the file are, and which frames the opening has for them in a memory of 4,096 frames.

ghost use Rattle.std.specs.Prelude.{◌≡◌, ◌<◌, ◌≤◌};
ghost use Rattle.image_maker.specs.MadeImage.{data_len, direct_table, first_frame, leaf_table, record_count, script_pages, user_frame};

/// The bytes of a page.
pub const PAGE_SIZE: u64 = 4096;

/// The entries of a page table.
pub const ENTRIES: u64 = 512;

/// The bytes of a number in a record of the script, and of a record, which has five.
pub const NUMBER_SIZE: u64 = 8;

pub const RECORD_SIZE: u64 = 5 * NUMBER_SIZE;

/// The records of a process.
pub const PROCESS_RECORDS: u64 = 18;

/// The bytes of the text.
pub const TEXT_LEN: u64 = 69;

/// The bytes of the user's code.
pub const USER_CODE_LEN: u64 = 9;

/// The places in the file of the text and of the script.
pub const TEXT_PLACE: u64 = 4096;

pub const SCRIPT_PLACE: u64 = 8192;

/// The linear addresses of the text and of the script.
pub const TEXT_ADDRESS: u64 = 0xFFFF_FFFF_8000_0000;

pub const SCRIPT_ADDRESS: u64 = 0xFFFF_FFFF_8000_1000;

/// The frame of the text, the image's first page: behind 64 frames that every opening has, 16 of descriptors, and the
/// table of the one range of 2 MiB that the image touches.
const TEXT_FRAME: u64 = 81;

/// The frames of the direct map's tables: one at level 3, one at level 2, and eight at level 1.
const DIRECT_TABLES: u64 = 10;

/// The frames of a process: four page tables, and one that its user may write.
const PROCESS_FRAMES: u64 = 5;

/// How many records the script has: one, those of the processes, and one of zeros.
fn record_count(processes: u64) -> u64
    requires { processes ≤ 100 }
    ensures count { result ≡ record_count processes }
    ensures small { result ≤ 1802 }
{
    PROCESS_RECORDS * processes + 2
}

/// How many pages the script has.
pub fn script_pages(processes: u64) -> u64
    requires { processes ≤ 100 }
    ensures pages { result ≡ script_pages processes }
    ensures small { result ≤ 18 }
{
    (RECORD_SIZE * record_count(processes)).div_ceil(PAGE_SIZE)
}

/// How many bytes the script's pages and the user's code have.
pub fn data_len(processes: u64) -> u64
    requires { processes ≤ 100 }
    ensures len { result ≡ data_len processes }
    ensures small { result ≤ 73737 }
{
    PAGE_SIZE * script_pages(processes) + USER_CODE_LEN
}

/// The frame of the user's code, the image's last page.
pub fn user_frame(processes: u64) -> u64
    requires { processes ≤ 100 }
    ensures frame { result ≡ user_frame processes }
    ensures small { result ≤ 100 }
{
    TEXT_FRAME + 1 + script_pages(processes)
}

/// The frame of the direct map's table of level 3, behind the image's pages.
pub fn direct_table(processes: u64) -> u64
    requires { processes ≤ 100 }
    ensures frame { result ≡ direct_table processes }
    ensures small { result ≤ 101 }
{
    user_frame(processes) + 1
}

/// The frame of the direct map's table of level 1 that has the leaf of a frame.
pub fn leaf_table(processes: u64, frame: u64) -> u64
    requires processes { processes ≤ 100 }
    requires frame { frame < 4096 }
    ensures { result ≡ leaf_table processes frame }
{
    direct_table(processes) + 2 + frame / ENTRIES
}

/// The first frame of a process, counted from 0. That of process 0 is the first free frame.
pub fn first_frame(processes: u64, process: u64) -> u64
    requires processes { processes ≤ 100 }
    requires process { process < processes }
    ensures frame { result ≡ first_frame processes process }
    ensures small { result ≤ 606 }
{
    direct_table(processes) + DIRECT_TABLES + PROCESS_FRAMES * process
}
