//! The script: the trap handler is set; then come 18 records a process; then zeros.

ghost use Rattle.std.specs.Prelude.{◌≡◌, ◌<◌, ◌≤◌};
ghost use Rattle.image_maker.specs.MadeImage.{process_record, script_byte, script_record};
ghost use Rattle.image_maker.specs.MadeWords.{as_script};

use crate::layout::{
    NUMBER_SIZE, PROCESS_RECORDS, RECORD_SIZE, SCRIPT_ADDRESS, TEXT_ADDRESS, direct_table,
    first_frame, user_frame,
};
use crate::record::{
    ScriptRecord, code_leaf, data_leaf, declare, link, protect, words, write_entry,
};
use elf_image::number_byte;
use nk_body::{ALLOCATE, LOAD_ROOT, SET_HANDLER, WRITE};

/// The linear address in the text of the step to the next record, to which a trap comes back.
const NEXT_RECORD: u64 = TEXT_ADDRESS + 45;

/// The first number of a switch to the user's code: it is negative.
const SWITCH: u64 = 1 << 63;

/// The bytes of a process's region, and of what it writes there.
const REGION_SIZE: u64 = 32;

/// The policy of a process's region: what is written is logged.
const WRITE_LOG: u64 = 4;

/// The identifier of the first region that is allocated.
const FIRST_REGION: u64 = 256;

/// The record at a step, 0 to 17, of a process whose frames are the five from `base` on.
#[tactic(auto, unfolding(crate::specs::MadeImage::process_record))]
fn process_record(processes: u64, process: u64, base: u64, step: u64) -> ScriptRecord
    requires processes { processes ≤ 100 }
    requires process { process < processes }
    requires base { base ≤ 606 }
    ensures { as_script result ≡ process_record processes process base step }
{
    match step {
        0 | 2 | 4 | 6 => protect(processes, base + step / 2),
        1 | 3 | 5 | 7 => declare(4 - step / 2, base + step / 2),
        8 | 9 | 10 => write_entry(base + (step - 8), 0, link(base + (step - 7))),
        11 => write_entry(base, 256, link(direct_table(processes))),
        12 => write_entry(base + 3, 1, code_leaf(user_frame(processes))),
        13 => write_entry(base + 3, 2, data_leaf(base + 4)),
        14 => words(LOAD_ROOT, base, 0, 0, 0),
        15 => words(SWITCH, 0, 0, 0, 0),
        16 => words(ALLOCATE, REGION_SIZE, WRITE_LOG, 0, 0),
        _ => words(
            WRITE,
            FIRST_REGION + process,
            0,
            SCRIPT_ADDRESS,
            REGION_SIZE,
        ),
    }
}

/// The record of a number, counted from 0.
#[tactic(auto, unfolding(crate::specs::MadeImage::script_record))]
fn script_record(processes: u64, number: u64) -> ScriptRecord
    requires { processes ≤ 100 }
    ensures { as_script result ≡ script_record processes number }
{
    if number == 0 {
        words(SET_HANDLER, NEXT_RECORD, 0, 0, 0)
    } else if number <= PROCESS_RECORDS * processes {
        let process = (number - 1) / PROCESS_RECORDS;
        let step = (number - 1) % PROCESS_RECORDS;
        process_record(processes, process, first_frame(processes, process), step)
    } else {
        words(0, 0, 0, 0, 0)
    }
}

/// The byte at a place of the script.
pub fn script_byte(processes: u64, at: u64) -> u8
    requires { processes ≤ 100 }
    ensures { result ≡ script_byte processes at }
{
    let record = script_record(processes, at / RECORD_SIZE);
    let number = record.number(at % RECORD_SIZE / NUMBER_SIZE);
    number_byte(number, at % NUMBER_SIZE)
}
