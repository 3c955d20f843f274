//! What follows from the definitions for those who say what a whole machine keeps.

ghost use Rattle.vmmu.specs.TableCallLaws.{TableCallsLaws, AcceptedLaws};

use page_desc::{memory_tables_law, page_tables_law, sound_law};
use phys_mem::{frame_law, memory_law};
use table_rules::value_law;

/// After a call that breaks no rule memory stands for what the call makes of the tables, which stay sound.
pub fn table_calls_law()
    ensures { TableCallsLaws }
{
    memory_law();
    frame_law();
    memory_tables_law();
    sound_law();
    page_tables_law();
    value_law();
}

/// What a call is that breaks no rule.
pub fn accepted_law()
    ensures { AcceptedLaws }
{}
