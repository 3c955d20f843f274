//! What follows from the definitions for those who keep tables sound.

ghost use Rattle.table_rules.specs.ValueLaws.{ValueLaws};

use page_desc::sound_law;

/// A value that breaks no rule is lawful in any entry of a table of its level but the kernel slot's.
pub fn value_law()
    ensures { ValueLaws }
{
    sound_law();
}
