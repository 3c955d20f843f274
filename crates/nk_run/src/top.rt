//! The top call, with what the program promises.
ghost use Rattle.std.specs.Prelude.{map};
ghost use Rattle.std.specs.String.{string_bytes};
ghost use Rattle.file_scan.specs.ShelfChanges.{shelf_change};
ghost use Rattle.nk_run.specs.Witness.{sink_change};
ghost use Rattle.nk_run.specs.Clauses.{Promises};

use crate::answer::answer;
use crate::laws::{join_law, run_law};
use command_words::Request;
use nk_host::{Shelf, Sink};
use std::alloc::Global;

/// Does what the words ask for, over the shelf's files, writes the text to the sink, and gives the exit status. The
/// text of a run is written while its turns are taken.
///
/// The statuses: 0 done; 1 the image is refused; 2 the words have none of the forms; 3 a file couldn't be read; 4 the
/// text couldn't be written whole; 5 there was no memory; 6 a line of the plan, of the journal, of the list of modules
/// or of the text isn't right; 7 a file is longer than such a file may be; 8 a module has no bytes, or the modules don't fit; 9 no call
/// of the journal gave a region the identifier, or its writes aren't logged; 10 no code of the image stands at the
/// address.
///
/// The promises are the fields of `Promises`, each over what was seen of words, shelf and sink before and after. That
/// is named here once, so that no promise can take one thing for another.
pub fn nk_main<S: Shelf, O: Sink>(
    alloc: Global,
    words: &[String],
    shelf: &mut S,
    sink: &mut O,
) -> u8
    ensures { Promises (record {
      words = map string_bytes words.now;
      shelf = shelf_change S.files S.faults S.wants shelf.old shelf.new;
      sink = sink_change O.taken O.faults sink.old sink.new;
    }) result }
{
    run_law();
    join_law();
    answer(alloc, &Request::new(words), shelf, sink).number()
}
