//! The program: the top call over the machine's files and standard output.
ghost use Rattle.std.specs.Prelude.{◌≡◌, ◌≤◌, ◌⊎◌};

use crate::top::nk_main;
use nk_host::{FileShelf, StdSink};
use std::env::{self, Env};
use std::io;
use std::rt::Files;

/// The status where the runtime doesn't give the words; the top call never gives it.
const NO_WORDS: u8 = 64;

/// The words, without the program's own name.
fn words<R: Env + AllocGlobal>(rt: &R) -> io::Result<Vec<String>> {
    let mut words = env::args(rt)?;
    let _name = words.next();
    Ok(words.collect(rt.alloc())?)
}

/// Passes the program's words to the top call, over the machine's files and standard output, and gives its status; 64
/// where the runtime doesn't give the words.
pub fn nk_program<R: Env + AllocGlobal + Files + Print>(rt: &R) -> u8
    ensures { (result ≤ 10) ⊎ (result ≡ 64) }
{
    match words(rt) {
        Ok(words) => {
            let mut shelf = FileShelf::new(rt);
            let mut sink = StdSink::new(rt);
            nk_main(rt.alloc(), &words, &mut shelf, &mut sink)
        }
        Err(_) => NO_WORDS,
    }
}
