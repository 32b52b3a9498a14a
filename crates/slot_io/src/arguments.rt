//! The words of the command line, as the host gives them.

ghost use Rattle.std.specs.Prelude.{◌≡◌, ◌≢◌, ◌++◌, [], Ok, IfOk, IfErr, IsErr, OnOk, drop, map, string_bytes};
ghost use Rattle.std.specs.IoError.{error_kind};
ghost use Rattle.std.specs.Vec.Iter.{into_iter_items};

use slot_core::{Memory, Words};
use std::alloc::Global;
use std::env::{self, Args};
use std::io::{self, ErrorKind};
use std::rt::Env;

/// The words of the command line, without the program's name. Where one is not UTF-8 there are
/// none, which is a faulty command line. Contracts see nothing of the host's arguments, so that no
/// clause tells which words these are: `words_from` tells it of any arguments.
pub fn words_of<R: Env + AllocGlobal>(rt: &R) -> Result<Words, Memory> {
    words_from(rt.alloc(), env::args(rt))
}

/// The words that the arguments write, without the first. There are none where the arguments cannot
/// be told, but for want of memory.
fn words_from(alloc: Global, args: io::Result<Args>) -> Result<Words, Memory>
    ensures words { IfOk args (λ all. IfOk result
        (λ words. words ≡ map string_bytes (drop 1 (into_iter_items all)))) }
    ensures memory { IfErr args (λ e. error_kind e ≡ ErrorKind.OutOfMemory
        → IsErr result) }
    ensures untold { IfErr args (λ e. error_kind e ≢ ErrorKind.OutOfMemory → result ≡ Ok []) }
{
    let mut words = Words::new(alloc);
    match args {
        Ok(args) => {
            push_words(args, &mut words)?;
            Ok(words)
        }
        Err(error) if error.kind() == ErrorKind::OutOfMemory => Err(Memory),
        Err(_) => Ok(words),
    }
}

/// Appends the texts of the arguments but the first.
fn push_words(args: Args, words: &mut Words) -> Result<(), Memory>
    ensures { OnOk result
        (words.new ≡ words.old ++ map string_bytes (drop 1 (into_iter_items args))) }
{
    for arg in args.skip(1) {
        words.push(arg.as_str())?;
    }
    Ok(())
}
