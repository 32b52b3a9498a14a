//! What a program tells of itself.

ghost use Rattle.std.specs.Prelude.{◌≡◌, ◌≤◌, ◌+◌, ◌++◌, length, OnErr, OnOk};
ghost use Rattle.std.specs.Io.KnownBytes.{Appends};
ghost use Rattle.slot_core.specs.Calls.Counts.{Rose};
ghost use Rattle.slot_io.specs.Sinks.{AppendsPart};
ghost use Rattle.command_line.specs.Pages.{page_named, page_of, page_text, version_line, IsPageTold};
ghost use Rattle.command_line.specs.declared.status.Status.{Status};
ghost use Rattle.command_line.specs.declared.pages.TheConstants.{PROGRAM_LIMIT, VERSION_LINE_LIMIT};

use crate::reports::put_line;
use crate::{CANNOT_WRITE, Status, TABLE_VERSION};
use arrayvec::ArrayVec;
use itoa::Buffer;
use slot_core::{Failed, LOGIC, VERSION, Words};
use slot_io::Sink;

/// Most bytes of the name of a program.
pub const PROGRAM_LIMIT: usize = 16;

/// Most bytes of the line of its version.
const VERSION_LINE_LIMIT: usize = 96;

/// What a program tells of itself.
#[derive(Clone, Copy, PartialEq, Eq)]
pub enum Page {
    /// Its forms, what stands in them, and its statuses.
    Help,
    /// The line of its version.
    Version,
}

/// The page that the words ask for: they are `--help` or `--version`, and nothing else.
pub fn page_of(words: &Words) -> Option<Page>
    ensures { result ≡ page_of words.now }
{
    match words.len() {
        1 => page_named(words.word(0)),
        _ => None,
    }
}

/// The page of this name.
fn page_named(word: &str) -> Option<Page>
    ensures { result ≡ page_named word.now }
{
    match word {
        "--help" => Some(Page::Help),
        "--version" => Some(Page::Version),
        _ => None,
    }
}

/// Tells the page of the program of this name and this help, in one put, and gives the status. It
/// takes no memory.
pub fn tell_page<K: Sink, E: Sink>(
    page: Page,
    program: &[u8],
    help: &[u8],
    out: &mut K,
    err: &mut E,
) -> Status
    requires { length program.now ≤ PROGRAM_LIMIT }
    ensures told { IsPageTold (page_text program.now help.now page)
        (K.written out.old) (K.written out.new) (K.faults out.old) (K.faults out.new)
        (E.written err.old) (E.written err.new) (E.faults err.old) (E.faults err.new) result }
    ensures done_says_nothing { result ≡ Status.Done → err.new ≡ err.old }
{
    match put_page(page, program, help, out) {
        Ok(()) => Status::Done,
        Err(Failed) => {
            put_line(err, CANNOT_WRITE);
            Status::WriteFault
        }
    }
}

/// Puts the page.
fn put_page<K: Sink>(page: Page, program: &[u8], help: &[u8], out: &mut K) -> Result<(), Failed>
    requires { length program.now ≤ PROGRAM_LIMIT }
    ensures put { OnOk result
        (Appends (K.written out.old) (K.written out.new) (page_text program.now help.now page)) }
    ensures part { OnErr result (AppendsPart (K.written out.old) (K.written out.new)
        (page_text program.now help.now page)) }
    ensures failed { OnErr result (Rose (K.faults out.old) (K.faults out.new)) }
{
    match page {
        Page::Help => out.put(help),
        Page::Version => out.put(version_line(program).as_slice()),
    }
}

/// The line of the version of a program of this name.
fn version_line(program: &[u8]) -> ArrayVec<u8, VERSION_LINE_LIMIT>
    requires { length program.now ≤ PROGRAM_LIMIT }
    ensures { result.items ≡ version_line program.now }
{
    let mut number = Buffer::new();
    let mut line = ArrayVec::new();
    push(&mut line, program);
    push(&mut line, b" ");
    push(&mut line, VERSION);
    push(&mut line, b", table format ");
    push(&mut line, number.format(TABLE_VERSION).as_bytes());
    push(&mut line, b", logic ");
    push(&mut line, LOGIC);
    push(&mut line, b"\n");
    line
}

/// Appends the bytes, for which there is room.
fn push(line: &mut ArrayVec<u8, VERSION_LINE_LIMIT>, bytes: &[u8])
    requires { length line.old.items + length bytes.now ≤ VERSION_LINE_LIMIT }
    ensures { line.new.items ≡ line.old.items ++ bytes.now }
{
    line.try_extend_from_slice(bytes).unwrap()
}
