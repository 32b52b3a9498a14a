//! What slotlive tells of itself.

ghost use Rattle.std.specs.Prelude.{◌≡◌, codes};
ghost use Rattle.command_line.specs.Pages.{page_text, IsPageTold};
ghost use Rattle.command_line.specs.declared.status.Status.{Status};
ghost use Rattle.live_run.specs.Pages.{live_help};

use crate::record::RecordFile;
use crate::streams::Streams;
use command_line::{Page, Status, tell_page};
use slot_io::Sink;

/// Tells the page, and gives the status.
pub(crate) fn tell_live_page<K: Sink, R: RecordFile, E: Sink>(
    page: Page,
    streams: &mut Streams<K, R, E>,
) -> Status
    ensures told { IsPageTold (page_text (codes "slotlive") live_help page)
        (K.written streams.old.answers) (K.written streams.new.answers)
        (K.faults streams.old.answers) (K.faults streams.new.answers)
        (E.written streams.old.faults) (E.written streams.new.faults)
        (E.faults streams.old.faults) (E.faults streams.new.faults) result }
    ensures done_says_nothing { result ≡ Status.Done → streams.new.faults ≡ streams.old.faults }
    ensures rows { streams.new.rows ≡ streams.old.rows }
{
    tell_page(
        page,
        b"slotlive",
        help(),
        &mut streams.answers,
        &mut streams.faults,
    )
}

/// The help.
fn help() -> &'static [u8]
    ensures { result.now ≡ live_help }
{
    b"usage: slotlive T [--record FILE]
       slotlive --table B [--record FILE]
       slotlive --help
       slotlive --version

Starts an executive, prints the line of the start, reads a command a line from
standard input, and answers each at once. Times and lengths are whole slots.

  T      a task file (TOML), at most 1048576 bytes
  B      a binary table (slotshift table), at most 4194304 bytes
  FILE   keeps what arrives as rows of an arrivals file, and not what it held
         before; it is another file than T or B

commands, and what they are answered:
  soft SLOTS          soft work comes: taken, full
  firm SLOTS WITHIN   a firm request comes, due WITHIN slots from now: accepted,
                      late, far, noroom
  sporadic NAME       a job of this sporadic task comes: taken, soon
  done KEY            the job of this key has ended early: freed, notrunning
  withdraw ROW        the firm request of this arrival is taken back: freed,
                      nojob
  slot                a slot passes: run, idle
  slots N             N slots pass, a line each: run, idle
  ahead N             what the next slot runs, and for how many slots, 1 to N,
                      that stays so if nothing comes; no slot passes: ahead
  carried KEEP        the jobs that a change of plan now would carry over, with
                      slots left and slots up to the deadline: carried
  end                 the run ends, as it does with its input: end

  SLOTS    1 to 65535
  WITHIN   0 to 65535
  ROW      1 to 65535; arrivals count from 1
  N        1 to 100000
  KEEP     the offline jobs among them: drop none, started those that have run,
           graphs those of instances that were released before
  KEY      GRAPH.TASK#INSTANCE, NAME@ROW, firm:ROW or soft:ROW;
           INSTANCE 0 to 4294967295

A line has at most 256 bytes, and one space between two words. A faulty line
changes nothing: it is answered refused, and standard error tells why. So is an
arrival after 65535 others, and slots that would pass the time 17592186044416.

statuses:
  0   the run came to its end, whatever was refused
  1   the words are none of the forms, or FILE is the word for T or B
  2   T, B or standard input cannot be read
  3   T or B has too many bytes
  4   T has a fault
  5   T does not fit: a window has more demand than slots
  7   standard output takes no more, or FILE cannot be written or may be T or B
  8   memory ran out
  9   B is no table of a plan
"
}
