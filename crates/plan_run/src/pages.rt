//! What slotplan tells of itself.

ghost use Rattle.std.specs.Prelude.{◌≡◌, codes};
ghost use Rattle.command_line.specs.Pages.{page_text, IsPageTold};
ghost use Rattle.command_line.specs.declared.status.Status.{Status};
ghost use Rattle.plan_run.specs.Pages.{plan_help};

use command_line::{Page, Status, tell_page};
use slot_io::Sink;

/// Tells the page, and gives the status.
pub(crate) fn tell_plan_page<K: Sink, E: Sink>(page: Page, out: &mut K, err: &mut E) -> Status
    ensures told { IsPageTold (page_text (codes "slotplan") plan_help page)
        (K.written out.old) (K.written out.new) (K.faults out.old) (K.faults out.new)
        (E.written err.old) (E.written err.new) (E.faults err.old) (E.faults err.new) result }
    ensures done_says_nothing { result ≡ Status.Done → err.new ≡ err.old }
{
    tell_page(page, b"slotplan", help(), out, err)
}

/// The help.
fn help() -> &'static [u8]
    ensures { result.now ≡ plan_help }
{
    b"usage: slotplan load T | who T | header T | supply T | supply T D
       slotplan --help
       slotplan --version

Tells what a designer asks of the task file T before run time. Times and
lengths are whole slots.

words:
  load T      the slots of each task in a cycle, their sums, and the window with
              the least slack, whether the set fits or not
  who T       of a set that does not fit, the window that fails, and the jobs
              and arrivals inside it; of one that fits, the word within
  header T    a header for a program in C: indexes, worst cases, the bytes of an
              arena, and the table of the plan
  supply T    how many slots of a firm request are always accepted: lines
              supply WITHIN SLOTS FROM UNTIL, with a window that has no more;
              between two lines SLOTS rises by one a slot up to the next
  supply T D  the line for a deadline D slots ahead; far where that is past a
              cycle

  T   a task file (TOML), at most 1048576 bytes
  D   a number of slots, from 1 to 65535

statuses:
  0   done
  1   the words are no question
  2   T cannot be read
  3   T has too many bytes
  4   T has a fault
  5   T does not fit, so that there is no header and no supply: a window has
      more demand than slots
  7   standard output takes no more
  8   memory ran out
"
}
