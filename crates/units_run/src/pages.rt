//! What slotunits tells of itself.

ghost use Rattle.std.specs.Prelude.{◌≡◌, codes};
ghost use Rattle.command_line.specs.Pages.{IsPageTold, page_text};
ghost use Rattle.command_line.specs.declared.status.Status.{Status};
ghost use Rattle.units_run.specs.Lines.{units_help};

use command_line::{Page, Status, tell_page};
use slot_io::Sink;

/// Tells the page, and gives the status.
pub(crate) fn tell_units_page<K: Sink, E: Sink>(page: Page, out: &mut K, err: &mut E) -> Status
    ensures told { IsPageTold (page_text (codes "slotunits") units_help page)
        (K.written out.old) (K.written out.new) (K.faults out.old) (K.faults out.new)
        (E.written err.old) (E.written err.new) (E.faults err.old) (E.faults err.new) result }
    ensures done_says_nothing { result ≡ Status.Done → err.new ≡ err.old }
{
    tell_page(page, b"slotunits", help(), out, err)
}

/// The help.
fn help() -> &'static [u8]
    ensures { result.now ≡ units_help }
{
    b"usage: slotunits tasks U | check U [FROM TO] | arrivals U A | trace U
       slotunits --help
       slotunits --version

Turns times into slots. Worst cases round up, separations down, and windows
inwards.

words:
  tasks U    the task file in slots that stands for U
  check U [FROM TO]
             a line for each length of a slot, from FROM to TO, that divides all
             periods: first those with which U fits, the least load first
  arrivals U A
             the arrivals file in slots that stands for A
  trace U    a trace from standard input, with times in front of its lines

  U          a file of units (TOML), at most 1048576 bytes
  FROM, TO   times, as 100us and 1ms
  A          an arrivals file with times (CSV), at most 4194304 bytes

statuses:
  0   done
  1   the words are none of these forms
  2   a file or standard input cannot be read
  3   a file has too many bytes
  4   U has a fault; of tasks, its set in slots has
  6   A has a fault
  7   standard output takes no more
  8   memory ran out
  10  a line of standard input has a fault
"
}
