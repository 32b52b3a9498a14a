//! What slotview tells of itself.

ghost use Rattle.std.specs.Prelude.{◌≡◌, codes};
ghost use Rattle.command_line.specs.Pages.{page_text, IsPageTold};
ghost use Rattle.command_line.specs.declared.status.Status.{Status};
ghost use Rattle.view_run.specs.Pages.{view_help};

use command_line::{Page, Status, tell_page};
use slot_io::Sink;

/// Tells the page, and gives the status.
pub(crate) fn tell_view_page<K: Sink, E: Sink>(page: Page, out: &mut K, err: &mut E) -> Status
    ensures told { IsPageTold (page_text (codes "slotview") view_help page)
        (K.written out.old) (K.written out.new) (K.faults out.old) (K.faults out.new)
        (E.written err.old) (E.written err.new) (E.faults err.old) (E.faults err.new) result }
    ensures done_says_nothing { result ≡ Status.Done → err.new ≡ err.old }
{
    tell_page(page, b"slotview", help(), out, err)
}

/// The help.
fn help() -> &'static [u8]
    ensures { result.now ≡ view_help }
{
    b"usage: slotview picture [T | --table B] [FROM UNTIL]
       slotview jobs T | jobs --table B
       slotview events [FROM UNTIL] | spans [FROM UNTIL] | waves [FROM UNTIL]
       slotview stairs
       slotview --help
       slotview --version

Reads a trace from standard input, as slotshift and slotlive print it, and
writes one view of it. Times and lengths are whole slots. stairs reads a supply
in its place, as slotplan supply prints it.

views:
  picture          a picture (SVG) of what arrived, what ran and the capacities,
                   of at most 10000 slots
  picture T        the same over the tasks of T: a row for each, also where it
                   never ran, and marks where its jobs are released and due
  picture --table B
                   the same over the tasks of the plan that B spells
  jobs T           a table (CSV) of the jobs, beside the plan of T
  jobs --table B   the same, beside the plan that B spells
  events           a table (CSV) of what arrived, with the answers
  spans            a table (CSV) of the spans that the lines show
  waves            waves (VCD) of what ran, and of the first capacity
  stairs           a picture (SVG) of the staircase of a supply

  FROM UNTIL   the slots from FROM on and before UNTIL, of a longer trace
  T            a task file (TOML), at most 1048576 bytes
  B            a binary table (slotshift table), at most 4194304 bytes

The trace has at most 67108864 bytes, and a line of it at most 1024. At most
262144 lines tell of the slots that are shown, and what runs has at most 1045
rows. A supply has at most 67108864 bytes, and tells of at most 8192 slots.

statuses:
  0   done
  1   the words are no view
  2   T, B or standard input cannot be read
  3   T, B or standard input has too many bytes
  4   T has a fault
  5   T does not fit: a window has more demand than slots
  7   standard output takes no more
  8   memory ran out
  9   B is no table of a plan
  10  standard input is no trace, has not the slot FROM, or is too long for a
      view; or it names a task that T or B does not have; or it is no supply
"
}
