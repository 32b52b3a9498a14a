//! The tally of the entries of a trace.

ghost use Rattle.std.specs.Prelude.{◌≡◌, ℕ, ◌≤◌, ◌<◌, ◌+◌, ◌*◌, ◌^◌, ◌++◌, List, length};
ghost use Rattle.slot_core.specs.declared.events.Entry.{Entry};
ghost use Rattle.slot_core.specs.declared.events.What.TheVariants.{Firm as FirmEntry, Run, Soft as SoftEntry, Sporadic as SporadicEntry};
ghost use Rattle.slot_core.specs.Output.Charts.{Kind, number_of, tally_line, tally_text};
ghost use Rattle.slot_core.specs.Output.Texts.{worded};
ghost use Rattle.trace_text.specs.declared.TheConstants.{LINE_LIMIT};
ghost use Rattle.load_gen.specs.declared.tally.TheConstants.{COUNT_LIMIT, WORD_LIMIT};
ghost use Rattle.load_gen.specs.Tallies.{count_of, grown, with_entry};

use slot_core::{Entry, Failed, Firm, Key, Soft, Spo, Taker, TaskSet, What};
use trace_text::{DECIMAL_LIMIT, Line};

/// Most bytes of a word of a tally's line, the space before it among them.
const WORD_LIMIT: usize = 9;

/// Most bytes of a word, a space and a number.
const COUNT_LIMIT: usize = WORD_LIMIT + 1 + DECIMAL_LIMIT;

/// How many entries of each kind there were: arrivals by their answers, runs by their keys, and
/// idle slots. Each count stays at the last value of a `u64` once it is there.
///
/// It is a taker that never fails, and that takes no memory.
#[derive(Drop)]
pub struct Tally {
    soft_taken: u64,
    soft_full: u64,
    firm_accepted: u64,
    firm_late: u64,
    firm_far: u64,
    firm_no_room: u64,
    sporadic_taken: u64,
    sporadic_soon: u64,
    ran_offline: u64,
    ran_sporadic: u64,
    ran_firm: u64,
    ran_soft: u64,
    idle: u64,
}

impl Tally {
    /// The tally of no entries.
    pub fn new() -> Tally
        ensures { (kind : Kind) → count_of result kind ≡ 0 }
    {
        Tally {
            soft_taken: 0,
            soft_full: 0,
            firm_accepted: 0,
            firm_late: 0,
            firm_far: 0,
            firm_no_room: 0,
            sporadic_taken: 0,
            sporadic_soon: 0,
            ran_offline: 0,
            ran_sporadic: 0,
            ran_firm: 0,
            ran_soft: 0,
            idle: 0,
        }
    }

    /// The line of the tally of load `n` over this many slots, with its line feed.
    pub fn line(&self, n: u32, slots: u32) -> Line
        ensures line { result ≡ tally_line n slots (count_of self.now) }

        // Of the tally that took a trace, that is the text of the trace.
        ensures trace { (trace : List Entry) → length trace < 2 ^ 64
            → ((kind : Kind) → count_of self.now kind ≡ grown 0 (number_of trace kind))
            → result ≡ tally_text n slots trace }
    {
        let mut line = Line::new();
        push_number(&mut line, b"selfrun", u64::from(n));
        push_number(&mut line, b" slots", u64::from(slots));
        push_pair(&mut line, b" soft", self.soft_taken, self.soft_full);
        push_pair(&mut line, b" firm", self.firm_accepted, self.firm_late);
        push_pair(&mut line, b"", self.firm_far, self.firm_no_room);
        push_pair(
            &mut line,
            b" sporadic",
            self.sporadic_taken,
            self.sporadic_soon,
        );
        push_pair(&mut line, b" run", self.ran_offline, self.ran_sporadic);
        push_pair(&mut line, b"", self.ran_firm, self.ran_soft);
        push_number(&mut line, b" idle", self.idle);
        line.push(b"\n");
        line
    }

    /// Counts an entry.
    fn count(&mut self, what: What)
        ensures { self.new ≡ with_entry what self.old }
    {
        match what {
            What::Soft(_, _, answer) => self.count_soft(answer),
            What::Firm(_, _, _, answer) => self.count_firm(answer),
            What::Sporadic(_, _, answer) => self.count_sporadic(answer),
            What::Run(key) => self.count_run(key),
            What::Idle => self.idle = one_more(self.idle),
            _ => {}
        }
    }

    /// Counts soft work by its answer.
    fn count_soft(&mut self, answer: Soft)
        ensures { (row slots : ℕ) → self.new ≡ with_entry (SoftEntry row slots answer) self.old }
    {
        match answer {
            Soft::Taken => self.soft_taken = one_more(self.soft_taken),
            Soft::Full(_) => self.soft_full = one_more(self.soft_full),
        }
    }

    /// Counts a firm task by its answer.
    fn count_firm(&mut self, answer: Firm)
        ensures { (row slots within : ℕ)
            → self.new ≡ with_entry (FirmEntry row slots within answer) self.old }
    {
        match answer {
            Firm::Accepted => self.firm_accepted = one_more(self.firm_accepted),
            Firm::Late => self.firm_late = one_more(self.firm_late),
            Firm::Far => self.firm_far = one_more(self.firm_far),
            Firm::NoRoom(_) => self.firm_no_room = one_more(self.firm_no_room),
        }
    }

    /// Counts a sporadic arrival by its answer.
    fn count_sporadic(&mut self, answer: Spo)
        ensures { (row index : ℕ)
            → self.new ≡ with_entry (SporadicEntry row index answer) self.old }
    {
        match answer {
            Spo::Taken(_) => self.sporadic_taken = one_more(self.sporadic_taken),
            Spo::Soon(_) => self.sporadic_soon = one_more(self.sporadic_soon),
        }
    }

    /// Counts a run by its key.
    fn count_run(&mut self, key: Key)
        ensures { self.new ≡ with_entry (Run key) self.old }
    {
        match key {
            Key::Offline(_, _, _) => self.ran_offline = one_more(self.ran_offline),
            Key::Sporadic(_, _) => self.ran_sporadic = one_more(self.ran_sporadic),
            Key::Firm(_) => self.ran_firm = one_more(self.ran_firm),
            Key::Soft(_) => self.ran_soft = one_more(self.ran_soft),
        }
    }
}

impl Taker for Tally {
    ghost use Rattle.std.specs.Prelude.{◌≡◌};
    ghost use Rattle.slot_core.specs.Output.Charts.{Kind, number_of};
    ghost use Rattle.load_gen.specs.Tallies.{count_of, grown};
    ghost use Rattle.load_gen.specs.TallyLaws.{counts-more, counts-none};

    ghost faults = { λ _. 0 };

    // Each count grows by the number of entries of its kind.
    ghost took = { λ set a b entries.
        (kind : Kind) → count_of b kind ≡ grown (count_of a kind) (number_of entries kind) };

    ghost broke = { λ set a b entries. ⊥ };

    fn take(&mut self, entry: &Entry, _tasks: &TaskSet) -> Result<(), Failed> {
        self.count(entry.what);
        Ok(())
    }

    ghost broke_some = { λ set a b broken. broken };

    ghost took_none = { λ set a. counts-none a };

    ghost took_more = { λ set a b c es fs first then_. counts-more a b c es fs first then_ };

    ghost broke_later = { λ set a b c es fs first broken. broken };
}

/// The count after one more.
fn one_more(count: u64) -> u64
    ensures { result ≡ grown count 1 }
{
    count.saturating_add(1)
}

/// Appends the word, a space and the number.
fn push_number(line: &mut Line, word: &[u8], n: u64)
    requires word { length word.now ≤ WORD_LIMIT }
    requires room { length line.old + COUNT_LIMIT ≤ LINE_LIMIT }
    ensures text { line.new ≡ line.old ++ worded word.now n }
    ensures short { length line.new ≤ length line.old + COUNT_LIMIT }
{
    line.push(word);
    line.push(b" ");
    line.number(n);
}

/// Appends the word, and a space before each of the numbers.
fn push_pair(line: &mut Line, word: &[u8], first: u64, second: u64)
    requires word { length word.now ≤ WORD_LIMIT }
    requires room { length line.old + 2 * COUNT_LIMIT ≤ LINE_LIMIT }
    ensures text { line.new ≡ line.old ++ worded (worded word.now first) second }
    ensures short { length line.new ≤ length line.old + 2 * COUNT_LIMIT }
{
    push_number(line, word, first);
    push_number(line, b"", second);
}
