//! Slot schedules of lists of jobs, whatever the scheduler: safe jobs have one, and one fits its
//! work.

ghost use Rattle.slot_facts.specs.Schedules.{SafeJobsHaveASchedule, SlotsLieBeforeDerivedDeadlines, SlotsLieAfterDerivedStarts, SlotsLieAfterDerivedStartsAtLegalHistories, AScheduleFitsItsWork};

/// Jobs of which no deadline is at risk have a slot schedule, precedence included: the one of
/// earliest deadline first over derived windows (Dertouzos 1974; Chetto, Silly and Bouchentouf
/// 1990).
pub fn safe_jobs_have_a_schedule()
    ensures { SafeJobsHaveASchedule }
{}

/// In any slot schedule of jobs whose successors wait, a job's slots lie before its derived
/// deadline: the longest chain after it has to follow (Chetto, Silly and Bouchentouf 1990).
pub fn slots_lie_before_derived_deadlines()
    ensures { SlotsLieBeforeDerivedDeadlines }
{}

/// In any slot schedule of jobs whose predecessors wait, a job's slots lie at or after its derived
/// start: the longest chain before it has to come first (Chetto, Silly and Bouchentouf 1990).
pub fn slots_lie_after_derived_starts()
    ensures { SlotsLieAfterDerivedStarts }
{}

/// At every legal history, of a feasible set or not, in any slot schedule of the remaining jobs and
/// of others beside them, a remaining job's slots lie at or after its derived start, whether its
/// predecessors wait, run or have ended, where no job of a chain before it was ended early.
pub fn slots_lie_after_derived_starts_at_legal_histories()
    ensures { SlotsLieAfterDerivedStartsAtLegalHistories }
{}

/// Where jobs have a slot schedule, what is due by a time is at most the slots up to it: processor
/// demand is a necessary condition (Baruah, Rosier and Howell 1990).
pub fn a_schedule_fits_its_work()
    ensures { AScheduleFitsItsWork }
{}
