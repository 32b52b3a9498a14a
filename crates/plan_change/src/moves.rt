//! Jobs of one executive are offered to another, before its first slot.

ghost use Rattle.std.specs.Prelude.{◌≡◌, ◌≢◌, ◌↔◌, ◌+◌, ◌≤◌, ◌<◌, ◌^◌, ◌==◌, ◌&&◌, [], ◌∷◌, ◌++◌, true, Contains, filter, length, take, IfErr, IfOk, None, OnErr, OnOk, Some};
ghost use Rattle.slot_core.specs.declared.TheConstants.{OFFER_LIMIT};
ghost use Rattle.slot_core.specs.declared.events.Firm.TheVariants.{Accepted, NoRoom};
ghost use Rattle.slot_core.specs.declared.events.What.{What};
ghost use Rattle.slot_core.specs.declared.jobs.Evidence.{Evidence};
ghost use Rattle.slot_core.specs.Keeping.Kept.{AreApart};
ghost use Rattle.slot_core.specs.Keeping.Executives.{StandsFor};
ghost use Rattle.slot_core.specs.Keeping.Plans.{IsPlan};
ghost use Rattle.slot_core.specs.Offline.Keys.{is_offline};
ghost use Rattle.slot_core.specs.Runs.Answers.{firm_answer};
ghost use Rattle.slot_core.specs.Runs.Histories.{History};
ghost use Rattle.slot_core.specs.Runs.Scenes.{scene_of};
ghost use Rattle.slot_core.specs.Runs.Traces.{started};
ghost use Rattle.plan_change.specs.Carrying.{carried_from, cut_count, goes_on, offers_from, offers_of};
ghost use Rattle.plan_change.specs.Changed.{CanStartWith, HasNoRoom, IsChanged, IsCutOff, IsMoved};
ghost use Rattle.plan_change.specs.Offers.{MayBeOffered, MayFollow, accepted_after};
ghost use Rattle.plan_change.specs.SoftWork.{IsChangedWithSoft, IsCutOffWithSoft, MayWait, RowsAreApart};

use crate::keep::{Keep, goes_on};
use crate::list::CarriedList;
use crate::offers::{Offer, is_cut, next_row, offer_of, row_in};
use crate::with_soft::take_soft;
use interval_row::SpareTable;
use slot_core::{Evidence, Firm, Job, Steps, TaskSet};
use slot_exec::Exec;
use std::marker::Brand;
use std::sync::ledger::{Blank, Ledger};

/// What a change has carried over.
#[derive(Clone, Copy, PartialEq, Eq)]
pub struct Moved {
    /// How many jobs.
    pub carried: u32,
    /// How many of them have a deadline that was cut to the second plan's cycle.
    pub cut: u32,
}

/// Why a change is refused: the first job that has no room, and the evidence of it.
#[derive(Clone, Copy, PartialEq, Eq)]
pub struct Refusal {
    /// The row in which the job was offered.
    pub row: u32,
    /// With the jobs before it more slots are needed by then than there are from the change on.
    /// Times count from the change on.
    pub evidence: Evidence,
}

/// Whether no slot has passed, and no arrival has had a row above 0. An early end or a withdrawal
/// in row 0 finds no job that has started or was offered, and changes nothing.
pub fn is_fresh<T: SpareTable>(exec: &Exec<T>) -> bool
    ensures fresh { (result ≡ true) ↔ StandsFor exec.now started }
    ensures test { result ≡ (exec.now.scene.time == 0 && exec.now.last_row == 0) }
{
    exec.now() == 0 && exec.last_row() == 0
}

/// Carries what an executive has left over to a second one, whose first slot comes next. Firm and
/// sporadic jobs go on in their rows, as firm ones. Such offline jobs as `keep` tells get rows from
/// `first` on; where it is `Drop` there are none, and `first` says nothing. A deadline beyond the
/// second plan's cycle is cut to it. Soft work is left behind: `carry_with_soft` takes it over too.
///
/// It is granted exactly where the offers of all of them can be served beside the second plan,
/// whatever legal sporadic arrivals come. Where it is refused the second executive has accepted the
/// offers before the one that has no room, and is to be started anew. No memory is taken: the list
/// has as many places as a cycle of the first plan has slots, and more jobs never go on.
pub fn carry<T: SpareTable>(
    from: &Exec<T>,
    into: &mut Exec<T>,
    list: &mut CarriedList,
    keep: Keep,
    first: u32,
) -> Result<Moved, Refusal>
    requires fresh { StandsFor into.old started }
    requires above { keep ≢ Keep.Drop → from.now.last_row < first }
    requires rows { keep ≢ Keep.Drop → first + from.now.plan.cycle < 2 ^ 32 }
    requires places { from.now.plan.cycle ≤ list.old.places }

    // A grant: the second executive has accepted all of them.
    ensures granted { OnOk result
        (IsChanged
        into.old.plan
        (offers_from keep from.now into.old.plan.cycle first)
        into.new) }
    ensures moved { IfOk result (IsMoved keep from.now into.old.plan.cycle) }

    // A refusal: they cannot be served, the evidence names the first that does not fit, and the
    // second executive has accepted those before it.
    ensures refused { OnErr result
        (¬ (CanStartWith
        into.old.plan.tasks
        (offers_from keep from.now into.old.plan.cycle first))) }
    ensures no_room { IfErr result
        (HasNoRoom
        into.old.plan.tasks
        (offers_from keep from.now into.old.plan.cycle first)) }
    ensures cut_off { IfErr result
        (λ refusal. IsCutOff
        into.old.plan
        (offers_from keep from.now into.old.plan.cycle first)
        refusal
        into.new) }

    // The plan stays; the list has the jobs, and keeps its places.
    ensures plan { into.new.plan ≡ into.old.plan }
    ensures listed { list.new.items ≡ carried_from keep from.now }
    ensures places { list.new.places ≡ list.old.places }
{
    carry_counted::<T, Brand>(from, into, list, 0, keep, first, Blank::new(1))
}

/// Carries over what an executive has left with so many of its soft jobs, the first ones, and takes
/// steps that nobody asks for.
pub(crate) fn carry_counted<T: SpareTable, L: Ledger>(
    from: &Exec<T>,
    into: &mut Exec<T>,
    list: &mut CarriedList,
    soft: u32,
    keep: Keep,
    first: u32,
    blank: Blank,
) -> Result<Moved, Refusal>
    requires name { blank.name ≡ L.name }
    requires parts { blank.parts ≡ L.parts }
    requires some { 0 < L.parts }
    requires fresh { StandsFor into.old started }
    requires there { soft ≤ length from.now.scene.soft }
    requires limit { soft ≤ into.old.plan.tasks.soft_limit }
    requires above { keep ≢ Keep.Drop → from.now.last_row < first }
    requires rows { keep ≢ Keep.Drop → first + from.now.plan.cycle < 2 ^ 32 }
    requires places { from.now.plan.cycle ≤ list.old.places }
    ensures granted { OnOk result
        (IsChangedWithSoft
        into.old.plan
        (offers_from keep from.now into.old.plan.cycle first)
        (take soft from.now.scene.soft)
        into.new) }
    ensures moved { IfOk result (IsMoved keep from.now into.old.plan.cycle) }
    ensures refused { OnErr result
        (¬ (CanStartWith
        into.old.plan.tasks
        (offers_from keep from.now into.old.plan.cycle first))) }
    ensures no_room { IfErr result
        (HasNoRoom
        into.old.plan.tasks
        (offers_from keep from.now into.old.plan.cycle first)) }
    ensures cut_off { IfErr result
        (λ refusal. IsCutOffWithSoft
        into.old.plan
        (offers_from keep from.now into.old.plan.cycle first)
        (take soft from.now.scene.soft)
        refusal
        into.new) }
    ensures plan { into.new.plan ≡ into.old.plan }
    ensures listed { list.new.items ≡ carried_from keep from.now }
    ensures places { list.new.places ≡ list.old.places }
{
    let mut steps: Steps<L> = Steps::new(blank);
    let at = from.now();
    list_carried(from, list, at, keep, &mut steps);
    into.now();
    let cycle = into.cycle();
    move_all(from, into, list.jobs(), soft, at, cycle, first, &mut steps)
}

/// Lists the jobs that are carried over, in their order.
pub(crate) fn list_carried<T: SpareTable, L: Ledger>(
    from: &Exec<T>,
    list: &mut CarriedList,
    at: u64,
    keep: Keep,
    steps: &mut Steps<L>,
)
    requires now { at ≡ from.now.scene.time }
    requires apart { AreApart from.now.scene.jobs }
    requires places { length (filter (goes_on keep from.now.plan.tasks at) from.now.scene.jobs)
        ≤ list.old.places }
    ensures listed { list.new.items ≡ carried_from keep from.now }
    ensures places { list.new.places ≡ list.old.places }
{
    gather(from, list, at, keep, steps);
    list.sort();
}

/// Lists the jobs that go on, in the order in which the executive lends them.
fn gather<T: SpareTable, L: Ledger>(
    from: &Exec<T>,
    list: &mut CarriedList,
    at: u64,
    keep: Keep,
    steps: &mut Steps<L>,
)
    requires { length (filter (goes_on keep from.now.plan.tasks at) from.now.scene.jobs)
        ≤ list.old.places }
    ensures listed { list.new.items
        ≡ filter (goes_on keep from.now.plan.tasks at) from.now.scene.jobs }
    ensures places { list.new.places ≡ list.old.places }
{
    list.clear();
    for i in 0..from.job_count() {
        let job = from.job(i, steps);
        list_one(list, from.tasks(), at, keep, &job);
    }
}

/// Appends the job, where it goes on.
fn list_one(list: &mut CarriedList, tasks: &TaskSet, at: u64, keep: Keep, job: &Job)
    requires { goes_on keep tasks.now at job.now ≡ true
        → length list.old.items < list.old.places }
    ensures items { list.new.items
        ≡ list.old.items ++ filter (goes_on keep tasks.now at) (job.now ∷ []) }
    ensures places { list.new.places ≡ list.old.places }
{
    if goes_on(keep, tasks, at, job) {
        list.push(job);
    }
}

/// Offers these jobs one after the other, until one has no room. Before each offer the soft jobs of
/// lower rows go over, and after the last one the others: so many in all.
fn move_all<T: SpareTable, L: Ledger>(
    from: &Exec<T>,
    into: &mut Exec<T>,
    jobs: &[Job],
    soft: u32,
    at: u64,
    cycle: u32,
    first: u32,
    steps: &mut Steps<L>,
) -> Result<Moved, Refusal>
    requires plan { IsPlan into.old.plan }
    requires fresh { StandsFor into.old started }
    requires cycle { cycle ≡ into.old.plan.cycle }
    requires few { length jobs.now < 2 ^ 32 }
    requires rows { (job : Job) → Contains jobs.now job → is_offline job.key ≡ true
        → first + length jobs.now < 2 ^ 32 }
    requires offers { MayBeOffered cycle 0 (offers_of at cycle first jobs.now) }
    requires there { soft ≤ length from.now.scene.soft }
    requires limit { soft ≤ into.old.plan.tasks.soft_limit }
    requires waits { MayWait 0 (take soft from.now.scene.soft) }
    requires apart { RowsAreApart
        (offers_of at cycle first jobs.now)
        (take soft from.now.scene.soft) }
    ensures granted { OnOk result
        (IsChangedWithSoft
        into.old.plan
        (offers_of at cycle first jobs.now)
        (take soft from.now.scene.soft)
        into.new) }
    ensures moved { IfOk result (λ moved. (moved.carried ≡ length jobs.now)
        × (moved.cut ≡ cut_count at cycle jobs.now)) }
    ensures refused { OnErr result
        (¬ (CanStartWith into.old.plan.tasks (offers_of at cycle first jobs.now))) }
    ensures no_room { IfErr result
        (HasNoRoom into.old.plan.tasks (offers_of at cycle first jobs.now)) }
    ensures cut_off { IfErr result
        (λ refusal. IsCutOffWithSoft
        into.old.plan
        (offers_of at cycle first jobs.now)
        (take soft from.now.scene.soft)
        refusal
        into.new) }
    ensures plan { into.new.plan ≡ into.old.plan }
{
    let mut next = first;
    let mut passed = 0;
    for job in jobs {
        let offer = offer_of(job, at, cycle, row_in(next, job));
        passed = take_soft(from, into, passed, soft, Some(offer.row));
        if let Some(evidence) = offer_one(into, offer, steps) {
            return Err(Refusal {
                row: offer.row,
                evidence,
            });
        }
        next = next_row(next, job);
    }
    take_soft(from, into, passed, soft, None);
    Ok(Moved {
        carried: jobs.len() as u32,
        cut: cut_count(jobs, at, cycle),
    })
}

/// Makes one offer: none where it is accepted, else the evidence against it.
fn offer_one<T: SpareTable, L: Ledger>(
    into: &mut Exec<T>,
    offer: Offer,
    steps: &mut Steps<L>,
) -> Option<Evidence>
    requires may { MayFollow into.old.plan.cycle into.old.last_row offer }
    requires short { into.old.plan.cycle ≤ OFFER_LIMIT }
    ensures accepted { result ≡ None → (h : History) → StandsFor into.old h
        → (firm_answer
        into.old.plan.tasks.sporadics
        into.old.plan.cycle
        (scene_of into.old.plan.tasks into.old.plan.cycle h)
        offer.slots
        offer.within
        ≡ Accepted)
        × StandsFor into.new (accepted_after h (offer ∷ [])) }
    ensures refused { (e : Evidence) → result ≡ Some e → (h : History) → StandsFor into.old h
        → (firm_answer
        into.old.plan.tasks.sporadics
        into.old.plan.cycle
        (scene_of into.old.plan.tasks into.old.plan.cycle h)
        offer.slots
        offer.within
        ≡ NoRoom e)
        × StandsFor into.new (What.Firm offer.row offer.slots offer.within (NoRoom e) ∷ h) }
    ensures plan { into.new.plan ≡ into.old.plan }
    ensures row { into.new.last_row ≡ offer.row }
{
    match into.firm(offer.row, offer.slots, offer.within, steps) {
        Firm::Accepted => None,
        Firm::NoRoom(evidence) => Some(evidence),
        Firm::Late => None,
        Firm::Far => None,
    }
}

/// How many of these jobs have a deadline that is cut.
fn cut_count(jobs: &[Job], at: u64, cycle: u32) -> u32
    requires { length jobs.now < 2 ^ 32 }
    ensures { result ≡ cut_count at cycle jobs.now }
{
    let mut cut = 0;
    for job in jobs {
        cut += u32::from(is_cut(job, at, cycle));
    }
    cut
}
