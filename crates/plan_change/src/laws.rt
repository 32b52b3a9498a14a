//! Laws of a change of plan that is made by offers. Each is the contract of a function with no
//! parameters and an empty body.

ghost use Rattle.plan_change.specs.Laws.{AgreesWithTheSwitch, CarriedJobsAreServed, CarriedJobsAreServedWithSoft, CarriedJobsKeepTheirOrder, CarriedJobsKeepTheirOrderWithSoft, CarriedJobsMayBeOffered, CarryingMoreIsHarder, FewJobsAreCarried, FirstOffersAreExact, LessWorkCanChange, NoOfflineJobGoesOnWhereACycleEnds, OffersTogetherAreExact, OneListIsCarried, PredecessorsGoFirst, SoftWorkPlaysNoPart, SoftWorkWaitsAsItCame, StartedJobsAreReleased, TheOrderOfOffersIsFree, TheRowOrderRises};

/// At every legal history offers in rising rows are accepted one after the other exactly where all
/// of them can be served together.
pub fn offers_together_are_exact()
    ensures { OffersTogetherAreExact }
{}

/// So the order of offers plays no part: the same slots within the same times are accepted all the
/// way or not alike, in whatever rows.
pub fn the_order_of_offers_is_free()
    ensures { TheOrderOfOffersIsFree }
{}

/// Before the first slot offers are accepted exactly where a change with their jobs can be served.
pub fn first_offers_are_exact()
    ensures { FirstOffersAreExact }
{}

/// Where a change can be served, so can one with no more work due by any time, at another time too.
pub fn less_work_can_change()
    ensures { LessWorkCanChange }
{}

/// Where the offers of an executive can be served, so can a switch that carries its firm and
/// sporadic jobs alone, with their own deadlines.
pub fn carrying_more_is_harder()
    ensures { CarryingMoreIsHarder }
{}

/// Where no offline job goes on and no deadline lies beyond the second cycle, the offers can be
/// served exactly where such a switch can be.
pub fn agrees_with_the_switch()
    ensures { AgreesWithTheSwitch }
{}

/// No offline job goes on where all are dropped, nor where a cycle ends.
pub fn no_offline_job_goes_on_where_a_cycle_ends()
    ensures { NoOfflineJobGoesOnWhereACycleEnds }
{}

/// The instance of an offline job that has run a slot was released before.
pub fn started_jobs_are_released()
    ensures { StartedJobsAreReleased }
{}

/// What goes on may be offered, each job in a row of its own.
pub fn carried_jobs_may_be_offered()
    ensures { CarriedJobsMayBeOffered }
{}

/// No more jobs are carried over than a cycle of the first plan has slots.
pub fn few_jobs_are_carried()
    ensures { FewJobsAreCarried }
{}

/// The order in which jobs are carried over lists the same jobs, each before those that it goes
/// before.
pub fn the_row_order_rises()
    ensures { TheRowOrderRises }
{}

/// The list of carried jobs is that of each history for which the executive stands.
pub fn one_list_is_carried()
    ensures { OneListIsCarried }
{}

/// In every legal history that begins with accepted offers, each of their jobs runs at most the
/// slots of its offer, and has ended by the deadline of its offer.
pub fn carried_jobs_are_served()
    ensures { CarriedJobsAreServed }
{}

/// Where such a job runs, each other one with an earlier deadline of its offer, or a level one and
/// a lower row, has ended.
pub fn carried_jobs_keep_their_order()
    ensures { CarriedJobsKeepTheirOrder }
{}

/// Of two offline jobs that are carried over a predecessor has the lower row and no later deadline,
/// and where the successor runs it has ended.
pub fn predecessors_go_first()
    ensures { PredecessorsGoFirst }
{}

/// Where soft jobs go over among the offers, an offer is answered as among the offers alone: so the
/// change is granted or refused alike, with the same evidence.
pub fn soft_work_plays_no_part()
    ensures { SoftWorkPlaysNoPart }
{}

/// The soft jobs wait in their order, each in its own row with the slots that it had left.
pub fn soft_work_waits_as_it_came()
    ensures { SoftWorkWaitsAsItCame }
{}

/// In every legal history after such a change each carried job runs at most the slots of its offer,
/// and has ended by the deadline of its offer.
pub fn carried_jobs_are_served_with_soft()
    ensures { CarriedJobsAreServedWithSoft }
{}

/// Where such a job runs, each other one that goes before it has ended.
pub fn carried_jobs_keep_their_order_with_soft()
    ensures { CarriedJobsKeepTheirOrderWithSoft }
{}
