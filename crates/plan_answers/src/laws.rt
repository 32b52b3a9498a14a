//! What the answers mean.
//!
//! Each law is the contract of a public function with no parameters and an empty body.

ghost use Rattle.plan_answers.specs.Laws.{LoadAddsUp, TightestIsLeast, WhoAddsUp, WhoIsUnserved};

/// The sums of a load are the demand of the whole cycle.
pub fn load_adds_up()
    ensures { LoadAddsUp }
{}

/// No window in which some slots are needed has less slack than the one that a load tells, where
/// the whole cycle fits.
pub fn tightest_is_least()
    ensures { TightestIsLeast }
{}

/// The jobs and the arrivals inside a window add up to its demand.
pub fn who_adds_up()
    ensures { WhoAddsUp }
{}

/// No slot schedule serves a set with a window that fails, as the arrivals that are told show.
pub fn who_is_unserved()
    ensures { WhoIsUnserved }
{}
