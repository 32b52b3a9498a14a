//! What is told of each job.

ghost use Rattle.std.specs.Prelude.{◌≡◌, ℕ, OnOk, IfOk};
ghost use Rattle.slot_core.specs.declared.jobs.Key.{Key};
ghost use Rattle.view_jobs.specs.Tallies.{after_does, after_end, after_run, gaps_at, tally_in, told_from, tally_of};

use crate::deeds::{Deed, Does};
use slot_core::{Key, Memory};
use std::alloc::Global;
use std::collections::BTreeMap;

/// What is told of a job.
#[derive(Clone, Copy, PartialEq, Eq, Default)]
pub struct Tally {
    /// The slots that it ran.
    pub ran: u64,
    /// The first of them.
    pub first: Option<u32>,
    /// The last of them.
    pub last: Option<u32>,
    /// How often it went on after a gap.
    pub gaps: u64,
    /// When it ended early, and how many slots that freed.
    pub ended: Option<(u32, u32)>,
}

/// Nothing is told.
const UNTOLD: Tally = Tally {
    ran: 0,
    first: None,
    last: None,
    gaps: 0,
    ended: None,
};

/// The tally of each job of which anything is told.
pub type Tallies = BTreeMap<Key, Tally>;

/// The tallies of these deeds.
pub fn tallies_of(alloc: Global, deeds: &[Deed]) -> Result<Tallies, Memory>
    ensures { IfOk result (λ tallies. (key : Key) → tally_in tallies key ≡ tally_of deeds.now key) }
{
    let mut tallies = BTreeMap::new(alloc);
    add_all(&mut tallies, deeds)?;
    Ok(tallies)
}

/// Adds what the deeds tell.
fn add_all(tallies: &mut Tallies, deeds: &[Deed]) -> Result<(), Memory>
    ensures { OnOk result ((key : Key) → tally_in tallies.new key
        ≡ told_from key (tally_in tallies.old key) deeds.now) }
{
    for deed in deeds {
        add(tallies, deed)?;
    }
    Ok(())
}

/// Adds what one more deed tells.
fn add(tallies: &mut Tallies, deed: &Deed) -> Result<(), Memory>
    ensures { OnOk result ((key : Key) → tally_in tallies.new key
        ≡ after_does key (tally_in tallies.old key) deed.now.time deed.now.does) }
{
    match deed.does {
        Does::Runs(key) => {
            let tally = tally_in(tallies, key).after_run(deed.time);
            tallies.insert(key, tally)?;
            Ok(())
        }
        Does::Ends(key, freed) => {
            let tally = tally_in(tallies, key).after_end(deed.time, freed);
            tallies.insert(key, tally)?;
            Ok(())
        }
        Does::Nothing | Does::Brings(_) => Ok(()),
    }
}

/// The tally of the job of this key.
pub fn tally_in(tallies: &Tallies, key: Key) -> Tally
    ensures { result ≡ tally_in tallies.now key }
{
    match tallies.get(&key).copied() {
        Some(tally) => tally,
        None => UNTOLD,
    }
}

impl Tally {
    /// After a slot that the job ran.
    fn after_run(self, time: u32) -> Tally
        ensures { result ≡ after_run self time }
    {
        Tally {
            ran: self.ran.saturating_add(1),
            first: self.first.or(Some(time)),
            last: Some(time),
            gaps: gaps_at(self.last, time, self.gaps),
            ended: self.ended,
        }
    }

    /// After an early end, of which the first counts.
    fn after_end(self, time: u32, freed: u32) -> Tally
        ensures { result ≡ after_end self time freed }
    {
        Tally {
            ended: self.ended.or(Some((time, freed))),
            ..self
        }
    }
}

/// The gaps with one more where the slot is not the one after the last in which the job ran.
fn gaps_at(last: Option<u32>, time: u32, gaps: u64) -> u64
    ensures { result ≡ gaps_at last time gaps }
{
    match last {
        Some(last) if u64::from(last) + 1 != u64::from(time) => gaps.saturating_add(1),
        _ => gaps,
    }
}
