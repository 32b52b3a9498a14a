//! Lists of soft jobs that wait.

ghost use Rattle.std.specs.Prelude.{◌≡◌, ◌&&◌, not, filter, find, map, nat_lt};
ghost use Rattle.std.specs.List.{list_any};
ghost use Rattle.std.specs.Option.{option_map};
ghost use Rattle.slot_core.specs.declared.jobs.Key.TheVariants.{Soft as SoftKey};
ghost use Rattle.slot_core.specs.declared.jobs.SoftJob.{SoftJob};
ghost use Rattle.slot_core.specs.Offline.Keys.{same_key};
ghost use Rattle.scene_steps.specs.Steps.{soft_after_run};
ghost use Rattle.trace_verify.specs.SoftSlots.{one_less};

use crate::jobs::is_same_key;
use slot_core::{Key, SoftJob};

/// Whether this is the key of the soft job.
fn is_key_of(job: &SoftJob, key: Key) -> bool
    ensures { result ≡ same_key (SoftKey job.now.row) key }
{
    is_same_key(Key::Soft(job.row), key)
}

/// Whether a soft job of this key waits.
pub(crate) fn soft_may_run(soft: &[SoftJob], key: Key) -> bool
    ensures { result ≡ list_any (λ (s : SoftJob). same_key (SoftKey s.row) key) soft.now }
{
    soft.iter().any(|job| is_key_of(job, key))
}

/// One slot of the soft job of this key has run: it goes where that was its last one.
pub(crate) fn run_soft(soft: &mut Vec<SoftJob>, key: Key)
    ensures { soft.new.items ≡ soft_after_run key soft.old.items }
{
    run_slot(soft, key);
    soft.retain(|job| job.left > 0);
}

/// One slot of the soft job of this key has run.
fn run_slot(soft: &mut Vec<SoftJob>, key: Key)
    ensures { soft.new.items ≡ map (one_less key) soft.old.items }
{
    for i in 0..soft.len() {
        soft[i] = one_less(soft[i], key);
    }
}

/// The soft job with a slot less, where it has this key.
fn one_less(job: SoftJob, key: Key) -> SoftJob
    ensures { result ≡ one_less key job }
{
    if is_key_of(&job, key) {
        SoftJob {
            row: job.row,
            left: job.left.saturating_sub(1),
            declared: job.declared,
        }
    } else {
        job
    }
}

/// The soft job of this key goes.
pub(crate) fn remove_soft(soft: &mut Vec<SoftJob>, key: Key)
    ensures { soft.new.items
        ≡ filter (λ (s : SoftJob). not (same_key (SoftKey s.row) key)) soft.old.items }
{
    soft.retain(|job| !is_key_of(job, key));
}

/// The slots left of the soft job of this key, where it has started.
pub(crate) fn started_soft_left(soft: &[SoftJob], key: Key) -> Option<u32>
    ensures { result
        ≡ option_map
        (λ (s : SoftJob). s.left)
        (find
        (λ (s : SoftJob). nat_lt s.left s.declared && same_key (SoftKey s.row) key)
        soft.now) }
{
    let job = soft.iter().find(|job| is_started(job, key))?;
    Some(job.left)
}

/// Whether the soft job has started and has this key.
fn is_started(job: &SoftJob, key: Key) -> bool
    ensures { result
        ≡ (nat_lt job.now.left job.now.declared && same_key (SoftKey job.now.row) key) }
{
    job.left < job.declared && is_key_of(job, key)
}
