//! The figures of jobs.

ghost use Rattle.std.specs.Prelude.{◌≡◌, map, IfOk};
ghost use Rattle.std.specs.List.{filter_map};
ghost use Rattle.view_stats.specs.declared.outcomes.Outcome.{Outcome};
ghost use Rattle.view_stats.specs.Figures.{figures_of, quotient, responses_of, starts_apart, tighter, tightest, total, with_due};

use crate::ordered::{ascending, distances, nearest_rank};
use crate::outcomes::Outcome;
use slot_core::Memory;
use std::alloc::Global;

/// A number as a whole number and parts.
#[derive(Clone, Copy, PartialEq, Eq)]
pub struct Fixed {
    /// The whole number.
    pub whole: u64,
    /// The parts beside it.
    pub parts: u16,
}

/// The figures of jobs. Times and lengths are in slots.
#[derive(Clone, Copy, PartialEq, Eq)]
pub struct Figures {
    /// How many jobs there are.
    pub jobs: u64,
    /// How many of them have ended.
    pub ended: u64,
    /// The slots that they ran.
    pub ran: u64,
    /// These of all slots of the trace, in parts of ten thousand.
    pub load: Option<Fixed>,
    /// The least response.
    pub fastest: Option<u64>,
    /// The mean response, in parts of a hundred.
    pub mean: Option<Fixed>,
    /// The response that 95 of 100 do not exceed.
    pub p95: Option<u64>,
    /// The greatest response.
    pub slowest: Option<u64>,
    /// The deadline and the end of the first job of the least slack.
    pub due: Option<(u64, u64)>,
    /// The least distance from one start to the next.
    pub closest: Option<u64>,
    /// The greatest one.
    pub farthest: Option<u64>,
    /// How often they went on after a gap.
    pub preemptions: u64,
}

/// The figures of jobs in a trace of so many slots.
pub(crate) fn figures_of(alloc: Global, slots: u32, outcomes: &[Outcome]) -> Result<Figures, Memory>
    ensures { IfOk result (λ figures. figures ≡ figures_of slots outcomes.now) }
{
    let responses = responses_of(alloc, outcomes)?;
    let apart = starts_apart(alloc, outcomes)?;
    Ok(figures_with(slots, outcomes, &responses, &apart))
}

/// The figures of jobs with these responses and distances.
fn figures_with(slots: u32, outcomes: &[Outcome], responses: &[u64], apart: &[u64]) -> Figures
    requires responses { responses.now ≡ responses_of outcomes.now }
    requires apart { apart.now ≡ starts_apart outcomes.now }
    ensures { result ≡ figures_of slots outcomes.now }
{
    let ran = ran_in(outcomes);
    Figures {
        jobs: outcomes.len() as u64,
        ended: responses.len() as u64,
        ran,
        load: ten_thousandths(ran, u64::from(slots)),
        fastest: responses.first().copied(),
        mean: hundredths(total(responses), responses.len() as u64),
        p95: responses.get(nearest_rank(responses.len())).copied(),
        slowest: responses.last().copied(),
        due: tightest(outcomes),
        closest: apart.first().copied(),
        farthest: apart.last().copied(),
        preemptions: preemptions_in(outcomes),
    }
}

/// The responses of the jobs that have ended, in ascending order.
fn responses_of(alloc: Global, outcomes: &[Outcome]) -> Result<Vec<u64>, Memory>
    ensures { IfOk result (λ responses. responses.items ≡ responses_of outcomes.now) }
{
    let mut responses = Vec::new(alloc);
    for outcome in outcomes {
        if let Some(response) = outcome.response {
            responses.push(response)?;
        }
    }
    Ok(ascending(responses))
}

/// The distances between the starts of the jobs that ran, in ascending order.
fn starts_apart(alloc: Global, outcomes: &[Outcome]) -> Result<Vec<u64>, Memory>
    ensures { IfOk result (λ apart. apart.items ≡ starts_apart outcomes.now) }
{
    let starts = ascending(starts_of(alloc, outcomes)?);
    Ok(ascending(distances(alloc, &starts)?))
}

/// The starts of the jobs that ran.
fn starts_of(alloc: Global, outcomes: &[Outcome]) -> Result<Vec<u64>, Memory>
    ensures { IfOk result (λ starts. starts.items
        ≡ filter_map (λ (o : Outcome). o.start) outcomes.now) }
{
    let mut starts = Vec::new(alloc);
    for outcome in outcomes {
        if let Some(start) = outcome.start {
            starts.push(u64::from(start))?;
        }
    }
    Ok(starts)
}

/// The numbers added up.
fn total(numbers: &[u64]) -> u64
    ensures { result ≡ total numbers.now }
{
    let mut sum = 0u64;
    for n in numbers {
        sum = sum.saturating_add(*n);
    }
    sum
}

/// The slots that the jobs ran.
fn ran_in(outcomes: &[Outcome]) -> u64
    ensures { result ≡ total (map (λ (o : Outcome). o.ran) outcomes.now) }
{
    let mut ran = 0u64;
    for outcome in outcomes {
        ran = ran.saturating_add(outcome.ran);
    }
    ran
}

/// How often the jobs went on after a gap.
fn preemptions_in(outcomes: &[Outcome]) -> u64
    ensures { result ≡ total (map (λ (o : Outcome). o.preemptions) outcomes.now) }
{
    let mut preemptions = 0u64;
    for outcome in outcomes {
        preemptions = preemptions.saturating_add(outcome.preemptions);
    }
    preemptions
}

/// The deadline and the end of the first job of the least slack.
fn tightest(outcomes: &[Outcome]) -> Option<(u64, u64)>
    ensures { result ≡ tightest outcomes.now }
{
    let mut least = None;
    for outcome in outcomes {
        least = with_due(least, outcome.due);
    }
    least
}

/// With one more, where there is one.
fn with_due(least: Option<(u64, u64)>, next: Option<(u64, u64)>) -> Option<(u64, u64)>
    ensures { result ≡ with_due least next }
{
    match next {
        Some(next) => tighter(least, next),
        None => least,
    }
}

/// Of two deadlines with their ends the one with the lower slack, and the first where both are
/// alike.
fn tighter(least: Option<(u64, u64)>, next: (u64, u64)) -> Option<(u64, u64)>
    ensures { result ≡ tighter least next }
{
    match least {
        Some(due)
            if u128::from(next.0) + u128::from(due.1) >= u128::from(due.0) + u128::from(next.1) => {
            Some(due)
        }
        _ => Some(next),
    }
}

/// The quotient with two decimals, rounded to the nearest, and up from the middle.
fn hundredths(n: u64, count: u64) -> Option<Fixed>
    ensures { result ≡ quotient 100 n count }
{
    if count == 0 {
        return None;
    }
    let parts = (100 * u128::from(n) + u128::from(count / 2)) / u128::from(count);
    Some(Fixed {
        whole: (parts / 100) as u64,
        parts: (parts % 100) as u16,
    })
}

/// The quotient with four decimals, rounded to the nearest, and up from the middle.
fn ten_thousandths(n: u64, count: u64) -> Option<Fixed>
    ensures { result ≡ quotient 10000 n count }
{
    if count == 0 {
        return None;
    }
    let parts = (10_000 * u128::from(n) + u128::from(count / 2)) / u128::from(count);
    Some(Fixed {
        whole: (parts / 10_000) as u64,
        parts: (parts % 10_000) as u16,
    })
}
