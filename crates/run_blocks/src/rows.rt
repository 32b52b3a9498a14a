//! The rows of a trace: a task of a graph, a sporadic task, firm jobs, and soft work.

ghost use Rattle.std.specs.Prelude.{◌≡◌, ◌<◌, ◌≤◌, ◌==◌, ℕ, List, [], ◌∷◌, ◌++◌, true, Err, IfOk, OnOk, length, position};
ghost use Rattle.std.specs.List.{list_any};
ghost use Rattle.trace_lines.specs.Traces.{run_at, runs_of};
ghost use Rattle.trace_lines.specs.declared.line.KeyName.{KeyName};
ghost use Rattle.run_blocks.specs.declared.TheConstants.{ROW_LIMIT};
ghost use Rattle.run_blocks.specs.declared.faults.RowsFault.TheVariants.{TooMany};
ghost use Rattle.run_blocks.specs.Rows.{are_run, AreCrowded, AreDistinct, AreRowsSoFar, AreTooMany, firms_from, has_row, have_few_firms, have_rows, IsOneRowMore, may_all_stand, row_at, row_holds, row_of, with_firm, with_key};

use crate::faults::RowsFault;
use crate::{FIRM_ROW_LIMIT, ROW_LIMIT};
use slot_core::{Memory, Name};
use std::alloc::Global;
use trace_lines::{KeyName, TraceLine, Words};

/// What a row holds.
#[derive(Drop)]
pub enum Row {
    /// The jobs of a task, by the names of its graph and the task.
    Task(Name, Name),
    /// The jobs of a sporadic task.
    Sporadic(Name),
    /// The firm job of this row of the arrivals.
    FirmJob(u32),
    /// All firm jobs.
    Firm,
    /// All soft jobs.
    Soft,
}

impl Row {
    /// Whether the row holds the job of this key.
    pub fn holds(&self, key: &KeyName) -> bool
        ensures { result ≡ row_holds self.now key.now }
    {
        match (self, key) {
            (Row::Task(graph, task), KeyName::Offline(g, t, _)) => {
                graph.bytes() == g.bytes() && task.bytes() == t.bytes()
            }
            (Row::Sporadic(name), KeyName::Sporadic(n, _)) => name.bytes() == n.bytes(),
            (Row::FirmJob(row), KeyName::Firm(r)) => *row == *r,
            (Row::Firm, KeyName::Firm(_)) => true,
            (Row::Soft, KeyName::Soft(_)) => true,
            _ => false,
        }
    }

    /// The place of its kind: tasks of graphs, sporadic tasks, firm jobs, soft jobs.
    fn kind(&self) -> u8 {
        match self {
            Row::Task(_, _) => 0,
            Row::Sporadic(_) => 1,
            Row::FirmJob(_) | Row::Firm => 2,
            Row::Soft => 3,
        }
    }

    /// Whether both rows are of tasks of one graph.
    fn has_graph_of(&self, other: &Row) -> bool {
        match (self, other) {
            (Row::Task(graph, _), Row::Task(g, _)) => graph.bytes() == g.bytes(),
            _ => false,
        }
    }
}

/// The rows of the jobs that run in the lines: tasks in the order of their first runs and grouped
/// by graph, then sporadic tasks, firm jobs (a row each where there are at most `FIRM_ROW_LIMIT`,
/// else one), and soft jobs. There are at most `ROW_LIMIT`.
pub fn rows_of(alloc: Global, lines: &[TraceLine]) -> Result<Vec<Row>, RowsFault>
    ensures held { IfOk result (λ rows. have_rows rows.items (runs_of lines.now) ≡ true) }
    ensures run { IfOk result (λ rows. are_run rows.items (runs_of lines.now) ≡ true) }
    ensures distinct { IfOk result (λ rows. AreDistinct rows.items) }

    // A firm job has a row of its own where few run, and else none has.
    ensures firm_rows { IfOk result
        (λ rows. may_all_stand (have_few_firms (runs_of lines.now)) rows.items ≡ true) }
    ensures few { IfOk result (λ rows. length rows.items ≤ ROW_LIMIT) }
    ensures too_many { result ≡ Err TooMany → AreCrowded lines.now }
{
    let apart = has_few_firm_jobs(alloc, lines)?;
    let mut rows = Vec::new(alloc);
    push_rows(&mut rows, lines, apart)?;
    Ok(rows)
}

/// Sees that each job that runs in the lines has a row.
fn push_rows(rows: &mut Vec<Row>, lines: &[TraceLine], apart: bool) -> Result<(), RowsFault>
    requires { rows.old.items ≡ [] }
    ensures rows { OnOk result (AreRowsSoFar apart rows.new.items (runs_of lines.now)) }
    ensures few { OnOk result (length rows.new.items ≤ ROW_LIMIT) }
    ensures too_many { result ≡ Err TooMany → AreTooMany apart lines.now }
{
    for line in lines {
        push_row_of(rows, line, apart)?;
        if rows.len() > ROW_LIMIT {
            return Err(RowsFault::TooMany);
        }
    }
    Ok(())
}

/// Sees that the job that the line runs, if it runs one, has a row.
fn push_row_of(rows: &mut Vec<Row>, line: &TraceLine, apart: bool) -> Result<(), Memory>
    ensures { OnOk result ((runs : List (ℕ × KeyName)) → AreRowsSoFar apart rows.old.items runs
        → AreRowsSoFar apart rows.new.items (runs ++ run_at line.now.time line.now.words)) }
{
    match &line.words {
        Words::Run(key) => push_row(rows, key, apart),
        _ => Ok(()),
    }
}

/// The place of the row that holds the job of this key, or the number of rows where none does.
pub fn row_at(rows: &[Row], key: &KeyName) -> usize
    ensures place { result ≡ row_at rows.now key.now }
    ensures there { has_row rows.now key.now ≡ true → result < length rows.now }
{
    match place_in(rows, key) {
        Some(place) => place,
        None => rows.len(),
    }
}

/// The place of the first row that holds the job of this key.
fn place_in(rows: &[Row], key: &KeyName) -> Option<usize>
    ensures { result ≡ position (λ row. row_holds row key.now) rows.now }
{
    rows.iter().position(|row| row.holds(key))
}

/// Sees that a row holds the job of this key.
fn push_row(rows: &mut Vec<Row>, key: &KeyName, apart: bool) -> Result<(), Memory>
    ensures { OnOk result (IsOneRowMore apart key.now rows.old.items rows.new.items) }
{
    if has_row(rows, key) {
        return Ok(());
    }
    let row = row_of(key, apart);
    let place = place_for(rows, &row);
    rows.insert(place, row)?;
    Ok(())
}

/// Whether a row holds the job of this key.
fn has_row(rows: &[Row], key: &KeyName) -> bool
    ensures { result ≡ has_row rows.now key.now }
{
    rows.iter().any(|row| row.holds(key))
}

/// The row of a key. Firm jobs have rows of their own or one for all.
fn row_of(key: &KeyName, apart: bool) -> Row
    ensures { result ≡ row_of apart key.now }
{
    match key {
        KeyName::Offline(graph, task, _) => Row::Task(copy_of(graph), copy_of(task)),
        KeyName::Sporadic(name, _) => Row::Sporadic(copy_of(name)),
        KeyName::Firm(row) if apart => Row::FirmJob(*row),
        KeyName::Firm(_) => Row::Firm,
        KeyName::Soft(_) => Row::Soft,
    }
}

/// A second name of the same bytes.
fn copy_of(name: &Name) -> Name
    ensures { result ≡ name.now }
{
    match Name::of(name.bytes()) {
        Some(copy) => copy,
        None => unreachable!(),
    }
}

/// Where a new row stands: behind the rows of its graph, else behind those of its kind and of the
/// kinds before it.
fn place_for(rows: &[Row], row: &Row) -> usize
    ensures { result ≤ length rows.now }
{
    let same = rows.iter().rposition(|other| other.has_graph_of(row));
    let kind = row.kind();
    match same {
        Some(last) => last + 1,
        None => {
            let later = rows.iter().position(|other| other.kind() > kind);
            later.unwrap_or(rows.len())
        }
    }
}

/// Whether at most `FIRM_ROW_LIMIT` firm jobs run in the lines.
fn has_few_firm_jobs(alloc: Global, lines: &[TraceLine]) -> Result<bool, Memory>
    ensures { IfOk result (λ few. few ≡ have_few_firms (runs_of lines.now)) }
{
    let mut firms = Vec::new(alloc);
    for line in lines {
        push_firm_of(&mut firms, line)?;
        if firms.len() > FIRM_ROW_LIMIT {
            return Ok(false);
        }
    }
    Ok(true)
}

/// Sees that the firm job that the line runs, if it runs one, is among these.
fn push_firm_of(firms: &mut Vec<u32>, line: &TraceLine) -> Result<(), Memory>
    ensures { OnOk result (firms.new.items
        ≡ firms_from firms.old.items (run_at line.now.time line.now.words)) }
{
    match &line.words {
        Words::Run(key) => push_firm(firms, key),
        _ => Ok(()),
    }
}

/// Sees that the job of the key, if it is firm, is among these.
fn push_firm(firms: &mut Vec<u32>, key: &KeyName) -> Result<(), Memory>
    ensures { OnOk result (firms.new.items ≡ with_key firms.old.items key.now) }
{
    match key {
        KeyName::Firm(row) => push_once(firms, *row),
        _ => Ok(()),
    }
}

/// Appends the row of a firm job that is not among these.
fn push_once(firms: &mut Vec<u32>, row: u32) -> Result<(), Memory>
    ensures { OnOk result (firms.new.items ≡ with_firm firms.old.items row) }
{
    if has_firm(firms, row) {
        return Ok(());
    }
    firms.push(row)?;
    Ok(())
}

/// Whether the row of a firm job is among these.
fn has_firm(firms: &[u32], row: u32) -> bool
    ensures { result ≡ list_any (λ firm. firm == row) firms.now }
{
    firms.iter().any(|firm| *firm == row)
}
