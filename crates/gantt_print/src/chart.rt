//! Charts.

ghost use Rattle.std.specs.Prelude.{◌≡◌, ℕ, ◌≤◌, ◌++◌, ◌∷◌, [], true, List, length, map, flat_map, All, IfOk, OnOk, OnErr};
ghost use Rattle.std.specs.List.{list_all, enumerate_from};
ghost use Rattle.std.specs.Io.KnownBytes.{Appends};
ghost use Rattle.slot_core.specs.declared.TheConstants.{CHART_LIMIT, GRAPH_LIMIT, SPORADIC_LIMIT, TASK_LIMIT};
ghost use Rattle.slot_core.specs.declared.tasks.Graph.{Graph};
ghost use Rattle.slot_core.specs.declared.tasks.Sporadic.{Sporadic};
ghost use Rattle.slot_core.specs.declared.jobs.Key.{Key};
ghost use Rattle.slot_core.specs.Output.Charts.{chart_of, graph_rows, sporadic_row};
ghost use Rattle.slot_core.specs.Calls.Counts.{Rose};
ghost use Rattle.slot_core.specs.Sets.Ranges.{is_sound};
ghost use Rattle.slot_io.specs.Sinks.{AppendsPart};
ghost use Rattle.gantt_print.specs.declared.labels.TheConstants.{LABEL_LIMIT};
ghost use Rattle.gantt_print.specs.Drawings.{IsChartOf, MarkedRow, drawing_text, drawing_with, empty_chart, head_line, row_line, rows_text, unmarked, with_runs};
ghost use Rattle.gantt_print.specs.Rows.{is_row_of};

use crate::labels::{label_width, push_label};
use crate::rows::{Row, Track};
use slot_core::{Entry, Failed, Graph, Key, Memory, Sporadic, Taker, TaskSet, What};
use slot_io::Sink;
use std::alloc::Global;
use std::marker::Model;
use trace_text::Line;

/// The chart of a task set over a number of slots: a row for each task of each graph and for each
/// sporadic task in the order of the file, one for firm jobs and one for soft jobs.
///
/// It is a taker that never fails, and that takes no memory: it marks the slot of each run in the
/// row of its job.
#[derive(Drop)]
pub struct Chart {
    slots: u32,
    tracks: Vec<Track>,
}

impl Model for Chart {
    ghost use Rattle.std.specs.Prelude.{◌≡◌, ◌≤◌, length, All};
    ghost use Rattle.slot_core.specs.declared.TheConstants.{CHART_LIMIT};
    ghost use Rattle.gantt_print.specs.Drawings.{Drawing, HasMarks};

    ghost Value = { Drawing };

    ghost view = { λ c. record { slots = c.slots; rows = c.tracks.items } };

    ghost invariant = { λ c. (c.slots ≤ CHART_LIMIT) × HasMarks c.slots c.tracks.items };
}

impl Chart {
    /// The chart of the set over 1 to `CHART_LIMIT` slots, with no run. No other call takes memory.
    pub fn with_room(alloc: Global, tasks: &TaskSet, slots: u32) -> Result<Chart, Memory>
        requires sound { is_sound tasks.now ≡ true }
        requires some { 1 ≤ slots }
        requires few { slots ≤ CHART_LIMIT }
        ensures { IfOk result (λ chart. chart ≡ empty_chart tasks.now slots) }
    {
        let mut tracks = Vec::new(alloc);
        push_graphs(alloc, &mut tracks, tasks.graphs.items(), slots)?;
        push_sporadics(alloc, &mut tracks, tasks.sporadics.items(), slots)?;
        tracks.push(Track::new(alloc, Row::Firm, slots)?)?;
        tracks.push(Track::new(alloc, Row::Soft, slots)?)?;
        Ok(Chart { slots, tracks })
    }

    /// Writes the first line and a line for each row, labelled by a set that has the rows of the
    /// chart, as the set that it was made for has. After an error a part of that text is written,
    /// from its front, and the sink has counted a fault.
    ///
    /// It is done by one put a line, up to the first that fails.
    pub fn print<K: Sink>(&self, tasks: &TaskSet, out: &mut K) -> Result<(), Failed>
        requires { IsChartOf tasks.now self.now }
        ensures text { OnOk result
            (Appends (K.written out.old) (K.written out.new) (drawing_text tasks.now self.now)) }
        ensures part { OnErr result (AppendsPart
            (K.written out.old)
            (K.written out.new)
            (drawing_text tasks.now self.now)) }
        ensures counted { K.faults out.old ≤ K.faults out.new }
        ensures failed { OnErr result (Rose (K.faults out.old) (K.faults out.new)) }

        // Of a chart that was made for the set and took these runs, that is the chart of the runs.
        ensures runs { (n : ℕ) (runs : List (ℕ × Key))
            → self.now ≡ drawing_with runs (empty_chart tasks.now n)
            → drawing_text tasks.now self.now ≡ chart_of tasks.now n runs }
    {
        put_chart(self.slots, self.tracks.as_slice(), tasks, out)
    }

    /// Marks the slot, where it is one of the chart's, in each row that the key is in.
    fn mark(&mut self, slot: u64, key: Key)
        ensures { self.new ≡ drawing_with ((slot, key) ∷ []) self.old }
    {
        mark_all(self.tracks.as_mut_slice(), slot, key);
    }
}

impl Taker for Chart {
    ghost use Rattle.std.specs.Prelude.{◌≡◌};
    ghost use Rattle.slot_core.specs.Output.Charts.{runs_of};
    ghost use Rattle.gantt_print.specs.Drawings.{drawing_with};
    ghost use Rattle.gantt_print.specs.DrawingLaws.{drawing_with-more, drawing_with-none};

    ghost faults = { λ _. 0 };

    // The rows and the slots stay, and each run in the slots has its mark.
    ghost took = { λ set a b entries. b ≡ drawing_with (runs_of entries) a };

    ghost broke = { λ set a b entries. ⊥ };

    fn take(&mut self, entry: &Entry, _tasks: &TaskSet) -> Result<(), Failed> {
        if let What::Run(key) = entry.what {
            self.mark(entry.time, key);
        }
        Ok(())
    }

    ghost broke_some = { λ set a b broken. broken };

    ghost took_none = { λ set a. drawing_with-none a };

    ghost took_more = { λ set a b c es fs first then_. drawing_with-more a b c es fs first then_ };

    ghost broke_later = { λ set a b c es fs first broken. broken };
}

/// Marks the slot in each of the rows that the key is in.
fn mark_all(tracks: &mut [Track], slot: u64, key: Key)
    ensures { tracks.new ≡ map (with_runs ((slot, key) ∷ [])) tracks.old }
{
    for track in tracks.iter_mut() {
        track.mark(slot, key);
    }
}

/// Appends the rows of the tasks of these graphs.
fn push_graphs(
    alloc: Global,
    tracks: &mut Vec<Track>,
    graphs: &[Graph],
    slots: u32,
) -> Result<(), Memory>
    requires few { length graphs.now ≤ GRAPH_LIMIT }
    requires tasks { All (λ (g : Graph). length g.tasks ≤ TASK_LIMIT) graphs.now }
    ensures { OnOk result (tracks.new.items ≡ tracks.old.items
        ++ map (unmarked slots) (flat_map graph_rows (enumerate_from 0 graphs.now))) }
{
    for (index, graph) in graphs.iter().enumerate() {
        push_tasks(alloc, tracks, index as u16, graph, slots)?;
    }
    Ok(())
}

/// Appends the rows of the tasks of the graph of this index.
fn push_tasks(
    alloc: Global,
    tracks: &mut Vec<Track>,
    index: u16,
    graph: &Graph,
    slots: u32,
) -> Result<(), Memory>
    requires { length graph.now.tasks ≤ TASK_LIMIT }
    ensures { OnOk result (tracks.new.items ≡ tracks.old.items
        ++ map (unmarked slots) (graph_rows (index, graph.now))) }
{
    for task in 0..graph.tasks.len() {
        tracks.push(Track::new(alloc, Row::Task(index, task as u16), slots)?)?;
    }
    Ok(())
}

/// Appends the rows of these sporadic tasks.
fn push_sporadics(
    alloc: Global,
    tracks: &mut Vec<Track>,
    sporadics: &[Sporadic],
    slots: u32,
) -> Result<(), Memory>
    requires { length sporadics.now ≤ SPORADIC_LIMIT }
    ensures { OnOk result (tracks.new.items ≡ tracks.old.items ++ map (unmarked slots)
        (map (λ (s : ℕ × Sporadic). sporadic_row s.0) (enumerate_from 0 sporadics.now))) }
{
    for index in 0..sporadics.len() {
        tracks.push(Track::new(alloc, Row::Sporadic(index as u8), slots)?)?;
    }
    Ok(())
}

/// Writes the lines of a chart over this many slots, with these rows.
fn put_chart<K: Sink>(
    slots: u32,
    tracks: &[Track],
    tasks: &TaskSet,
    out: &mut K,
) -> Result<(), Failed>
    requires named { list_all (λ (r : MarkedRow). is_row_of tasks.now r.row) tracks.now ≡ true }
    requires short { All (λ (r : MarkedRow). length r.marks ≤ CHART_LIMIT) tracks.now }
    ensures text { OnOk result (Appends (K.written out.old) (K.written out.new)
        (head_line slots ++ rows_text tasks.now tracks.now)) }
    ensures part { OnErr result (AppendsPart (K.written out.old) (K.written out.new)
        (head_line slots ++ rows_text tasks.now tracks.now)) }
    ensures counted { K.faults out.old ≤ K.faults out.new }
    ensures failed { OnErr result (Rose (K.faults out.old) (K.faults out.new)) }
{
    let width = label_width(tracks, tasks);
    put_head(slots, out)?;
    put_rows(tracks, width, tasks, out)
}

/// Writes the first line of a chart over this many slots.
fn put_head<K: Sink>(slots: u32, out: &mut K) -> Result<(), Failed>
    ensures ok { OnOk result
        (Appends (K.written out.old) (K.written out.new) (head_line slots)) }
    ensures part { OnErr result
        (AppendsPart (K.written out.old) (K.written out.new) (head_line slots)) }
    ensures counted { K.faults out.old ≤ K.faults out.new }
    ensures failed { OnErr result (Rose (K.faults out.old) (K.faults out.new)) }
{
    let mut line = Line::new();
    line.push(b"gantt ");
    line.number(u64::from(slots));
    line.push(b"\n");
    out.put(line.bytes())
}

/// Writes the lines of these rows, with labels of this width.
fn put_rows<K: Sink>(
    tracks: &[Track],
    width: usize,
    tasks: &TaskSet,
    out: &mut K,
) -> Result<(), Failed>
    requires width { width ≤ LABEL_LIMIT }
    requires named { list_all (λ (r : MarkedRow). is_row_of tasks.now r.row) tracks.now ≡ true }
    requires short { All (λ (r : MarkedRow). length r.marks ≤ CHART_LIMIT) tracks.now }
    ensures ok { OnOk result (Appends (K.written out.old) (K.written out.new)
        (flat_map (row_line tasks.now width) tracks.now)) }
    ensures part { OnErr result (AppendsPart (K.written out.old) (K.written out.new)
        (flat_map (row_line tasks.now width) tracks.now)) }
    ensures counted { K.faults out.old ≤ K.faults out.new }
    ensures failed { OnErr result (Rose (K.faults out.old) (K.faults out.new)) }
{
    let mut line = Line::new();
    for track in tracks {
        line.clear();
        push_row(&mut line, track, width, tasks);
        out.put(line.bytes())?;
    }
    Ok(())
}

/// Writes the line of the row into an empty line, with a label of this width.
fn push_row(line: &mut Line, track: &Track, width: usize, tasks: &TaskSet)
    requires empty { line.old ≡ [] }
    requires width { width ≤ LABEL_LIMIT }
    requires named { is_row_of tasks.now track.now.row ≡ true }
    requires short { length track.now.marks ≤ CHART_LIMIT }
    ensures { line.new ≡ row_line tasks.now width track.now }
{
    push_label(line, track.row(), tasks);
    for _ in line.bytes().len()..width {
        line.push(b" ");
    }
    line.push(b" ");
    line.push(track.marks());
    line.push(b"\n");
}
