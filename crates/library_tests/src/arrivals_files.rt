//! Arrivals files for four slots of a pair of tasks beside an alarm: the arrivals of each, or its
//! first fault.

ghost use Rattle.std.specs.Prelude.{◌≡◌, true};
ghost use Rattle.slot_core.specs.Sets.Ranges.{is_sound};

use arrival_csv::{ArrivalFault, read_arrivals};
use sample_sets::alarm_set;
use slot_core::{ARRIVAL_LIMIT, Arrival, Event, Key, TaskSet};
use std::alloc::Global;
use std::fmt::Write;
use std::test::Fail;

/// Files and what they write: for each arrival its row, its slot and its event. In a file `\n` and
/// `\r` end lines, `\0` is the byte 0, `\m` a byte order mark, and `\f` a byte of no UTF-8.
const FILES: &str = r#" =>
\n\r\n\n =>
\m =>
0,soft,1 => 1 0 Soft(1);
0,soft,1\n => 1 0 Soft(1);
\m0,soft,1 => 1 0 Soft(1);
"0","soft","3" => 1 0 Soft(3);
0,soft,"1"2 => 1 0 Soft(12);
0,soft,65535\r\n3,soft,1\r\n => 1 0 Soft(65535); 2 3 Soft(1);
0,soft,1\r1,soft,2 => 1 0 Soft(1); 2 1 Soft(2);
\n0,soft,1\n\n\n0,soft,2\n\n => 1 0 Soft(1); 2 0 Soft(2);
0,done,g.a#0 => 1 0 Done(Offline(0, 0, 0));
3,done,g.b#4294967295 => 1 3 Done(Offline(0, 1, 4294967295));
0,done,firm:1\n1,done,soft:65535 => 1 0 Done(Firm(1)); 2 1 Done(Soft(65535));
4,soft,1 => past end 1 4
2,soft,1\n1,soft,1 => out of order 2 2 1
0,firm,1,2 => 1 0 Firm(1, 2);
1,firm,65535,0\n3,firm,1,65535 => 1 1 Firm(65535, 0); 2 3 Firm(1, 65535);
2,sporadic,alarm => 1 2 Sporadic(0);
0,done,alarm@1 => 1 0 Done(Sporadic(0, 1));
0,withdraw,1\n0,withdraw,65535 => 1 0 Withdraw(1); 2 0 Withdraw(65535);
0,sporadic,bell => unknown sporadic 1
0,sporadic,g => unknown sporadic 1
0,sporadic, => unknown sporadic 1
0,sporadic => bad row 1
0,sporadic,alarm,1 => bad row 1
0,firm,1 => bad row 1
0,firm,1,2,3 => bad row 1
0,firm,0,2 => bad number 1 3
0,firm,65536,2 => bad number 1 3
0,firm,x,x => bad number 1 3
0,firm,1,65536 => bad number 1 4
0,firm,1,02 => bad number 1 4
0,withdraw,0 => bad number 1 3
0,withdraw,65536 => bad number 1 3
0,withdraw,firm:1 => bad number 1 3
0,withdraw => bad row 1
0,hard,1 => unknown kind 1
0,Soft,1 => unknown kind 1
0, soft,1 => unknown kind 1
0,s\fft,1 => unknown kind 1
0,"so""ft",1 => unknown kind 1
0,, => unknown kind 1
0 => bad row 1
\f => bad row 1
" => bad row 1
"0,soft,1 => bad row 1
0,soft => bad row 1
0,soft,1, => bad row 1
0,done => bad row 1
0,done,g.a#0,1 => bad row 1
00,soft,1 => bad number 1 1
+0,soft,1 => bad number 1 1
 0,soft,1 => bad number 1 1
\0,soft,1 => bad number 1 1
, => bad number 1 1
4294967295,soft,1 => past end 1 4294967295
4294967296,soft,1 => bad number 1 1
9999999999,soft,1 => bad number 1 1
18446744073709551616,soft,1 => bad number 1 1
0,soft,1\n\m0,soft,1 => bad number 2 1
0,soft,0 => bad number 1 3
0,soft,01 => bad number 1 3
0,soft,1\0 => bad number 1 3
0,soft, => bad number 1 3
0,soft,65536 => bad number 1 3
0,done, => bad key 1
0,done,\f => bad key 1
0,done,g.x#0 => bad key 1
0,done,h.a#0 => bad key 1
0,done,g.a => bad key 1
0,done,g.a# => bad key 1
0,done,g.a#00 => bad key 1
0,done,g.a#0#0 => bad key 1
0,done,g.a.a#0 => bad key 1
0,done,g#0.a => bad key 1
0,done,.a#0 => bad key 1
0,done,g.#0 => bad key 1
0,done,g.a#4294967296 => bad key 1
0,done,alarm@0 => bad key 1
0,done,bell@1 => bad key 1
0,done,g@1 => bad key 1
0,done,firm:0 => bad key 1
0,done,firm:01 => bad key 1
0,done,firm: => bad key 1
0,done,soft:65536 => bad key 1
0,done,hard:1 => bad key 1
0,done,firm:soft:1 => bad key 1
x,hard => bad number 1 1
9,hard => unknown kind 1
9,soft => bad row 1
9,soft,0 => bad number 1 3
9,done,x => bad key 1
2,soft,1\n1,hard => unknown kind 2
2,soft,1\n1,soft,0 => bad number 2 3
0,soft,0\nx => bad number 1 3
0,soft,1\n0,soft,1\n5,soft,1\n1,soft,1 => past end 3 5
soft => bad row 1
"" => bad row 1
0,soft,1,1 => bad row 1
0,done,g.a#0,0 => bad row 1
,soft,1 => bad number 1 1
-1,soft,1 => bad number 1 1
+1,soft,1 => bad number 1 1
 1,soft,1 => bad number 1 1
1.0,soft,1 => bad number 1 1
one,soft,1 => bad number 1 1
99999999999,soft,1 => bad number 1 1
0,,1 => unknown kind 1
0,SOFT,1 => unknown kind 1
0,soft ,1 => unknown kind 1
0,soft,1  => bad number 1 3
0,done,g => bad key 1
0,done,g#0 => bad key 1
0,done,a.g#0 => bad key 1
0,done,G.a#0 => bad key 1
0,done,soft => bad key 1
x,hard,1 => bad number 1 1
x,soft => bad number 1 1
9,soft,0,0 => bad row 1
2,soft,1\n1,done,x => bad key 2
4,soft,1\n0 => past end 1 4
1,soft,1\n1,soft,1\n0,soft,1\n9,soft,1 => out of order 3 1 0
3,soft,65535\n3,done,firm:65535\n3,done,soft:1\n3,done,g.b#4294967295\n4,soft,1 => past end 5 4
"0","soft","0" => bad number 1 3
0,"soft => bad row 1
0,soft,1\r\n1,soft,0\r\n => bad number 2 3
0,soft,1\r1,soft,0 => bad number 2 3
\n\n0,soft,1\n\n\r\n\n1,soft,0 => bad number 2 3
\m0,soft,0 => bad number 1 3
\0 => bad row 1
0,soft\0,1 => unknown kind 1
\f,soft,1 => bad number 1 1
0,\f,1 => unknown kind 1"#;

/// The bytes of an escape.
fn escape_of(letter: u8) -> &'static [u8] {
    match letter {
        b'n' => b"\n",
        b'r' => b"\r",
        b'm' => b"\xef\xbb\xbf",
        b'f' => b"\xff",
        _ => b"\0",
    }
}

/// The bytes that the text writes, with its escapes.
fn bytes_of(alloc: Global, text: &str) -> Result<Vec<u8>, Fail> {
    let mut bytes = Vec::new(alloc);
    let mut is_escaped = false;
    for byte in text.as_bytes() {
        if is_escaped {
            bytes.extend_from_slice(escape_of(*byte))?;
        } else if *byte != b'\\' {
            bytes.push(*byte)?;
        }
        is_escaped = !is_escaped && *byte == b'\\';
    }
    Ok(bytes)
}

/// The row, the slot and the event of each arrival.
fn described(alloc: Global, arrivals: &[Arrival]) -> Result<String, Fail> {
    let mut text = String::new(alloc);
    for arrival in arrivals {
        write!(text, " {} {} ", arrival.row, arrival.slot)?;
        push_event(&mut text, arrival.event)?;
    }
    Ok(text)
}

/// Appends an event with its numbers.
fn push_event(text: &mut String, event: Event) -> Result<(), Fail> {
    match event {
        Event::Soft(c) => write!(text, "Soft({c});")?,
        Event::Firm(c, d) => write!(text, "Firm({c}, {d});")?,
        Event::Sporadic(index) => write!(text, "Sporadic({index});")?,
        Event::Done(key) => push_done(text, key)?,
        Event::Withdraw(firm) => write!(text, "Withdraw({firm});")?,
    }
    Ok(())
}

/// Appends the early end of a job.
fn push_done(text: &mut String, key: Key) -> Result<(), Fail> {
    match key {
        Key::Offline(g, t, i) => write!(text, "Done(Offline({g}, {t}, {i}));")?,
        Key::Sporadic(index, row) => write!(text, "Done(Sporadic({index}, {row}));")?,
        Key::Firm(row) => write!(text, "Done(Firm({row}));")?,
        Key::Soft(row) => write!(text, "Done(Soft({row}));")?,
    }
    Ok(())
}

/// What comes of the bytes, after a space.
fn told(alloc: Global, bytes: &[u8], tasks: &TaskSet) -> Result<String, Fail>
    requires { is_sound tasks.now ≡ true }
{
    match read_arrivals(alloc, bytes, 4, tasks) {
        Ok(arrivals) => described(alloc, arrivals.as_slice()),
        Err(fault) => Ok(format!(in alloc; " {fault}")?),
    }
}

#[test]
fn reads_files_and_tells_first_faults(rt: HostRuntime) -> Result<(), Fail> {
    let alloc = rt.alloc();
    let tasks = alarm_set(alloc)?;
    for file in FILES.lines() {
        let (text, want) = file.split_once(" =>").ok_or("no arrow")?;
        assert!(rt; is_told(alloc, text, &tasks, want)?, "of {text}");
    }
    Ok(())
}

/// Whether that comes of the file that the text writes.
fn is_told(alloc: Global, text: &str, tasks: &TaskSet, want: &str) -> Result<bool, Fail>
    requires { is_sound tasks.now ≡ true }
{
    let told = told_of(alloc, text, tasks)?;
    Ok(told.as_str() == want)
}

/// What comes of the file that the text writes.
fn told_of(alloc: Global, text: &str, tasks: &TaskSet) -> Result<String, Fail>
    requires { is_sound tasks.now ≡ true }
{
    let bytes = bytes_of(alloc, text)?;
    told(alloc, bytes.as_slice(), tasks)
}

/// So many rows, then the last one.
fn rows(alloc: Global, count: u32, last: &[u8]) -> Result<Vec<u8>, Fail> {
    let mut bytes = Vec::new(alloc);
    for _ in 0..count {
        bytes.extend_from_slice(b"0,soft,1\n")?;
    }
    bytes.extend_from_slice(last)?;
    Ok(bytes)
}

/// What comes of this many rows and the last one: the number of arrivals, or their fault.
fn counted(alloc: Global, rows_before: u32, last: &[u8], tasks: &TaskSet) -> Result<String, Fail>
    requires { is_sound tasks.now ≡ true }
{
    let bytes = rows(alloc, rows_before, last)?;
    match read_arrivals(alloc, bytes.as_slice(), 4, tasks) {
        Ok(arrivals) => Ok(format!(in alloc; "{}", arrivals.len())?),
        Err(fault) => Ok(format!(in alloc; "{fault}")?),
    }
}

#[test]
fn takes_rows_up_to_their_limit(rt: HostRuntime) -> Result<(), Fail> {
    let alloc = rt.alloc();
    let tasks = alarm_set(alloc)?;
    let most = ARRIVAL_LIMIT;
    let cases: [(u32, &[u8], &str); 4] = [
        (most, b"", "65535"),
        (most, b"0,soft,1\n", "too many"),
        (most, b"x", "too many"),
        (most - 1, b"x\nx", "bad row 65535"),
    ];
    for (index, (before, last, want)) in cases.iter().enumerate() {
        assert!(rt;
            counted(alloc, *before, last, &tasks)?.as_str() == *want,
            "case {index}"
        );
    }
    Ok(())
}

#[test]
fn tells_faults(rt: HostRuntime) -> Result<(), Fail> {
    let faults = [
        (ArrivalFault::Memory, "out of memory"),
        (ArrivalFault::BadRow(1), "bad row 1"),
        (ArrivalFault::UnknownKind(2), "unknown kind 2"),
        (ArrivalFault::BadNumber(3, 4), "bad number 3 4"),
        (ArrivalFault::OutOfOrder(4, 5, 6), "out of order 4 5 6"),
        (ArrivalFault::PastEnd(5, 100000), "past end 5 100000"),
        (ArrivalFault::UnknownSporadic(6), "unknown sporadic 6"),
        (ArrivalFault::BadKey(65535), "bad key 65535"),
        (ArrivalFault::TooMany, "too many"),
    ];
    for (number, (fault, words)) in (1..).zip(faults) {
        assert!(rt; is_told_as(rt.alloc(), fault, number, words)?);
    }
    Ok(())
}

/// Whether the fault has this number and these words.
fn is_told_as(alloc: Global, fault: ArrivalFault, number: u8, words: &str) -> Result<bool, Fail> {
    let text = format!(in alloc; "{fault}")?;
    Ok(fault.number() == number && text.as_str() == words)
}
