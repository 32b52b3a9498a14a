//! The file in which arrivals are recorded.

ghost use Rattle.std.specs.Prelude.{◌≡◌, ◌≢◌, ◌↔◌, ◌≤◌, ℕ, List, [], Option, Some, None, false, true, IfErr, IfOk, IsErr, IsOk, IsTrue, OnErr, OnOk};
ghost use Rattle.std.specs.Fs.{file_type, IsFile};
ghost use Rattle.std.specs.Io.KnownBytes.{Appends};
ghost use Rattle.std.specs.IoError.{error_kind};
ghost use Rattle.slot_core.specs.Calls.Counts.{Rose};
ghost use Rattle.slot_io.specs.Sinks.{AppendsPart};
ghost use Rattle.live_run.specs.Calls.{record_names};
ghost use Rattle.live_run.specs.Records.{IsEmpty};

use crate::call::{LiveCall, plan_name, record_name};
use slot_core::{Failed, Memory, Words};
use slot_io::{HostSink, Sink};
use std::alloc::Global;
use std::fs::Metadata;
use std::io::{self, Error, ErrorKind};
use std::marker::Model;
use std::os::unix::fs::MetadataExt;
use std::{fs, rt};

/// The name of a record, and that of the file of the plan, which is to be another file.
#[derive(Drop)]
pub struct RecordNames {
    file: String,
    plan: String,
}

impl Model for RecordNames {
    ghost use Rattle.std.specs.Prelude.{ℕ, List, string_bytes};

    ghost Value = { List ℕ × List ℕ };

    ghost view = { λ names. (string_bytes names.file, string_bytes names.plan) };
}

impl RecordNames {
    /// The names that the words of a call give to the record and to the file of the plan.
    pub(crate) fn of(alloc: Global, words: &Words, call: LiveCall) -> Result<RecordNames, Memory>
        ensures { IfOk result (λ names. names ≡ record_names words.now call) }
    {
        let file = String::from_str(alloc, record_name(words))?;
        let plan = String::from_str(alloc, plan_name(words, call))?;
        Ok(RecordNames { file, plan })
    }

    /// The name of the record.
    pub fn file(&self) -> &str
        ensures { result.now ≡ self.now.0 }
    {
        self.file.as_str()
    }

    /// The name of the file of the plan.
    pub fn plan(&self) -> &str
        ensures { result.now ≡ self.now.1 }
    {
        self.plan.as_str()
    }
}

/// A file of rows. Where it was not made it is none, and takes rows without keeping them.
pub trait RecordFile {
    /// The bytes written so far, where they are told.
    ghost written: { Self → Option (List ℕ) };

    /// How many calls failed, up to the last value of a `u64`.
    ghost faults: { Self → ℕ };

    /// The names that it was made with, its own and that of the file of the plan; none before.
    ghost made: { Self → Option (List ℕ × List ℕ) };

    /// Makes the file, empty; what is put from then on is put into it. Where it fails, nothing is
    /// written. It is to fail where that may be the file of the plan under another name: no clause
    /// says so.
    fn make(&mut self, names: RecordNames) -> Result<(), Failed>
        ensures made { OnOk result (made self.new ≡ Some names) }
        ensures empty { OnOk result (IsEmpty (written self.new)) }
        ensures kept { OnOk result (faults self.new ≡ faults self.old) }
        ensures unmade { OnErr result (made self.new ≡ made self.old) }
        ensures stays { OnErr result (written self.new ≡ written self.old) }
        ensures counted { faults self.old ≤ faults self.new }
        ensures failed { OnErr result (Rose (faults self.old) (faults self.new)) };

    /// Writes the bytes. After Failed a part of them from the front is written. It is the file of
    /// the same name as before. A put of no bytes answers Ok and changes nothing.
    fn put(&mut self, bytes: &[u8]) -> Result<(), Failed>
        ensures ok { OnOk result (Appends (written self.old) (written self.new) bytes.now) }
        ensures part { OnErr result (AppendsPart (written self.old) (written self.new) bytes.now) }
        ensures same { made self.new ≡ made self.old }
        ensures counted { faults self.old ≤ faults self.new }
        ensures failed { OnErr result (Rose (faults self.old) (faults self.new)) }
        ensures empty { bytes.now ≡ [] → IsOk result }
        ensures unchanged { bytes.now ≡ [] → self.new ≡ self.old };
}

/// A file of a runtime, once it is made.
#[derive(Drop)]
pub struct HostRecord<R: rt::Files> {
    rt: R,
    file: Option<HostSink<R::File>>,
    names: Option<RecordNames>,
    faults: u64,
}

impl<R: rt::Files> HostRecord<R> {
    /// No file of this runtime yet.
    pub fn new(rt: R) -> HostRecord<R>
        ensures unmade { result.names ≡ None }
        ensures faults { result.faults ≡ 0 }
    {
        HostRecord {
            rt,
            file: None,
            names: None,
            faults: 0,
        }
    }
}

impl<R: rt::Files> RecordFile for HostRecord<R> {
    ghost written = { λ _. None };

    ghost faults = { λ r. r.faults };

    ghost made = { λ r. r.names };

    fn make(&mut self, names: RecordNames) -> Result<(), Failed> {
        match create_apart(&self.rt, &names) {
            Ok(file) => {
                self.file = Some(HostSink::new(file));
                self.names = Some(names);
                Ok(())
            }
            Err(_) => {
                self.faults = self.faults.saturating_add(1);
                Err(Failed)
            }
        }
    }

    fn put(&mut self, bytes: &[u8]) -> Result<(), Failed> {
        if bytes.is_empty() {
            return Ok(());
        }
        match put_if_made(&mut self.file, bytes) {
            Ok(()) => Ok(()),
            Err(Failed) => {
                self.faults = self.faults.saturating_add(1);
                Err(Failed)
            }
        }
    }
}

/// Makes the file of the record, empty, where it is known to be another than that of the plan.
fn create_apart<R: rt::Files>(rt: &R, names: &RecordNames) -> io::Result<R::File> {
    if !are_apart(
        fs::metadata(rt, names.file()),
        fs::metadata(rt, names.plan()),
    ) {
        return Err(Error::from(ErrorKind::AlreadyExists));
    }
    fs::create(rt, names.file())
}

/// Whether the record is known to be another file than that of the plan: there is none yet, or it
/// has no bytes of its own, as a device or a pipe, or both are told and differ.
fn are_apart(file: io::Result<Metadata>, plan: io::Result<Metadata>) -> bool
    ensures missing { IfErr file
        (λ error. IsTrue result ↔ (error_kind error ≡ ErrorKind.NotFound)) }
    ensures unknown { IfOk file (λ one. IsFile (file_type one) → IsErr plan → result ≡ false) }
    ensures no_bytes { IfOk file (λ one. ¬ (IsFile (file_type one)) → result ≡ true) }
{
    match (file, plan) {
        (Ok(one), Ok(other)) => {
            has_no_bytes(&one) || differ((one.dev(), one.ino()), (other.dev(), other.ino()))
        }
        (Ok(one), Err(_)) => has_no_bytes(&one),
        (Err(error), _) => error.kind() == ErrorKind::NotFound,
    }
}

/// Whether it has no bytes of its own: it is no regular file.
fn has_no_bytes(file: &Metadata) -> bool
    ensures { IsTrue result ↔ ¬ (IsFile (file_type file.now)) }
{
    !file.is_file()
}

/// Whether these are the numbers of two files: of the device, and of the file on it.
fn differ(one: (u64, u64), other: (u64, u64)) -> bool
    ensures { IsTrue result ↔ (one ≢ other) }
{
    one != other
}

/// Puts the bytes where there is a sink.
fn put_if_made<K: Sink>(sink: &mut Option<K>, bytes: &[u8]) -> Result<(), Failed> {
    match sink {
        Some(sink) => sink.put(bytes),
        None => Ok(()),
    }
}
