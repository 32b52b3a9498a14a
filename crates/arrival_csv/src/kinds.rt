//! The kinds of rows of an arrivals file.

ghost use Rattle.std.specs.Prelude.{◌≡◌};
ghost use Rattle.arrival_csv.specs.Kinds.{kind_of};

/// What a row writes.
#[derive(Clone, Copy)]
pub enum Kind {
    /// Soft work: its slots.
    Soft,
    /// A firm task: its slots, and within how many slots from now.
    Firm,
    /// A job of a sporadic task: the task's name.
    Sporadic,
    /// The early end of a job: its key.
    Done,
    /// The withdrawal of a firm job: the row of its arrival.
    Withdraw,
}

impl Kind {
    /// The kind that the word names.
    pub fn of(word: &[u8]) -> Option<Kind>
        ensures { result ≡ kind_of word.now }
    {
        match word {
            b"soft" => Some(Kind::Soft),
            b"firm" => Some(Kind::Firm),
            b"sporadic" => Some(Kind::Sporadic),
            b"done" => Some(Kind::Done),
            b"withdraw" => Some(Kind::Withdraw),
            _ => None,
        }
    }
}
