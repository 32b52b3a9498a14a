//! The statuses of the program.

ghost use Rattle.std.specs.Prelude.{◌≡◌};
ghost use Rattle.command_line.specs.Statuses.{exit_number};

/// How a run ended. The numbers are the program's exit statuses, from 0.
#[derive(Clone, Copy, PartialEq, Eq, Debug)]
pub enum Status {
    Done,
    Usage,
    FileFault,
    TooLarge,
    BadTasks,
    Infeasible,
    BadArrivals,
    WriteFault,
    Memory,
    BadTable,
    NotVerified,
    NoRow,
    SwitchRefused,
}

impl Status {
    /// The program's exit status.
    pub fn number(self) -> u8
        ensures { result ≡ exit_number self }
    {
        self as u8
    }
}
