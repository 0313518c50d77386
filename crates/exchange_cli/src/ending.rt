//! How a run ends.

ghost use Rattle.std.specs.Prelude.{◌≡◌};
ghost use Rattle.exchange_cli.specs.VerdictTexts.{status_judged as judged};
ghost use Rattle.exchange_cli.specs.declared.ending.Ending.TheVariants.{Memory as OutOfMemory};

use decl_text::MappingFault;
use failure_trace::TraceFault;
use temporal_csv::TableFault;
use term_core::{Memory, Text};
use trace_checker::Verdict;

/// What a command found, where all was done.
#[derive(Clone, Copy)]
pub enum Finding {
    /// The mapping has a solution for the source at every instant. The source came in so many pieces, so many firings came of
    /// them, and so many steps made values equal, with so many cuts.
    Solved {
        pieces: usize,
        firings: usize,
        steps: usize,
        cuts: usize,
    },
    /// This instant has no solution.
    NoSolution {
        instant: i64,
    },
    /// The source has so many distinct facts, which were cut into so many pieces.
    Normalised {
        facts: usize,
        pieces: usize,
    },
    /// The mapping has a solution for the source at every instant, and the target has so many rows at this one.
    Shown {
        instant: i64,
        rows: usize,
    },
    /// The trace has this verdict.
    Checked(Verdict),
}

/// How a run ends. Each refusal and each fault names what it is about.
#[derive(Drop)]
pub enum Ending {
    /// The files are stored, and the line of what was found is printed.
    Done(Finding),
    /// The words are no command's.
    Words,
    /// There is no such file.
    Missing(Text),
    /// The file is longer than its limit.
    TooLong(Text),
    /// The mapping has this fault first.
    Mapping(MappingFault),
    /// The table has this fault first.
    Table(Text, TableFault),
    /// The trace has this fault first.
    Trace(TraceFault),
    /// The shelf failed to fetch the file.
    Read(Text),
    /// The shelf failed to store the file.
    Write(Text),
    /// The output could not be written.
    Output,
    /// There was no memory.
    Memory,
}

impl From<Memory> for Ending {
    ghost from_gives = { λ _ e. e ≡ OutOfMemory };

    fn from(_memory: Memory) -> Ending {
        Ending::Memory
    }
}

impl Finding {
    ghost use Rattle.exchange_cli.specs.Endings.{status_found};

    /// The status of a run that found this.
    pub fn status(self) -> u8
        ensures { result ≡ status_found self }
    {
        match self {
            Finding::Solved {
                pieces: _,
                firings: _,
                steps: _,
                cuts: _,
            } => 0,
            Finding::NoSolution { instant: _ } => 2,
            Finding::Normalised {
                facts: _,
                pieces: _,
            } => 0,
            Finding::Shown {
                instant: _,
                rows: _,
            } => 0,
            Finding::Checked(verdict) => status_judged(verdict),
        }
    }
}

// The status of a check, by its verdict.
fn status_judged(verdict: Verdict) -> u8
    ensures { result ≡ judged verdict }
{
    match verdict {
        Verdict::Accepted => 0,
        Verdict::Refused { step: _, why: _ } => 6,
    }
}

impl Ending {
    ghost use Rattle.exchange_cli.specs.Endings.{status_of};

    /// The status with which the program ends.
    pub fn status(&self) -> u8
        ensures { result ≡ status_of self.now }
    {
        match self {
            Ending::Done(finding) => finding.status(),
            Ending::Missing(_) | Ending::TooLong(_) => 1,
            Ending::Mapping(_) | Ending::Table(_, _) | Ending::Trace(_) => 1,
            Ending::Read(_) | Ending::Write(_) | Ending::Output => 3,
            Ending::Memory => 4,
            Ending::Words => 5,
        }
    }
}
