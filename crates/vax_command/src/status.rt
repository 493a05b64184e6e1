//! The answers of the program.
ghost use Rattle.std.specs.Prelude.{◌≡◌};

use crate::name::Name;
use vax_space::Bytes;

/// What of a program keeps it from being built.
#[derive(Clone, Copy, PartialEq, Eq)]
pub enum Part {
    /// A source has faults.
    Source,
    /// The linker found something.
    Link,
    /// The file of an image or an executable has a fault.
    Image,
}

/// The answer of the program.
#[derive(Drop)]
pub enum Status {
    /// The command was carried out.
    Done,
    /// The words aren't plain words of the table of commands.
    Usage,
    /// There is no file of this name.
    Missing(Name),
    /// The file of this name has more than 4,194,304 bytes, or one that may be longer more than 67,108,864.
    Large(Name),
    /// The first fault of a source: its file, counted from 1, its line and its kind.
    Refused { file: u8, line: u32, kind: u8 },
    /// The first fault of a source, which is in one of the files that are read before it: that file, counted from 1, its line and its kind.
    Macros { file: usize, line: u32, kind: u8 },
    /// What the linker found: kinds 1 and 2 with a name, kind 5 with the address of a field.
    Link { kind: u8, name: Bytes, place: u32 },
    /// The first fault of a schedule.
    Schedule { line: u32, kind: u8 },
    /// The first fault of an image's file: the offset of its field, and its kind.
    Image { place: u32, kind: u8 },
    /// The limit of turns was reached.
    Turns,
    /// A call of the page file failed.
    PageFault,
    /// A read of a file failed.
    ReadFault,
    /// A write to a channel failed.
    WriteFault,
    /// Memory was refused before the run.
    NoMemory,
    /// The first fault of a saved state's file: the offset of its field, and its kind.
    Saved { place: u32, kind: u8 },
    /// The first fault of the order in which several programs go.
    Order { line: u32, kind: u8 },
    /// What keeps a program from being built was told on Out.
    Told(Part),
    /// The run came to its end or its limit of steps otherwise than by HALT, and `--strict on` asks for that.
    NotHalted,
    /// The program halted with neither 0 nor 1 in R0, and `--strict on` asks for that.
    Unsuccessful,
    /// Memory was refused behind some of the vectors that were asked for.
    Unfinished,
    /// A line of a session couldn't be read.
    LineFault,
}

impl Status {
    ghost use Rattle.vax_command.specs.Status.{code};

    /// The exit status of the process.
    pub fn code(&self) -> u8
        ensures { result ≡ code self.now }
    {
        match self {
            Status::Done => 0,
            Status::Usage => 1,
            Status::Missing(_) => 2,
            Status::Large(_) => 3,
            Status::Refused { .. } => 4,
            Status::Macros { .. } => 4,
            Status::Link { .. } => 5,
            Status::Schedule { .. } => 6,
            Status::Image { .. } => 7,
            Status::Turns => 8,
            Status::PageFault => 9,
            Status::ReadFault => 10,
            Status::WriteFault => 11,
            Status::NoMemory => 12,
            Status::Order { .. } => 13,
            Status::Saved { .. } => 14,
            Status::Told(Part::Source) => 4,
            Status::Told(Part::Link) => 5,
            Status::Told(Part::Image) => 7,
            Status::NotHalted => 15,
            Status::Unsuccessful => 16,
            Status::Unfinished => 17,
            Status::LineFault => 18,
        }
    }
}
