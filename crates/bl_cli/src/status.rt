// How a run ends.
ghost use Rattle.std.specs.Prelude.{◌≡◌};
ghost use Rattle.bl_outside.specs.Counts.{HasCause};
ghost use Rattle.bl_outside.specs.Streams.{Puts};
ghost use Rattle.bl_cli.specs.Statuses.{code_of, line_of, place_behind, plain_line};

use bl_outside::{Failed, Sink};
use itoa::Buffer;

/// How a run ended. Contracts say when each comes.
#[derive(Clone, Copy, Debug, PartialEq, Eq)]
pub enum Status {
    /// What was asked for was done, and all was written. A load has completed.
    Ok,
    /// The job of the load ended otherwise than completed.
    JobNotCompleted,
    /// The words are outside the grammar.
    Usage,
    /// The input failed.
    ReadFault,
    /// A sink failed.
    WriteFault,
    /// A disk of the store failed.
    StoreFault,
    /// The store's journal is none, or has an entry that may not follow, at this place.
    BadStore(u64),
    /// Memory ran out.
    NoMemory,
    /// 1 TiB was taken of the input.
    InputTooLong,
    /// The input ended inside a request.
    TornInput,
    /// An entry has no room in the store's journal.
    JournalFull,
    /// The last number of a load was given.
    NumbersUsedUp,
    /// No load that is kept has the id.
    UnknownLoad,
    /// The page has no record.
    NoRecords,
}

impl Status {
    /// The exit status of the program.
    pub fn code(self) -> u8
        ensures { result ≡ code_of self }
    {
        match self {
            Status::Ok => 0,
            Status::JobNotCompleted => 1,
            Status::Usage => 2,
            Status::ReadFault => 3,
            Status::WriteFault => 4,
            Status::StoreFault => 5,
            Status::BadStore(_) => 6,
            Status::NoMemory => 7,
            Status::InputTooLong => 8,
            Status::TornInput => 9,
            Status::JournalFull => 10,
            Status::NumbersUsedUp => 11,
            Status::UnknownLoad => 12,
            Status::NoRecords => 13,
        }
    }

    // The line on the error output, but for the place of a bad store and what follows it. Ok and
    // JobNotCompleted have none.
    fn plain_line(self) -> &'static [u8]
        ensures { result.now ≡ plain_line self }
    {
        match self {
            Status::Ok | Status::JobNotCompleted => &[],
            Status::Usage => b"bl: usage: see help\n",
            Status::ReadFault => b"bl: read fault\n",
            Status::WriteFault => b"bl: write fault\n",
            Status::StoreFault => b"bl: store fault\n",
            Status::BadStore(_) => b"bl: bad store at ",
            Status::NoMemory => b"bl: no memory\n",
            Status::InputTooLong => b"bl: input too long\n",
            Status::TornInput => b"bl: torn input\n",
            Status::JournalFull => b"bl: journal full\n",
            Status::NumbersUsedUp => b"bl: no load number is left\n",
            Status::UnknownLoad => b"bl: unknown load\n",
            Status::NoRecords => b"bl: no records\n",
        }
    }

    /// Writes the line of the status, which takes no memory.
    pub fn write_line<E: Sink>(self, err: &mut E) -> Result<(), Failed>
        ensures puts { Puts (E.written err.old) (E.written err.new) (line_of self) result }
        ensures cause { HasCause (E.faults err.old) (E.faults err.new) result }
    {
        err.put(self.plain_line())?;
        match self {
            Status::BadStore(place) => put_place(place, err),
            _ => Ok(()),
        }
    }
}

// The digits of a place, and a line feed.
fn put_place<E: Sink>(place: u64, err: &mut E) -> Result<(), Failed>
    ensures puts { Puts (E.written err.old) (E.written err.new) (place_behind place) result }
    ensures cause { HasCause (E.faults err.old) (E.faults err.new) result }
{
    let mut buffer = Buffer::new();
    err.put(buffer.format(place).as_bytes())?;
    err.put(b"\n")
}
