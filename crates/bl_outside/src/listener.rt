// Where connections come from.
ghost use Rattle.std.specs.Prelude.{◌≡◌, List, ℕ, IfOk, OnOk, OnErr};
ghost use Rattle.std.specs.declared.option.Option.{Option};
ghost use Rattle.bl_outside.specs.Counts.{HasDeviceCause};
ghost use Rattle.bl_outside.specs.Listeners.{Handed, Accepts, Retires};

use crate::{Link, NoMemory, Outside};

/// Where connections come from, and where they are handed back.
pub trait Listener {
    type Conn: Link;

    /// The inputs of the connections that are still to be accepted, where they are told.
    ghost coming: { Self → Option (List (List ℕ)) };

    /// What was handed back, where it is told.
    ghost retired: { Self → Option (List Handed) };

    /// How often it has failed.
    ghost faults: { Self → ℕ };

    /// The next connection. It holds the first of the inputs that are coming, and nothing else
    /// happened to it.
    fn accept(&mut self) -> Result<Self::Conn, Outside>
        ensures accepted { IfOk result (λ conn. Accepts (coming self.old) (coming self.new)
            (Self.Conn.left conn) (Self.Conn.written conn)
            (Self.Conn.Source.faults conn) (Self.Conn.Sink.faults conn)) }
        ensures refused { OnErr result (coming self.new ≡ coming self.old) }
        ensures retired { retired self.new ≡ retired self.old }
        ensures cause { HasDeviceCause (faults self.old) (faults self.new) result };

    /// Takes back a connection whose session has ended. For want of memory it is dropped.
    fn retire(&mut self, conn: Self::Conn) -> Result<(), NoMemory>
        ensures ok { OnOk result (Retires (retired self.old) (retired self.new)
            (Self.Conn.written conn) (Self.Conn.Source.faults conn) (Self.Conn.Sink.faults conn)) }
        ensures err { OnErr result (retired self.new ≡ retired self.old) }
        ensures coming { coming self.new ≡ coming self.old }
        ensures faults { faults self.new ≡ faults self.old };
}
