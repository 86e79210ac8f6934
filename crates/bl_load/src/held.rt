// What is held from one turn to the next.
ghost use Rattle.std.specs.Prelude.{◌≡◌, None};

use crate::open_file::OpenFile;
use std::marker::Model;

/// The file that is being read, from one turn to the next: where its reader stands, and the rows
/// that were converted and not handed out yet. Contracts see the path and what is left; what it is
/// to told files is said by `IsFresh` in `specs/OpenFiles`.
#[derive(Drop)]
pub struct Held {
    file: Option<OpenFile>,
}

impl Model for Held {
    ghost use Rattle.std.specs.declared.option.Option.{Option};
    ghost use Rattle.bl_load.specs.declared.open_file.OpenFile.{OpenFile};
    ghost use Rattle.bl_load.specs.OpenFiles.{IsHeld};

    ghost Value = { Option OpenFile };

    ghost view = { λ it. it.file };

    ghost invariant = { λ it. IsHeld it.file };
}

impl Held {
    ghost use Rattle.bl_load.specs.OpenFiles.{IsHeld, IsSomeOpen};
    ghost use Rattle.std.specs.Prelude.{Some};

    /// Nothing is held. It takes no memory.
    pub fn none() -> Held
        ensures { result ≡ None }
    {
        Held { file: None }
    }

    /// Hands out what is held, and holds nothing then.
    pub(crate) fn take(&mut self) -> Option<OpenFile>
        ensures was { result ≡ self.old }
        ensures held { IsHeld result }
        ensures none { self.new ≡ None }
    {
        self.file.take()
    }

    /// Holds a file, in place of what was held.
    pub(crate) fn hold(&mut self, file: OpenFile)
        requires { IsSomeOpen file }
        ensures { self.new ≡ Some file }
    {
        self.file = Some(file);
    }
}
