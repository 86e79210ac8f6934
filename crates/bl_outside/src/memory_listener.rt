// A listener in memory.
ghost use Rattle.std.specs.Prelude.{◌≡◌, [], ◌∷◌, ◌++◌, OnOk, OnErr};
ghost use Rattle.bl_outside.specs.MemoryListeners.{no_links};

use crate::{
    Faults, Listener, MemoryLink, MemorySink, MemorySource, NoMemory, Outside, Text, counted,
};
use std::alloc::Global;
use std::collections::VecDeque;
use std::marker::Model;

/// A connection that is still to come: its input, the size of the pieces in which it is given, and
/// the plans of faults of its two directions.
#[derive(Drop)]
pub struct PreparedLink {
    pub input: Text,
    pub piece: usize,
    pub takes: Faults,
    pub puts: Faults,
}

/// Connections that were prepared, handed out in order. After the last one each `accept` fails.
#[derive(Drop)]
pub struct MemoryListener {
    alloc: Global,
    ready: VecDeque<PreparedLink>,
    done: Vec<MemoryLink>,
    faults: u64,
}

impl Model for MemoryListener {
    ghost use Rattle.bl_outside.specs.MemoryListeners.{ListenerRecord};

    ghost Value = { ListenerRecord };

    ghost view = { λ l. record { ready = l.ready.items; done = l.done.items; faults = l.faults } };
}

impl MemoryListener {
    pub fn new(alloc: Global) -> MemoryListener
        ensures { result ≡ no_links }
    {
        MemoryListener {
            alloc,
            ready: VecDeque::new(alloc),
            done: Vec::new(alloc),
            faults: 0,
        }
    }

    /// Adds a connection behind those that are still to come.
    pub fn prepare(&mut self, link: PreparedLink) -> Result<(), NoMemory>
        ensures ok { OnOk result (self.new.ready ≡ self.old.ready ++ link ∷ []) }
        ensures err { OnErr result (self.new.ready ≡ self.old.ready) }
        ensures others { (self.new.done ≡ self.old.done) × (self.new.faults ≡ self.old.faults) }
    {
        self.ready.push_back(link)?;
        Ok(())
    }

    /// What was handed back, in order.
    pub fn handed_back(&self) -> &[MemoryLink]
        ensures { result.now ≡ self.now.done }
    {
        self.done.as_slice()
    }
}

impl Listener for MemoryListener {
    ghost use Rattle.std.specs.Prelude.{Some, map};
    ghost use Rattle.bl_outside.specs.MemoryListeners.{handed};

    type Conn = MemoryLink;

    ghost coming = { λ listener. Some (map (λ link. link.input) listener.ready) };

    ghost retired = { λ listener. Some (map handed listener.done) };

    ghost faults = { λ listener. listener.faults };

    fn accept(&mut self) -> Result<MemoryLink, Outside> {
        match self.ready.pop_front() {
            Some(link) => {
                let PreparedLink {
                    input,
                    piece,
                    takes,
                    puts,
                } = link;
                let source = MemorySource::new(input, piece, takes);
                let sink = MemorySink::new(self.alloc, puts);
                Ok(MemoryLink::new(source, sink))
            }
            None => counted(&mut self.faults, Err(Outside::Failed)),
        }
    }

    fn retire(&mut self, conn: MemoryLink) -> Result<(), NoMemory> {
        self.done.push(conn)?;
        Ok(())
    }
}
