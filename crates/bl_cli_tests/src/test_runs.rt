// Runs of the program over a folder, disks and streams in memory.
use bl_cli::{Status, run};
use bl_outside::{
    Disk, Disks, Faults, FixedClock, List, MemoryDisk, MemoryFolder, MemorySink, MemorySource, Text,
};
use std::alloc::Global;
use std::mem;
use std::process::Abort;
use std::thread::Threads;

// Files by their paths below the bucket `b`.
pub(crate) type FileTable = &'static [(&'static str, &'static [u8])];

pub(crate) const FOLDER_OF_TWO: FileTable = &[
    ("f/edges.csv", b"~id,~from,~to,~label\ne1,v1,v2,knows\n"),
    ("f/vertices.csv", b"~id,~label\nv1,person\nv2,person\n"),
];

pub(crate) const PEOPLE: FileTable = &[("people.csv", b"~id,~label,name:String\nv1,person,Ann\n")];

pub(crate) const NO_FILES: FileTable = &[];

// ---- what is handed in

pub(crate) fn text<R: Abort>(rt: &R, alloc: Global, bytes: &[u8]) -> Text {
    Text::copy_of(alloc, bytes).expect(rt, "memory")
}

// The call of this number fails, and none where it is 0.
pub(crate) fn faults_at<R: Abort>(rt: &R, alloc: Global, number: u64) -> Faults {
    let mut fails = List::new(alloc);
    if number > 0 {
        fails.push(number).expect(rt, "memory");
    }
    Faults::of(fails, 0)
}

pub(crate) fn disk<R: Abort>(rt: &R, alloc: Global, bytes: &[u8], plan: Faults) -> MemoryDisk {
    MemoryDisk::new(alloc, text(rt, alloc, bytes), plan).expect(rt, "memory")
}

// A store whose journal has these bytes, and calls that fail.
pub(crate) fn store<R: Abort>(
    rt: &R,
    alloc: Global,
    journal: &[u8],
    plan: Faults,
) -> Disks<MemoryDisk> {
    Disks {
        journal: disk(rt, alloc, journal, plan),
        left: disk(rt, alloc, b"", Faults::none(alloc)),
        right: disk(rt, alloc, b"", Faults::none(alloc)),
    }
}

fn words_of<R: Abort>(rt: &R, alloc: Global, text: &str) -> Vec<String> {
    let mut words = Vec::new(alloc);
    for word in text.split(' ') {
        let word = String::from_str(alloc, word).expect(rt, "memory");
        words.push(word).expect(rt, "memory");
    }
    words
}

pub(crate) fn put<R: Abort>(
    rt: &R,
    alloc: Global,
    folder: &mut MemoryFolder,
    path: &str,
    bytes: &[u8],
) {
    let path = format!(in alloc; "b/{path}").expect(rt, "memory");
    let path = text(rt, alloc, path.as_bytes());
    let file = text(rt, alloc, bytes);
    folder.put_file(path, file).expect(rt, "memory");
}

pub(crate) fn folder_of<R: Abort>(
    rt: &R,
    alloc: Global,
    files: FileTable,
    plan: Faults,
) -> MemoryFolder {
    let mut folder = MemoryFolder::new(alloc, 3_000, plan);
    for (path, bytes) in files {
        put(rt, alloc, &mut folder, path, bytes);
    }
    folder
}

fn sink<R: Abort>(rt: &R, alloc: Global, fails: u64) -> MemorySink {
    MemorySink::new(alloc, faults_at(rt, alloc, fails))
}

fn written<R: Abort>(rt: &R, alloc: Global, sink: &MemorySink) -> Text {
    sink.bytes().copy(alloc).expect(rt, "memory")
}

// ---- a machine

// A folder and a store, the input of the next run, and what the last one wrote.
#[derive(Drop)]
pub(crate) struct Machine {
    pub(crate) folder: MemoryFolder,
    pub(crate) disks: Disks<MemoryDisk>,
    pub(crate) input: Text,
    pub(crate) out: Text,
    pub(crate) err: Text,
}

// A machine over this folder and store.
pub(crate) fn machine_with(
    alloc: Global,
    folder: MemoryFolder,
    disks: Disks<MemoryDisk>,
) -> Machine {
    Machine {
        folder,
        disks,
        input: Text::new(alloc),
        out: Text::new(alloc),
        err: Text::new(alloc),
    }
}

// A machine with these files and an empty store.
pub(crate) fn new_machine<R: Abort>(rt: &R, alloc: Global, files: FileTable) -> Machine {
    let folder = folder_of(rt, alloc, files, Faults::none(alloc));
    let disks = store(rt, alloc, b"", Faults::none(alloc));
    machine_with(alloc, folder, disks)
}

// Which call of a stream fails, by its number, and none where it is 0.
#[derive(Clone, Copy)]
pub(crate) struct Failing {
    pub(crate) input: u64,
    pub(crate) out: u64,
    pub(crate) err: u64,
}

pub(crate) const NOTHING: Failing = Failing {
    input: 0,
    out: 0,
    err: 0,
};

struct Outcome {
    status: Status,
    out: Text,
    err: Text,
    disks: Disks<MemoryDisk>,
}

fn run_over<R: Threads + Sync + Abort>(
    rt: &R,
    alloc: Global,
    words: &[String],
    folder: &mut MemoryFolder,
    disks: Disks<MemoryDisk>,
    input: Text,
    fails: Failing,
) -> Outcome {
    let mut input = MemorySource::new(input, 50, faults_at(rt, alloc, fails.input));
    let mut out = sink(rt, alloc, fails.out);
    let mut err = sink(rt, alloc, fails.err);
    let mut clock = FixedClock::new(0);
    let (status, disks) = run(
        rt, alloc, words, folder, disks, &mut clock, 0, &mut input, &mut out, &mut err,
    );
    Outcome {
        status,
        out: written(rt, alloc, &out),
        err: written(rt, alloc, &err),
        disks,
    }
}

impl Machine {
    // Runs the words.
    pub(crate) fn runs<R: Threads + Sync + Abort>(
        &mut self,
        rt: &R,
        alloc: Global,
        words: &str,
        fails: Failing,
    ) -> Status {
        let words = words_of(rt, alloc, words);
        let empty = store(rt, alloc, b"", Faults::none(alloc));
        let disks = mem::replace(&mut self.disks, empty);
        let input = mem::replace(&mut self.input, Text::new(alloc));
        let Outcome {
            status,
            out,
            err,
            disks,
        } = run_over(rt, alloc, &words, &mut self.folder, disks, input, fails);
        self.disks = disks;
        self.out = out;
        self.err = err;
        status
    }

    // Runs the words, of which no stream fails.
    pub(crate) fn run<R: Threads + Sync + Abort>(
        &mut self,
        rt: &R,
        alloc: Global,
        words: &str,
    ) -> Status {
        self.runs(rt, alloc, words, NOTHING)
    }

    // The last run wrote just this.
    pub(crate) fn wrote(&self, out: &[u8], err: &[u8]) -> bool {
        self.out.as_slice() == out && self.err.as_slice() == err
    }

    // How often the output of the last run has a text.
    pub(crate) fn count(&self, part: &[u8]) -> u64 {
        count(self.out.as_slice(), part)
    }

    // The output of the last run ends with the line of this job.
    pub(crate) fn ends_with<R: Abort>(
        &self,
        rt: &R,
        alloc: Global,
        number: u32,
        rest: &str,
    ) -> bool {
        let line = line(rt, alloc, number, rest);
        self.out.as_slice().ends_with(line.as_bytes())
    }

    // The last run wrote just the line of this job.
    pub(crate) fn wrote_line<R: Abort>(
        &self,
        rt: &R,
        alloc: Global,
        number: u32,
        rest: &str,
    ) -> bool {
        let line = line(rt, alloc, number, rest);
        self.wrote(line.as_bytes(), b"")
    }

    // All bytes of the journal.
    pub(crate) fn journal<R: Abort>(&mut self, rt: &R) -> Text {
        let journal = &mut self.disks.journal;
        journal.read_at(0, 1_000_000).expect(rt, "a journal")
    }
}

// The line of a job: its number, its status and its totals.
fn line<R: Abort>(rt: &R, alloc: Global, number: u32, rest: &str) -> String {
    let line = format!(in alloc; "00000000-0000-4000-8000-{number:012} {rest}\n");
    line.expect(rt, "memory")
}

// ---- pages of the change stream

fn page_head<R: Abort>(rt: &R, alloc: Global, commit: u32, op: u32) -> String {
    let head = format!(in alloc;
        "{{\"format\":\"PG_JSON\",\"lastEventId\":{{\"commitNum\":{commit},\"opNum\":{op}}},\"lastTrxTimestamp\":0,\"records\":["
    );
    head.expect(rt, "memory")
}

// A page with these records, of which the last has this place.
pub(crate) fn page<R: Abort>(
    rt: &R,
    alloc: Global,
    commit: u32,
    op: u32,
    records: &[&str],
) -> String {
    let mut text = page_head(rt, alloc, commit, op);
    for (i, record) in records.iter().enumerate() {
        let comma = if i > 0 { "," } else { "" };
        text.push_str(comma).expect(rt, "memory");
        text.push_str(record).expect(rt, "memory");
    }
    let count = records.len();
    let end = format!(in alloc; "],\"totalRecords\":{count}}}\n").expect(rt, "memory");
    text.push_str(end.as_str()).expect(rt, "memory");
    text
}

// How often a text stands in another.
fn count(text: &[u8], part: &[u8]) -> u64 {
    let mut count: u64 = 0;
    for place in text.windows(part.len().max(1)) {
        if place == part {
            count = count.saturating_add(1);
        }
    }
    count
}

// ---- tables of runs

// The files at a run, its words, its status, and the line of its job behind the id.
pub(crate) type Run = (FileTable, &'static str, Status, &'static str);

// Whether a run of a table comes to what it should, over this machine's store.
pub(crate) fn goes_on<R: Threads + Sync + Abort>(
    rt: &R,
    alloc: Global,
    machine: &mut Machine,
    number: u32,
    run: &Run,
) -> bool {
    let (files, words, status, rest) = run;
    machine.folder = folder_of(rt, alloc, files, Faults::none(alloc));
    let ended = machine.run(rt, alloc, words);
    ended == *status && machine.wrote_line(rt, alloc, number, rest)
}
