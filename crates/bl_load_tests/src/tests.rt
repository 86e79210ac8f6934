// What is prepared, over folders in memory.
ghost use Rattle.std.specs.Prelude.{◌≡◌, IfOk};
ghost use Rattle.bl_files.specs.Carried.{AreFeeds};
ghost use Rattle.bl_load.specs.Tasks.{IsTask};

use bl_files::{Counts, Feed, FeedEnd, FeedKind, FeedStatus, Found, LoadRequest, Mode, PlanResult};
use bl_load::{Held, Prepared, prepare};
use bl_outside::{Digest, Faults, List, MemoryFolder, NoMemory, Text};
use bl_value::LogCode;
use bl_workers::OpenGate;
use bl_world::{Task, Work};
use std::alloc::Global;
use std::test::Fail;
use std::thread::Threads;

// ---- what is handed in

fn request(alloc: Global) -> Result<LoadRequest, NoMemory> {
    Ok(LoadRequest {
        source: Text::of_str(alloc, "s3://b/f")?,
        format: 0,
        mode: Mode::Auto,
        fail_on_error: true,
        update_single: false,
        parallelism: 3,
        queue: true,
        dependencies: List::new(alloc),
    })
}

// The vertex file a.csv, of which so many records were taken.
fn feed(alloc: Global, taken: u64, digest: Digest) -> Result<Feed, NoMemory>
    ensures kind { IfOk result (λ feed. feed.kind ≡ FeedKind.Vertex) }
    ensures taken { IfOk result (λ feed. feed.taken ≡ taken) }
{
    Ok(Feed {
        name: Text::of_str(alloc, "a.csv")?,
        kind: FeedKind::Vertex,
        status: FeedStatus::InProgress,
        taken,
        digest,
        counts: Counts::none(),
        logs: List::new(alloc),
        end_log: None,
    })
}

fn no_feeds(alloc: Global) -> List<Feed>
    ensures { AreFeeds result }
{
    List::new(alloc)
}

// Two records of a.csv were taken.
fn one_feed(alloc: Global) -> Result<List<Feed>, NoMemory>
    ensures { IfOk result AreFeeds }
{
    let mut feeds = List::new(alloc);
    feeds.push(feed(alloc, 2, Digest { bytes: [2; 32] })?)?;
    Ok(feeds)
}

// A plan of the source, for a load that goes on with these feeds.
fn plan_task(alloc: Global, previous: List<Feed>) -> Result<Task, NoMemory>
    requires { AreFeeds previous }
    ensures { IfOk result IsTask }
{
    Ok(Task {
        work: Work::Plan {
            job: 1,
            previous: 0,
            no_previous: false,
        },
        request: Some(request(alloc)?),
        previous,
        no_previous: false,
        feed: None,
    })
}

// A folder that is read in such pieces, and fails from this call on, or never.
fn folder(alloc: Global, piece: u32, from: u64) -> MemoryFolder {
    MemoryFolder::new(alloc, piece, Faults::of(List::new(alloc), from))
}

fn put(alloc: Global, files: &mut MemoryFolder, path: &str, bytes: &str) -> Result<(), NoMemory> {
    files.put_file(Text::of_str(alloc, path)?, Text::of_str(alloc, bytes)?)
}

// ---- what comes of it

fn kind_text(kind: FeedKind) -> &'static str {
    match kind {
        FeedKind::Vertex => "vertex",
        FeedKind::Edge => "edge",
        FeedKind::Refused(LogCode::Compressed, _) => "compressed",
        FeedKind::Refused(_, _) => "refused",
    }
}

// Each file as its name, its kind and the first byte of its digest.
fn found_text(alloc: Global, found: &List<Found>) -> Result<String, NoMemory> {
    let mut text = String::new(alloc);
    for file in found.as_slice() {
        let name = str::from_utf8(file.name.as_slice()).unwrap_or("?");
        let kind = kind_text(file.kind);
        let byte = file.digest.bytes[0];
        text.push_str(format!(in alloc; "{name} {kind} {byte}; ")?.as_str())?;
    }
    Ok(text)
}

fn plan_text(alloc: Global, planned: &PlanResult) -> Result<String, NoMemory> {
    match planned {
        PlanResult::Feeds(found) if found.len() > 9 => {
            Ok(format!(in alloc; "{} files", found.len())?)
        }
        PlanResult::Feeds(found) => found_text(alloc, found),
        PlanResult::TooManyFiles(number) => Ok(format!(in alloc; "{number} are too many")?),
        PlanResult::NoPrevious => Ok(String::from_str(alloc, "no previous load")?),
        PlanResult::SourceNotFound => Ok(String::from_str(alloc, "nothing there")?),
        PlanResult::ListFault => Ok(String::from_str(alloc, "list fault")?),
    }
}

fn prepared_text(alloc: Global, prepared: &Prepared) -> Result<String, NoMemory> {
    match prepared {
        Prepared::Nothing => Ok(String::from_str(alloc, "nothing")?),
        Prepared::Plan(planned) => plan_text(alloc, planned),
        Prepared::Rows(rows) => Ok(format!(in alloc; "{} rows; ", rows.len())?),
        Prepared::End(FeedEnd::Completed) => Ok(String::from_str(alloc, "completed")?),
        Prepared::End(FeedEnd::Modified) => Ok(String::from_str(alloc, "modified")?),
        Prepared::End(FeedEnd::ReadError) => Ok(String::from_str(alloc, "read error")?),
        Prepared::End(FeedEnd::Stopped(_)) => Ok(String::from_str(alloc, "stopped")?),
    }
}

// The plan of a folder.
fn planned<R: Threads + Sync>(
    rt: &R,
    alloc: Global,
    files: &mut MemoryFolder,
    previous: List<Feed>,
) -> Result<String, NoMemory>
    requires { AreFeeds previous }
{
    let task = plan_task(alloc, previous)?;
    let prepared = prepare(rt, alloc, files, &task, &mut Held::none(), &OpenGate)?;
    prepared_text(alloc, &prepared)
}

// ---- plans

// The digests begin as SHA-256 does of the number of a header's fields and of the fields, each
// behind its length: 219 and 125, and 127 for a header that is refused. Of no bytes it is 227.
#[test]
fn a_folder_is_planned(rt: HostRuntime) -> Result<(), Fail> {
    let alloc = rt.alloc();
    for piece in [1, 7, 4096] {
        let mut files = folder(alloc, piece, 0);
        assert_eq!(rt;
            planned(&rt, alloc, &mut files, no_feeds(alloc))?.as_str(),
            "nothing there"
        );
        put(alloc, &mut files, "b/f/z.csv", "")?;
        put(alloc, &mut files, "b/f/y.csv", "name\ny1\n")?;
        put(alloc, &mut files, "b/f/x.csv.gz", "~id\nx1\n")?;
        put(alloc, &mut files, "b/f/inside/w.csv", "~id\nw1\n")?;
        put(alloc, &mut files, "b/f/b.csv", "~id\nv1\nv2\n")?;
        put(alloc, &mut files, "b/f/a.csv", "~id,~from,~to\ne1,v1,v2\n")?;
        assert_eq!(rt;
            planned(&rt, alloc, &mut files, no_feeds(alloc))?.as_str(),
            "a.csv edge 219; b.csv vertex 125; x.csv.gz compressed 227; y.csv refused 127; z.csv vertex 227; "
        );
        // Records of a.csv were taken, so it stays what it was.
        assert_eq!(rt;
            planned(&rt, alloc, &mut files, one_feed(alloc)?)?.as_str(),
            "a.csv vertex 2; b.csv vertex 125; x.csv.gz compressed 227; y.csv refused 127; z.csv vertex 227; "
        );
    }
    Ok(())
}

// Files that aren't read count too.
#[test]
fn a_load_has_at_most_4096_files(rt: HostRuntime) -> Result<(), Fail> {
    let alloc = rt.alloc();
    let mut files = folder(alloc, 4096, 0);
    for number in 0..4096 {
        put(
            alloc,
            &mut files,
            format!(in alloc; "b/f/{number}.gz")?.as_str(),
            "",
        )?;
    }
    assert_eq!(rt;
        planned(&rt, alloc, &mut files, no_feeds(alloc))?.as_str(),
        "4096 files"
    );
    put(alloc, &mut files, "b/f/one more.gz", "")?;
    assert_eq!(rt;
        planned(&rt, alloc, &mut files, no_feeds(alloc))?.as_str(),
        "4097 are too many"
    );
    Ok(())
}
