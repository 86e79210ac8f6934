// Pages of small streams, and readers that fail or lend.
ghost use Rattle.std.specs.Prelude.{◌≡◌, ◌<◌, ◌≤◌, Some, IfOk, length, map, slice_get};
ghost use Rattle.std.specs.List.{All};
ghost use Rattle.bl_value.specs.Valid.{IsChange, IsId, IsKey};
ghost use Rattle.bl_stream.specs.Readers.{IsCommit};

use bl_outside::{List, NoMemory, Text};
use bl_stream::{
    Commit, CommitFault, CommitReader, Iterator4, MemoryCommits, Page, PageAsk, PageRefusal, Stream,
};
use bl_value::{Change, KEY_LIMIT, Side, Value, copy_changes};
use std::alloc::{AllocError, Global};
use std::marker::Model;
use std::process::Abort;

// A text that may be an id and a key.
fn word(alloc: Global, text: &str) -> Result<Text, NoMemory>
    ensures id { IfOk result IsId }
    ensures key { IfOk result IsKey }
{
    if text.is_empty() || text.len() > KEY_LIMIT {
        return Err(NoMemory);
    }
    Text::of_str(alloc, text)
}

fn label(alloc: Global, id: &str) -> Result<Change, NoMemory>
    ensures { IfOk result IsChange }
{
    Ok(Change::AddLabel {
        id: word(alloc, id)?,
        label: word(alloc, "person")?,
    })
}

fn edge(alloc: Global) -> Result<Change, NoMemory>
    ensures { IfOk result IsChange }
{
    Ok(Change::AddEdge {
        id: word(alloc, "e1")?,
        label: word(alloc, "knows")?,
        from: word(alloc, "v1")?,
        to: word(alloc, "v2")?,
    })
}

// A list of valid changes, and one more.
fn and(mut changes: List<Change>, change: Change) -> Result<List<Change>, NoMemory>
    requires all { All IsChange changes }
    requires one { IsChange change }
    ensures all { IfOk result (All IsChange) }
    ensures some { IfOk result (λ more. 1 ≤ length more) }
{
    changes.push(change)?;
    Ok(changes)
}

fn labels(alloc: Global, ids: [&str; 2]) -> Result<List<Change>, NoMemory>
    ensures all { IfOk result (All IsChange) }
    ensures some { IfOk result (λ changes. 1 ≤ length changes) }
{
    let changes = and(List::new(alloc), label(alloc, ids[0])?)?;
    and(changes, label(alloc, ids[1])?)
}

// Commits, and one more.
fn then(
    mut commits: List<Commit>,
    moment: u64,
    changes: List<Change>,
) -> Result<List<Commit>, NoMemory>
    requires all { All IsCommit commits }
    requires some { 1 ≤ length changes }
    requires valid { All IsChange changes }
    ensures { IfOk result (All IsCommit) }
{
    commits.push(Commit { moment, changes })?;
    Ok(commits)
}

// Two labels at 7, an edge at 9, and two labels at 11.
fn three_commits(alloc: Global) -> Result<List<Commit>, NoMemory>
    ensures { IfOk result (All IsCommit) }
{
    let commits = then(List::new(alloc), 7, labels(alloc, ["v1", "v2"])?)?;
    let commits = then(commits, 9, and(List::new(alloc), edge(alloc)?)?)?;
    then(commits, 11, labels(alloc, ["v3", "v4"])?)
}

// The first two of them.
fn two_commits(alloc: Global) -> Result<List<Commit>, NoMemory>
    ensures { IfOk result (All IsCommit) }
{
    let commits = then(List::new(alloc), 7, labels(alloc, ["v1", "v2"])?)?;
    then(commits, 9, and(List::new(alloc), edge(alloc)?)?)
}

// The events of a page: commit, operation and moment, and a mark at the last of a commit.
fn shown(alloc: Global, page: &Page) -> Result<String, AllocError> {
    let mut text = String::new(alloc);
    for event in page.events.as_slice() {
        let commit = event.commit;
        let op = event.op;
        let moment = event.moment;
        let mark = if event.last { "! " } else { " " };
        text.push_str(format!(in alloc; "{commit}.{op}@{moment}{mark}")?.as_str())?;
    }
    Ok(text)
}

// The page of two commits.
fn page_of_two(
    alloc: Global,
    bounds: (u64, u64),
    iterator: Iterator4,
    limit: u32,
) -> Result<Page, PageRefusal> {
    if bounds.0 == 0 || bounds.1 > 2 || limit == 0 || limit > 10 {
        return Err(PageRefusal::NoMemory);
    }
    let commits = two_commits(alloc)?;
    if commits.len() < 2 {
        return Err(PageRefusal::NoMemory);
    }
    let mut reader = MemoryCommits::new(alloc, commits);
    Stream::over(bounds.0, bounds.1).page(alloc, &mut reader, &PageAsk { iterator, limit })
}

// The page of two commits has these events.
fn shows<R: Abort>(
    rt: &R,
    alloc: Global,
    bounds: (u64, u64),
    iterator: Iterator4,
    limit: u32,
    want: &str,
) {
    let page = page_of_two(alloc, bounds, iterator, limit).expect(rt, "a page");
    let text = shown(alloc, &page).expect(rt, "memory");
    assert!(rt; text.as_str() == want, "{want}");
}

#[test]
fn a_page_begins_where_it_is_asked_to(rt: HostRuntime) {
    let alloc = rt.alloc();
    let all = "1.1@7 1.2@7! 2.1@9! ";
    shows(&rt, alloc, (1, 2), Iterator4::Latest, 10, "2.1@9! ");
    shows(&rt, alloc, (1, 2), Iterator4::At(1, 999), 10, "2.1@9! ");
    shows(&rt, alloc, (1, 2), Iterator4::TrimHorizon, 1, "1.1@7 ");
    shows(&rt, alloc, (1, 2), Iterator4::At(1, 2), 1, "1.2@7! ");
    shows(&rt, alloc, (1, 2), Iterator4::TrimHorizon, 10, all);
    shows(&rt, alloc, (1, 2), Iterator4::At(0, 0), 10, all);
    shows(&rt, alloc, (1, 2), Iterator4::At(1, 0), 2, "1.1@7 1.2@7! ");
    shows(&rt, alloc, (1, 2), Iterator4::At(1, 1), 3, all);
    shows(&rt, alloc, (1, 2), Iterator4::After(0, 5), 10, all);
    shows(&rt, alloc, (1, 2), Iterator4::After(1, 0), 10, all);
    shows(
        &rt,
        alloc,
        (1, 2),
        Iterator4::After(1, 1),
        10,
        "1.2@7! 2.1@9! ",
    );
    shows(&rt, alloc, (1, 2), Iterator4::After(1, 2), 10, "2.1@9! ");
    shows(
        &rt,
        alloc,
        (1, 2),
        Iterator4::After(1, u64::MAX),
        10,
        "2.1@9! ",
    );
    shows(&rt, alloc, (2, 2), Iterator4::TrimHorizon, 10, "2.1@9! ");
    shows(&rt, alloc, (2, 2), Iterator4::At(1, 2), 10, "2.1@9! ");
    shows(&rt, alloc, (1, 1), Iterator4::Latest, 10, "1.2@7! ");
}

#[test]
fn there_are_no_records_behind_the_last(rt: HostRuntime) {
    let alloc = rt.alloc();
    for (bounds, iterator) in [
        ((1, 2), Iterator4::After(2, 1)),
        ((1, 2), Iterator4::At(2, 2)),
        ((1, 2), Iterator4::At(3, 1)),
        ((1, 2), Iterator4::After(u64::MAX, u64::MAX)),
        ((1, 1), Iterator4::At(1, 3)),
        ((2, 1), Iterator4::TrimHorizon),
        ((1, 0), Iterator4::Latest),
    ] {
        let page = page_of_two(alloc, bounds, iterator, 10);
        assert!(rt; matches!(page, Err(PageRefusal::NoRecords)));
    }
    assert!(rt; Stream::over(3, 7).bounds() == Some((3, 7)));
    assert!(rt; Stream::over(1, 0).bounds().is_none());
}

// A value of so many letters at a vertex.
fn long_value(alloc: Global, letters: usize) -> Result<Change, NoMemory>
    ensures { IfOk result IsChange }
{
    let bytes = vec![in alloc; 97u8; letters]?;
    let Ok(text) = str::from_utf8(bytes.as_slice()) else {
        return Err(NoMemory);
    };
    if text.len() > 4_294_967_295 {
        return Err(NoMemory);
    }
    let value = Value::Str(Text::of_str(alloc, text)?);
    Ok(Change::AddValue {
        side: Side::Vertex,
        id: word(alloc, "v1")?,
        key: word(alloc, "k")?,
        value,
    })
}

// Nine labels, and then twelve values of so many letters.
fn long_changes(alloc: Global, letters: usize) -> Result<List<Change>, NoMemory>
    ensures all { IfOk result (All IsChange) }
    ensures some { IfOk result (λ changes. 1 ≤ length changes) }
{
    let mut changes = and(List::new(alloc), label(alloc, "v1")?)?;
    'labels: for _ in 0..8 {
        changes = and(changes, label(alloc, "v1")?)?;
    }
    'values: for _ in 0..12 {
        changes = and(changes, long_value(alloc, letters)?)?;
    }
    Ok(changes)
}

// How many events a page has from the tenth operation on.
fn long_page(alloc: Global, letters: usize) -> Result<usize, PageRefusal> {
    let commits = then(List::new(alloc), 0, long_changes(alloc, letters)?)?;
    if commits.is_empty() {
        return Err(PageRefusal::NoMemory);
    }
    let mut reader = MemoryCommits::new(alloc, commits);
    let ask = PageAsk {
        iterator: Iterator4::At(1, 10),
        limit: 100_000,
    };
    let page = Stream::over(1, 1).page(alloc, &mut reader, &ask)?;
    Ok(page.events.len())
}

// The text of such an event has 151 bytes besides the letters, so ten of them with 1,048,425
// letters have just 10,485,760 bytes.
#[test]
fn a_page_ends_with_the_event_that_reaches_its_bytes(rt: HostRuntime) {
    let alloc = rt.alloc();
    for (letters, want) in [(1_048_425, 10), (1_048_424, 11), (5_242_880, 2), (0, 12)] {
        let count = long_page(alloc, letters).expect(&rt, "a page");
        assert!(rt; count == want, "{letters}: {count}");
    }
}

// A reader in memory of which one call fails. It counts its calls.
#[derive(Drop)]
struct Stumbling {
    commits: MemoryCommits,
    fails: u64,
    fault: CommitFault,
    calls: u64,
    faults: u64,
}

impl CommitReader for Stumbling {
    ghost use Rattle.std.specs.Prelude.{Some};

    ghost commits = { λ it. Some it.commits };

    ghost faults = { λ it. it.faults };

    fn commit(&mut self, number: u64) -> Result<Commit, CommitFault> {
        self.calls = self.calls.saturating_add(1);
        if self.calls != self.fails {
            return self.commits.commit(number);
        }
        match self.fault {
            CommitFault::NoMemory => Err(CommitFault::NoMemory),
            CommitFault::StoreFault => {
                self.faults = self.faults.saturating_add(1);
                Err(CommitFault::StoreFault)
            }
            CommitFault::BadStore(place) => {
                self.faults = self.faults.saturating_add(1);
                Err(CommitFault::BadStore(place))
            }
        }
    }
}

// What a page of three commits comes to where a call fails, and how many were made.
fn stumbled(
    alloc: Global,
    iterator: Iterator4,
    limit: u32,
    fails: u64,
    fault: CommitFault,
) -> Result<(Option<PageRefusal>, u64), NoMemory> {
    let commits = three_commits(alloc)?;
    if commits.len() < 3 || limit == 0 || limit > 10 {
        return Err(NoMemory);
    }
    let mut reader = Stumbling {
        commits: MemoryCommits::new(alloc, commits),
        fails,
        fault,
        calls: 0,
        faults: 0,
    };
    let page = Stream::over(1, 3).page(alloc, &mut reader, &PageAsk { iterator, limit });
    Ok((page.err(), reader.calls))
}

#[test]
fn a_fault_of_the_reader_is_passed_on(rt: HostRuntime) {
    let alloc = rt.alloc();
    for fails in 1..4 {
        for (fault, want) in [
            (CommitFault::StoreFault, PageRefusal::StoreFault),
            (CommitFault::BadStore(77), PageRefusal::BadStore(77)),
            (CommitFault::NoMemory, PageRefusal::NoMemory),
        ] {
            let got = stumbled(alloc, Iterator4::TrimHorizon, 10, fails, fault);
            assert!(rt; got == Ok((Some(want), fails)));
        }
    }
}

#[test]
fn no_commit_is_read_but_those_of_the_page(rt: HostRuntime) {
    for (iterator, limit, calls) in [
        (Iterator4::TrimHorizon, 10, 3),
        (Iterator4::TrimHorizon, 3, 2),
        (Iterator4::TrimHorizon, 2, 1),
        (Iterator4::Latest, 10, 1),
        (Iterator4::At(2, 1), 1, 1),
        (Iterator4::At(1, 999), 1, 2),
        (Iterator4::After(2, 1), 10, 2),
    ] {
        let got = stumbled(rt.alloc(), iterator, limit, 9, CommitFault::StoreFault);
        assert!(rt; got == Ok((None, calls)));
    }
}

// A commit as another crate may keep it.
#[derive(Drop)]
struct Kept {
    job: u32,
    moment: u64,
    changes: List<Change>,
}

fn commit_at(alloc: Global, kept: &[Kept], index: usize) -> Result<Commit, NoMemory>
    requires { index < length kept.now }
    ensures { IfOk result (λ commit.
        slice_get (map (λ k. record { moment = k.moment; changes = k.changes }) kept.now) index
        ≡ Some commit) }
{
    let kept = &kept[index];
    Ok(Commit {
        moment: kept.moment,
        changes: copy_changes(alloc, &kept.changes)?,
    })
}

// A reader over commits that it borrows.
#[derive(Drop)]
struct Borrowed<'a> {
    alloc: Global,
    kept: &'a [Kept],
}

impl<'a> Model for Borrowed<'a> {
    ghost use Rattle.std.specs.Prelude.{List, map};
    ghost use Rattle.std.specs.List.{All};
    ghost use Rattle.bl_stream.specs.declared.commit.Commit.{Commit as CommitRecord};
    ghost use Rattle.bl_stream.specs.Readers.{IsCommit};

    ghost Value = { List CommitRecord };

    ghost view = { λ it. map (λ k. record { moment = k.moment; changes = k.changes }) it.kept.now };

    ghost invariant = { λ it. All IsCommit
        (map (λ k. record { moment = k.moment; changes = k.changes }) it.kept.now) };
}

impl<'a> CommitReader for Borrowed<'a> {
    ghost use Rattle.std.specs.Prelude.{Some};

    ghost commits = { λ it. Some it };

    ghost faults = { λ _. 0 };

    fn commit(&mut self, number: u64) -> Result<Commit, CommitFault> {
        Ok(commit_at(self.alloc, self.kept, (number - 1) as usize)?)
    }
}

// The page of two commits that are lent.
fn page_of_kept(alloc: Global, kept: &[Kept]) -> Result<Page, PageRefusal>
    requires two { 2 ≤ length kept.now }
    requires valid { All IsCommit
        (map (λ k. record { moment = k.moment; changes = k.changes }) kept.now) }
{
    let mut reader = Borrowed { alloc, kept };
    let ask = PageAsk {
        iterator: Iterator4::TrimHorizon,
        limit: 10,
    };
    Stream::over(1, 2).page(alloc, &mut reader, &ask)
}

fn lent_page(alloc: Global) -> Result<Page, PageRefusal> {
    let first = Kept {
        job: 1,
        moment: 7,
        changes: labels(alloc, ["v1", "v2"])?,
    };
    let second = Kept {
        job: 2,
        moment: 9,
        changes: and(List::new(alloc), edge(alloc)?)?,
    };
    let kept = [first, second];
    page_of_kept(alloc, &kept)
}

#[test]
fn commits_can_be_lent_from_where_they_are_kept(rt: HostRuntime) {
    let page = lent_page(rt.alloc()).expect(&rt, "a page");
    let text = shown(rt.alloc(), &page).expect(&rt, "memory");
    assert!(rt; text.as_str() == "1.1@7 1.2@7! 2.1@9! ");
}
