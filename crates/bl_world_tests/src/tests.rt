// Entries followed and refused, and what is told of the world.
ghost use Rattle.std.specs.Prelude.{◌≡◌, length, IfOk, IfSome};
ghost use Rattle.bl_entry.specs.Valid.{IsPlan, IsRequest};
ghost use Rattle.bl_job.specs.Batched.{AreValidRows};

use crate::test_entries::{Planned, Step, entry};
use bl_entry::Entry;
use bl_files::{FeedEnd, LoadRequest, PlanResult};
use bl_outside::{Digest, List, NoMemory};
use bl_value::{DigestRow, LogCode, Row};
use bl_world::{
    FollowRefusal, Work, World, entries_lead_to_one_world, load_id_text, load_number,
    streams_give_graphs, worlds_have_jobs,
};
use std::alloc::Global;

// Follows the entry. None: there is no such entry.
fn follow(alloc: Global, world: &mut World, step: Step) -> Option<Result<(), FollowRefusal>> {
    let entry = entry(alloc, step)?;
    if world.entries() == u64::MAX {
        return None;
    }
    Some(world.follow(entry))
}

// The world of these entries, each of which may follow.
fn world_of(alloc: Global, steps: &[Step]) -> Option<World> {
    let mut world = World::empty(alloc, 7);
    for step in steps {
        if follow(alloc, &mut world, *step) != Some(Ok(())) {
            return None;
        }
    }
    Some(world)
}

const ASKED: &[Step] = &[Step::Submit(5, 1, 1, 2, false)];

const RESUMED: &[Step] = &[Step::Submit(5, 1, 1, 1, false)];

const STOPPING: &[Step] = &[
    Step::Submit(5, 1, 1, 2, true),
    Step::Start(6, 1, Planned::Files(&["a", "b"])),
];

const RUNNING: &[Step] = &[
    Step::Submit(5, 1, 1, 2, false),
    Step::Start(6, 1, Planned::Files(&["a", "b"])),
];

const FED: &[Step] = &[
    Step::Submit(5, 1, 1, 2, false),
    Step::Start(6, 1, Planned::Files(&["a", "b"])),
    Step::Batch(6, 1, 1, 0, 2, 0, &[], &["v"]),
];

// Entries that lead to a world, an entry, and whether it may follow.
const RULES: &[(&[Step], Step, bool)] = &[
    (&[], Step::Submit(5, 1, 1, 2, false), true),
    (&[], Step::Submit(5, 2, 2, 2, false), false),
    (&[], Step::Submit(5, 0, 0, 2, false), false),
    (&[], Step::Submit(5, 1, 2, 2, false), false),
    (&[], Step::Submit(5, 1, (7 << 48) + 1, 2, false), true),
    (ASKED, Step::Submit(5, 2, 2, 2, false), false),
    (ASKED, Step::Submit(4, 2, 2, 2, false), false),
    (ASKED, Step::Cancel(6, 1), true),
    (ASKED, Step::Cancel(5, 1), true),
    (ASKED, Step::Cancel(4, 1), false),
    (ASKED, Step::Cancel(6, 2), false),
    (ASKED, Step::Start(6, 1, Planned::Files(&["a", "b"])), true),
    (ASKED, Step::Start(4, 1, Planned::Files(&["a", "b"])), false),
    (ASKED, Step::Start(6, 2, Planned::Files(&["a", "b"])), false),
    (
        RUNNING,
        Step::Start(6, 1, Planned::Files(&["a", "b"])),
        false,
    ),
    (ASKED, Step::Start(6, 1, Planned::Files(&["b", "a"])), false),
    (ASKED, Step::Start(6, 1, Planned::Files(&["a", "a"])), false),
    (ASKED, Step::Start(6, 1, Planned::Files(&[])), true),
    (ASKED, Step::Start(6, 1, Planned::Unread(20)), true),
    (ASKED, Step::Start(6, 1, Planned::Unread(21)), true),
    (ASKED, Step::Start(6, 1, Planned::Unread(23)), true),
    (ASKED, Step::Start(6, 1, Planned::Unread(22)), false),
    (ASKED, Step::Start(6, 1, Planned::None(1)), false),
    (RESUMED, Step::Start(6, 1, Planned::None(1)), true),
    (
        RESUMED,
        Step::Start(6, 1, Planned::Files(&["a", "b"])),
        false,
    ),
    (ASKED, Step::Start(6, 1, Planned::None(2)), true),
    (ASKED, Step::Start(6, 1, Planned::None(3)), true),
    (RUNNING, Step::Batch(6, 1, 1, 0, 2, 0, &[], &["v"]), true),
    (RUNNING, Step::Batch(5, 1, 1, 0, 2, 0, &[], &["v"]), false),
    (ASKED, Step::Batch(6, 1, 1, 0, 2, 0, &[], &["v"]), false),
    (RUNNING, Step::Batch(6, 2, 1, 0, 2, 0, &[], &["v"]), false),
    (RUNNING, Step::Batch(6, 1, 2, 0, 2, 0, &[], &["v"]), false),
    (RUNNING, Step::Batch(6, 1, 0, 0, 2, 0, &[], &["v"]), false),
    (RUNNING, Step::Batch(6, 1, 1, 1, 2, 0, &[], &["v"]), false),
    (FED, Step::Batch(6, 1, 1, 0, 2, 0, &[], &["v"]), false),
    (FED, Step::Batch(6, 1, 1, 2, 2, 0, &[], &["w"]), true),
    (RUNNING, Step::Batch(6, 1, 1, 0, 0, 0, &[], &[]), false),
    (RUNNING, Step::Batch(6, 1, 1, 0, 1000, 0, &[], &["v"]), true),
    (
        RUNNING,
        Step::Batch(6, 1, 1, 0, 1001, 0, &[], &["v"]),
        false,
    ),
    (RUNNING, Step::Batch(6, 1, 1, 0, 2, 2, &[], &["v"]), true),
    (RUNNING, Step::Batch(6, 1, 1, 0, 2, 3, &[], &["v"]), false),
    (
        RUNNING,
        Step::Batch(6, 1, 1, 0, 2, 1, &[(4, 2)], &["v"]),
        true,
    ),
    (
        RUNNING,
        Step::Batch(6, 1, 1, 0, 2, 2, &[(4, 2)], &["v"]),
        false,
    ),
    (
        RUNNING,
        Step::Batch(6, 1, 1, 0, 2, 0, &[(4, 1), (4, 2)], &["v"]),
        true,
    ),
    (
        RUNNING,
        Step::Batch(6, 1, 1, 0, 2, 0, &[(4, 2), (4, 1)], &["v"]),
        false,
    ),
    (
        RUNNING,
        Step::Batch(6, 1, 1, 0, 2, 0, &[(4, 0)], &["v"]),
        false,
    ),
    (
        RUNNING,
        Step::Batch(6, 1, 1, 0, 2, 0, &[(4, 3)], &["v"]),
        false,
    ),
    (
        RUNNING,
        Step::Batch(6, 1, 1, 0, 2, 0, &[(20, 1)], &["v"]),
        false,
    ),
    (STOPPING, Step::Batch(6, 1, 1, 0, 2, 0, &[], &["v"]), true),
    (
        STOPPING,
        Step::Batch(6, 1, 1, 0, 2, 0, &[(4, 1)], &["v"]),
        false,
    ),
    (
        RUNNING,
        Step::Batch(6, 1, 1, 0, 2, 0, &[], &["v", "w"]),
        true,
    ),
    (
        RUNNING,
        Step::Batch(6, 1, 1, 0, 2, 0, &[], &["v", "v"]),
        false,
    ),
    (FED, Step::Batch(6, 1, 1, 2, 2, 0, &[], &["v"]), false),
    (RUNNING, Step::End(7, 1, 1), true),
    (RUNNING, Step::End(5, 1, 1), false),
    (RUNNING, Step::End(7, 1, 2), false),
    (RUNNING, Step::End(7, 2, 1), false),
    (ASKED, Step::End(7, 1, 1), false),
    (STOPPING, Step::Stop(7, 1, 1, (12, 1)), true),
    (RUNNING, Step::Stop(7, 1, 1, (12, 1)), false),
    (STOPPING, Step::Stop(7, 1, 1, (12, 2)), false),
    (STOPPING, Step::Stop(7, 1, 1, (20, 1)), false),
];

#[test]
fn each_sentence_of_the_rules_decides(rt: HostRuntime) {
    for (i, (before, step, fits)) in RULES.iter().enumerate() {
        let mut world = world_of(rt.alloc(), before).expect(&rt, "a world");
        let expected = if *fits {
            Ok(())
        } else {
            Err(FollowRefusal::Unfit)
        };
        assert!(rt;
            follow(rt.alloc(), &mut world, *step) == Some(expected),
            "{i}"
        );
        if *fits {
            assert!(rt; world.entries() == before.len() as u64 + 1, "{i}");
        }
    }
    entries_lead_to_one_world();
    streams_give_graphs();
    worlds_have_jobs();
}

#[test]
fn a_world_is_what_its_entries_lead_to(rt: HostRuntime) {
    let world = world_of(rt.alloc(), FED).expect(&rt, "a world");
    assert!(rt; world.entries() == 3 && world.moment() == 6);
    assert!(rt; world.graph().sizes() == (1, 0, 0));
    assert!(rt; world.jobs().last() == 1);
    let commits = world.commits().as_slice();
    assert!(rt; commits.len() == 1);
    for commit in commits {
        assert!(rt; commit.job == 1 && commit.moment == 6 && commit.changes.len() == 1);
    }
}

const ASKING: Step = Step::Submit(5, 1, 1, 2, false);

const STARTING: Step = Step::Start(6, 1, Planned::Files(&["a", "b"]));

const THREE: &[Step] = &[
    Step::Submit(5, 1, 1, 2, false),
    Step::Queue(5, 2),
    Step::Queue(5, 3),
];

// ---- a small store, call by call

const SALT: u128 = 0x0011_2233_4455_6677_8899_aabb_ccdd_eeff;

// What a Submit asks for.
fn request(alloc: Global) -> Option<LoadRequest>
    ensures { IfSome result IsRequest }
{
    match entry(alloc, ASKING)? {
        Entry::Submit { request, .. } => Some(request),
        _ => None,
    }
}

// The plan of a Start.
fn plan(alloc: Global) -> Option<PlanResult>
    ensures { IfSome result IsPlan }
{
    match entry(alloc, STARTING)? {
        Entry::Start { plan, .. } => Some(plan),
        _ => None,
    }
}

// A record that was refused.
fn one_row(alloc: Global) -> Result<List<DigestRow>, NoMemory>
    ensures valid { IfOk result AreValidRows }
    ensures one { IfOk result (λ rows. length rows ≡ 1) }
{
    let mut rows = List::new(alloc);
    rows.push(DigestRow {
        row: Row::Bad {
            code: LogCode::ColumnCount,
            column: 0,
        },
        digest: Digest { bytes: [3; 32] },
    })?;
    Ok(rows)
}

// None, here and below: memory ran out, or the call may not be made.
fn submit(alloc: Global, world: &mut World, now: u64) -> Option<()> {
    let request = request(alloc)?;
    if world.jobs().check(&request).is_err() || world.entries() == u64::MAX {
        return None;
    }
    let entry = world.submit_entry(now, SALT, request);
    world.take(entry).ok()
}

fn start(alloc: Global, world: &mut World, now: u64) -> Option<()> {
    let plan = plan(alloc)?;
    match world.next_work() {
        Work::Plan {
            job,
            no_previous,
            ..
        } => {
            if no_previous
                || matches!(plan, PlanResult::NoPrevious)
                || !plan.has_rising_names()
                || !plan.has_file_codes()
                || world.entries() == u64::MAX
            {
                return None;
            }
            match world.plan_entry(now, job, plan) {
                Ok(entry) => world.take(entry).ok(),
                Err(_) => None,
            }
        }
        _ => None,
    }
}

fn take_rows(alloc: Global, world: &mut World, now: u64) -> Option<()> {
    let rows = one_row(alloc).ok()?;
    match world.next_work() {
        Work::Continue { job, feed, from } => {
            if from > 1000 || world.entries() == u64::MAX {
                return None;
            }
            match world.rows_entry(now, job, feed, from, &rows) {
                Ok(entry) => world.take(entry).ok(),
                Err(_) => None,
            }
        }
        _ => None,
    }
}

fn end(world: &mut World, now: u64) -> Option<()> {
    match world.next_work() {
        Work::Continue { job, feed, .. } => {
            if world.entries() == u64::MAX {
                return None;
            }
            let entry = world.end_entry(now, job, feed, FeedEnd::Completed);
            world.take(entry).ok()
        }
        _ => None,
    }
}

#[test]
fn a_load_id_is_made_of_the_salt_and_the_number(rt: HostRuntime) {
    let text = load_id_text(rt.alloc(), SALT, 1).expect(&rt, "memory");
    assert!(rt; text.as_slice() == b"00112233-4455-4677-8899-000000000001".as_slice());
    assert!(rt; load_number(SALT, 1) == 0x0011_2233_4455_4677_8899_0000_0000_0001);
}

#[test]
fn work_goes_along_a_small_store(rt: HostRuntime) {
    let mut world = World::empty(rt.alloc(), 7);
    assert!(rt; world.next_work() == Work::Idle);
    let task = world.task().expect(&rt, "memory");
    assert!(rt; task.work == Work::Idle && task.request.is_none() && task.feed.is_none());
    assert!(rt; submit(rt.alloc(), &mut world, 3) == Some(()));
    assert!(rt;
        world.next_work()
            == Work::Plan {
                job: 1,
                previous: 0,
                no_previous: false
            }
    );
    assert!(rt; start(rt.alloc(), &mut world, 2) == Some(()) && world.moment() == 3);
    assert!(rt;
        world.next_work()
            == Work::Continue {
                job: 1,
                feed: 1,
                from: 0
            }
    );
    assert!(rt; take_rows(rt.alloc(), &mut world, 4) == Some(()));
    assert!(rt;
        world.next_work()
            == Work::Continue {
                job: 1,
                feed: 1,
                from: 1
            }
    );
    let task = world.task().expect(&rt, "memory");
    assert!(rt; task.request.is_some() && task.previous.is_empty() && !task.no_previous);
    match &task.feed {
        Some(feed) => assert!(rt; feed.taken == 1 && feed.name.as_slice() == b"a".as_slice()),
        None => assert!(rt; false),
    }
    assert!(rt; end(&mut world, 5) == Some(()));
    assert!(rt;
        world.next_work()
            == Work::Continue {
                job: 1,
                feed: 2,
                from: 0
            }
    );
    assert!(rt; end(&mut world, 5) == Some(()) && world.next_work() == Work::Idle);
    assert!(rt; world.entries() == 5 && world.commits().is_empty());
}

#[test]
fn ids_are_listed_with_the_queue_first(rt: HostRuntime) {
    let world = world_of(rt.alloc(), THREE).expect(&rt, "a world");
    let cases: [(u32, bool, &[u128]); 4] = [
        (9, true, &[3, 2, 1]),
        (9, false, &[1]),
        (2, true, &[3, 2]),
        (0, true, &[]),
    ];
    for (limit, queued, expected) in cases {
        let ids = world.list(limit, queued).expect(&rt, "memory");
        assert!(rt; ids.as_slice() == expected, "{limit} {queued}");
    }
}
