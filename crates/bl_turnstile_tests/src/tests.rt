// What no clause says: that each number that threads add comes out once, whatever their schedule.
ghost use Rattle.std.specs.Prelude.{◌≡◌, ◌∷◌, ◌++◌, [], ℕ, List, map};
ghost use Rattle.std.specs.Thread.{IsSync};
ghost use Rattle.bl_turnstile.specs.Passes.{IsPassOf};

use bl_turnstile::{Pass, Told, Turnstile};
use std::sync::Wait;
use std::thread::{Threads, join};

// How often each thread enters.
const TURNS: u64 = 1000;

// Numbers in the order in which they came.
#[derive(Drop)]
struct Log {
    numbers: Vec<u64>,
}

impl Told for Log {
    ghost first = { [] };

    ghost stands = { λ log from entries. entries ≡ map (λ number. number ∷ []) log.numbers.items };

    fn seq(&self) -> u64 {
        self.numbers.len() as u64
    }
}

impl Log {
    // Adds a number, if there is memory.
    fn push(&mut self, number: u64)
        ensures { (rest : List ℕ) × (self.new.numbers.items ≡ self.old.numbers.items ++ rest) }
    {
        let _ = self.numbers.push(number);
    }
}

// One number more.
fn add<R: Wait>(rt: &R, log: &Turnstile<Log>, pass: Pass, number: u64) -> Pass
    requires { IsPassOf log.now pass }
    ensures { IsPassOf log.now result }
{
    let mut inside = log.enter(rt, pass);
    inside.value().push(number);
    log.leave(inside)
}

// The numbers of one thread: a thousand from this one on.
fn add_all<R: Wait>(rt: &R, log: &Turnstile<Log>, mut pass: Pass, first: u64) -> Pass
    requires { IsPassOf log.now pass }
    ensures { IsPassOf log.now result }
{
    for number in 0..TURNS {
        pass = add(rt, log, pass, first.saturating_add(number));
    }
    pass
}

// The numbers of two threads.
fn add_by_two<R: Threads + Wait + Sync>(
    rt: &R,
    log: &Turnstile<Log>,
    pass: Pass,
    first: u64,
) -> Pass
    requires { IsPassOf log.now pass }
    ensures { IsPassOf log.now result }
{
    let (pass, other) = match log.split(pass) {
        Ok(both) => both,
        Err((_, pass)) => return pass,
    };
    let second = first.saturating_add(TURNS);
    let (pass, other) = join(
        rt,
        || add_all(rt, log, pass, first),
        || add_all(rt, log, other, second),
    );
    log.join(pass, other)
}

// The numbers of eight threads.
fn add_by_eight<R: Threads + Wait + Sync>(rt: &R, log: &Turnstile<Log>, pass: Pass) -> Pass
    requires { IsPassOf log.now pass }
    ensures { IsPassOf log.now result }
{
    let (pass, other) = match log.split(pass) {
        Ok(both) => both,
        Err((_, pass)) => return pass,
    };
    let (pass, other) = join(
        rt,
        || -> Pass
            requires { IsSync R.row × IsPassOf log.now pass }
            ensures { IsPassOf log.entry.now result }
        { add_by_four(rt, log, pass, 0) },
        || -> Pass
            requires { IsSync R.row × IsPassOf log.now other }
            ensures { IsPassOf log.entry.now result }
        { add_by_four(rt, log, other, 4 * TURNS) },
    );
    log.join(pass, other)
}

fn add_by_four<R: Threads + Wait + Sync>(
    rt: &R,
    log: &Turnstile<Log>,
    pass: Pass,
    first: u64,
) -> Pass
    requires { IsPassOf log.now pass }
    ensures { IsPassOf log.now result }
{
    let (pass, other) = match log.split(pass) {
        Ok(both) => both,
        Err((_, pass)) => return pass,
    };
    let second = first.saturating_add(2 * TURNS);
    let (pass, other) = join(
        rt,
        || -> Pass
            requires { IsSync R.row × IsPassOf log.now pass }
            ensures { IsPassOf log.entry.now result }
        { add_by_two(rt, log, pass, first) },
        || -> Pass
            requires { IsSync R.row × IsPassOf log.now other }
            ensures { IsPassOf log.entry.now result }
        { add_by_two(rt, log, other, second) },
    );
    log.join(pass, other)
}

// Each of so many threads has its thousand numbers there, in order, and nothing else is there.
fn has_all(log: &Log, threads: u64) -> bool {
    let mut each_in_order = true;
    for thread in 0..threads {
        let own = log
            .numbers
            .iter()
            .filter(|number| **number / TURNS == thread);
        let mut next = thread.saturating_mul(TURNS);
        for number in own {
            each_in_order = each_in_order && *number == next;
            next = next.saturating_add(1);
        }
        each_in_order = each_in_order && next == thread.saturating_add(1).saturating_mul(TURNS);
    }
    each_in_order && log.seq() == threads.saturating_mul(TURNS)
}

#[test]
fn two_threads_have_each_number_once_and_in_order(rt: HostRuntime) {
    let empty = Log {
        numbers: Vec::new(rt.alloc()),
    };
    match Turnstile::new(rt.alloc(), empty) {
        Ok((turnstile, pass)) => {
            let pass = add_by_two(&rt, &turnstile, pass, 0);
            let log = turnstile.close(&rt, pass);
            assert!(rt; has_all(&log, 2));
        }
        Err(_) => assert!(rt; false),
    }
}

#[test]
fn eight_threads_have_each_number_once_and_in_order(rt: HostRuntime) {
    let empty = Log {
        numbers: Vec::new(rt.alloc()),
    };
    match Turnstile::new(rt.alloc(), empty) {
        Ok((turnstile, pass)) => {
            let pass = add_by_eight(&rt, &turnstile, pass);
            let log = turnstile.close(&rt, pass);
            assert!(rt; has_all(&log, 8));
        }
        Err(_) => assert!(rt; false),
    }
}

#[test]
fn halves_of_a_pass_enter_one_after_another(rt: HostRuntime) {
    let empty = Log {
        numbers: Vec::new(rt.alloc()),
    };
    match Turnstile::new(rt.alloc(), empty) {
        Ok((turnstile, pass)) => match turnstile.split(pass) {
            Ok((first, second)) => {
                let second = add(&rt, &turnstile, second, 7);
                let first = add(&rt, &turnstile, first, 8);
                let pass = turnstile.join(first, second);
                let log = turnstile.close(&rt, pass);
                assert!(rt; log.numbers.as_slice() == [7, 8].as_slice());
                assert_eq!(rt; log.seq(), 2);
            }
            Err((_, pass)) => {
                let _ = turnstile.close(&rt, pass);
                assert!(rt; false);
            }
        },
        Err(_) => assert!(rt; false),
    }
}
