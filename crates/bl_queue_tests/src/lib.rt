//! Tests of `bl_queue` over its public calls. They stand apart so that they are proved as any caller is,
//! and the functions of `bl_queue` once.
#![tactic(auto)]

#[cfg(test)]
mod queue_tests;
#[cfg(test)]
mod running_tests;
#[cfg(test)]
mod test_jobs;
