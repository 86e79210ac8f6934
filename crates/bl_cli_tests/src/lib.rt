//! Tests of `bl_cli` over its public calls. They stand apart so that they are proved as any caller is,
//! and the functions of `bl_cli` once.
#![tactic(auto)]

#[cfg(test)]
mod clock_tests;
#[cfg(test)]
mod fault_tests;
#[cfg(test)]
mod refusal_tests;
#[cfg(test)]
mod resume_tests;
#[cfg(test)]
mod run_tests;
#[cfg(test)]
mod script_tests;
#[cfg(test)]
mod show_tests;
#[cfg(test)]
mod stop_tests;
#[cfg(test)]
mod test_runs;
