//! Tests of `bl_engine` over its public calls. They stand apart so that they are proved as any caller is,
//! and the functions of `bl_engine` once.
#![tactic(auto)]

#[cfg(test)]
mod call_tests;
#[cfg(test)]
mod fault_tests;
#[cfg(test)]
mod lying_disk;
#[cfg(test)]
mod stored_tests;
#[cfg(test)]
mod test_calls;
#[cfg(test)]
mod test_loads;
#[cfg(test)]
mod test_stores;
