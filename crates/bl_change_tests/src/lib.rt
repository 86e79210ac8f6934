//! Tests of `bl_change` over its public calls. They stand apart so that they are proved as any caller is,
//! and the functions of `bl_change` once.
#![tactic(auto)]

#[cfg(test)]
mod read_tests;
#[cfg(test)]
mod tests;
