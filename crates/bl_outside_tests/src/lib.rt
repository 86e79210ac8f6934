//! Tests of `bl_outside` over its public calls. They stand apart so that they are proved as any caller is,
//! and the functions of `bl_outside` once.
#![tactic(auto)]

#[cfg(test)]
mod listener_tests;
#[cfg(test)]
mod tests;
