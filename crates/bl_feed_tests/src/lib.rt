//! Tests of `bl_feed` over its public calls. They stand apart so that they are proved as any caller is,
//! and the functions of `bl_feed` once.
#![tactic(auto)]

#[cfg(test)]
mod parameter_tests;
#[cfg(test)]
mod tests;
