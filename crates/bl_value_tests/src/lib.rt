//! Tests of `bl_value` over its public calls. They stand apart so that they are proved as any caller is,
//! and the functions of `bl_value` once.
#![tactic(auto)]

#[cfg(test)]
mod array_tests;
#[cfg(test)]
mod tests;
