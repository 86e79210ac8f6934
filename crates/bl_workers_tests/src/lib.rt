//! Tests of `bl_workers` over its public calls. They stand apart so that they are proved as any caller is,
//! and the functions of `bl_workers` once.
#![tactic(auto)]

#[cfg(test)]
mod tests;
