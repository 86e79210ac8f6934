//! Tests of `bl_snapshot` over its public calls. They stand apart so that they are proved as any caller is,
//! and the functions of `bl_snapshot` once.
#![tactic(auto)]

#[cfg(test)]
mod tests;
