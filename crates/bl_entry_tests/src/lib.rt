//! Tests of `bl_entry` over its public calls. They stand apart so that they are proved as any caller is,
//! and the functions of `bl_entry` once.
#![tactic(auto)]

#[cfg(test)]
mod tests;
