//! Tests of `bl_header` over its public calls. They stand apart so that they are proved as any caller is,
//! and the functions of `bl_header` once.
#![tactic(auto)]

#[cfg(test)]
mod tests;
