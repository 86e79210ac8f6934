//! Tests of `bl_system` over its public calls. They stand apart so that they are proved as any caller is,
//! and the functions of `bl_system` once.
#![tactic(auto)]

#[cfg(test)]
mod stumbling;
#[cfg(test)]
mod tcp_tests;
#[cfg(test)]
mod tests;
