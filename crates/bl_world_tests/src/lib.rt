//! Tests of `bl_world` over its public calls. They stand apart so that they are proved as any caller is,
//! and the functions of `bl_world` once.
#![tactic(auto)]

#[cfg(test)]
mod test_entries;
#[cfg(test)]
mod tests;
