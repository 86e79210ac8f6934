//! Tests of `bl_graph` over its public calls. They stand apart so that they are proved as any caller is,
//! and the functions of `bl_graph` once.
#![tactic(auto)]

#[cfg(test)]
mod seed_tests;
#[cfg(test)]
mod test_rows;
#[cfg(test)]
mod tests;
