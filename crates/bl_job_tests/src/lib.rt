//! Tests of `bl_job` over its public calls. They stand apart so that they are proved as any caller is,
//! and the functions of `bl_job` once.
#![tactic(auto)]

#[cfg(test)]
mod test_rows;
#[cfg(test)]
mod tests;
