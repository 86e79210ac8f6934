//! Tests of `bl_rows` over its public calls. They stand apart so that they are proved as any caller is,
//! and the functions of `bl_rows` once.
#![tactic(auto)]

#[cfg(test)]
mod csv_tests;
#[cfg(test)]
mod file_tests;
#[cfg(test)]
mod row_lines;
#[cfg(test)]
mod row_tests;
