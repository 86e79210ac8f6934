//! Tests of `bl_script` over its public calls.
#![tactic(auto)]

#[cfg(test)]
mod script_tests;
