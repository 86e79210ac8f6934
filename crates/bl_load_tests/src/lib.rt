//! Tests of `bl_load` over its public calls. They stand apart so that they are proved as any caller is,
//! and the functions of `bl_load` once.
#![tactic(auto)]

#[cfg(test)]
mod cancel_tests;
#[cfg(test)]
mod change_tests;
#[cfg(test)]
mod resume_tests;
#[cfg(test)]
mod test_loader;
#[cfg(test)]
mod test_texts;
#[cfg(test)]
mod tests;
#[cfg(test)]
mod turn_tests;
