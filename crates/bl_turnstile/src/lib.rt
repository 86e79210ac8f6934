//! One value that many threads use in turns, and what each of them has seen of it.
//!
//! The value is [`Told`]: it stands for a list of entries, to which each turn may add. A caller
//! holds a [`Pass`], which knows two things: `seen`, the entries that its holder was told of, and
//! `mine`, the numbers of those that it added itself. [`Turnstile::enter`] draws a ticket and waits
//! until it is served. The value then stands for a list that begins with all that the pass has
//! seen. Before [`Turnstile::leave`] the caller shows that the value still stands for a list that
//! begins with that one; then this is what the pass has seen, and just the numbers that were added
//! are new in `mine`. So whatever a caller does happens after a list of entries that begins with
//! all that it had seen, and has the caller's own entries, each once.
//!
//! Nothing is promised of progress: not that a ticket is ever served, nor in what time.
//!
//! Words of the contracts: `specs/Entries`, `specs/Passes`. What the atomic steps keep, in five
//! clauses, stands in `specs/Rule`, what each kind of step tells in `specs/Plays`.
//! This crate stands on `bl_outside` and on `atomic_table`, whose every step is sequentially
//! consistent.
#![tactic(auto)]

mod inside;
mod pass;
mod standing;
mod told;
mod turns;
mod turnstile;

pub use inside::Inside;
pub use pass::Pass;
pub use told::Told;
pub use turnstile::Turnstile;
