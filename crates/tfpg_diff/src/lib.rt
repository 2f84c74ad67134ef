//! Difference systems: constraints `left - right <= bound` over whole milliseconds, with the latest solution always at
//! hand, or a negative cycle that shows why there is none.
//!
//! - [`System`] has some variables, a lower and an upper bound of each, and a stack of picks. [`System::raise`],
//!   [`System::lower`] and [`System::push`] add to it, [`System::pop_to`] takes picks off again, and
//!   [`System::solution`] lends the latest solution.
//! - [`Conflict`] is returned where there would be no solution; [`System::cycle`] then lends the tags, [`Why`], of
//!   constraints that chain into a cycle whose bounds sum up to less than 0.
//! - [`Bounds`], [`Pick`] and [`Demand`] are what contracts see of a system; [`laws`] says what its tags name. A system counts the calls
//!   that add to it, for contracts alone: [`CountedCalls`].
//!
//! In [`tfpg_base::Constraint`] number 0 is the constant zero and the variable `v` is number `v + 1`; `raise` and `lower`
//! take the variable itself. Here variable 0 is at least 5 and variable 1 at least 4 more. So variable 1 is at least 9,
//! which its upper bound does not allow:
//!
//! ```
//! let mut system = System::new(alloc, 2)?;
//! system.reserve(1)?;
//! let _ = system.raise(0, 5, 50, &mut work);
//! let _ = system.lower(1, 7, 70, &mut work);
//! let after = Constraint { left: 1, right: 2, most: -4 };
//! assert!(rt; system.push(after, 45, &mut work).is_err());
//! assert_eq!(rt; system.cycle(), [Why::Given(45), Why::Given(70), Why::Given(50)].as_slice());
//! ```
//!
//! The system keeps a value for each variable and the demand that the value comes from, and lowers values until no
//! constraint is broken (Bellman and Ford; Dechter, Meiri and Pearl on simple temporal problems; Cotton and Maler on
//! adding constraints one by one). `docs/difference-systems.md` says why this is right.
//!
//! No call but [`System::new`], [`System::copy`] and [`System::reserve`] takes memory.
//!
//! # Proved, and by which clause
//!
//! - A bound is kept or a negative cycle named: `System::push`, `raise`, `lower`, `adds`.
//! - The latest solution: `solution`, `latest`.
//! - A copy demands the same and lends no tags: `System::copy`.
//! - Each call that adds is counted: `counted`. The system stays the one that it is: `identity`.
//!
//! # Not proved
//!
//! - How many steps a call takes in all.
#![tactic(auto)]

mod bounds;
mod counted_calls;
mod demand;
mod labels;
pub mod laws;
mod link;
mod passes;
mod pick;
mod relax;
mod system;
mod trail;
mod walk;
mod why;

pub use bounds::Bounds;
pub use counted_calls::CountedCalls;
pub use demand::Demand;
pub use pick::Pick;
pub use system::System;
pub use why::{Conflict, Why};
