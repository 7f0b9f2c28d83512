//! The statements that a module and a class admit, and what they define.
//!
//! [`member_of`] and [`method_of`] tell what a statement of a module or of a class defines, and [`methods`] has the
//! statements of a class. [`is_constant`] decides what may be the value of a constant and a default, and [`bare`] looks
//! through brackets. [`is_builtin`] and [`is_exception`] know the names that no module may define, and [`is_private`] those
//! that are left out.
#![tactic(auto)]

mod brackets;
mod constants;
mod given;
mod lines;
mod main_test;
mod members;
#[cfg(test)]
mod tests;

pub use brackets::bare;
pub use constants::is_constant;
pub use given::{is_builtin, is_exception, is_given, is_private};
pub use lines::{line_of, line_of_expression};
pub use main_test::is_main_test;
pub use members::{Member, member_of, method_of, methods};
