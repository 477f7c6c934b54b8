//! Classes: the built-in classes, which every set has without a file, and the numbers of their native methods.
//!
//! To the layers above it promises: [`builtin`] gives the class file that the row of that name stands for by `made` of
//! `specs/Classes.antt`, or `None` exactly where no row has the name, unless memory runs out; [`builtin_at`] the same of a row by
//! its place. [`builtin_law`] says what holds of all rows: each is found by its own name, no two have one, each is public, its code
//! is sound, and its supers are built-in classes of the right kind that stand before it. [`native_method`] and [`native_number`] look up the native
//! methods of a class, without memory, and [`native_law`] says that a number is one native method, and that each native method of a
//! built-in class has one. The table itself is [`TABLE`], a line for each class, super and member.
#![tactic(auto)]

mod classes;
mod index;
mod laws;
mod make;
mod native_methods;
mod natives;
mod parts;
mod rows;
mod table;

pub use classes::{builtin, builtin_at};
pub use laws::{builtin_law, native_law};
pub use native_methods::{native_at, native_method, native_number};
pub use natives::{NATIVES, Native};
pub use table::{CLASSES, Sort, TABLE};
