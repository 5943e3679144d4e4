//! Operators, and functions and methods of numbers and texts: what needs no object, no node and no port.
#![tactic(auto)]

mod arithmetic;
mod bits;
mod comparison;
mod deciding;
mod fit;
mod function;
mod functions;
mod limits;
mod method;
mod methods;
mod names;
mod numerals;
mod operand;
mod operator;
mod operators;
mod outcome;
mod pair;
mod parts;
mod places;
mod shape;
mod trim;

pub use deciding::{condition, decides_and, decides_or};
pub use fit::{Fit, ValueType, fit_value};
pub use function::PlainFunction;
pub use functions::call_function;
pub use limits::LONGEST_TEXT;
pub use method::PlainMethod;
pub use methods::{call_method, has_method, member_error};
pub use names::{function_named, method_named, value_beside};
pub use operand::Operand;
pub use operator::{Operator, UnaryOperator};
pub use operators::{operate, operate_alone};
pub use outcome::Outcome;
pub use shape::{Argument, Shape, argue, one_shape, three_shape, two_shape};
