//! What a call of a value or of one of its members calls. Takes no memory.
#![tactic(auto)]

mod built_in;
mod function;
mod member;
mod member_call;

pub use built_in::{BuiltInCall, built_in_called};
pub use function::{FunctionCall, function_called, number_called};
pub use member::member_called;
pub use member_call::MemberCall;
