//! What a `print` gives.

use chan_values::{ErrorCode, Text};

/// The text of a `print`, or the error that it raises.
#[derive(Debug, Drop)]
pub enum Printing {
    Printed(Text),
    Raises(ErrorCode),
}
