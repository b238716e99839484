//! How a test says which of its rows is not as it should be. A row answers whether all came out as wanted, or that its client was not
//! made.

use hs_node_client::MakeFault;
use std::process::Abort;

/// Stops at a row that is not as wanted, and names it.
pub(crate) fn row<R: Abort>(rt: &R, name: &str, came: Result<bool, MakeFault>) {
    if !matches!(came, Ok(true)) {
        panic!(rt; "the row is not as wanted: {name}");
    }
}
