//! How a test says which of its rows is not as it should be. A row answers whether all came out as wanted, or that memory was wanting.
//! One test for each file runs all rows of that file: what a test costs beside its rows is more than a row.

use hs_base::Memory;
use std::process::Abort;

/// Stops at a row that is not as wanted, and names it.
pub(crate) fn row<R: Abort>(rt: &R, name: &str, came: Result<bool, Memory>) {
    if !matches!(came, Ok(true)) {
        panic!(rt; "the row is not as wanted: {name}");
    }
}
