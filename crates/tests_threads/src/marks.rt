//! Marks that threads set, one for each stamp of a pool.

use std::alloc::{AllocError, Global};
use std::sync::atomic::{AtomicU64, Ordering};

/// So many marks, of which none is set.
pub(crate) fn marks_of(alloc: Global, count: u32) -> Result<Vec<AtomicU64>, AllocError> {
    let mut marks = Vec::new(alloc);
    for _ in 0..count {
        marks.push(AtomicU64::new(0))?;
    }
    Ok(marks)
}

/// Sets the mark of a stamp.
pub(crate) fn mark(marks: &[AtomicU64], stamp: u64) {
    if let Some(mark) = marks.get(stamp as usize) {
        mark.fetch_add(1, Ordering::SeqCst);
    }
}

/// Whether the marks of the stamps below `count` were set once each, and no other one.
pub(crate) fn are_set(marks: &[AtomicU64], count: u64) -> bool {
    let mut right = count <= marks.len() as u64;
    for (stamp, mark) in marks.iter().enumerate() {
        right &= mark.load(Ordering::SeqCst) == u64::from((stamp as u64) < count);
    }
    right
}
