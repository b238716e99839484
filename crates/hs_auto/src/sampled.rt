//! What comes of a sample.

use hs_base::Laterals;

/// Whether a sample fires, and with which laterals.
#[derive(Clone, Copy, PartialEq, Eq)]
pub enum Sampled {
    Quiet,
    Fired { laterals: Laterals },
}
