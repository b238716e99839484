//! What made workloads are, as the contract of a function that does nothing.

ghost use Rattle.std.specs.Prelude.{ℕ, ◌≤◌};
ghost use Rattle.hs_base.specs.declared.limits.TheConstants.{MAX_REQUESTS};
ghost use Rattle.hs_records.specs.Validity.{IsValid};
ghost use Rattle.hs_make.specs.Made.{made_workload};

/// Whatever the seed, a workload that is made of so many requests as may be is valid.
pub fn made_workloads_are_valid()
    ensures { (seed size : ℕ) → size ≤ MAX_REQUESTS → IsValid (made_workload seed size) }
{}
