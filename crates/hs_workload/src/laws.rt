//! Laws of the grammar and its refusals, each the contract of a function that does nothing.

ghost use Rattle.std.specs.Prelude.{◌≡◌, ℕ, List, None};
ghost use Rattle.hs_records.specs.Plain.{PlainWorkload};
ghost use Rattle.hs_base.specs.Ranges.{Within};
ghost use Rattle.hs_records.specs.Validity.{IsValid};
ghost use Rattle.hs_workload.specs.Grammar.{Reads, workload_text};
ghost use Rattle.hs_workload.specs.Versions.{FitsVersion};
ghost use Rattle.hs_workload.specs.Faults.{first_fault};

/// A text has no fault exactly where it reads as a workload.
pub fn faultless_texts_read()
    ensures reads { (text : List ℕ) → first_fault text ≡ None → (W : PlainWorkload) × Reads text W }
    ensures clean { (text : List ℕ) (W : PlainWorkload) → Reads text W → first_fault text ≡ None }
{}

/// A text reads as at most one workload, and a valid workload has a text.
pub fn one_workload_a_text()
    ensures once { (text : List ℕ) (V W : PlainWorkload) → Reads text V → Reads text W → V ≡ W }
    ensures some { (W : PlainWorkload) → IsValid W → Reads (workload_text W) W }
{}

/// A valid workload is valid with version 2, and with either version that the traces it names fit.
pub fn versions_are_exchanged()
    ensures fits { (version : ℕ) (W : PlainWorkload) → Within 1 2 version → IsValid W → FitsVersion version W
        → IsValid (record W { version = version }) }
    ensures widens { (W : PlainWorkload) → IsValid W → IsValid (record W { version = 2 }) }
{}
