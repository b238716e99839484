//! The text of a comparison.

ghost use Rattle.std.specs.Prelude.{◌≡◌, [], ◌∷◌, ◌++◌, decimal, IfOk, OnOk};
ghost use Rattle.hs_text.specs.Writing.{spaced};
ghost use Rattle.hs_compare.specs.ComparisonText.{sampler_line, rest_line, comparison_text};
ghost use Rattle.hs_compare.specs.Plain.{plain_line, plain_comparison};

use crate::comparison::Comparison;
use crate::lines::Line;
use hs_base::{Bytes, Memory};
use hs_text::{end_line, push_spaced, push_spaced_number};
use std::alloc::Global;

/// Appends a word and a number, each behind a space.
fn push_count(out: &mut Vec<u8>, word: &[u8], count: u64) -> Result<(), Memory>
    ensures { OnOk result (out.new.items ≡ out.old.items ++ spaced (word.now ∷ decimal count ∷ [])) }
{
    push_spaced(out, word)?;
    push_spaced_number(out, count)
}

/// Appends the line of the sampler that has this name.
fn push_line(out: &mut Vec<u8>, name: &[u8], line: &Line) -> Result<(), Memory>
    ensures { OnOk result (out.new.items ≡ out.old.items ++ (sampler_line name.now (plain_line line.now) ++ 10 ∷ [])) }
{
    out.extend_from_slice(name)?;
    push_count(out, b"records", u64::from(line.records))?;
    push_count(out, b"traces", u64::from(line.traces))?;
    push_count(out, b"whole", u64::from(line.whole))?;
    push_count(out, b"shipped", line.shipped)?;
    end_line(out)
}

/// Appends the line that says where the rest went.
fn push_rest(out: &mut Vec<u8>, gap: u32, limited: u32) -> Result<(), Memory>
    ensures { OnOk result (out.new.items ≡ out.old.items ++ (rest_line gap limited ++ 10 ∷ [])) }
{
    out.extend_from_slice(b"rest")?;
    push_count(out, b"gap", u64::from(gap))?;
    push_count(out, b"limited", u64::from(limited))?;
    end_line(out)
}

/// The text of a comparison (`docs/FORMATS.md`, "The program"). The one error is want of memory.
pub fn write_comparison(alloc: Global, comparison: &Comparison) -> Result<Bytes, Memory>
    ensures { IfOk result (λ text. text.items ≡ comparison_text (plain_comparison comparison.now)) }
{
    let mut out = Vec::new(alloc);
    push_line(&mut out, b"head", &comparison.head)?;
    push_line(&mut out, b"tail", &comparison.tail)?;
    push_line(&mut out, b"ring", &comparison.ring)?;
    push_line(&mut out, b"hindsight", &comparison.hindsight)?;
    push_rest(&mut out, comparison.gap, comparison.limited)?;
    out.extend_from_slice(b"done\n")?;
    Ok(Bytes::from_vec(out))
}
