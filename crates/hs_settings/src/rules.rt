//! The rules that lines declare, within their limits.

ghost use Rattle.std.specs.Prelude.{◌≡◌, false};
ghost use Rattle.hs_settings.specs.Statements.{auto_rule, trigger_rule};
ghost use Rattle.hs_base.specs.Ranges.{is_out};
ghost use Rattle.hs_settings.specs.Faults.{is_rule_out, is_auto_out};

use crate::numbers::Numbers;
use crate::word::Kind;
use hs_base::limits::{
    MAX_BURST, MAX_LATERALS, MAX_RATE, MAX_TRIGGER, MAX_WEIGHT, MAX_WINDOW, MIN_WINDOW, WHOLE_SHARE,
};
use hs_base::{AutoRule, TriggerId};

/// Whether a trigger id or its rule is beyond its limits.
pub fn is_rule_out(numbers: Numbers) -> bool
    ensures { result ≡ is_rule_out (trigger_rule numbers) }
{
    is_out(1, u64::from(MAX_TRIGGER), numbers.first)
        || is_out(1, u64::from(MAX_WEIGHT), numbers.second)
        || is_out(1, u64::from(MAX_BURST), numbers.third)
        || u64::from(MAX_RATE) < numbers.fourth
}

/// Whether the rule of an autotrigger is beyond its limits.
pub fn is_auto_out(kind: Kind, numbers: Numbers) -> bool
    ensures { result ≡ is_auto_out (auto_rule kind numbers) }
{
    if matches!(kind, Kind::Exception) {
        return false;
    }
    is_out(u64::from(MIN_WINDOW), u64::from(MAX_WINDOW), numbers.second)
        || numbers.third < 1
        || u64::from(WHOLE_SHARE) <= numbers.third
        || (matches!(kind, Kind::Queue) && is_out(1, MAX_LATERALS as u64, numbers.fourth))
}

/// Whether a number is below the least or above the most.
pub fn is_out(least: u64, most: u64, number: u64) -> bool
    ensures { result ≡ is_out least most number }
{
    number < least || most < number
}

/// The rule of an autotrigger that fires this trigger.
pub fn rule_of(kind: Kind, trigger: TriggerId, numbers: Numbers) -> AutoRule
    requires same { trigger.0 ≡ numbers.first }
    requires within { is_auto_out (auto_rule kind numbers) ≡ false }
    ensures { result ≡ auto_rule kind numbers }
{
    match kind {
        Kind::Exception => AutoRule::Exception { trigger },
        Kind::Percentile => AutoRule::Percentile {
            trigger,
            window: numbers.second as u32,
            share: numbers.third as u32,
        },
        Kind::Category => AutoRule::Category {
            trigger,
            window: numbers.second as u32,
            share: numbers.third as u32,
        },
        Kind::Queue => AutoRule::Queue {
            trigger,
            window: numbers.second as u32,
            share: numbers.third as u32,
            laterals: numbers.fourth as u32,
        },
    }
}
