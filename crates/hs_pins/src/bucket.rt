//! The token bucket of a trigger id (`docs/RULES.md`, "The bucket").

ghost use Rattle.std.specs.Prelude.{◌≡◌, ◌+◌, ◌-◌, ◌*◌, ℕ, List, [], ◌∷◌, max, min, nat_le};
ghost use Rattle.hs_pins.specs.Buckets.{HasAttempted, IsBucketRule, attempted, fresh_bucket};

use hs_base::limits::TOKEN;
use std::marker::Model;

/// What a bucket answers to an attempt.
#[derive(Clone, Copy, Debug, PartialEq, Eq)]
pub enum Attempt {
    /// The attempt takes a token.
    Admitted,
    /// There is less than a token, and it stays. The level is in millionths of a token.
    Limited { level: u64 },
}

/// The token bucket of a trigger id. Contracts speak of the list of the moments of all attempts that
/// it has taken, the latest first.
#[derive(Drop)]
pub struct Bucket {
    burst: u32,
    rate: u32,
    level: u64,
    moment: u64,
}

impl Model for Bucket {
    ghost use Rattle.hs_pins.specs.Buckets.{BucketState, IsBucketState};

    ghost Value = { BucketState };

    ghost view = { λ a. record { burst = a.burst; rate = a.rate; level = a.level; moment = a.moment } };

    ghost invariant = { λ a. IsBucketState (record { burst = a.burst; rate = a.rate; level = a.level; moment = a.moment }) };
}

impl Bucket {
    /// A full bucket. It holds at most `burst` tokens, and `rate` tokens flow in each second.
    pub fn make(burst: u32, rate: u32) -> Bucket
        requires { IsBucketRule burst rate }
        ensures taken { HasAttempted result [] }
        ensures fresh { result ≡ fresh_bucket burst rate }
        ensures burst { result.burst ≡ burst }
        ensures rate { result.rate ≡ rate }
    {
        Bucket {
            burst,
            rate,
            level: u64::from(burst) * TOKEN,
            moment: 0,
        }
    }

    /// A bucket as this one.
    pub(crate) fn copied(&self) -> Bucket
        ensures { result ≡ self.now }
    {
        Bucket {
            burst: self.burst,
            rate: self.rate,
            level: self.level,
            moment: self.moment,
        }
    }

    /// Takes an attempt at a moment in microseconds, and answers whether it is admitted.
    pub fn attempt(&mut self, moment: u64) -> Attempt
        ensures answer { (earlier : List ℕ) → HasAttempted self.old earlier
            → result ≡ attempted self.old.burst self.old.rate earlier moment }
        ensures taken { (earlier : List ℕ) → HasAttempted self.old earlier
            → HasAttempted self.new (moment ∷ earlier) }
        ensures burst { self.new.burst ≡ self.old.burst }
        ensures rate { self.new.rate ≡ self.old.rate }
    {
        self.refill(moment);
        let enough = has_token(self.level);
        if !enough {
            return Attempt::Limited { level: self.level };
        }
        self.level -= TOKEN;
        Attempt::Admitted
    }

    /// Lets flow in what has come since the bucket's moment, which does not go back.
    fn refill(&mut self, moment: u64)
        ensures level { self.new.level
            ≡ min (self.old.burst * TOKEN) (self.old.level + self.old.rate * (moment - self.old.moment)) }
        ensures moment { self.new.moment ≡ max moment self.old.moment }
        ensures burst { self.new.burst ≡ self.old.burst }
        ensures rate { self.new.rate ≡ self.old.rate }
    {
        let full = u64::from(self.burst) * TOKEN;
        let elapsed = moment.saturating_sub(self.moment);
        let filled = u128::from(self.level) + u128::from(self.rate) * u128::from(elapsed);
        self.level = if filled < u128::from(full) {
            filled as u64
        } else {
            full
        };
        self.moment = moment.max(self.moment);
    }
}

/// Whether a level is a whole token or more.
fn has_token(level: u64) -> bool
    ensures { result ≡ nat_le TOKEN level }
{
    level >= TOKEN
}
