//! What holds over the life of a list of claims. Each law is the contract of a function that does nothing.

ghost use Rattle.std.specs.Prelude.{◌≡◌, ◌<◌, ℕ, List, length, true};
ghost use Rattle.hs_wire.specs.declared.message.Standing.{Standing};
ghost use Rattle.hs_claimed.specs.News.{same_word};
ghost use Rattle.hs_claimed.specs.Claims.{PlainClaims};
ghost use Rattle.hs_claimed.specs.Lives.{ClaimDeed, AreKept, AreTold, ComesRound};

/// Whatever calls there were, in any order: what was said last of each claim is the latest standing of it that was news.
pub fn what_was_said_last_is_the_latest_news()
    ensures kept { (most : ℕ) (deeds : List ClaimDeed) → AreKept most deeds }
{}

/// Whatever calls there were, in any order: what is kept of a group of the nodes that messages named is all that they named since it claimed.
pub fn what_was_told_was_named()
    ensures told { (most : ℕ) (deeds : List ClaimDeed) → AreTold most deeds }
{}

/// Each claim is looked at before a round is over.
pub fn each_claim_is_looked_at()
    ensures round { (s : PlainClaims) (place : ℕ) → s.place < length s.claims → place < length s.claims → ComesRound s place }
{}

/// Where a standing is no news, only its horizon may differ from the one that was said last.
pub fn a_horizon_alone_is_no_news()
    ensures same { (last standing : Standing) → last.trace ≡ standing.trace → last.group ≡ standing.group → same_word last standing ≡ true
        → record last { horizon = standing.horizon } ≡ standing }
{}
