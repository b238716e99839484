//! What the calls of a core answer.

use hs_words::{Held, Token};

/// What beginning a trace answers.
#[derive(Clone, Copy, Debug, PartialEq, Eq)]
pub enum Begun {
    /// The trace is open.
    Began,
    /// As many calls were counted as the core was made for.
    Spent,
    /// A trace is open already.
    AlreadyOpen,
}

/// What recording a piece answers.
#[derive(Drop)]
pub enum Pointed<L: Token> {
    /// The piece stands on the current page.
    Written,
    /// As many calls were counted as the core was made for.
    Spent,
    /// No trace is open.
    NoTrace,
    /// The piece fits no page.
    TooWide,
    /// The piece needs a new page. The full chunk is handed out, if the page that ends here has one.
    NeedPage(Option<Held<L>>),
}

/// What ending a trace answers.
#[derive(Drop)]
pub enum Ended<L: Token> {
    /// The trace is closed. Its last chunk is handed out, if its last page has one.
    Ended(Option<Held<L>>),
    /// As many calls were counted as the core was made for.
    Spent,
    /// No trace is open.
    NoTrace,
}
