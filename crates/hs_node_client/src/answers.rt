//! What the calls of a service's client answer.

ghost use Rattle.std.specs.Prelude.{◌≡◌};
ghost use Rattle.hs_node_client.specs.Pointing.{called_of};

/// What a call of a client answers: that it was done, or why it was refused. A refused call changes no trace and sends nothing.
#[derive(Clone, Copy, Debug, PartialEq, Eq)]
pub enum CallAnswer {
    /// The call did what it says.
    Done,
    /// No trace is open.
    NoTrace,
    /// A trace is open already.
    AlreadyOpen,
    /// The payload is longer than a record may have.
    TooWide,
    /// The outbox has fewer places than the call asks for. The same call may be done later.
    Full,
    /// There is no such node, no such trigger id, or no such autotrigger.
    Unknown,
    /// Numbers end: the calls of this trace, the draws of the client where its allowance cannot be made whole, or the numbers of its
    /// renewals and notes.
    Spent,
}

/// What a point answers where it is told of a pool that was empty.
#[derive(Clone, Copy, Debug, PartialEq, Eq)]
pub enum PointAnswer {
    /// It was done, and each page that it drew for got a buffer.
    Done,
    /// It was done, but the pool was empty when it drew for a page. What was written to that page is lost, and so is all that still goes
    /// to it.
    Dry,
    /// No trace is open.
    NoTrace,
    /// The payload is longer than a record may have.
    TooWide,
    /// The outbox has fewer places than the call asks for. The same call may be done later.
    Full,
    /// Numbers end: the calls of this trace, or the draws of the client where its allowance cannot be made whole.
    Spent,
}

impl PointAnswer {
    /// What the call answers where nobody asks whether the pool was empty.
    pub fn called(self) -> CallAnswer
        ensures { result ≡ called_of self }
    {
        match self {
            PointAnswer::Done | PointAnswer::Dry => CallAnswer::Done,
            PointAnswer::NoTrace => CallAnswer::NoTrace,
            PointAnswer::TooWide => CallAnswer::TooWide,
            PointAnswer::Full => CallAnswer::Full,
            PointAnswer::Spent => CallAnswer::Spent,
        }
    }
}
