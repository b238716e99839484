//! What calls answer to C.

ghost use Rattle.std.specs.Prelude.{◌≡◌};
ghost use Rattle.hs_c.specs.Codes.{code_of, code_of_point};

use hs_node_client::{CallAnswer, PointAnswer};

/// The call was done.
pub const DONE: u32 = 0;

/// The handle is vacant.
pub const VACANT: u32 = 1;

/// A handle that is to be filled is in use.
pub const BUSY: u32 = 2;

/// Memory is wanting. Nothing changed.
pub const MEMORY: u32 = 3;

/// The settings are refused: a line and a reason say why.
pub const SETTINGS: u32 = 4;

/// A number is not what the settings allow.
pub const UNFIT: u32 = 5;

/// No trace is open.
pub const NO_TRACE: u32 = 6;

/// A trace is open already.
pub const OPEN: u32 = 7;

/// The payload is longer than a record may have.
pub const TOO_WIDE: u32 = 8;

/// The outbox has fewer places than the call asks for.
pub const FULL: u32 = 9;

/// There is no such node, trigger id or autotrigger.
pub const UNKNOWN: u32 = 10;

/// Numbers end.
pub const SPENT: u32 = 11;

/// There is nothing that the call could hand out or name.
pub const NOTHING: u32 = 12;

/// The bytes spell no message.
pub const NO_MESSAGE: u32 = 13;

/// The slice is too short for what it is to take.
pub const SHORT: u32 = 14;

/// A message was taken, and waits until what it serves is saved.
pub const HELD: u32 = 15;

/// A point was done, but the pool was empty when it drew for a page: what goes to that page is lost.
pub const DRY: u32 = 16;

/// The bytes do not show the page that their counts speak of.
pub const TORN: u32 = 17;

/// The code of a client's answer.
pub(crate) fn code_of(called: CallAnswer) -> u32
    ensures { result ≡ code_of called }
{
    match called {
        CallAnswer::Done => DONE,
        CallAnswer::NoTrace => NO_TRACE,
        CallAnswer::AlreadyOpen => OPEN,
        CallAnswer::TooWide => TOO_WIDE,
        CallAnswer::Full => FULL,
        CallAnswer::Unknown => UNKNOWN,
        CallAnswer::Spent => SPENT,
    }
}

/// The code of a point's answer.
pub(crate) fn code_of_point(pointed: PointAnswer) -> u32
    ensures { result ≡ code_of_point pointed }
{
    match pointed {
        PointAnswer::Done => DONE,
        PointAnswer::Dry => DRY,
        PointAnswer::NoTrace => NO_TRACE,
        PointAnswer::TooWide => TOO_WIDE,
        PointAnswer::Full => FULL,
        PointAnswer::Spent => SPENT,
    }
}
