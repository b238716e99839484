//! The bytes of Hindsight: pages, the recycled chunks that they are written into, and the leases that say
//! who may write a chunk.
#![tactic(auto)]

mod chunk;
mod laws;
mod layout;
mod page;
mod prefix;
mod reading;
mod token;

pub use chunk::{Added, Chunk, Stock};
pub use laws::{
    bytes_show_one_page, finished_pages_are_shown, pages_have_bytes_of_their_own,
    what_was_added_is_read,
};
pub use page::{Header, Page, PageFault, Point, PrefixFault};
pub use prefix::read_prefix;
pub use reading::read_page;
pub use token::{Drawn, Given, Held, MAX_PUBLISHED, Tally, Token};
