//! A page, by its place among its client's pages.

ghost use Rattle.std.specs.Prelude.{◌≡◌};
ghost use Rattle.hs_whole.specs.Pages.{first_page, is_before};

/// A page of a client: the number of the core that wrote it, and its number among the pages of that core. Both begin with 0. A core
/// that is renewed has the next number.
#[derive(Clone, Copy, Debug, PartialEq, Eq)]
pub struct PageName {
    pub core: u64,
    pub page: u32,
}

impl PageName {
    /// The first page of a client.
    pub(crate) fn first() -> PageName
        ensures { result ≡ first_page }
    {
        PageName { core: 0, page: 0 }
    }

    /// Whether this page was written before that one, both by one client.
    pub(crate) fn is_before(&self, other: PageName) -> bool
        ensures { result ≡ is_before self.now other }
    {
        self.core < other.core || (self.core == other.core && self.page < other.page)
    }
}
