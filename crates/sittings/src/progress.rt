//! How far a sitting has come.
ghost use Rattle.std.specs.Prelude.{◌≡◌};
ghost use Rattle.sittings.specs.Progresses.{over};

use super::tally::Tally;

/// Whether there is a page, and whether it is marked.
#[derive(Clone, Copy, Debug, PartialEq, Eq)]
pub enum Standing {
    /// No page has begun, or the last one has ended.
    NoPage,
    /// A page whose orders are carried out.
    Marked,
    /// A page whose `page` line cannot be read: nothing is carried out on it.
    Unmarked,
}

/// How far a sitting has come, but for its page's name and sheets.
#[derive(Clone, Copy, Debug, PartialEq, Eq)]
pub struct Progress {
    /// The lines of the file that were taken.
    pub lines: u64,
    /// Whether there is a page.
    pub standing: Standing,
    /// Whether a line of the page cannot be read and may have been meant to alter a sheet.
    pub in_doubt: bool,
    /// What is counted since the last page ended.
    pub page: Tally,
    /// What was counted until then.
    pub total: Tally,
}

impl Progress {
    /// No line was taken.
    pub const START: Progress = Progress {
        lines: 0,
        standing: Standing::NoPage,
        in_doubt: false,
        page: Tally::NONE,
        total: Tally::NONE,
    };

    /// The page ends, if there is one, and what was counted joins the rest.
    pub fn end_page(&mut self)
        ensures { self.new ≡ over self.old }
    {
        self.total.add(self.page);
        self.page = Tally::NONE;
        self.standing = Standing::NoPage;
        self.in_doubt = false;
    }
}
