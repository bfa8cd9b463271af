//! What is counted of a page, and of a sitting.
ghost use Rattle.std.specs.Prelude.{◌≡◌, Some};
ghost use Rattle.exam.specs.Replies.{is_refused, is_right};
ghost use Rattle.sittings.specs.Tallies.{is_point, sets, with_page, with_page_line, with_order, with_point, with_unreadable, with_not_marked, joined, also, page_sum, summary};

use exam::reply::Reply;
use orders::order::{PageOrder, SheetOrder};
use std::fmt;

/// The counts of a page, or of several. Each stops at 2^64 - 1.
#[derive(Clone, Copy, Debug, PartialEq, Eq)]
pub struct Tally {
    /// Pages.
    pub pages: u64,
    /// Orders, those that begin a page and those that were not marked included.
    pub orders: u64,
    /// Orders that were refused.
    pub refused: u64,
    /// Lines that cannot be read.
    pub unreadable: u64,
    /// Orders on a page whose `page` line cannot be read.
    pub not_marked: u64,
    /// Set points, those refused included.
    pub points: u64,
    /// Set points whose key is right.
    pub right: u64,
    /// Set points after a line that cannot be read and may have been meant to alter a sheet.
    pub doubtful: u64,
}

impl Tally {
    /// Nothing is counted yet.
    pub const NONE: Tally = Tally {
        pages: 0,
        orders: 0,
        refused: 0,
        unreadable: 0,
        not_marked: 0,
        points: 0,
        right: 0,
        doubtful: 0,
    };

    /// Counts one more page.
    pub fn count_page(&mut self)
        ensures { self.new ≡ with_page self.old }
    {
        self.pages = self.pages.saturating_add(1);
    }

    /// Counts one more page, and the order that begins it.
    pub fn count_page_line(&mut self)
        ensures { self.new ≡ with_page_line self.old }
    {
        self.count_page();
        self.orders = self.orders.saturating_add(1);
    }

    /// Counts one more order with its answer, where the sheets are in doubt or not.
    pub fn count_order(&mut self, order: &PageOrder, reply: &Reply, in_doubt: bool)
        ensures { self.new ≡ with_order (is_point order.now) in_doubt (is_refused reply.now) (is_right reply.now) self.old }
    {
        self.orders = self.orders.saturating_add(1);
        if reply.is_refused() {
            self.refused = self.refused.saturating_add(1);
        }
        if reply.is_right() {
            self.right = self.right.saturating_add(1);
        }
        if is_point(order) {
            self.count_point(in_doubt);
        }
    }

    // Counts one more set point.
    fn count_point(&mut self, in_doubt: bool)
        ensures { self.new ≡ with_point in_doubt self.old }
    {
        self.points = self.points.saturating_add(1);
        if in_doubt {
            self.doubtful = self.doubtful.saturating_add(1);
        }
    }

    /// Counts one more line that cannot be read.
    pub fn count_unreadable(&mut self)
        ensures { self.new ≡ with_unreadable self.old }
    {
        self.unreadable = self.unreadable.saturating_add(1);
    }

    /// Counts one more order that was not marked.
    pub fn count_not_marked(&mut self)
        ensures { self.new ≡ with_not_marked self.old }
    {
        self.orders = self.orders.saturating_add(1);
        self.not_marked = self.not_marked.saturating_add(1);
    }

    /// Adds the counts of another.
    pub fn add(&mut self, other: Tally)
        ensures { self.new ≡ joined self.old other }
    {
        self.pages = self.pages.saturating_add(other.pages);
        self.orders = self.orders.saturating_add(other.orders);
        self.refused = self.refused.saturating_add(other.refused);
        self.unreadable = self.unreadable.saturating_add(other.unreadable);
        self.not_marked = self.not_marked.saturating_add(other.not_marked);
        self.points = self.points.saturating_add(other.points);
        self.right = self.right.saturating_add(other.right);
        self.doubtful = self.doubtful.saturating_add(other.doubtful);
    }
}

// Whether an order sets a point.
fn is_point(order: &PageOrder) -> bool
    ensures { result ≡ is_point order.now }
{
    match *order {
        PageOrder::Marks(order) => sets(order),
        PageOrder::Frames(order) => sets(order),
        _ => false,
    }
}

// Whether an order to a sheet does.
fn sets<M: Copy>(order: SheetOrder<M>) -> bool
    ensures { result ≡ sets order }
{
    matches!(order, SheetOrder::Set(_))
}

/// The two last lines of a sitting, the second without its end: the pages, orders, refusals and lines that cannot be read;
/// and the right ones of all set points.
impl fmt::Display for Tally {
    ghost output = { λ t. Some (summary t) };

    fn fmt<W: fmt::Write>(&self, f: &mut fmt::Formatter<W>) -> fmt::Result {
        let Tally {
            pages,
            orders,
            refused,
            unreadable,
            not_marked,
            points,
            right,
            ..
        } = *self;
        let not_marked = Also("not marked", not_marked);
        writeln!(
            f,
            "pages {pages}, orders {orders}, refused {refused}, unreadable lines {unreadable}{not_marked}"
        )?;
        write!(f, "right {right} of {points}")
    }
}

/// The sum of a page: its name, and what is counted of it.
#[derive(Clone, Copy)]
pub struct PageSum<'a> {
    /// The name.
    pub name: &'a str,
    /// The counts.
    pub tally: Tally,
}

impl fmt::Display for PageSum<'_> {
    ghost output = { λ s. Some (page_sum s.name.now s.tally) };

    fn fmt<W: fmt::Write>(&self, f: &mut fmt::Formatter<W>) -> fmt::Result {
        let name = self.name;
        let Tally {
            refused,
            unreadable,
            not_marked,
            points,
            right,
            doubtful,
            ..
        } = self.tally;
        let not_marked = Also("not marked", not_marked);
        let doubtful = Also("doubtful", doubtful);
        write!(
            f,
            "page {name}: right {right} of {points}, refused {refused}, unreadable {unreadable}{not_marked}{doubtful}"
        )
    }
}

// A count that is told after the others, unless it is 0.
#[derive(Clone, Copy)]
struct Also(&'static str, u64);

impl fmt::Display for Also {
    ghost output = { λ a. Some (also a.0.now a.1) };

    fn fmt<W: fmt::Write>(&self, f: &mut fmt::Formatter<W>) -> fmt::Result {
        let Also(what, count) = *self;
        if count == 0 {
            return Ok(());
        }
        write!(f, ", {what} {count}")
    }
}
