//! A small page, with answers by the rules.
use super::page::Page;
use super::reply::Reply;
use layers::moves::Move;
use layers::placing::Placing;
use marks::mark::Mark;
use orders::order::{CoverQuery, PageOrder, Question, SetPoint, SheetOrder, Sizes};
use pieces::piece::Piece;
use plane::bezpath::PathEl;
use plane::point::Point;
use plane::rect::Rect;
use sheets::fault::SheetFault;
use sheets::order::{Answer, Order};
use std::test::Fail;

const FRAME: Rect = Rect {
    x0: 0.0,
    y0: 0.0,
    x1: 2.0,
    y1: 1.0,
};

// A point is set in the frame's corner.
fn set(key: Option<usize>) -> PageOrder {
    let at = Point::new(0.0, 0.0);
    PageOrder::Frames(SheetOrder::Set(SetPoint { at, key }))
}

#[test]
fn a_page_is_carried_out(rt: HostRuntime) -> Result<(), Fail> {
    let mut page = Page::new(rt.alloc());
    page.open(Sizes {
        entries: 1,
        places: 5,
    })?;
    let put = Order::Put(FRAME, Move::unmoved());
    let reply = page.follow(PageOrder::Frames(SheetOrder::Call(put)));
    assert!(rt; matches!(reply, Reply::Said(Answer::Position(0))));
    let reply = page.follow(PageOrder::Frames(SheetOrder::Call(put)));
    assert!(rt; matches!(reply, Reply::Said(Answer::Refused(SheetFault::Full))));
    assert!(rt; matches!(page.follow(set(Some(0))), Reply::Right(true)));
    assert!(rt; matches!(page.follow(set(None)), Reply::Right(false)));
    let reply = page.follow(set(Some(1)));
    assert!(rt; matches!(reply, Reply::Said(Answer::Refused(SheetFault::NoMark))));
    let reply = page.follow(PageOrder::Frames(SheetOrder::Call(Order::Draw(1.0))));
    assert!(rt; reply.elements() == 5);
    let outline = [
        PathEl::MoveTo(Point::new(0.0, 0.0)),
        PathEl::LineTo(Point::new(2.0, 0.0)),
        PathEl::LineTo(Point::new(2.0, 1.0)),
        PathEl::LineTo(Point::new(0.0, 1.0)),
        PathEl::ClosePath,
    ];
    assert!(rt; page.drawn(5) == outline.as_slice());
    Ok(())
}

#[test]
fn a_covering_heeds_the_places(rt: HostRuntime) -> Result<(), Fail> {
    let mut page = Page::new(rt.alloc());
    let half = Placing::new(Move::unmoved(), Mark::Rect(FRAME));
    let draw = PageOrder::Cover(CoverQuery {
        piece: Piece::cover(half, half),
        question: Question::Draw(1.0),
    });
    page.open(Sizes {
        entries: 0,
        places: 9,
    })?;
    let reply = page.follow(draw);
    assert!(rt; matches!(reply, Reply::Said(Answer::Refused(SheetFault::TooSmall))));
    page.open(Sizes {
        entries: 0,
        places: 10,
    })?;
    assert!(rt; page.follow(draw).elements() == 10);
    Ok(())
}
