//! A sheet of rectangles over a table of four entries, with answers worked out by hand.
use layers::moves::Move;
use plane::affine::Affine;
use plane::bezpath::PathEl;
use plane::point::Point;
use plane::rect::Rect;
use plane::shape::Shape;
use sheets::fault::SheetFault;
use sheets::order::{Answer, Order};
use sheets::run::carry_out;
use sheets::sheet::{Entry, Sheet};
use std::test::Fail;

const MARK: Rect = Rect {
    x0: 0.0,
    y0: 0.0,
    x1: 2.0,
    y1: 1.0,
};

fn table() -> [Entry<Rect>; 4] {
    let numbers = Affine::new(1.0, 0.0, 0.0, 1.0, 0.0, 0.0);
    [Entry {
        mark: MARK,
        numbers,
    }; 4]
}

fn right(e: f64) -> Result<Move, Fail> {
    Ok(Move::new(Affine::new(1.0, 0.0, 0.0, 1.0, e, 0.0))?)
}

// The number of the refusal, or 0.
fn refusal(answer: Result<usize, SheetFault>) -> u8 {
    match answer {
        Ok(_) => 0,
        Err(fault) => fault.number(),
    }
}

#[test]
fn mark_moved_to_the_end_of_the_page(rt: HostRuntime) -> Result<(), Fail> {
    let mut table = table();
    let mut sheet = Sheet::open();
    assert_eq!(rt; sheet.put(&mut table, MARK, Move::unmoved())?, 0);
    let mirror = Move::new(Affine::new(1.0, 0.0, 0.0, -1.0, 0.0, 0.0))?;
    assert_eq!(rt; sheet.shift(&mut table, 0, mirror)?, 0);
    assert_eq!(rt; sheet.winding(&table, Point::new(1.0, -0.5))?, -1);
    assert_eq!(rt; sheet.winding(&table, Point::new(1.0, 0.5))?, 0);
    assert_eq!(rt; sheet.top(&table, Point::new(1.0, -0.5))?, Some(0));
    assert_eq!(rt; sheet.shift(&mut table, 0, right(4096.0)?)?, 0);
    assert_eq!(rt; refusal(sheet.shift(&mut table, 0, right(0.00390625)?)), 7);
    assert!(rt; table[0].numbers.e == 4096.0 && table[0].numbers.d == -1.0);
    Ok(())
}

#[test]
fn table_and_buffer_full(rt: HostRuntime) -> Result<(), Fail> {
    let mut table = table();
    let mut sheet = Sheet::open();
    assert_eq!(rt; sheet.put(&mut table, MARK, Move::unmoved())?, 0);
    assert_eq!(rt; sheet.put(&mut table, MARK, Move::unmoved())?, 1);
    assert_eq!(rt; sheet.put(&mut table, MARK, Move::unmoved())?, 2);
    assert_eq!(rt; sheet.put(&mut table, MARK, Move::unmoved())?, 3);
    assert_eq!(rt; refusal(sheet.put(&mut table, MARK, Move::unmoved())), 4);
    assert_eq!(rt; sheet.lift(&mut table, 0)?, 3);
    assert_eq!(rt; sheet.count(&table), 3);
    // Each mark has five elements.
    let mut short = [PathEl::ClosePath; 14];
    assert_eq!(rt; refusal(sheet.draw(&table, 1.0, &mut short)), 8);
    let mut exact = [PathEl::ClosePath; 15];
    assert_eq!(rt; sheet.draw(&table, 1.0, &mut exact)?, 15);
    Ok(())
}

#[test]
fn a_list_is_carried_out(rt: HostRuntime) -> Result<(), Fail> {
    let orders = [
        Order::Put(MARK, Move::unmoved()),
        Order::Draw(1.0),
        Order::Lift(0),
        Order::Lift(0),
    ];
    let mut table = table();
    let mut buffer = [PathEl::ClosePath; 5];
    let mut answers = [Answer::Marks(9); 5];
    let (sheet, count) = carry_out(&mut table, &mut buffer, &orders, &mut answers);
    assert_eq!(rt; count, 4);
    assert_eq!(rt; sheet.count(&table), 0);
    assert!(rt; matches!(answers[0], Answer::Position(0)));
    assert!(rt; matches!(answers[1], Answer::Elements(5)));
    assert!(rt; buffer[2] == PathEl::LineTo(Point::new(2.0, 1.0)));
    assert!(rt; matches!(answers[2], Answer::Marks(0)));
    assert!(rt; matches!(answers[3], Answer::Refused(SheetFault::NoMark)));
    assert!(rt; matches!(answers[4], Answer::Marks(9)));
    Ok(())
}
