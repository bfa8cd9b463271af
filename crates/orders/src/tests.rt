//! Lines and what they order, worked out from the grammar by hand.
use super::escaped::Escaped;
use super::line::{Line, intent, order_in, page_name, read};
use super::order::{CoverQuery, PageOrder, Question, SetPoint, SheetOrder, Sizes};
use super::unreadable::{Intent, Unreadable};
use ellipses::ellipse::Ellipse;
use layers::fault::MoveFault;
use marks::mark::Mark;
use pieces::piece::Piece;
use plane::affine::Affine;
use plane::point::Point;
use plane::rect::Rect;
use plane::vec2::Vec2;
use rounded::rounded_rect::RoundedRect;
use rounded::rounded_rect_radii::RoundedRectRadii;
use shapes::circle::Circle;
use shapes::triangle::Triangle;
use sheets::order::Order;
use std::alloc::Global;
use std::process::Abort;
use std::test::Fail;

const UNMOVED: Affine = Affine {
    a: 1.0,
    b: 0.0,
    c: 0.0,
    d: 1.0,
    e: 0.0,
    f: 0.0,
};

const QUARTER: Affine = Affine {
    a: 0.0,
    b: 1.0,
    c: -1.0,
    d: 0.0,
    e: 1.0,
    f: -2.5,
};

// Lines that are no orders, and why.
const WHYS: [(&str, &str); 67] = [
    ("", "'' is no order"),
    ("rect 0 0 1 1", "'rect' is no order"),
    ("Marks lift 0", "'Marks' is no order"),
    (
        "\u{1b}[1mmarks\u{9f} lift 0",
        "'\\u{1b}[1mmarks\\u{9f}' is no order",
    ),
    ("marks", "'' is no order"),
    ("marks set 1", "2 numbers wanted, 1 there"),
    ("frames set 1 2", "a key is 'within POSITION' or 'outside'"),
    ("frames measure", "'measure' is no order"),
    ("marks put", "'' is no shape"),
    ("marks put by", "'by' is no shape"),
    ("frames put circle 0 0 1", "'circle' is no shape"),
    ("measure", "'' is no shape"),
    ("cover over rect 0 0 1 1", "'over' is no shape"),
    ("marks put rect 0 0 1", "4 numbers wanted, 3 there"),
    ("marks put rect 0 0 x", "'x' is no number"),
    ("marks put rect 0 0 1 by 1 0 0 1 0 0", "'by' is no number"),
    ("marks put rect 0 0 1 1 2", "4 numbers wanted, 5 there"),
    (
        "marks put rect 0 0 1 1 x by 1 0 0 1 0 0",
        "4 numbers wanted, 12 there",
    ),
    ("marks put rect 0 0 1 1 over 2", "4 numbers wanted, 6 there"),
    ("marks put circle", "3 numbers wanted, 0 there"),
    ("marks put triangle 1", "6 numbers wanted, 1 there"),
    ("marks put rounded 1 2", "8 numbers wanted, 2 there"),
    ("marks put ellipse 1 2 3 4", "5 numbers wanted, 4 there"),
    ("marks put circle 0 0 1 by", "6 numbers wanted, 0 there"),
    (
        "marks put circle 0 0 1 by 1 0 0 1 0",
        "6 numbers wanted, 5 there",
    ),
    (
        "marks put circle 0 0 1 by 1 0 0 1 0 0 by",
        "6 numbers wanted, 7 there",
    ),
    ("marks shift", "7 numbers wanted, 0 there"),
    ("marks shift -1 1 0 0 1 0 0", "'-1' is no position"),
    (
        "marks shift 18446744073709551616 1 0 0 1 0 0",
        "'18446744073709551616' is no position",
    ),
    ("marks shift 0 1 0 0 1 0", "7 numbers wanted, 6 there"),
    ("marks shift 0 1 0 0 1 0 0 0", "7 numbers wanted, 8 there"),
    ("marks shift_all 1 0 0 1 0", "6 numbers wanted, 5 there"),
    (
        "frames shift_all 1 0 0 1 0 0 0",
        "6 numbers wanted, 7 there",
    ),
    ("marks lift", "1 number wanted, 0 there"),
    ("marks lift 0 1", "1 number wanted, 2 there"),
    ("marks lift 0.5", "'0.5' is no position"),
    ("marks winding 1", "2 numbers wanted, 1 there"),
    ("marks top 1 2 3 4", "2 numbers wanted, 4 there"),
    ("marks bounding_box 1 2", "0 numbers wanted, 2 there"),
    ("marks draw", "1 number wanted, 0 there"),
    ("marks draw 1 2", "1 number wanted, 2 there"),
    ("set 1", "2 numbers wanted, 1 there"),
    ("set x", "'x' is no number"),
    ("set 1 outside", "'outside' is no number"),
    ("set 1 2", "a key is 'within POSITION' or 'outside'"),
    (
        "set 1 2 inside 3",
        "a key is 'within POSITION' or 'outside'",
    ),
    ("set 1 2 within", "a key is 'within POSITION' or 'outside'"),
    ("set 1 2 within x 4", "'x' is no position"),
    (
        "set 1 2 within 3 4",
        "a key is 'within POSITION' or 'outside'",
    ),
    (
        "set 1 2 outside 3",
        "a key is 'within POSITION' or 'outside'",
    ),
    ("measure rect 0 0 1 1 0.1 9", "4 numbers wanted, 6 there"),
    ("measure ellipse 0 0 1 1 0", "7 numbers wanted, 5 there"),
    ("measure ellipse 0 0 1 1 0 0.1 -1", "'-1' is no allowance"),
    (
        "measure ellipse 0 0 1 1 0 0.1 4294967296",
        "'4294967296' is no allowance",
    ),
    (
        "measure ellipse 0 0 1 1 0 0.1 9 by",
        "7 numbers wanted, 8 there",
    ),
    ("cover rect 0 0 1 1", "'over' is wanted"),
    ("cover rect 0 0 1 1 by 1 0 0 1 0 0", "'over' is wanted"),
    (
        "cover rect 0 0 1 1 2 over rect 0 0 1 1",
        "4 numbers wanted, 11 there",
    ),
    (
        "cover rect 0 0 1 1 by 1 0 0 1 0 0 by",
        "6 numbers wanted, 7 there",
    ),
    ("cover rect 0 0 1 1 over circle 0 0 1", "'' is no question"),
    (
        "cover rect 0 0 1 1 over circle 0 0 1 by 1 0 0 1 0 0 top 1 2",
        "'top' is no question",
    ),
    (
        "cover rect 0 0 1 1 over circle 0 0 1 winding 1",
        "2 numbers wanted, 1 there",
    ),
    ("page", "a page has a name, and then at most two sizes"),
    (
        "page A 1 2 3",
        "a page has a name, and then at most two sizes",
    ),
    ("page A 131073 x", "'131073' is no size up to 131072"),
    (
        "page A 131072 1048577",
        "'1048577' is no size up to 1048576",
    ),
    ("page A x 1 2", "'x' is no size up to 131072"),
];

fn said<T: Drop>(alloc: Global, read: Result<T, Unreadable<'_>>) -> Result<String, Fail> {
    let why = read.err().ok_or("it was read")?;
    Ok(format!(in alloc; "{why}")?)
}

fn ordered(line: &str) -> Result<PageOrder, Fail> {
    match read(line).ok().ok_or("it is not read")? {
        Line::Order(order) => Ok(order),
        Line::Page(_) => Err(Fail::new("it is a page")),
    }
}

#[test]
fn what_stands_before_the_comment(rt: HostRuntime) -> Result<(), Fail> {
    for (line, expected) in [
        ("", ""),
        ("# all of it", ""),
        ("  set 1 2  outside\t# right? # yes\r", "set 1 2  outside"),
        ("\u{2003}page A\u{a0}", "page A"),
    ] {
        let order = order_in(line.as_bytes()).ok().ok_or("it is text")?;
        assert!(rt; order == expected, "{line}");
    }
    let latin_1 = order_in(b"set 1 2 outside # caf\xe9")
        .ok()
        .ok_or("its comment is none of it")?;
    assert!(rt; latin_1 == "set 1 2 outside");
    assert!(rt; said(rt.alloc(), order_in(b"set \xff # 1"))?.as_str() == "not UTF-8 text");
    Ok(())
}

#[test]
fn why_a_line_is_no_order(rt: HostRuntime) -> Result<(), Fail> {
    for (line, why) in WHYS {
        let said = said(rt.alloc(), read(line))?;
        assert!(rt; said.as_str() == why, "{line}: {said}");
    }
    Ok(())
}

fn assert_page(rt: &impl Abort, line: &str, entries: usize, places: usize) {
    match read(line) {
        Ok(Line::Page(sizes)) => assert!(rt; sizes == Sizes { entries, places }, "{line}"),
        _ => assert!(rt; false, "{line}"),
    }
}

#[test]
fn pages(rt: HostRuntime) {
    assert_page(&rt, "page A", 65_536, 262_144);
    assert_page(&rt, "page # 7", 7, 262_144);
    assert_page(&rt, "page 1 131072 +1048576", 131_072, 1_048_576);
}

#[test]
fn names_of_pages(rt: HostRuntime) {
    assert!(rt; page_name("page  \u{dc}bung\t7 8") == "\u{dc}bung");
    assert!(rt; page_name("page") == "");
}

#[test]
fn what_was_meant(rt: HostRuntime) {
    for (line, meant) in [
        (b" page # A".as_slice(), Intent::Page),
        (b"set 1", Intent::Question),
        (b"measure", Intent::Question),
        (b"cover\xff", Intent::Question),
        (b"frames top 1", Intent::Question),
        (b"marks set 1 2", Intent::Question),
        (b"marks put rect", Intent::Change),
        (b"marks", Intent::Change),
        (b"marks # top", Intent::Change),
        (b"frames \xfftop", Intent::Change),
        (b"Page A", Intent::Change),
        (b"", Intent::Change),
    ] {
        assert!(rt; intent(line) == meant, "{line:?}");
    }
}

#[test]
fn control_characters_are_escaped(rt: HostRuntime) -> Result<(), Fail> {
    let echoed = format!(in rt.alloc();
        "{}",
        Escaped("\ta \u{0}\u{1f}\u{7f}\u{9f}\u{a0}\u{e9}\\")
    )?;
    assert!(rt; echoed.as_str() == "\\ta \\u{0}\\u{1f}\\u{7f}\\u{9f}\u{a0}\u{e9}\\");
    Ok(())
}

fn call<M: Copy>(order: SheetOrder<M>) -> Result<Order<M>, Fail> {
    match order {
        SheetOrder::Call(order) => Ok(order),
        SheetOrder::Set(_) => Err(Fail::new("it sets a point")),
    }
}

fn marks(line: &str) -> Result<Order<Mark>, Fail> {
    match ordered(line)? {
        PageOrder::Marks(order) => call(order),
        _ => Err(Fail::new("it is no order to the marks")),
    }
}

fn frames(line: &str) -> Result<Order<Rect>, Fail> {
    match ordered(line)? {
        PageOrder::Frames(order) => call(order),
        _ => Err(Fail::new("it is no order to the frames")),
    }
}

// The mark that an order puts, and the numbers of its move.
fn put(order: Order<Mark>) -> Option<(Mark, Affine)> {
    match order {
        Order::Put(mark, by) => Some((mark, by.numbers())),
        _ => None,
    }
}

// The mark that an order shifts, or nothing where it shifts all, and the numbers of the move.
fn shifted(order: Order<Mark>) -> Option<(Option<usize>, Affine)> {
    match order {
        Order::Shift(position, by) => Some((Some(position), by.numbers())),
        Order::ShiftAll(by) => Some((None, by.numbers())),
        _ => None,
    }
}

#[test]
fn marks_are_put(rt: HostRuntime) -> Result<(), Fail> {
    let radii = RoundedRectRadii::new(0.1, 0.2, 0.3, 0.4);
    for (line, mark, by) in [
        (
            "marks put rect 0 -1 2.5 3",
            Mark::Rect(Rect::new(0.0, -1.0, 2.5, 3.0)),
            UNMOVED,
        ),
        (
            "marks  put rect 0 -1 2.5 3 by 0 1 -1 0 1 -2.5",
            Mark::Rect(Rect::new(0.0, -1.0, 2.5, 3.0)),
            QUARTER,
        ),
        (
            "marks put circle 1 2 3e-1",
            Mark::Circle(Circle::new(Point::new(1.0, 2.0), 0.3)),
            UNMOVED,
        ),
        (
            "marks put triangle 1 2 3 4 5 6 by 0 1 -1 0 1 -2.5",
            Mark::Triangle(Triangle::new(
                Point::new(1.0, 2.0),
                Point::new(3.0, 4.0),
                Point::new(5.0, 6.0),
            )),
            QUARTER,
        ),
        (
            "marks put rounded 1 2 3 4 .1 .2 .3 .4",
            Mark::RoundedRect(RoundedRect::new(1.0, 2.0, 3.0, 4.0, radii)),
            UNMOVED,
        ),
        (
            "marks put ellipse 1 2 3 4 5",
            Mark::Ellipse(Ellipse::new(Point::new(1.0, 2.0), Vec2::new(3.0, 4.0), 5.0)),
            UNMOVED,
        ),
    ] {
        assert!(rt; put(marks(line)?) == Some((mark, by)), "{line}");
    }
    Ok(())
}

#[test]
fn a_sheet_is_ordered(rt: HostRuntime) -> Result<(), Fail> {
    let at = Point::new(1.0, 2.0);
    let shift = marks("marks shift 7 0 1 -1 0 1 -2.5")?;
    assert!(rt; shifted(shift) == Some((Some(7), QUARTER)));
    let shift_all = marks("marks shift_all 0 1 -1 0 1 -2.5")?;
    assert!(rt; shifted(shift_all) == Some((None, QUARTER)));
    assert!(rt; matches!(marks("marks lift 3")?, Order::Lift(3)));
    assert!(rt; matches!(marks("marks winding 1 2")?, Order::Winding(pt) if pt == at));
    assert!(rt; matches!(marks("marks top 1 2")?, Order::Top(pt) if pt == at));
    assert!(rt; matches!(marks("marks bounding_box")?, Order::BoundingBox));
    assert!(rt; matches!(marks("marks draw 0.1")?, Order::Draw(tolerance) if tolerance == 0.1));
    Ok(())
}

#[test]
fn frames_are_ordered(rt: HostRuntime) -> Result<(), Fail> {
    match frames("frames put rect 0 -1 2.5 3 by 0 1 -1 0 1 -2.5")? {
        Order::Put(rect, by) => {
            assert!(rt; rect == Rect::new(0.0, -1.0, 2.5, 3.0));
            assert!(rt; by.numbers() == QUARTER);
        }
        _ => assert!(rt; false),
    }
    assert!(rt; matches!(frames("frames lift 3")?, Order::Lift(3)));
    assert!(rt; matches!(frames("frames bounding_box")?, Order::BoundingBox));
    Ok(())
}

fn set_point<M: Copy>(order: SheetOrder<M>) -> Result<SetPoint, Fail> {
    match order {
        SheetOrder::Set(point) => Ok(point),
        SheetOrder::Call(_) => Err(Fail::new("it is a call")),
    }
}

// A set point, and whether it lies on the marks.
fn set(line: &str) -> Result<(bool, SetPoint), Fail> {
    match ordered(line)? {
        PageOrder::Marks(order) => Ok((true, set_point(order)?)),
        PageOrder::Frames(order) => Ok((false, set_point(order)?)),
        _ => Err(Fail::new("it sets no point")),
    }
}

fn asked(line: &str) -> Result<CoverQuery, Fail> {
    match ordered(line)? {
        PageOrder::Cover(query) => Ok(query),
        _ => Err(Fail::new("it asks nothing")),
    }
}

#[test]
fn points_and_measures(rt: HostRuntime) -> Result<(), Fail> {
    let pt = Point::new(1.0, 2.0);
    for (line, on_marks, key) in [
        ("set 1 2 within 3", true, Some(3)),
        ("set 1 2 outside", true, None),
        ("marks set 1 2 within 0", true, Some(0)),
        ("frames set 1 2 within 4", false, Some(4)),
    ] {
        let (marks, point) = set(line)?;
        assert!(rt; marks == on_marks, "{line}");
        assert!(rt; point.at == pt, "{line}");
        assert!(rt; point.key == key, "{line}");
    }
    let circle = Mark::Circle(Circle::new(pt, 3.0));
    let ellipse = Mark::Ellipse(Ellipse::new(pt, Vec2::new(3.0, 4.0), 5.0));
    match ordered("measure circle 1 2 3")? {
        PageOrder::Measure(m) => assert!(rt; m.mark == circle),
        _ => assert!(rt; false),
    }
    match ordered("measure ellipse 1 2 3 4 5 0.25 64")? {
        PageOrder::Measure(m) => {
            assert!(rt; m.mark == ellipse);
            assert!(rt; m.accuracy == 0.25);
            assert!(rt; m.allowance == 64);
        }
        _ => assert!(rt; false),
    }
    Ok(())
}

#[test]
fn coverings(rt: HostRuntime) -> Result<(), Fail> {
    let pt = Point::new(1.0, 2.0);
    let wound = asked("cover rect 0 0 1 1 over circle 0 0 1 by 0 1 -1 0 1 -2.5 winding 1 2")?;
    assert!(rt; matches!(wound.question, Question::Winding(at) if at == pt));
    match wound.piece {
        Piece::Two(covering) => {
            let (upper, lower) = (covering.below().upper(), covering.below().lower());
            assert!(rt; upper.below() == Mark::Rect(Rect::new(0.0, 0.0, 1.0, 1.0)));
            assert!(rt; upper.place().numbers() == UNMOVED);
            assert!(rt; lower.below() == Mark::Circle(Circle::new(Point::new(0.0, 0.0), 1.0)));
            assert!(rt; lower.place().numbers() == QUARTER);
        }
        Piece::One(_) => assert!(rt; false),
    }
    let boxed = asked("cover rect 0 0 1 1 over rect 0 0 2 2 bounding_box")?;
    assert!(rt; matches!(boxed.question, Question::BoundingBox));
    let drawn = asked("cover rect 0 0 1 1 by 1 0 0 1 0 0 over rect 0 0 2 2 draw 1")?;
    assert!(rt; matches!(drawn.question, Question::Draw(tolerance) if tolerance == 1.0));
    Ok(())
}

#[test]
fn numbers_that_make_no_move(rt: HostRuntime) -> Result<(), Fail> {
    for (line, expected) in [
        (
            "marks put circle 0 0 1 by 2 0 0 1 0.001 0",
            MoveFault::NotATurn,
        ),
        (
            "frames put rect 0 0 1 1 by 1 0 0 1 5000 0.001",
            MoveFault::OffGrid,
        ),
        ("marks shift 9 1 0 0 1 5000 0", MoveFault::OffPage),
        ("frames shift_all 1 0 0 nan 0 0", MoveFault::NotATurn),
        (
            "cover rect 0 0 1 1 by 1 0 0 1 5000 0 over rect 0 0 2 2 by 2 0 0 1 0 0 draw 1",
            MoveFault::OffPage,
        ),
        (
            "cover rect 0 0 1 1 over rect 0 0 2 2 by 1 0 0 1 inf 0 bounding_box",
            MoveFault::OffGrid,
        ),
    ] {
        match ordered(line)? {
            PageOrder::NoMove(fault) => assert!(rt; fault == expected, "{line}"),
            _ => assert!(rt; false, "{line}"),
        }
    }
    Ok(())
}
