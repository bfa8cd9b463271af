//! Reads the lines of a sitting.
ghost use Rattle.std.specs.Prelude.{◌≡◌, IfOk};
ghost use Rattle.orders.specs.Words.{words_of};
ghost use Rattle.orders.specs.Grammar.{Says};
ghost use Rattle.orders.specs.Intents.{text_at_front, sheet_intent, intent_of_words, intent_of};
ghost use Rattle.orders.specs.Lines.{text_of, before_comment, order_of, line_of, page, size_or};
ghost use Rattle.orders.specs.Runs.{second_of};
ghost use Rattle.orders.specs.declared.line.Line.{Line};
ghost use Rattle.orders.specs.Views.{left_of, Reads, Answers};

use super::kinds::read_measured;
use super::order::{PageOrder, SheetOrder, Sizes};
use super::piece::read_cover;
use super::set_point::read_set;
use super::sheet::read_order;
use super::unreadable::{Intent, Unreadable};
use super::words::{Words, size};
use std::str::from_utf8;

/// What a line says.
#[derive(Clone, Copy)]
pub enum Line {
    /// That a new page begins, with these sizes.
    Page(Sizes),
    /// An order on the page that is open.
    Order(PageOrder),
}

/// What a line has before its comment, without outer blanks. It refuses bytes that are no UTF-8 text, but those of the
/// comment may be any.
#[tactic(auto, unfolding(crate::specs::Lines::order_of))]
pub fn order_in(line: &[u8]) -> Result<&str, Unreadable<'_>>
    ensures { Answers (λ t. t.now) result (order_of line.now) }
{
    let text = text_in(before_comment(line))?;
    Ok(text.trim())
}

// What stands before the first '#'.
fn before_comment(line: &[u8]) -> &[u8]
    ensures { result.now ≡ before_comment line.now }
{
    match line.iter().position(|byte| *byte == b'#') {
        Some(at) => &line[..at],
        None => line,
    }
}

// The text that the bytes are.
#[tactic(auto, using(crate::proofs::Comments::is_text, crate::proofs::Comments::is_no_text), unfolding(crate::specs::Lines::text_of))]
fn text_in(line: &[u8]) -> Result<&str, Unreadable<'_>>
    ensures { Answers (λ t. t.now) result (text_of line.now) }
{
    from_utf8(line).map_err(|_| Unreadable::NoText)
}

/// The name of a page: the second word of its line, or '' where there is none.
pub fn page_name(text: &str) -> &str
    ensures { result.now ≡ second_of (words_of text.now) }
{
    let mut words = Words::new(text);
    words.word();
    words.word()
}

/// What a line may have been meant to do, by the words before its comment and before its first byte that is no text. It
/// is asked of lines that cannot be read, and answers for any.
pub fn intent(line: &[u8]) -> Intent
    ensures { result ≡ intent_of line.now }
{
    let mut words = Words::new(text_at_front(before_comment(line)));
    let first = words.word();
    intent_of_words(first, words.word())
}

// What stands before the first byte that is no text.
fn text_at_front(bytes: &[u8]) -> &str
    ensures { result.now ≡ text_at_front bytes.now }
{
    bytes.utf8_chunks().next().map_or("", |chunk| chunk.valid())
}

// By the first two words.
#[tactic(auto, using(crate::proofs::Others::other), unfolding(crate::specs::Intents::intent_of_words))]
fn intent_of_words(first: &str, second: &str) -> Intent
    ensures { result ≡ intent_of_words first.now second.now }
{
    match first {
        "page" => Intent::Page,
        "set" | "measure" | "cover" => Intent::Question,
        "marks" | "frames" => sheet_intent(second),
        _ => Intent::Change,
    }
}

// By the word after `marks` or `frames`.
#[tactic(auto, using(crate::proofs::Others::other), unfolding(crate::specs::Intents::sheet_intent))]
fn sheet_intent(name: &str) -> Intent
    ensures { result ≡ sheet_intent name.now }
{
    match name {
        "winding" | "top" | "bounding_box" | "draw" | "set" => Intent::Question,
        _ => Intent::Change,
    }
}

/// Reads what a line has before its comment: its first word says what it is, and the others are its numbers, its
/// move and its key. It refuses what is no order, with the first fault that is met from left to right.
pub fn read(text: &str) -> Result<Line, Unreadable<'_>>
    // What is read is spelled so.
    ensures found { IfOk result (λ l. Says (words_of text.now) l) }
    // What is spelled so is read.
    ensures only { (l : Line) → Says (words_of text.now) l → result ≡ Ok l }
    // Which fault it is.
    ensures exact { Answers (λ l. l) result (line_of text.now) }
{
    read_line(text)
}

// By the first word.
#[tactic(auto, using(crate::proofs::Others::other), unfolding(crate::specs::Lines::line_of, crate::specs::Lines::line))]
fn read_line(text: &str) -> Result<Line, Unreadable<'_>>
    ensures { Answers (λ l. l) result (line_of text.now) }
{
    let mut words = Words::new(text);
    match words.word() {
        "page" => Ok(Line::Page(read_page(&mut words)?)),
        "marks" => Ok(Line::Order(read_order(&mut words)?.map_or_else(
            PageOrder::NoMove,
            PageOrder::Marks,
        ))),
        "frames" => Ok(Line::Order(read_order(&mut words)?.map_or_else(
            PageOrder::NoMove,
            PageOrder::Frames,
        ))),
        "set" => Ok(Line::Order(PageOrder::Marks(SheetOrder::Set(read_set(&mut words)?)))),
        "measure" => Ok(Line::Order(PageOrder::Measure(read_measured(&mut words)?))),
        "cover" => Ok(Line::Order(read_cover(&mut words)?.map_or_else(
            PageOrder::NoMove,
            PageOrder::Cover,
        ))),
        word => Err(Unreadable::NoOrder(word)),
    }
}

// A name, and the sizes after it. Those that are not said are the usual ones.
#[tactic(auto, using(crate::proofs::Others::other), unfolding(crate::specs::Lines::page, crate::specs::Lines::sizes))]
fn read_page<'a>(words: &mut Words<'a>) -> Result<Sizes, Unreadable<'a>>
    ensures { Answers (λ z. z) result (page (left_of words.old)) }
{
    if words.word().is_empty() {
        return Err(Unreadable::NoPage);
    }
    let entries = read_size(words, Sizes::USUAL.entries, Sizes::MOST.entries)?;
    let places = read_size(words, Sizes::USUAL.places, Sizes::MOST.places)?;
    match words.word() {
        "" => Ok(Sizes { entries, places }),
        _ => Err(Unreadable::NoPage),
    }
}

// A size of `most` at most, or the usual one at the end of the line.
#[tactic(auto, using(crate::proofs::Others::other), unfolding(crate::specs::Lines::size_or))]
fn read_size<'a>(words: &mut Words<'a>, usual: usize, most: usize) -> Result<usize, Unreadable<'a>>
    ensures { Reads (λ n. n) result (size_or usual most (left_of words.old)) (left_of words.new) }
{
    match words.word() {
        "" => Ok(usual),
        word => size(word, most),
    }
}
