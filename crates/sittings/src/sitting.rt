//! The sitting as it goes on, line by line.
ghost use Rattle.std.specs.Prelude.{◌≡◌, [], ◌∷◌, ◌++◌, List, OnOk, IfOk, option_map};
ghost use Rattle.std.specs.Io.KnownBytes.{Appends};
ghost use Rattle.orders.specs.Escapes.{escaped};
ghost use Rattle.orders.specs.Intents.{intent_of};
ghost use Rattle.orders.specs.Lines.{line_of};
ghost use Rattle.orders.specs.Reasons.{reason_of};
ghost use Rattle.orders.specs.Runs.{second_of};
ghost use Rattle.orders.specs.Words.{words_of};
ghost use Rattle.sittings.specs.Moments.{StandsFor, SittingAfter, IsSound};
ghost use Rattle.sittings.specs.Courses.{Course, Input, next_line, file_end, course, without_byte_order_mark, with_line_counted, read_as, followed, turned, obeyed, begun, carried, not_marked, passed_over, meant, unmarked, ended};
ghost use Rattle.sittings.specs.Transcripts.{Written, LineSays, ReadSays, FollowedSays, ObeyedSays, CarriedSays, not_marked_text, turned_text, passed_text, meant_text, end_text, finish_text, fault_in, fault_of};

use super::progress::{Progress, Standing};
use super::tally::PageSum;
use super::transcript::write_answer;
use exam::page::Page;
use orders::escaped::Escaped;
use orders::line::{Line, intent, order_in, page_name, read};
use orders::order::{PageOrder, Sizes};
use orders::unreadable::{Intent, Unreadable};
use std::alloc::{AllocError, Global};
use std::io;
use std::io::Write;

/// A sitting: the page with its sheets, what it is called, and how far the sitting has come. Its memory is that of one
/// page, however many pages and orders there are.
#[derive(Drop)]
pub struct Sitting {
    heap: Global,
    page: Page,
    name: String,
    progress: Progress,
}

impl Sitting {
    /// A sitting of which no line was taken. What it needs will lie on `heap`.
    pub fn new(heap: Global) -> Sitting
        ensures { SittingAfter [] result }
    {
        Sitting {
            heap,
            page: Page::new(heap),
            name: String::new(heap),
            progress: Progress::START,
        }
    }

    /// Takes the next line, without its end, and writes what it is answered. An order is carried out at once; one that
    /// begins a page sums up the page before it first. It gives why the line cannot be read, if so. It fails only where
    /// there is no memory for a page or for its name, or where it writes.
    pub fn take_line<'l, W: Write>(
        &mut self,
        line: &'l [u8],
        out: &mut W,
    ) -> io::Result<Option<Unreadable<'l>>>
        // For every list of lines, and of files that ended, after which the sitting can stand.
        ensures history { (past : List Input) → SittingAfter past self.old → OnOk result (SittingAfter (past ++ (next_line line.now ∷ [])) self.new) }
        ensures written { (past : List Input) → SittingAfter past self.old
            → OnOk result (Written (LineSays line.now (course past)) (W.contents out.old) (W.contents out.new)) }
        ensures fault { (past : List Input) → SittingAfter past self.old
            → IfOk result (λ why. option_map reason_of why ≡ fault_in line.now (course past)) }
        // After every list of lines, this one at its end or not, the rows of both books are sound.
        ensures sound { (past : List Input) → IsSound (course past) }
    {
        let line = self.next_line(line);
        match order_in(line) {
            Ok("") => Ok(None),
            Ok(text) => self.take_order(line, text, out),
            Err(why) => {
                self.pass_over(line, why, out)?;
                Ok(Some(why))
            }
        }
    }

    /// How many lines of the file were taken, and so the number of the last one. It stops at 2^64 - 1.
    pub fn lines(&self) -> u64
        ensures { result ≡ self.now.progress.lines }
    {
        self.progress.lines
    }

    /// Ends the file: the page is summed up, if there is one, and the lines of the next file count from 1 again. It fails
    /// only where it writes.
    pub fn end_file<W: Write>(&mut self, out: &mut W) -> io::Result<()>
        ensures history { (past : List Input) → SittingAfter past self.old → OnOk result (SittingAfter (past ++ (file_end ∷ [])) self.new) }
        ensures written { (past : List Input) → SittingAfter past self.old
            → OnOk result (Appends (W.contents out.old) (W.contents out.new) (end_text (course past))) }
    {
        self.end_page(out)?;
        self.progress.lines = 0;
        Ok(())
    }

    /// Ends the sitting: the page is summed up, if there is one, and the counts of all pages are written. It fails only
    /// where it writes.
    pub fn finish<W: Write>(mut self, out: &mut W) -> io::Result<()>
        ensures written { (past : List Input) → SittingAfter past self
            → OnOk result (Appends (W.contents out.old) (W.contents out.new) (finish_text (course past))) }
    {
        self.end_page(out)?;
        let counts = self.progress.total;
        writeln!(out, "{counts}")
    }

    // Counts a line. A byte order mark at the start of a file is none of its bytes.
    fn next_line<'l>(&mut self, line: &'l [u8]) -> &'l [u8]
        ensures bytes { result.now ≡ without_byte_order_mark self.old.progress.lines line.now }
        ensures progress { self.new.progress ≡ with_line_counted self.old.progress }
        ensures same { (self.new.page ≡ self.old.page) × (self.new.name ≡ self.old.name) }
    {
        let is_first = self.progress.lines == 0;
        self.progress.lines = self.progress.lines.saturating_add(1);
        if is_first {
            line.strip_prefix(b"\xEF\xBB\xBF").unwrap_or(line)
        } else {
            line
        }
    }

    // Does what the text of a line says, or passes the line over where it says nothing.
    fn take_order<'l, W: Write>(
        &mut self,
        line: &[u8],
        text: &'l str,
        out: &mut W,
    ) -> io::Result<Option<Unreadable<'l>>>
        ensures kept { (s : Course) → StandsFor s self.old → OnOk result (StandsFor (read_as line.now text.now (line_of text.now) s) self.new) }
        ensures written { (s : Course) → StandsFor s self.old
            → OnOk result (Written (ReadSays line.now text.now (line_of text.now) s) (W.contents out.old) (W.contents out.new)) }
        ensures fault { IfOk result (λ why. option_map reason_of why ≡ fault_of (line_of text.now)) }
    {
        match read(text) {
            Ok(said) => {
                self.follow(said, text, out)?;
                Ok(None)
            }
            Err(why) => {
                self.pass_over(line, why, out)?;
                Ok(Some(why))
            }
        }
    }

    // Does what a line says.
    fn follow<W: Write>(&mut self, line: Line, text: &str, out: &mut W) -> io::Result<()>
        ensures kept { (s : Course) → StandsFor s self.old → OnOk result (StandsFor (followed text.now line s) self.new) }
        ensures written { (s : Course) → StandsFor s self.old
            → OnOk result (Written (FollowedSays text.now line s) (W.contents out.old) (W.contents out.new)) }
    {
        match line {
            Line::Page(sizes) => self.turn_over(sizes, text, out),
            Line::Order(order) => self.obey(order, text, out),
        }
    }

    // Ends the page, and begins another.
    fn turn_over<W: Write>(&mut self, sizes: Sizes, text: &str, out: &mut W) -> io::Result<()>
        ensures kept { (s : Course) → StandsFor s self.old → OnOk result (StandsFor (turned sizes (escaped (second_of (words_of text.now))) s) self.new) }
        ensures written { (s : Course) → StandsFor s self.old → OnOk result (Appends (W.contents out.old) (W.contents out.new) (turned_text text.now s)) }
    {
        self.end_page(out)?;
        let name = Escaped(page_name(text));
        self.name = format!(in self.heap; "{name}")?;
        self.page.open(sizes)?;
        self.progress.standing = Standing::Marked;
        self.progress.page.count_page_line();
        let number = self.progress.lines;
        let order = Escaped(text);
        writeln!(out, "{number} {order} -> 0 marks")
    }

    // Does what an order says. Where there is no page yet, it begins one of the usual sizes.
    fn obey<W: Write>(&mut self, order: PageOrder, text: &str, out: &mut W) -> io::Result<()>
        ensures kept { (s : Course) → StandsFor s self.old → OnOk result (StandsFor (obeyed order s) self.new) }
        ensures written { (s : Course) → StandsFor s self.old
            → OnOk result (Written (ObeyedSays s.progress.standing text.now order s) (W.contents out.old) (W.contents out.new)) }
    {
        match self.progress.standing {
            Standing::Marked => self.carry_out(order, text, out),
            Standing::Unmarked => self.leave(text, out),
            Standing::NoPage => {
                self.begin()?;
                self.carry_out(order, text, out)
            }
        }
    }

    // Begins a page of the usual sizes, called by the line that it begins at.
    fn begin(&mut self) -> Result<(), AllocError>
        ensures kept { (s : Course) → StandsFor s self.old → OnOk result (StandsFor (begun s) self.new) }
    {
        let number = self.progress.lines;
        self.name = format!(in self.heap; "line {number}")?;
        self.page.open(Sizes::USUAL)?;
        self.progress.standing = Standing::Marked;
        self.progress.page.count_page();
        Ok(())
    }

    // Carries out an order on the page, counts it and writes its answer.
    fn carry_out<W: Write>(&mut self, order: PageOrder, text: &str, out: &mut W) -> io::Result<()>
        ensures kept { (s : Course) → StandsFor s self.old → OnOk result (StandsFor (carried order s) self.new) }
        ensures written { (s : Course) → StandsFor s self.old
            → OnOk result (Written (CarriedSays text.now order s) (W.contents out.old) (W.contents out.new)) }
    {
        let reply = self.page.follow(order);
        let in_doubt = self.progress.in_doubt;
        self.progress.page.count_order(&order, &reply, in_doubt);
        let drawn = self.page.drawn(reply.elements());
        write_answer(self.progress.lines, text, &reply, drawn, out)
    }

    // Leaves an order on a page that is not marked, and says so.
    fn leave<W: Write>(&mut self, text: &str, out: &mut W) -> io::Result<()>
        ensures kept { (s : Course) → StandsFor s self.old → OnOk result (StandsFor (not_marked s) self.new) }
        ensures written { (s : Course) → StandsFor s self.old → OnOk result (Appends (W.contents out.old) (W.contents out.new) (not_marked_text text.now s)) }
    {
        self.progress.page.count_not_marked();
        let number = self.progress.lines;
        let order = Escaped(text);
        let name = self.name.as_str();
        writeln!(out, "{number} {order} -> not marked: {name}")
    }

    // Passes over a line that cannot be read, and says why. What its writer may have meant decides what becomes of the page.
    fn pass_over<W: Write>(
        &mut self,
        line: &[u8],
        why: Unreadable<'_>,
        out: &mut W,
    ) -> io::Result<()>
        ensures kept { (s : Course) → StandsFor s self.old → OnOk result (StandsFor (passed_over (intent_of line.now) s) self.new) }
        ensures written { (s : Course) → StandsFor s self.old
            → OnOk result (Appends (W.contents out.old) (W.contents out.new) (passed_text (intent_of line.now) (reason_of why.entry) s)) }
    {
        self.heed(intent(line), out)?;
        self.progress.page.count_unreadable();
        let number = self.progress.lines;
        writeln!(out, "{number} unreadable: {why}")
    }

    // Heeds what the writer of a line may have meant.
    fn heed<W: Write>(&mut self, intent: Intent, out: &mut W) -> io::Result<()>
        ensures kept { (s : Course) → StandsFor s self.old → OnOk result (StandsFor (meant intent s) self.new) }
        ensures written { (s : Course) → StandsFor s self.old → OnOk result (Appends (W.contents out.old) (W.contents out.new) (meant_text intent s)) }
    {
        match intent {
            Intent::Page => self.begin_unmarked(out),
            Intent::Change => {
                self.progress.in_doubt = true;
                Ok(())
            }
            Intent::Question => Ok(()),
        }
    }

    // Ends the page, and begins one on which nothing is marked, called by the line that it begins at.
    fn begin_unmarked<W: Write>(&mut self, out: &mut W) -> io::Result<()>
        ensures kept { (s : Course) → StandsFor s self.old → OnOk result (StandsFor (unmarked s) self.new) }
        ensures written { (s : Course) → StandsFor s self.old → OnOk result (Appends (W.contents out.old) (W.contents out.new) (end_text s)) }
    {
        self.end_page(out)?;
        let number = self.progress.lines;
        self.name = format!(in self.heap; "line {number}")?;
        self.progress.standing = Standing::Unmarked;
        self.progress.page.count_page();
        Ok(())
    }

    // Ends the page, and writes its sum, if there is one.
    fn end_page<W: Write>(&mut self, out: &mut W) -> io::Result<()>
        ensures kept { (s : Course) → StandsFor s self.old → OnOk result (StandsFor (ended s) self.new) }
        ensures written { (s : Course) → StandsFor s self.old → OnOk result (Appends (W.contents out.old) (W.contents out.new) (end_text s)) }
    {
        self.write_sum(out)?;
        self.progress.end_page();
        Ok(())
    }

    // Writes the sum of the page, if there is one.
    fn write_sum<W: Write>(&self, out: &mut W) -> io::Result<()>
        ensures { (s : Course) → StandsFor s self.now → OnOk result (Appends (W.contents out.old) (W.contents out.new) (end_text s)) }
    {
        match self.progress.standing {
            Standing::NoPage => Ok(()),
            _ => {
                let sum = PageSum {
                    name: self.name.as_str(),
                    tally: self.progress.page,
                };
                writeln!(out, "{sum}")
            }
        }
    }
}
