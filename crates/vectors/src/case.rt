//! Reads a case of the list, and compares what a function answers with what it should.
ghost use Rattle.std.specs.Prelude.{◌≡◌, Some};
ghost use Rattle.std.specs.Result.{result_ok};
ghost use Rattle.cases.specs.Texts.{Finds};
ghost use Rattle.vectors.specs.Functions.{all_functions, function_names, name_of, place_of, places_within};
ghost use Rattle.vectors.specs.Texts.{text_of, WritesAll};
ghost use Rattle.vectors.specs.Answers.{Answers, alike};
ghost use Rattle.vectors.specs.Lists.{CaseOf, LineOf};

use cases::lines::text_in;
use cases::named::Named;
use cases::number::{NoNumber, Number, same_bits};
use cases::report::Counted;
use elementary::powers::{powi2, powi7};
use elementary::sixth_root::sixth_root;
use elementary::sqrt::sqrt;
use elementary::trig::{atan2, sin_cos, tan};
use std::fmt;
use std::str::{FromStr, Utf8Error};

/// A function that the list has cases of.
#[derive(Clone, Copy)]
pub enum Function {
    /// The square root.
    Sqrt,
    /// The sine and the cosine.
    SinCos,
    /// The tangent.
    Tan,
    /// The angle of a vector.
    Atan2,
    /// The sixth root.
    SixthRoot,
    /// The second power.
    Powi2,
    /// The seventh power.
    Powi7,
}

impl Function {
    /// How many functions there are.
    pub const COUNT: usize = 7;

    // What the function answers: none if the arguments are too few or too many.
    fn answer(self, arguments: Numbers) -> Option<Numbers>
        ensures { Answers self arguments result }
    {
        match (self, arguments) {
            (Function::Sqrt, Numbers::One(x)) => Some(Numbers::One(sqrt(x))),
            (Function::SinCos, Numbers::One(th)) => {
                let (s, c) = sin_cos(th);
                Some(Numbers::Two(s, c))
            }
            (Function::Tan, Numbers::One(th)) => Some(Numbers::One(tan(th))),
            (Function::Atan2, Numbers::Two(y, x)) => Some(Numbers::One(atan2(y, x))),
            (Function::SixthRoot, Numbers::One(v)) => Some(Numbers::One(sixth_root(v))),
            (Function::Powi2, Numbers::One(h)) => Some(Numbers::One(powi2(h))),
            (Function::Powi7, Numbers::One(h)) => Some(Numbers::One(powi7(h))),
            _ => None,
        }
    }
}

impl Named for Function {
    ghost name_of = { name_of };

    ghost all = { all_functions };

    ghost each = { function_names };

    fn all() -> &'static [Function] {
        &[
            Function::Sqrt,
            Function::SinCos,
            Function::Tan,
            Function::Atan2,
            Function::SixthRoot,
            Function::Powi2,
            Function::Powi7,
        ]
    }

    fn name(self) -> &'static str {
        match self {
            Function::Sqrt => "sqrt",
            Function::SinCos => "sin_cos",
            Function::Tan => "tan",
            Function::Atan2 => "atan2",
            Function::SixthRoot => "sixth_root",
            Function::Powi2 => "powi2",
            Function::Powi7 => "powi7",
        }
    }
}

impl Counted<{ Function::COUNT }> for Function {
    ghost place_of = { place_of };

    ghost within = { places_within };

    fn place(self) -> usize {
        self as usize
    }
}

impl fmt::Display for Function {
    ghost output = { λ f. Some (name_of f) };

    fn fmt<W: fmt::Write>(&self, f: &mut fmt::Formatter<W>) -> fmt::Result {
        f.write_str(self.name())
    }
}

/// The arguments of a function, or its answer.
#[derive(Clone, Copy)]
pub enum Numbers {
    /// A single number.
    One(f64),
    /// A pair.
    Two(f64, f64),
}

impl Numbers {
    fn agrees_with(self, other: Numbers) -> bool
        ensures { result ≡ alike self other }
    {
        match (self, other) {
            (Numbers::One(a), Numbers::One(b)) => same_bits(a, b),
            (Numbers::Two(a, b), Numbers::Two(c, d)) => same_bits(a, c) && same_bits(b, d),
            _ => false,
        }
    }
}

impl FromStr for Numbers {
    type Err = NoNumber;

    ghost from_str_gives = { λ text r. Finds (WritesAll text) (result_ok r) };

    fn from_str(text: &str) -> Result<Numbers, NoNumber> {
        match text.split_once(' ') {
            Some((first, second)) => {
                let Number(x) = first.parse()?;
                let Number(y) = second.parse()?;
                Ok(Numbers::Two(x, y))
            }
            None => {
                let Number(x) = text.parse()?;
                Ok(Numbers::One(x))
            }
        }
    }
}

impl fmt::Display for Numbers {
    ghost output = { λ n. Some (text_of n) };

    fn fmt<W: fmt::Write>(&self, f: &mut fmt::Formatter<W>) -> fmt::Result {
        match *self {
            Numbers::One(a) => write!(f, "{}", Number(a)),
            Numbers::Two(a, b) => write!(f, "{} {}", Number(a), Number(b)),
        }
    }
}

/// A case, put to its function.
#[derive(Clone, Copy)]
pub struct Case {
    /// The function.
    pub function: Function,
    /// What it answers.
    pub got: Numbers,
    // What it should answer.
    expected: Numbers,
}

/// A line that is no case.
#[derive(Clone, Copy, Debug, PartialEq, Eq)]
pub struct NoCase;

impl From<NoNumber> for NoCase {
    fn from(_: NoNumber) -> NoCase {
        NoCase
    }
}

impl From<Utf8Error> for NoCase {
    fn from(_: Utf8Error) -> NoCase {
        NoCase
    }
}

impl FromStr for Case {
    type Err = NoCase;

    ghost from_str_gives = { λ text r. Finds (CaseOf text) (result_ok r) };

    // Reads NAME ARGUMENT.. -> ANSWER.. and asks the function.
    fn from_str(text: &str) -> Result<Case, NoCase> {
        let (question, answer) = text.split_once(" -> ").ok_or(NoCase)?;
        let (name, arguments) = question.split_once(' ').ok_or(NoCase)?;
        let function = Function::named(name).ok_or(NoCase)?;
        let got = function.answer(arguments.parse()?).ok_or(NoCase)?;
        let expected = answer.parse()?;
        Ok(Case {
            function,
            got,
            expected,
        })
    }
}

impl Case {
    /// The case on a line, or none where the line is skipped.
    pub fn on_line(line: &[u8]) -> Result<Option<Case>, NoCase>
        ensures { LineOf line.now result }
    {
        match text_in(line)? {
            Some(text) => Ok(Some(text.parse()?)),
            None => Ok(None),
        }
    }

    /// Whether the function answers as it should.
    pub fn agrees(self) -> bool
        ensures { result ≡ alike self.got self.expected }
    {
        self.got.agrees_with(self.expected)
    }
}
