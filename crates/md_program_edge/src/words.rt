//! The words of a command line, and the options that they write.

ghost use Rattle.std.specs.Prelude.{◌≡◌, ◌↔◌, Some, IfSome};
ghost use Rattle.md_orders.specs.Grammar.{number_within};
ghost use Rattle.md_program_edge.specs.Words.{texts};
ghost use Rattle.md_program_edge.specs.Options.{lowest, highest, value_in, AreGiven, AreInRange};
ghost use Rattle.md_program_edge.specs.Options.{making_of, options_of, Write};
ghost use Rattle.md_program_edge.specs.declared.words.Given.{Given};
ghost use Rattle.md_program_edge.specs.declared.words.Options.{Options};
ghost use Rattle.md_program_edge.specs.Reading.{name_in, with_value, value_read, next_reading};

use md_book::{MAX_CALLER, MAX_SCRIPT_LINE};
use md_orders::{MAX_MADE_CALLERS, number_within};

/// What the words of a command line ask for.
#[derive(Clone, Copy, Debug, PartialEq, Eq)]
pub struct Options {
    /// How many callers there are, 1 to 64, and at most 8 if scripts are made.
    pub callers: u32,
    /// How many nodes a caller has until the store is renewed, 16 to 262,144. If there is no
    /// number, the call that opens the store chooses one (`open_for`, `play` of md_program).
    pub nodes: Option<u32>,
    /// How many attempts a caller has until the store is renewed, 1 to 16,384. If there is no
    /// number, that call chooses one, too.
    pub tries: Option<u32>,
    /// The scripts to make. If there are none, the input is read.
    pub make: Option<Making>,
}

/// Scripts to make.
#[derive(Clone, Copy, Debug, PartialEq, Eq)]
pub struct Making {
    /// The number that they are made from, 0 to 2,147,483,647.
    pub number: u32,
    /// How many commands they have, 1 to 1,000,000.
    pub lines: u32,
}

// The name of an option.
#[derive(Clone, Copy)]
enum Name {
    Callers,
    Nodes,
    Tries,
    Make,
    Lines,
}

impl Name {
    // The lowest and the highest value.
    fn range(self) -> (u32, u32)
        ensures low { result.0 ≡ lowest self }
        ensures high { result.1 ≡ highest self }
    {
        match self {
            Name::Callers => (1, MAX_CALLER),
            Name::Nodes => (16, 262_144),
            Name::Tries => (1, 16_384),
            Name::Make => (0, 2_147_483_647),
            Name::Lines => (1, MAX_SCRIPT_LINE),
        }
    }
}

// The option that a text names.
fn name_in(text: &str) -> Option<Name>
    ensures { result ≡ name_in text.now }
{
    match text {
        "--callers" => Some(Name::Callers),
        "--nodes" => Some(Name::Nodes),
        "--tries" => Some(Name::Tries),
        "--make" => Some(Name::Make),
        "--lines" => Some(Name::Lines),
        _ => None,
    }
}

// The values that were given to options.
#[derive(Clone, Copy)]
struct Given {
    callers: Option<u32>,
    nodes: Option<u32>,
    tries: Option<u32>,
    make: Option<u32>,
    lines: Option<u32>,
}

impl Given {
    fn value(&self, name: Name) -> Option<u32>
        ensures { result ≡ value_in self.now name }
    {
        match name {
            Name::Callers => self.callers,
            Name::Nodes => self.nodes,
            Name::Tries => self.tries,
            Name::Make => self.make,
            Name::Lines => self.lines,
        }
    }

    // Gives an option the value that a text writes. None if the option has a value, or if the text
    // writes none in its range.
    fn with(self, name: Name, text: &str) -> Option<Given>
        ensures { result ≡ with_value self name text.now }
    {
        if self.value(name).is_some() {
            return None;
        }
        let (low, high) = name.range();
        let value = Some(number_within(text.as_bytes(), low, high)?);
        Some(match name {
            Name::Callers => Given {
                callers: value,
                ..self
            },
            Name::Nodes => Given {
                nodes: value,
                ..self
            },
            Name::Tries => Given {
                tries: value,
                ..self
            },
            Name::Make => Given {
                make: value,
                ..self
            },
            Name::Lines => Given {
                lines: value,
                ..self
            },
        })
    }
}

// The values that the words so far gave, and the name whose value is the next word.
#[derive(Clone, Copy)]
struct Reading {
    given: Given,
    waiting: Option<Name>,
}

// Reads the value of an option.
fn read_value(given: Given, name: Name, text: &str) -> Option<Reading>
    ensures { result ≡ value_read given name text.now }
{
    Some(Reading {
        given: given.with(name, text)?,
        waiting: None,
    })
}

impl Reading {
    // Reads one word more.
    fn next(self, word: &str) -> Option<Reading>
        ensures { result ≡ next_reading self word.now }
    {
        if let Some(name) = self.waiting {
            return read_value(self.given, name, word);
        }
        match word.split_once('=') {
            Some((text, value)) => read_value(self.given, name_in(text)?, value),
            None => Some(Reading {
                given: self.given,
                waiting: Some(name_in(word)?),
            }),
        }
    }
}

// The values that words give options, each at most once and in its range.
fn given_by(words: &[&str]) -> Option<Given>
    ensures { (given : Given) → (result ≡ Some given) ↔ AreGiven (texts words.now) given }
{
    let mut reading = Reading {
        given: Given {
            callers: None,
            nodes: None,
            tries: None,
            make: None,
            lines: None,
        },
        waiting: None,
    };
    for word in words {
        reading = reading.next(word)?;
    }
    match reading.waiting {
        Some(_) => None,
        None => Some(reading.given),
    }
}

// Scripts are made from a number and a number of lines, for at most 8 callers.
fn making_of(callers: u32, number: Option<u32>, lines: Option<u32>) -> Option<Option<Making>>
    ensures { result ≡ making_of callers number lines }
{
    match (number, lines) {
        (None, None) => Some(None),
        (Some(number), Some(lines)) if callers <= MAX_MADE_CALLERS => {
            Some(Some(Making { number, lines }))
        }
        _ => None,
    }
}

fn options_of(given: Given) -> Option<Options>
    ensures { result ≡ options_of given }
{
    let callers = given.callers.unwrap_or(1);
    let make = making_of(callers, given.make, given.lines)?;
    Some(Options {
        callers,
        nodes: given.nodes,
        tries: given.tries,
        make,
    })
}

/// The options that words write: `--callers N`, `--nodes K`, `--tries K`, `--make NUMBER` and
/// `--lines N`. Each is in two words, or in one word with `=` between, and each comes at most once.
/// A value is a number in one to ten ASCII digits, in the range of its option (`Options`,
/// `Making`). `--make` and `--lines` come together, with at most 8 callers. Without `--callers`
/// there is one caller. `None` exactly if the words are anything else. It takes no memory.
pub fn read_options(words: &[&str]) -> Option<Options>
    ensures written { (options : Options)
        → (result ≡ Some options) ↔ Write (texts words.now) options }
    ensures in_range { IfSome result AreInRange }
{
    options_of(given_by(words)?)
}
