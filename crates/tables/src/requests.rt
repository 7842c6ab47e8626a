// What the words behind the program's name ask for.
ghost use Rattle.std.specs.Prelude.{◌≡◌, MatchOption};
ghost use Rattle.intake.specs.Arguments.{texts};
ghost use Rattle.tables.specs.Requests.{IsFlag, AreNamed, AsksRuns, AsksTable};

use crate::forms::Form;
use intake::steps_in;
use memory::limits::PROGRAM_STEPS;

// How many steps each run is searched, the form of the table, and whether nothing is told of the progress.
#[derive(Clone, Copy)]
pub struct Options {
    pub steps: u64,
    pub form: Form,
    pub quiet: bool,
}

// A table of the runs in files with these names.
#[derive(Clone, Copy)]
pub struct Runs<'a> {
    pub options: Options,
    pub names: &'a [String],
}

// What the program is asked for.
#[derive(Clone, Copy)]
pub enum TableRequest<'a> {
    Table(Runs<'a>),
    Help,
}

// What a word is before any name: an option, the end of the options, or the first name. No other word that begins with - is known.
#[derive(Clone, Copy)]
enum Flag {
    Steps,
    Csv,
    Latex,
    Quiet,
    End,
    Unknown,
    Name,
}

impl Flag {
    fn of(word: &str) -> Flag
        ensures { IsFlag result word.now }
    {
        if word == "--steps" {
            Flag::Steps
        } else if word == "--csv" {
            Flag::Csv
        } else if word == "--latex" {
            Flag::Latex
        } else if word == "--quiet" {
            Flag::Quiet
        } else if word == "--" {
            Flag::End
        } else if word.starts_with('-') {
            Flag::Unknown
        } else {
            Flag::Name
        }
    }
}

// These words as names, if there are any.
fn named<'a>(options: Options, names: &'a [String]) -> Option<Runs<'a>>
    ensures { MatchOption result ((r : Runs) → AreNamed options (texts names.now) r → ⊥) (λ r. AreNamed options (texts names.now) r) }
{
    if names.is_empty() {
        None
    } else {
        Some(Runs { options, names })
    }
}

// What these words ask for behind others that set these options. Of two options that exclude each other, the later one counts.
fn asked<'a>(options: Options, words: &'a [String]) -> Option<Runs<'a>>
    ensures { MatchOption result ((r : Runs) → AsksRuns options (texts words.now) r → ⊥) (λ r. AsksRuns options (texts words.now) r) }
{
    let (first, rest) = words.split_first()?;
    match Flag::of(first.as_str()) {
        Flag::Csv => asked(
            Options {
                form: Form::Csv,
                ..options
            },
            rest,
        ),
        Flag::Latex => asked(
            Options {
                form: Form::Latex,
                ..options
            },
            rest,
        ),
        Flag::Quiet => asked(
            Options {
                quiet: true,
                ..options
            },
            rest,
        ),
        Flag::Steps => {
            let (number, rest) = rest.split_first()?;
            let steps = steps_in(number.as_str())?;
            asked(Options { steps, ..options }, rest)
        }
        Flag::End => named(options, rest),
        Flag::Name => Some(Runs {
            options,
            names: words,
        }),
        Flag::Unknown => None,
    }
}

impl<'a> TableRequest<'a> {
    // What these words ask for.
    pub fn of(words: &'a [String]) -> Option<TableRequest<'a>>
        ensures { MatchOption result ((x : TableRequest) → AsksTable x (texts words.now) → ⊥) (λ x. AsksTable x (texts words.now)) }
    {
        let options = Options {
            steps: PROGRAM_STEPS,
            form: Form::Aligned,
            quiet: false,
        };
        match words {
            [word] if word.as_str() == "--help" => Some(TableRequest::Help),
            _ => Some(TableRequest::Table(asked(options, words)?)),
        }
    }
}
