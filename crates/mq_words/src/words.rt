// What the arguments of the program ask for.
ghost use Rattle.std.specs.Prelude.{◌≡◌, ℕ, List, Some, false, option_map, IfOk, IfErr, IfSome, IsNone};
ghost use Rattle.clap.specs.Matches.{found_of};
ghost use Rattle.clap.specs.Values.{kind_of};
ghost use Rattle.mq_base.specs.Text.{texts};
ghost use Rattle.mq_words.specs.Matched.{Finds, HasForm, subject_of as subject_of_form};
ghost use Rattle.mq_words.specs.Words.{Asks, number_asked, refuses_words as refuses_words_of, usage_fault, RefusesWords};

use crate::fault::{UsageFault, WordsFault};
use crate::rule::refuses_words;
use clap::error::ErrorKind;
use clap::{Arg, ArgAction, ArgMatches, Command, Error};
use mq_base::read_number;
use std::alloc::Global;

/// The input.
#[derive(Clone, Copy)]
pub enum Subject<'a> {
    /// Two files.
    Named {
        /// The name of the model's file.
        model: &'a str,
        /// The name of the trace's file.
        trace: &'a str,
    },
    /// The made input of this number.
    Made(u64),
}

/// What valid arguments ask for.
#[derive(Clone, Copy)]
pub struct Settings<'a> {
    /// The input.
    pub subject: Subject<'a>,
    /// The number of workers, from 1 to 64; the default is 4.
    pub workers: u64,
    /// The number of jobs in a block, from 1 to 65,536; the default is 4,096.
    pub block: u64,
    /// The form of the report, 1 or 2; the default is 2.
    pub form: u64,
    /// Whether the report has a line per visit.
    pub jobs: bool,
}

/// The two forms of the command.
#[derive(Clone, Copy)]
pub enum Form<'a> {
    /// Two names.
    Names {
        /// The name of the model's file.
        model: &'a str,
        /// The name of the trace's file.
        trace: &'a str,
    },
    /// The value of `--made`, not yet read as a number.
    Made(&'a str),
}

// Returns the number that the value of an option gives, the default without a value, or `None`
// if the value isn't a number from `least` to `most`.
fn number_of(value: Option<&str>, default: u64, least: u64, most: u64) -> Option<u64>
    ensures { result ≡ number_asked default least most (option_map (λ w. w.now) value.entry) }
{
    match value {
        None => Some(default),
        Some(text) => match read_number(text.as_bytes(), most) {
            Some(number) if least <= number => Some(number),
            _ => None,
        },
    }
}

// Returns the form of the arguments in which clap found this, or `None` if they have neither
// form.
fn form_of<'a>(matches: &ArgMatches<'a>) -> Option<Form<'a>>
    ensures some { IfSome result (λ form. (words : List (List ℕ)) → refuses_words_of words ≡ false → Finds words (found_of matches.now) → HasForm words form) }
    ensures none { IsNone result → (words : List (List ℕ)) → refuses_words_of words ≡ false → Finds words (found_of matches.now) → usage_fault words ≡ Some UsageFault.Form }
{
    let model = matches.get_str("model");
    let trace = matches.get_str("trace");
    let Some(text) = matches.get_str("made") else {
        return Some(Form::Names {
            model: model?,
            trace: trace?,
        });
    };
    if model.is_some() || trace.is_some() {
        return None;
    }
    Some(Form::Made(text))
}

// Returns the input, or `None` if the value of `--made` isn't a number.
fn subject_of<'a>(form: Form<'a>) -> Option<Subject<'a>>
    ensures { result ≡ subject_of_form form.entry }
{
    match form {
        Form::Names { model, trace } => Some(Subject::Named { model, trace }),
        Form::Made(text) => match read_number(text.as_bytes(), u64::MAX) {
            Some(number) => Some(Subject::Made(number)),
            None => None,
        },
    }
}

// Returns what clap finds in the arguments. If they meet the rule, its only error is a lack of
// memory.
fn matches_of<'a>(alloc: Global, words: &'a [&'a str]) -> Result<ArgMatches<'a>, Error>
    ensures found { refuses_words_of (texts words.now) ≡ false → IfOk result (λ matches. Finds (texts words.now) (found_of matches)) }
    ensures memory { refuses_words_of (texts words.now) ≡ false → IfErr result (λ error. kind_of error ≡ ErrorKind.OutOfMemory) }
{
    let arguments = vec![in alloc;
        Arg::new(alloc, "model"),
        Arg::new(alloc, "trace"),
        Arg::new(alloc, "workers").long("workers"),
        Arg::new(alloc, "block").long("block"),
        Arg::new(alloc, "made").long("made"),
        Arg::new(alloc, "report").long("report"),
        Arg::new(alloc, "jobs")
            .long("jobs")
            .action(ArgAction::SetTrue),
    ]?;
    let command = Command::new(alloc, "mpsim")
        .no_binary_name(true)
        .disable_help_flag(true)
        .args(arguments)?;
    command.try_get_matches_from(words)
}

// Returns what the arguments in which clap found this ask for, or their first error.
fn settings_in<'a>(matches: &ArgMatches<'a>) -> Result<Settings<'a>, UsageFault>
    ensures asked { IfOk result (λ settings. (words : List (List ℕ)) → refuses_words_of words ≡ false → Finds words (found_of matches.now) → Asks words settings) }
    ensures refused { IfErr result (λ fault. (words : List (List ℕ)) → refuses_words_of words ≡ false → Finds words (found_of matches.now) → usage_fault words ≡ Some fault) }
{
    let Some(form) = form_of(matches) else {
        return Err(UsageFault::Form);
    };
    let Some(workers) = number_of(matches.get_str("workers"), 4, 1, 64) else {
        return Err(UsageFault::Workers);
    };
    let Some(block) = number_of(matches.get_str("block"), 4_096, 1, 65_536) else {
        return Err(UsageFault::Block);
    };
    let Some(subject) = subject_of(form) else {
        return Err(UsageFault::Made);
    };
    let Some(report) = number_of(matches.get_str("report"), 2, 1, 2) else {
        return Err(UsageFault::Report);
    };
    let jobs = matches.get_flag("jobs");
    Ok(Settings {
        subject,
        workers,
        block,
        form: report,
        jobs,
    })
}

/// Returns what the arguments ask for, or their first error, or out of memory.
pub fn settings_of<'a>(alloc: Global, words: &'a [&'a str]) -> Result<Settings<'a>, WordsFault>
    ensures asked { IfOk result (λ settings. Asks (texts words.now) settings) }
    ensures refused { IfErr result (RefusesWords (texts words.now)) }
{
    if refuses_words(words) {
        return Err(WordsFault::Usage(UsageFault::Words));
    }
    let Ok(matches) = matches_of(alloc, words) else {
        return Err(WordsFault::Memory);
    };
    let settings = settings_in(&matches);
    // They are dropped before the settings are returned.
    drop(matches);
    match settings {
        Ok(settings) => Ok(settings),
        Err(fault) => Err(WordsFault::Usage(fault)),
    }
}
