//! The subcommands of the program, and what they do with one input: docs/reference/programs.md, "Subcommands".

ghost use Rattle.std.specs.Prelude.{◌≡◌, map, option_map, string_bytes};
ghost use Rattle.promql_programs.specs.Jobs as spec;
ghost use Rattle.promql_programs.specs.Jobs.{DoesJob, PrintsQuery};

use crate::batch_job::answer_lines;
use crate::check::check;
use crate::check_settings::{CheckSettings, check_settings_of};
use crate::enforce_task::Enforce;
use crate::format_settings::{FormatSettings, format_settings_of};
use crate::limit_options::{default_limits, limits_with};
use crate::print_task::Print;
use crate::reports::say;
use crate::source::Source;
use crate::task::answer_query;
use crate::usage::{
    BATCH_HELP, BATCH_USAGE, CHECK_HELP, CHECK_USAGE, ENFORCE_HELP, ENFORCE_USAGE, FORMAT_HELP,
    FORMAT_USAGE, PRINT_HELP, PRINT_USAGE,
};
use promql_query::settings::Settings;
use promql_run::ahead::ReadsAhead;
use promql_run::ended::Ended;
use promql_run::format::Format;
use promql_run::writing::WriteFailed;
use promql_span::limits::Limits;
use std::alloc::Global;
use std::io::{Read, Write};

/// A subcommand.
#[derive(Clone, Copy, PartialEq, Eq, Debug)]
pub enum Subcommand {
    /// `line`, `pretty` and `json`: prints a query in this format.
    Print(Format),
    /// `check`: says why and where a query is rejected.
    Check,
    /// `format`: lays a query out for people.
    Format,
    /// `enforce`: puts a matcher into every selector of a query.
    Enforce,
    /// `batch`: answers the queries of lines.
    Batch,
}

impl Subcommand {
    /// The subcommand of this name; `None` where there is none.
    pub fn from_name(name: &str) -> Option<Subcommand>
        ensures { result ≡ spec.subcommand_named name.now }
    {
        if let Some(format) = Format::from_name(name) {
            return Some(Subcommand::Print(format));
        }
        match name {
            "check" => Some(Subcommand::Check),
            "format" => Some(Subcommand::Format),
            "enforce" => Some(Subcommand::Enforce),
            "batch" => Some(Subcommand::Batch),
            _ => None,
        }
    }

    /// The line that is printed for wrong arguments of it.
    pub fn usage(self) -> &'static str
        ensures { result.now ≡ spec.usage_of self }
    {
        match self {
            Subcommand::Print(_) => PRINT_USAGE,
            Subcommand::Check => CHECK_USAGE,
            Subcommand::Format => FORMAT_USAGE,
            Subcommand::Enforce => ENFORCE_USAGE,
            Subcommand::Batch => BATCH_USAGE,
        }
    }

    /// Its help.
    pub fn help(self) -> &'static str
        ensures { result.now ≡ spec.help_of self }
    {
        match self {
            Subcommand::Print(_) => PRINT_HELP,
            Subcommand::Check => CHECK_HELP,
            Subcommand::Format => FORMAT_HELP,
            Subcommand::Enforce => ENFORCE_HELP,
            Subcommand::Batch => BATCH_HELP,
        }
    }

    /// How many of its operands are before its files.
    pub fn before_files(self) -> usize
        ensures { result ≡ spec.before_files self }
    {
        match self {
            Subcommand::Enforce | Subcommand::Batch => 1,
            Subcommand::Print(_) | Subcommand::Check | Subcommand::Format => 0,
        }
    }
}

/// A subcommand with its settings.
#[derive(Clone, Copy, PartialEq, Eq, Debug)]
pub enum Job {
    /// Prints a query in this format.
    Print(Format),
    /// Says why and where a query is rejected.
    Check(CheckSettings),
    /// Lays a query out for people, or says whether it is laid out so.
    Format(FormatSettings),
    /// Puts the matcher that is the first operand into every selector of a query within these limits.
    Enforce(Limits),
    /// Answers the queries of lines.
    Batch(Settings),
}

/// The job that options and operands ask for; `None` where they ask for none. `usual` says whether messages have colors where no option
/// says it.
pub fn job_of(
    usual: bool,
    subcommand: Subcommand,
    options: &[String],
    operands: &[String],
) -> Option<Job>
    ensures { result ≡ spec.job_of usual subcommand (map string_bytes options.now) (map string_bytes operands.now) }
{
    match subcommand {
        Subcommand::Print(format) => print_job(format, options),
        Subcommand::Check => Some(Job::Check(check_settings_of(usual, options)?)),
        Subcommand::Format => Some(Job::Format(format_settings_of(options)?)),
        Subcommand::Enforce => enforce_job(options, operands),
        Subcommand::Batch => batch_job(options, operands),
    }
}

/// The job that prints in a format, which has no options.
fn print_job(format: Format, options: &[String]) -> Option<Job>
    ensures { result ≡ spec.print_job format (map string_bytes options.now) }
{
    match options {
        [] => Some(Job::Print(format)),
        _ => None,
    }
}

/// The job that enforces the matcher that is the first operand.
fn enforce_job(options: &[String], operands: &[String]) -> Option<Job>
    ensures { result ≡ spec.enforce_job (map string_bytes options.now) (map string_bytes operands.now) }
{
    let [_matcher, ..] = operands else {
        return None;
    };
    Some(Job::Enforce(limits_with(default_limits(), options)?))
}

/// The job that answers lines in the mode that is the first operand.
fn batch_job(options: &[String], operands: &[String]) -> Option<Job>
    ensures { result ≡ spec.batch_job (map string_bytes options.now) (map string_bytes operands.now) }
{
    let [mode, ..] = operands else {
        return None;
    };
    let format = Format::from_name(mode.as_str())?;
    let limits = limits_with(default_limits(), options)?;
    Some(Job::Batch(Settings { format, limits }))
}

/// The first of some words; nothing where there is none.
fn first_of(words: &[String]) -> &str
    ensures { result.now ≡ spec.first_of (map string_bytes words.now) }
{
    match words {
        [first, ..] => first.as_str(),
        [] => "",
    }
}

/// Prints the query of an input in a format. That nobody reads it is said, too.
fn print<R: Read, W: Write, E: Write>(
    alloc: Global,
    format: Format,
    source: &Source,
    reader: &mut Ended<R>,
    writer: &mut Ended<W>,
    errors: &mut Ended<E>,
) -> u8
    ensures { PrintsQuery R.remaining W.contents format source.now.is_file reader.old reader.new writer.old writer.new errors.old errors.new result }
{
    let status = answer_query(alloc, &Print { format }, source, reader, writer, errors);
    if status == 5 && writer.is_closed() {
        say(errors, source, &WriteFailed);
    }
    status
}

/// Does a job with one input, and returns the status.
///
/// Messages go to `errors`; what cannot be written is lost, and the status tells the error all the same.
pub fn do_job<R: ReadsAhead, W: Write, E: Write>(
    alloc: Global,
    job: Job,
    operands: &[String],
    source: &Source,
    reader: &mut Ended<R>,
    writer: &mut Ended<W>,
    errors: &mut Ended<E>,
) -> u8
    ensures { DoesJob R.remaining W.contents E.contents job (map string_bytes operands.now) source.now.is_file (string_bytes source.now.prefix)
        reader.old reader.new writer.old writer.new errors.old errors.new result }
{
    match job {
        Job::Print(format) => print(alloc, format, source, reader, writer, errors),
        Job::Check(settings) => check(alloc, &settings, source, reader, errors),
        Job::Format(settings) => answer_query(alloc, &settings, source, reader, writer, errors),
        Job::Enforce(limits) => {
            let matcher = first_of(operands);
            let task = Enforce { limits, matcher };
            answer_query(alloc, &task, source, reader, writer, errors)
        }
        Job::Batch(settings) => answer_lines(alloc, &settings, source, reader, writer, errors),
    }
}
