//! The program as a function of its arguments, its files, its input and its two outputs: docs/reference/programs.md, "Arguments".

ghost use Rattle.std.specs.Prelude.{◌≡◌, ◌++◌, IfOk, false, map, option_map, string_bytes};
ghost use Rattle.std.specs.Io.KnownBytes.{Appends};
ghost use Rattle.promql_text.specs.Texts.{Text};
ghost use Rattle.promql_programs.specs.Commands as spec;
ghost use Rattle.promql_programs.specs.Commands.{Obeys, ObeysAll, ObeysName, ObeysSubcommand, ObeysWords};
ghost use Rattle.promql_programs.specs.Jobs.{subcommand_named};

use crate::job::{Job, Subcommand, do_job, job_of};
use crate::misuse::{Misuse, misuse_of, wrong_subcommand};
use crate::reports::say;
use crate::source::Source;
use crate::usage::{HELP, USAGE, VERSION};
use crate::words::{Words, split_words};
use promql_run::ahead::ReadsAhead;
use promql_run::ended::Ended;
use promql_run::output::{USAGE_STATUS, show_text, show_usage};
use promql_run::run::RunError;
use promql_run::writing::write_text;
use std::alloc::{AllocError, Global};
use std::io;
use std::io::Write;

/// The status of a file that cannot be opened, as of a read that failed.
pub const UNREADABLE_STATUS: u8 = 2;

/// Opens the files that arguments name.
pub trait OpensFiles {
    /// A file.
    type File: ReadsAhead + Drop;

    /// Opens the file of this name.
    ///
    /// # Errors
    ///
    /// Why it cannot be opened.
    fn open(&mut self, alloc: Global, name: &str) -> io::Result<Self::File>;
}

/// The text that options ask for alone: the help, or the version.
fn asked_text(help: &'static str, options: &[String]) -> Option<&'static str>
    ensures { option_map (λ s. s.now) result ≡ spec.asked_text help.now (map string_bytes options.now) }
{
    let [word] = options else {
        return None;
    };
    text_named(help, word.as_str())
}

/// The text that an option asks for.
fn text_named(help: &'static str, option: &str) -> Option<&'static str>
    ensures { option_map (λ s. s.now) result ≡ spec.text_named help.now option.now }
{
    match option {
        "--help" | "-h" => Some(help),
        "--version" => Some(VERSION),
        _ => None,
    }
}

/// What is wrong with arguments, and how they are written.
fn misuse_text(
    misuse: Result<Misuse, AllocError>,
    alloc: Global,
    usage: &str,
) -> Result<String, AllocError>
    ensures { IfOk result (λ s. (said : Text) × (string_bytes s ≡ said ++ usage.now)) }
{
    let mut text = misuse?.to_string(alloc)?;
    text.push_str("\n")?;
    text.push_str(usage)?;
    Ok(text)
}

/// Writes what is wrong with arguments, and how they are written; returns the status of that. What cannot be written is lost.
fn show_misuse<E: Write>(
    alloc: Global,
    errors: &mut Ended<E>,
    misuse: Result<Misuse, AllocError>,
    usage: &str,
) -> u8
    ensures status { result ≡ USAGE_STATUS }
    ensures line { errors.new.failed ≡ false
        → (said : Text) × Appends (E.contents errors.old.inner) (E.contents errors.new.inner) (said ++ usage.now) }
{
    match misuse_text(misuse, alloc, usage) {
        Ok(text) => show_usage(errors, text.as_str()),
        Err(_) => show_usage(errors, usage),
    }
}

/// Does a job with a file, or with standard input where its name is `-`.
fn do_file<O: OpensFiles, R: ReadsAhead, W: Write, E: Write>(
    alloc: Global,
    job: Job,
    operands: &[String],
    name: &str,
    files: &mut O,
    reader: &mut Ended<R>,
    writer: &mut Ended<W>,
    errors: &mut Ended<E>,
) -> u8 {
    if name == "-" {
        let source = Source::standard(alloc);
        return do_job(alloc, job, operands, &source, reader, writer, errors);
    }
    let Ok(source) = Source::file(alloc, name) else {
        let _ = writeln!(errors, "{}", RunError::Memory);
        return RunError::Memory.number();
    };
    match files.open(alloc, name) {
        Ok(file) => {
            let mut file = Ended::new(file);
            do_job(alloc, job, operands, &source, &mut file, writer, errors)
        }
        Err(error) => {
            say(errors, &source, &error);
            UNREADABLE_STATUS
        }
    }
}

/// Does a job with each file, up to one after which nothing more can be written. Returns the greatest status.
fn do_files<O: OpensFiles, R: ReadsAhead, W: Write, E: Write>(
    alloc: Global,
    job: Job,
    operands: &[String],
    named: &[String],
    files: &mut O,
    reader: &mut Ended<R>,
    writer: &mut Ended<W>,
    errors: &mut Ended<E>,
) -> u8 {
    let mut greatest = 0;
    for name in named {
        let status = do_file(
            alloc,
            job,
            operands,
            name.as_str(),
            files,
            reader,
            writer,
            errors,
        );
        greatest = status.max(greatest);
        if writer.has_failed() {
            break;
        }
    }
    greatest
}

/// Does what the words of a subcommand ask for.
fn obey<O: OpensFiles, R: ReadsAhead, W: Write, E: Write>(
    alloc: Global,
    usual: bool,
    subcommand: Subcommand,
    words: &Words,
    files: &mut O,
    reader: &mut Ended<R>,
    writer: &mut Ended<W>,
    errors: &mut Ended<E>,
) -> u8
    ensures { ObeysWords R.remaining W.contents E.contents usual subcommand (map string_bytes words.now.options.items) (map string_bytes words.now.operands.items)
        reader.old reader.new writer.old writer.new errors.old errors.new result }
{
    let options = words.options.as_slice();
    let operands = words.operands.as_slice();
    if let Some(text) = asked_text(subcommand.help(), options) {
        return show_text(writer, text);
    }
    let Some(job) = job_of(usual, subcommand, options, operands) else {
        let misuse = misuse_of(alloc, subcommand, words);
        return show_misuse(alloc, errors, misuse, subcommand.usage());
    };
    match operands.split_at_checked(subcommand.before_files()) {
        Some((_, named)) if !named.is_empty() => {
            do_files(alloc, job, operands, named, files, reader, writer, errors)
        }
        _ => {
            let source = Source::standard(alloc);
            do_job(alloc, job, operands, &source, reader, writer, errors)
        }
    }
}

/// Does what the words after a subcommand's name ask for.
fn obey_subcommand<O: OpensFiles, R: ReadsAhead, W: Write, E: Write>(
    alloc: Global,
    usual: bool,
    subcommand: Subcommand,
    words: &[String],
    files: &mut O,
    reader: &mut Ended<R>,
    writer: &mut Ended<W>,
    errors: &mut Ended<E>,
) -> u8
    ensures { ObeysSubcommand R.remaining W.contents E.contents usual subcommand (map string_bytes words.now)
        reader.old reader.new writer.old writer.new errors.old errors.new result }
{
    match split_words(alloc, words) {
        Ok(words) => obey(
            alloc, usual, subcommand, &words, files, reader, writer, errors,
        ),
        Err(_) => {
            let _ = writeln!(errors, "{}", RunError::Memory);
            RunError::Memory.number()
        }
    }
}

/// Does what the name of a subcommand and the words after it ask for.
fn obey_name<O: OpensFiles, R: ReadsAhead, W: Write, E: Write>(
    alloc: Global,
    usual: bool,
    name: &str,
    words: &[String],
    files: &mut O,
    reader: &mut Ended<R>,
    writer: &mut Ended<W>,
    errors: &mut Ended<E>,
) -> u8
    ensures { ObeysName R.remaining W.contents E.contents usual (subcommand_named name.now) (map string_bytes words.now)
        reader.old reader.new writer.old writer.new errors.old errors.new result }
{
    match Subcommand::from_name(name) {
        Some(subcommand) => obey_subcommand(
            alloc, usual, subcommand, words, files, reader, writer, errors,
        ),
        None => {
            let misuse = wrong_subcommand(alloc, name);
            show_misuse(alloc, errors, misuse, USAGE)
        }
    }
}

/// Does what the words after the program's own name ask for.
fn obey_words<O: OpensFiles, R: ReadsAhead, W: Write, E: Write>(
    alloc: Global,
    usual: bool,
    words: &[String],
    files: &mut O,
    reader: &mut Ended<R>,
    writer: &mut Ended<W>,
    errors: &mut Ended<E>,
) -> u8
    ensures { ObeysAll R.remaining W.contents E.contents usual (map string_bytes words.now)
        reader.old reader.new writer.old writer.new errors.old errors.new result }
{
    if let Some(text) = asked_text(HELP, words) {
        return show_text(writer, text);
    }
    match words {
        [name, words @ ..] => obey_name(
            alloc,
            usual,
            name.as_str(),
            words,
            files,
            reader,
            writer,
            errors,
        ),
        [] => show_usage(errors, USAGE),
    }
}

/// Runs the program, and returns its status.
///
/// `args` begins with the program's own name. `usual` says whether messages have colors where no option says it. Messages go to `errors`;
/// what cannot be written is lost, and the status tells the error all the same.
pub fn program<O: OpensFiles, R: ReadsAhead, W: Write, E: Write>(
    alloc: Global,
    usual: bool,
    args: &[String],
    files: &mut O,
    reader: &mut Ended<R>,
    writer: &mut Ended<W>,
    errors: &mut Ended<E>,
) -> u8
    ensures { Obeys R.remaining W.contents E.contents usual (map string_bytes args.now)
        reader.old reader.new writer.old writer.new errors.old errors.new result }
{
    match args {
        [_, words @ ..] => obey_words(alloc, usual, words, files, reader, writer, errors),
        [] => show_usage(errors, USAGE),
    }
}
