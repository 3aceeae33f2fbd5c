//! How the program is used: docs/reference/programs.md, "Help and version".

/// What is printed for arguments that name no subcommand, and the first line of the help.
pub const USAGE: &str =
    "usage: promql line|pretty|json|check|format|enforce|batch [OPTION..] [FILE..]\n";

/// What `--version` prints.
pub const VERSION: &str = "promql 0.10.0\n";

/// What `--help` prints.
pub const HELP: &str =
    "usage: promql line|pretty|json|check|format|enforce|batch [OPTION..] [FILE..]
       promql SUBCOMMAND -h | --help
       promql -h | --help | --version

Reads a PromQL query from each FILE, or from standard input.

  line              writes it on one line
  pretty            writes it laid out
  json              writes its tree as JSON
  check             says why and where it is rejected
  format            writes it laid out for people, with its comments
  enforce MATCHER   writes it with a matcher in every selector
  batch MODE        answers each line, which has a query of its own

A FILE that is - is standard input. After -- no word is an option. The status is
the greatest of those of the files, 0 if all went well, and 64 for wrong arguments.
";

/// How a query is printed, and the first line of the help of that.
pub const PRINT_USAGE: &str = "usage: promql line|pretty|json [FILE..]\n";

/// The help of a printed query.
pub const PRINT_HELP: &str = "usage: promql line|pretty|json [FILE..]
       promql line|pretty|json -h | --help | --version

Reads a PromQL query from each FILE, or from standard input, and writes it to
standard output: on one line, laid out in lines of at most 100 bytes, or as its
tree in JSON. Queries that mean the same by the rules of printing have one line,
one layout and one tree. There are no limits of a query.

Status: 0 the query was written, 4 it is rejected, 6 a number is too wide for
JSON, 1 out of memory, 2 a read failed, 3 the input is not UTF-8, 5 a write
failed, 64 wrong arguments.
";

/// How a query is checked, and the first line of the help of that.
pub const CHECK_USAGE: &str =
    "usage: promql check [FILE..] [--color WHEN] [--target NAME] [--max-len N] [--max-patterns N]\n";

/// The help of a check.
pub const CHECK_HELP: &str =
    "usage: promql check [FILE..] [--color WHEN] [--target NAME] [--max-len N] [--max-patterns N]
       promql check -h | --help | --version

Reads a PromQL query from each FILE, or from standard input. Prints nothing where
it is accepted; otherwise, to standard error, the line and the column of the error,
its message, and the line of the query with a mark below. What the target reads
otherwise is rejected, such as an escape of a byte past ASCII, and so is what it
rejects, such as `or` between matchers. NAME is prometheus-3, which is the default,
prometheus-2.42 or rules; with rules it is accepted, and such an escape with a
warning. A line end at the end of the input is no part of the query. A query of more
than --max-len bytes (32768), or with patterns that are together larger than
--max-patterns (16000), is rejected before it is parsed. Messages have colours with
--color always, none with --color never, and otherwise (auto) on a terminal where
NO_COLOR is not set.

Status: 0 the query is accepted, 4 it is rejected, 14 it is too long or its
patterns are too large, 23 the target reads it otherwise, 24 the target rejects it,
1 out of memory, 2 a read failed, 3 the input is not UTF-8, 5 a write failed,
64 wrong arguments, 141 nobody reads what is written.
";

/// How a query is formatted, and the first line of the help of that.
pub const FORMAT_USAGE: &str =
    "usage: promql format [FILE..] [--width N] [--indent N] [--keep-spelling] [--sort-matchers] [--check] [--target NAME] [--max-len N] [--max-patterns N] [--max-output N]\n";

/// The help of formatting.
pub const FORMAT_HELP: &str =
    "usage: promql format [FILE..] [--width N] [--indent N] [--keep-spelling] [--sort-matchers] [--check] [--target NAME] [--max-len N] [--max-patterns N] [--max-output N]
       promql format -h | --help | --version

Reads a PromQL query from each FILE, or from standard input, and writes it to
standard output, laid out in lines of at most --width characters (100) with
indentations of --indent spaces (2). Comments and the order of matchers stay. With
--keep-spelling numbers, durations, strings, keywords and the order of what else is
written stay, too; with --sort-matchers matchers are sorted. With --check nothing is
written, and the status says whether the query is formatted; its line ends may be
those of Windows. A query of more than --max-len bytes (32768), or
with patterns that are together larger than --max-patterns (16000), is rejected
before it is parsed. A layout of more than --max-output bytes (4194304) is an error.
What Prometheus reads otherwise, such as an escape of a byte past ASCII, is an
error; with --target rules or --keep-spelling it is not.

Status: 0 the query was written, or is formatted, 4 the query is rejected, 9 the
width is above 65535 or the indentation above 16, 12 the query that was made does
not read back, 14 the query is too long or its patterns are too large, 18 the
layout is too long, 19 the query is not formatted, 23 the target (prometheus-3)
reads it otherwise, 1 out of memory, 2 a read failed, 3 the input is not UTF-8,
5 a write failed, 64 wrong arguments, 141 nobody reads what is written.
";

/// How a matcher is enforced, and the first line of the help of that.
pub const ENFORCE_USAGE: &str =
    "usage: promql enforce MATCHER [FILE..] [--target NAME] [--max-len N] [--max-patterns N]\n";

/// The help of enforcing.
pub const ENFORCE_HELP: &str =
    "usage: promql enforce MATCHER [FILE..] [--target NAME] [--max-len N] [--max-patterns N]
       promql enforce -h | --help | --version

Reads a PromQL query from each FILE, or from standard input, puts the matcher into
every selector of it, and writes the query to standard output, on one line.
MATCHER is written as between the braces of a selector: namespace=\"team-a\". A
query of more than --max-len bytes (32768), or with patterns that are together
larger than --max-patterns (16000), is rejected before it is parsed. MATCHER, and
the query that is written, have the same limits. What Prometheus reads otherwise,
such as an escape of a byte past ASCII, in the query or in MATCHER, is an error;
with --target rules it is not.

Status: 0 the query was written, 4 the query is rejected, 11 MATCHER is not a
matcher or is of the metric name, 12 the query that was made does not read back,
13 the query has info without a selector, 14 the query is too long or its
patterns are too large, 16 MATCHER is, or the query that was made, 23 the target
(prometheus-3) reads the query or MATCHER otherwise, 1 out of memory, 2 a read
failed, 3 the input is not UTF-8, 5 a write failed, 64 wrong arguments, 141 nobody
reads what is written.
";

/// How many queries are answered, and the first line of the help of that.
pub const BATCH_USAGE: &str =
    "usage: promql batch pretty|line|json [FILE..] [--target NAME] [--max-len N] [--max-patterns N] [--max-output N]\n";

/// The help of many queries.
pub const BATCH_HELP: &str =
    "usage: promql batch pretty|line|json [FILE..] [--target NAME] [--max-len N] [--max-patterns N] [--max-output N]
       promql batch -h | --help | --version

Reads a PromQL query from each line of each FILE, or of standard input, and writes
a JSON object for each to standard output, in order. Each answer is written before
more input is waited for.

A line is a JSON string, the query, or an object with the member \"query\" and,
if wanted, \"mode\" (\"pretty\", \"line\" or \"json\"), \"level\" and \"width\" (of a
layout: indentations before it, and the most bytes of a line), \"enforce\" (a
matcher that is put into every selector of the query), \"places\" (true: in mode
json, objects of nodes and matchers have \"start\" and \"end\", in bytes), and \"id\"
(any value, which the answer has, too). An answer is {\"ok\":TEXT}, in mode json
{\"ok\":VALUE}, or {\"code\":NUMBER,\"error\":MESSAGE}. A query of more than --max-len
bytes (32768), or with patterns that are together larger than --max-patterns
(16000), is rejected before it is parsed. A TEXT, or the text of a VALUE, of
more than --max-output bytes (4194304) is an error. What Prometheus reads
otherwise, such as an escape of a byte past ASCII, in a query with \"enforce\" or
in its matcher, is an error; with --target rules it is not.

Status: 0 each line was answered with ok, 4 some line has an error, 1 out of
memory, 2 a read failed, 5 a write failed, 64 wrong arguments, 141 nobody reads
what is written.
";
