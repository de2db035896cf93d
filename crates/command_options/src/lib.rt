//! The command line of `tevondimby`: its commands, their options and their help.
#![tactic(auto)]

use clap::{Arg, ArgAction, Command};
use std::alloc::{AllocError, Global};

const ABOUT: &str =
    "Reads Rust source files: their messages, tokens and trees; searches them; renames and replaces in them and rewrites them";

const AFTER: &str = "\
A FILE is a path, `-` for standard input, or a directory for the `.rs` files in it, in order of name; \
links in it are not followed, and in it directories that are hidden or named `target` are left out, and \
what a pattern of `--exclude` matches. A file that several paths lead to is taken once. A file's edition is that \
of `--edition`, or else of the nearest `Cargo.toml`, or else 2021; a `Cargo.toml` that cannot be read \
or names no edition of Rust is named on standard error. Its grammar is the whole language, or with \
`--grammar profile` the part of it that a request is read by if it names no grammar.

The exit status is 0; or 1 if `check` prints messages, if `search` finds no match, if `rename` finds no identifier OLD, if with \
`--check` a file would change or OLD would be left, or if there is no file; or 2 after a fault: a file \
that cannot be read is named on standard error, and `check`, `tokens` and `tree` still read the others.

One process reads one file after another. For more processors:

    find src -name '*.rs' -print0 | xargs -0 -P 4 -n 100 tevondimby check";

const JSON: &str = "Prints an object in JSON for each file, on a line of its own";

const EXCLUDE: &str = "\
Leaves out the files and directories in a directory whose path or name the pattern matches; in it `*` is \
any text, also with `/`, and `?` one character";

const CHANGES: &str = "\
Prints no diff, but an object in JSON for each file that would change, on a line of its own: the ranges of \
the lines that differ, in bytes of the old and of the new file";

const PAIRS: &str =
    "Reads pairs OLD=NEW from a file, one a line; empty lines and those that begin with # say nothing";

const CHECK: &str =
    "Prints the paths of the files that would change; the exit status is 1 if there are any";

const REWRITE: &str = "\
Rewrites files by the commands in COMMANDS, a file in JSON or `-` for standard input:

    {\"PATH\": [{\"do\": \"edit\", \"start\": 3, \"end\": 4, \"text\": \"new\"}, ..], ..}

The commands of a file are those of a request: they are done one after another, each on the text that \
those before it left. The files are done in order of path, whatever their order in COMMANDS; of a \
path that is named twice the last list counts, and of several paths that lead to one file all lists are \
done, in order of path.

Without `--write` nothing is written, and a diff is printed, as by `rename`. No file is written unless all commands of all files are accepted; the first one that is refused is \
named with its file, line, column and number, which counts from 0, and where a commit is unfaithful, \
with the first difference. A commit is refused if the text has \
messages before or after it, unless `--allow-messages` is given.";

const SERVE: &str = "\
Answers requests on standard input, one a line, each with a line of JSON, in order:

    {\"status\":0,\"replies\":[..],\"text\":\"..\"}

A line of at most 67,108,864 bytes, its line feed not counted, is answered as the request program \
answers a request: one that is no request with status 1, its refusal and no text. A longer line is \
answered so too, with the refusal `TooLong`, whatever is in it. Then the next line is read. A text \
that is longer than this in JSON, by its escapes, can be sent to the request program alone.

A line is read by the whole language, or with the member `\"grammar\": \"profile\"` by the profile, as by \
the request program, which ignores the member.

The exit status is 0 at the end of the input, or 2 if reading, writing or memory fails.";

const LSP: &str = "\
Speaks the Language Server Protocol (3.17) on standard input and output: an editor starts it. It keeps the texts that the \
editor has open, and shows the messages of each, as `check` prints them, while they are typed. It knows syntax alone, and \
reads no file: texts are of the edition of `--edition`, else 2021, unless the editor asks for another one by the member \
`edition` of `initializationOptions`. `docs/EDITORS.md` has configurations of editors.

The exit status is 0 if the editor has sent `shutdown` before the end, else 1, or 2 if reading, writing or memory fails.";

const RENAME_USAGE: &str = "tevondimby rename [OPTIONS] <OLD> <NEW> <FILE>...
       tevondimby rename [OPTIONS] <OLD=NEW>... <FILE>...
       tevondimby rename [OPTIONS] --pairs <PAIRS> <FILE>...";

const RENAME: &str = "\
Renames each identifier OLD to NEW, in macro calls too; or each lifetime and label if both begin with \
a quote:

    tevondimby rename \"'a\" \"'text\" src

These are tokens: scopes, names in format \
strings and names that macros make are not followed. As for the compiler, `r#OLD` is OLD, and so is \
OLD in its other Unicode spelling (Normalization Form C): all become NEW as it is given. In a macro \
definition `$OLD` stays, and so does OLD in the place of `expr` in `$x:expr` if OLD or NEW is a fragment \
specifier.

With OLD=NEW, or with `--pairs`, several names are renamed, one after another, and the files are written \
once. No OLD may be given twice, and no NEW may be an OLD.

After that, standard error names the places that still spell OLD, as `src/a.rs:4:17: OLD in a string`: \
in strings and characters, comments and lifetimes, where OLD is a word of its own, and what stays in \
macro definitions; at most 20, then how many more there are. A last line counts the names and files that change and the \
places that are left. Without `--write` the places are those of the files as they are, else those of \
the files as they are written.

Without `--write` nothing is written, and a diff is printed that `patch -p1` and `git apply` take in the \
current folder; if a file is outside of it, in the folder that is named on standard error. Of standard \
input, `-`, the new text is printed; no other FILE and no `--write` goes with it.

No file is written unless all of them can be renamed in. A file in which NEW is \
already is refused unless `--merge` is given, and so is one whose new text would read as another \
tree.";

const SEARCH: &str = "\
Prints the matches of PATTERN, a fragment of Rust in which `$a` stands for an expression, a type, a pattern, a path or a \
name, whatever can stand there, and `$$$a` for any number of elements of a list. Places of one name stand for the same \
tokens; `$_` and `$$$` stand for anything.

    tevondimby search '$a.unwrap()' src
    tevondimby search 'fn $f($$$) -> Option<$t> { $$$ }' src

Whitespace, comments and the commas at the ends of lists say nothing, and nothing else is optional: `fn $f() {}` does not \
match `pub fn f() {}`. Matches are not looked for inside macro calls, nor in what the pattern itself fixes.

A row has the path, line and column of a match, and its first line. The exit status is 0 if there is a match, 1 if there is \
none, and 2 after a fault: a file that cannot be read, or whose edition does not read the pattern, is left out.";

const REPLACE: &str = "\
Replaces the matches of PATTERN by TEMPLATE, in which `$a` and `$$$a` stand for what they match. PATTERN is read as by \
`search`, TEMPLATE as the same fragment.

    tevondimby replace '$a.unwrap()' '$a?' src
    tevondimby replace 'max($a, $b)' '$a.max($b)' src --write

The new text reads as the tree with these replacements: what takes the place of a match, and what it binds, is in \
parentheses where the text would read otherwise without them, or where rustc asks for them, and nowhere else. Matches in \
what a match binds are replaced, too. A match with a comment that no part of TEMPLATE keeps is refused; with \
`--comments before` the comment comes before what replaces the match (a statement is refused, unless the comment is part \
of it), with `--comments drop` it goes. A match that reads otherwise even with parentheses is refused, too. A file with \
such a match, or with messages, is refused, unless `--skip` leaves these matches, or `--allow-messages` is given; then no \
file is written.

Without `--write` nothing is written, and a diff is printed, as by `rename`; of standard input, `-`, the new text is \
printed. The exit status is 0, or 1 if matches are left, or if with `--check` a file would change, or 2 after a fault.";

const MATCHES: &str = "\
Prints an object in JSON for each file with matches, on a line of its own: the bytes of each match and of what \
its metavariables stand for, a list of elements for a sequence";

const COMMENTS: &str = "How a comment is treated that no part of TEMPLATE keeps";

const AS: &str = "What the pattern is read as; else the first of these that it reads as";

fn edition<'a>(alloc: Global) -> Arg<'a> {
    Arg::new(alloc, "edition")
        .long("edition")
        .value_name("EDITION")
        .value_parser(["2015", "2018", "2021", "2024", "next"].as_slice())
        .help("The edition of all files")
        .action(ArgAction::Set)
}

fn grammar<'a>(alloc: Global) -> Arg<'a> {
    Arg::new(alloc, "grammar")
        .long("grammar")
        .value_name("GRAMMAR")
        .value_parser(["whole", "profile"].as_slice())
        .help("The grammar of all files")
        .action(ArgAction::Set)
}

fn exclude<'a>(alloc: Global) -> Arg<'a> {
    Arg::new(alloc, "exclude")
        .long("exclude")
        .value_name("GLOB")
        .help(EXCLUDE)
        .action(ArgAction::Append)
}

/// Adds the files, and the patterns of those that are left out.
fn with_files<'a>(alloc: Global, command: Command<'a>) -> Result<Command<'a>, AllocError> {
    command.arg(exclude(alloc))?.arg(files(alloc))
}

/// Adds the Rust that files are read as.
fn with_dialect<'a>(alloc: Global, command: Command<'a>) -> Result<Command<'a>, AllocError> {
    command.arg(edition(alloc))?.arg(grammar(alloc))
}

fn files<'a>(alloc: Global) -> Arg<'a> {
    Arg::new(alloc, "files")
        .value_name("FILE")
        .help("Files, directories, or - for standard input")
        .required(true)
        .action(ArgAction::Append)
        .num_args(1..)
}

/// Returns a command that reads files.
fn reading<'a>(alloc: Global, name: &'a str, about: &'a str) -> Result<Command<'a>, AllocError> {
    let command = Command::new(alloc, name)
        .about(about)
        .arg(flag(alloc, "json", JSON))?;
    with_files(alloc, with_dialect(alloc, command)?)
}

/// Returns a flag.
fn flag<'a>(alloc: Global, name: &'a str, help: &'a str) -> Arg<'a> {
    Arg::new(alloc, name)
        .long(name)
        .help(help)
        .action(ArgAction::SetTrue)
}

/// Returns a required word.
fn word<'a>(alloc: Global, name: &'a str, shown: &'a str, help: &'a str) -> Arg<'a> {
    Arg::new(alloc, name)
        .value_name(shown)
        .help(help)
        .required(true)
        .action(ArgAction::Set)
}

/// Adds the flags of a command that writes files.
fn with_flags<'a>(alloc: Global, command: Command<'a>) -> Result<Command<'a>, AllocError> {
    let write = flag(alloc, "write", "Writes the files").short('w');
    let diff = flag(alloc, "diff", "Prints a diff, as without --write").conflicts_with("write")?;
    let check = flag(alloc, "check", CHECK).conflicts_with("write")?;
    let check = check.conflicts_with("diff")?;
    let json = flag(alloc, "json", CHANGES).conflicts_with("write")?;
    let json = json.conflicts_with("diff")?.conflicts_with("check")?;
    let quiet = flag(alloc, "quiet", "Says nothing on standard error but faults").short('q');
    let command = command.arg(write)?.arg(diff)?.arg(check)?;
    command.arg(json)?.arg(quiet)
}

/// Adds the names of a renaming, and the files after them.
fn with_names<'a>(alloc: Global, command: Command<'a>) -> Result<Command<'a>, AllocError> {
    let merge = flag(
        alloc,
        "merge",
        "NEW may be an identifier of the files already",
    );
    let pairs = Arg::new(alloc, "pairs")
        .long("pairs")
        .value_name("PAIRS")
        .help(PAIRS)
        .action(ArgAction::Set);
    let words = Arg::new(alloc, "words")
        .value_name("OLD NEW FILE")
        .help("The old name, the new one and the files; or pairs OLD=NEW and the files")
        .required(true)
        .action(ArgAction::Append)
        .num_args(1..);
    let command = command.arg(merge)?.arg(pairs)?.arg(exclude(alloc))?;
    command.arg(words)
}

/// Adds a pattern, and what it is read as.
fn with_pattern<'a>(alloc: Global, command: Command<'a>) -> Result<Command<'a>, AllocError> {
    let fragment = Arg::new(alloc, "as")
        .long("as")
        .value_name("FRAGMENT")
        .value_parser(["expression", "type", "pattern", "statement", "item"].as_slice())
        .help(AS)
        .action(ArgAction::Set);
    let pattern = word(
        alloc,
        "pattern",
        "PATTERN",
        "A fragment of Rust with places",
    );
    command.arg(fragment)?.arg(pattern)
}

/// Returns the command that searches.
fn searching<'a>(alloc: Global) -> Result<Command<'a>, AllocError> {
    let command = Command::new(alloc, "search")
        .about("Prints the matches of a pattern")
        .long_about(SEARCH)
        .arg(flag(alloc, "json", MATCHES))?;
    let command = with_pattern(alloc, command)?;
    with_files(alloc, with_dialect(alloc, command)?)
}

/// Returns the command that replaces matches.
fn replacing<'a>(alloc: Global) -> Result<Command<'a>, AllocError> {
    let comments = Arg::new(alloc, "comments")
        .long("comments")
        .value_name("HOW")
        .value_parser(["refuse", "before", "drop"].as_slice())
        .help(COMMENTS)
        .action(ArgAction::Set);
    let skip = flag(alloc, "skip", "Leaves matches that cannot be replaced");
    let messages = flag(alloc, "allow-messages", "The texts may have messages");
    let template = word(
        alloc,
        "template",
        "TEMPLATE",
        "What takes the place of a match",
    );
    let command = Command::new(alloc, "replace")
        .about("Replaces the matches of a pattern")
        .long_about(REPLACE);
    let command = with_flags(alloc, command)?
        .arg(comments)?
        .arg(skip)?
        .arg(messages)?;
    let command = with_pattern(alloc, command)?.arg(template)?;
    with_files(alloc, with_dialect(alloc, command)?)
}

/// Returns the command that renames.
fn renaming<'a>(alloc: Global) -> Result<Command<'a>, AllocError> {
    let command = Command::new(alloc, "rename")
        .about("Renames identifiers")
        .long_about(RENAME)
        .override_usage(RENAME_USAGE);
    let command = with_dialect(alloc, with_flags(alloc, command)?)?;
    with_names(alloc, command)
}

/// Returns the command that rewrites files.
fn rewriting<'a>(alloc: Global) -> Result<Command<'a>, AllocError> {
    let command = Command::new(alloc, "rewrite")
        .about("Rewrites files by commands")
        .long_about(REWRITE);
    let messages = flag(
        alloc,
        "allow-messages",
        "The texts may have messages before and after a commit",
    );
    let commands = word(
        alloc,
        "commands",
        "COMMANDS",
        "A file of commands, or - for standard input",
    );
    let command = with_flags(alloc, command)?.arg(messages)?;
    with_dialect(alloc, command)?.arg(commands)
}

/// Returns the command that answers requests.
fn serving<'a>(alloc: Global) -> Command<'a> {
    Command::new(alloc, "serve")
        .about("Answers requests on standard input, one a line")
        .long_about(SERVE)
}

/// Returns the command that is a language server.
fn serving_editors<'a>(alloc: Global) -> Result<Command<'a>, AllocError> {
    Command::new(alloc, "lsp")
        .about("Is a language server, on standard input and output")
        .long_about(LSP)
        .arg(edition(alloc))
}

/// Returns the command without its subcommands.
fn bare_command<'a>(alloc: Global, version: &'a str) -> Command<'a> {
    Command::new(alloc, "tevondimby")
        .about(ABOUT)
        .after_help(AFTER)
        .version(version)
        .subcommand_required(true)
        .arg_required_else_help(true)
}

/// Returns the whole command, which says that it has this version.
///
/// # Errors
///
/// [`AllocError`] if an allocation fails.
pub fn command<'a>(alloc: Global, version: &'a str) -> Result<Command<'a>, AllocError> {
    let check = reading(
        alloc,
        "check",
        "Prints the messages of files, with their lines",
    )?;
    let tokens = reading(alloc, "tokens", "Prints the tokens of files, a row each")?;
    let tree = reading(
        alloc,
        "tree",
        "Prints the trees of files, a row for each element",
    )?;
    let command = bare_command(alloc, version)
        .subcommand(check)?
        .subcommand(tokens)?;
    let command = command.subcommand(tree)?.subcommand(searching(alloc)?)?;
    command
        .subcommand(renaming(alloc)?)?
        .subcommand(replacing(alloc)?)?
        .subcommand(rewriting(alloc)?)?
        .subcommand(serving(alloc))?
        .subcommand(serving_editors(alloc)?)
}
