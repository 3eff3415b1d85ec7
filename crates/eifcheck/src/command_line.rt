//! The words of a command, as one `clap` command without subcommands reads them.

ghost use Rattle.std.specs.Prelude.{◌≡◌, ◌≢◌, ◌+◌, ◌<◌, ◌≤◌, [], map, take, drop, length, codes, string_bytes, false, Some, None, unwrap_or, MatchOption, IfOk, IfErr, IfSome, OnOk};
ghost use Rattle.std.specs.Option.{option_and_then, option_map};
ghost use Rattle.clap.specs.Words.{all_of, app_of, fault_of, first_of, found_of, matches_of, rows_of, rule_of};
ghost use Rattle.eifcheck.specs.Form as form;
ghost use Rattle.eifcheck.specs.ReadWords.{Gives, command_of};

use crate::words::{Refusal, Words};
use clap::error::ErrorKind;
use clap::{Arg, ArgAction, ArgMatches, Command};
use eif_base::limits::MOST_WORKERS;
use eif_base::{Name, Root};
use eif_lex::is_identifier;
use eif_report::ReportForm;
use std::alloc::{AllocError, Global};

/// The place of the first dot.
fn first_dot(text: &[u8]) -> Option<usize>
    ensures cut { MatchOption result (form.cut_at_dot text.now ≡ None)
        (λ i. form.cut_at_dot text.now ≡ Some (take i text.now, drop (i + 1) text.now)) }
    ensures within { IfSome result (λ i. i < length text.now) }
{
    'bytes: for i in 0..text.len() {
        if text[i] == b'.' {
            return Some(i);
        }
    }
    None
}

/// The root of these names.
fn named_root(alloc: Global, class_name: &[u8], procedure_name: &[u8]) -> Result<Root, Refusal>
    ensures { Gives (λ r. r) (form.root_by (Some (class_name.now, procedure_name.now))) result }
{
    if !is_identifier(class_name) || !is_identifier(procedure_name) {
        return Err(Refusal::Usage);
    }
    Ok(Root {
        class_name: Name::from_bytes(alloc, class_name)?,
        procedure_name: Name::from_bytes(alloc, procedure_name)?,
    })
}

/// The root that a word names.
fn root_of(alloc: Global, word: &[u8]) -> Result<Root, Refusal>
    ensures { Gives (λ r. r) (form.root_of word.now) result }
{
    match first_dot(word) {
        Some(i) => named_root(alloc, &word[..i], &word[i + 1..]),
        None => Err(Refusal::Usage),
    }
}

/// An option with a value, as `--name VALUE`.
fn option<'w>(alloc: Global, name: &'w str) -> Arg<'w>
    ensures rule { rule_of result ≡ form.option_rule name.entry.now }
    ensures local { result.global ≡ false }
{
    Arg::new(alloc, name).long(name)
}

/// The command before its arguments: the words come without the program's name, and there is no
/// help and no version.
fn bare_command<'w>(alloc: Global) -> Command<'w>
    ensures { app_of result ≡ form.bare_program }
{
    Command::new(alloc, "eifcheck")
        .no_binary_name(true)
        .disable_help_flag(true)
        .disable_version_flag(true)
}

/// The command, as clap has it.
fn command<'w>(alloc: Global) -> Result<Command<'w>, AllocError>
    ensures { IfOk result (λ c. app_of c ≡ form.program) }
{
    let files = Arg::new(alloc, "files").action(ArgAction::Append);
    bare_command(alloc)
        .arg(option(alloc, "root").required(true))?
        .arg(option(alloc, "do"))?
        .arg(option(alloc, "form"))?
        .arg(option(alloc, "workers"))?
        .arg(option(alloc, "list"))?
        .arg(files)
}

/// What clap finds in the words.
fn matches_in<'w>(alloc: Global, words: &'w [String]) -> Result<ArgMatches<'w>, Refusal>
    ensures takes { OnOk result (fault_of form.program (map string_bytes words.entry.now) ≡ []) }
    ensures matches { IfOk result (λ m.
        rows_of (found_of m) ≡ matches_of form.program (map string_bytes words.entry.now)) }
    ensures usage { IfErr result (λ e.
        e ≡ Refusal.Usage → fault_of form.program (map string_bytes words.entry.now) ≢ []) }
{
    match command(alloc)?.try_get_matches_from(words) {
        Ok(matches) => Ok(matches),
        Err(error) => match error.kind() {
            ErrorKind::OutOfMemory => Err(Refusal::Memory),
            _ => Err(Refusal::Usage),
        },
    }
}

/// The value of an option, or what counts where it isn't given.
fn value_or<'w>(matches: &ArgMatches<'w>, id: &str, default: &'w str) -> &'w str
    ensures { result.now ≡ form.value_or id.now (rows_of (found_of matches.now)) default.entry.now }
{
    matches.get_str(id).unwrap_or(default)
}

/// The root that the words name.
fn given_root(alloc: Global, matches: &ArgMatches<'_>) -> Result<Root, Refusal>
    ensures { Gives (λ r. r)
        (option_and_then form.root_of (first_of (codes "root") (rows_of (found_of matches.now))))
        result }
{
    match matches.get_str("root") {
        Some(word) => root_of(alloc, word.as_bytes()),
        None => Err(Refusal::Usage),
    }
}

/// Whether a word asks for a check.
fn is_check(word: &str) -> bool
    ensures { result ≡ form.is_check word.now }
{
    word == "check"
}

/// The form of the report that a word names.
fn form_of(word: &str) -> Option<ReportForm>
    ensures { result ≡ form.form_of word.now }
{
    match word {
        "1" => Some(ReportForm::One),
        "2" => Some(ReportForm::Two),
        _ => None,
    }
}

/// The number of workers that a word states: written out, it is the same word.
fn workers_of(alloc: Global, word: &str) -> Result<u32, Refusal>
    ensures states { Gives (λ n. n) (form.workers_of word.now) result }
    ensures some { IfOk result (λ n. 1 ≤ n) }
    ensures few { IfOk result (λ n. n ≤ MOST_WORKERS) }
{
    let Ok(workers) = word.parse::<u32>() else {
        return Err(Refusal::Usage);
    };
    if !(1..=MOST_WORKERS).contains(&workers) {
        return Err(Refusal::Usage);
    }
    if workers.to_string(alloc)?.as_str() != word {
        return Err(Refusal::Usage);
    }
    Ok(workers)
}

/// The files that the words name.
fn files_of<'w>(alloc: Global, matches: &ArgMatches<'w>) -> Result<Vec<&'w str>, AllocError>
    ensures { IfOk result (λ files. map (λ name. name.now) files.items
        ≡ unwrap_or (all_of (codes "files") (rows_of (found_of matches.now))) []) }
{
    Vec::from_slice(alloc, matches.get_strs("files").unwrap_or(&[]))
}

/// Whether a check has a list, or at least one file, to read.
fn names_some(list: Option<&str>, files: &[&str]) -> bool
    ensures { result ≡ form.names_some (option_map (λ name. name.now) list.entry)
        (map (λ name. name.now) files.now) }
{
    list.is_some() || !files.is_empty()
}

/// What the matches of the words ask for.
fn words_of<'w>(alloc: Global, matches: &ArgMatches<'w>) -> Result<Words<'w>, Refusal>
    ensures { Gives command_of (form.command_of_rows (rows_of (found_of matches.now))) result }
{
    let root = given_root(alloc, matches)?;
    if !is_check(value_or(matches, "do", "check")) {
        return Err(Refusal::Usage);
    }
    let form = form_of(value_or(matches, "form", "1")).ok_or(Refusal::Usage)?;
    let workers = workers_of(alloc, value_or(matches, "workers", "1"))?;
    let list = matches.get_str("list");
    let files = files_of(alloc, matches)?;
    if !names_some(list, &files) {
        return Err(Refusal::Usage);
    }
    Ok(Words {
        root,
        list,
        files,
        workers,
        form,
    })
}

/// What the words ask for.
pub fn read_words<'w>(alloc: Global, words: &'w [String]) -> Result<Words<'w>, Refusal>
    ensures { Gives command_of (form.form (map string_bytes words.entry.now)) result }
{
    let matches = matches_in(alloc, words)?;
    words_of(alloc, &matches)
}
