// Reads plain words by `clap`.
ghost use Rattle.std.specs.Prelude.{◌≡◌, ℕ, List, Option, Some, IfOk, IfSome, IsSomeAnd, true, false, codes, map, unwrap_or};
ghost use Rattle.std.specs.Option.{option_map_or};
ghost use Rattle.clap.specs.Walk.{Row, all_of, one_of, rows_of, rule_of};
ghost use Rattle.clap.specs.Simple.{app_of, subcommand_rows_of, with_rule, with_subcommand};
ghost use Rattle.clap.specs.Matches.{found_of};
ghost use Rattle.clap.specs.declared.builder.command.Command.TheViews.{out-Command as fields_of};
ghost use Rattle.command_line.specs.Words as words;
ghost use Rattle.command_line.specs.Words.{command_of, form_of, is_number, is_plain, number_of, texts_of};
ghost use Rattle.command_line.specs.Forms.{command_in};
ghost use Rattle.command_line.specs.Grammar.{AreDigits, AreRead, command_by, grammar_app, names_rule, option_rule, verb_app, with_verbs};

use crate::command::Command;
use crate::table::{FORMS, Form, command_by, form_of};
use carp_base::Memory;
use clap::error::ErrorKind;
use clap::{Arg, ArgMatches};
use std::alloc::{AllocError, Global};

/// The command of plain words.
pub(crate) fn read_plain<'a>(alloc: Global, words: &'a [String]) -> Result<Command<'a>, Memory>
    requires { is_plain (texts_of words.now) ≡ true }
    ensures { IfOk result (λ c. command_of (texts_of words.now) ≡ Some (command_in c)) }
{
    match grammar(alloc)?.try_get_matches_from(words) {
        Ok(matches) => match command_from(&matches) {
            Some(command) => Ok(command),
            None => unreachable!(),
        },
        Err(error) => match error.kind() {
            ErrorKind::OutOfMemory => Err(Memory),
            _ => unreachable!(),
        },
    }
}

// One level of subcommands, of which each is a verb of the table.
fn grammar<'a>(alloc: Global) -> Result<clap::Command<'a>, AllocError>
    ensures { IfOk result (λ c. app_of c ≡ grammar_app) }
{
    let known = clap::Command::new(alloc, "carp").no_binary_name(true);
    with_verbs(alloc, known, &FORMS)
}

fn with_verbs<'a>(
    alloc: Global,
    command: clap::Command<'a>,
    forms: &[Form],
) -> Result<clap::Command<'a>, AllocError>
    ensures { IfOk result (λ c. app_of c ≡ with_verbs (app_of command.entry) (map (λ f. f.verb.now) forms.now)) }
{
    match forms {
        [] => Ok(command),
        [form, others @ ..] => {
            let command = with_verb(alloc, command, form)?;
            with_verbs(alloc, command, others)
        }
    }
}

// The command with the verb of a form.
fn with_verb<'a>(
    alloc: Global,
    command: clap::Command<'a>,
    form: &Form,
) -> Result<clap::Command<'a>, AllocError>
    ensures { IfOk result (λ c. app_of c ≡ with_subcommand (app_of command.entry) (verb_app form.now.verb.now).top) }
{
    command.subcommand(verb_grammar(alloc, form)?)
}

// A verb with names and both options. The table says which of them it takes.
fn verb_grammar<'a>(alloc: Global, form: &Form) -> Result<clap::Command<'a>, AllocError>
    ensures app { IfOk result (λ c. app_of c ≡ verb_app form.now.verb.now) }
    ensures local { IfOk result (λ c. (fields_of c).has_globals ≡ false) }
{
    let command = with_argument(clap::Command::new(alloc, form.verb), names(alloc))?;
    let command = with_argument(command, option(alloc, "turns"))?;
    with_argument(command, option(alloc, "seed"))
}

fn with_argument<'a>(
    command: clap::Command<'a>,
    argument: Arg<'a>,
) -> Result<clap::Command<'a>, AllocError>
    requires above { (fields_of command).has_globals ≡ false }
    requires local { argument.global ≡ false }
    ensures app { IfOk result (λ c. app_of c ≡ with_rule (app_of command.entry) (rule_of argument.entry)) }
    ensures local { IfOk result (λ c. (fields_of c).has_globals ≡ false) }
{
    command.arg(argument)
}

// Up to five names.
fn names<'a>(alloc: Global) -> Arg<'a>
    ensures rule { rule_of result ≡ names_rule }
    ensures local { result.global ≡ false }
{
    Arg::new(alloc, "names").num_args(..=5)
}

fn option<'a>(alloc: Global, id: &'a str) -> Arg<'a>
    ensures rule { rule_of result ≡ option_rule id.now }
    ensures local { result.global ≡ false }
{
    Arg::new(alloc, id).long(id)
}

// The command that the matches say.
fn command_from<'a>(matches: &ArgMatches<'a>) -> Option<Command<'a>>
    ensures { (verb : List ℕ) (rows : List Row) (form : words.Form) (names options : List (List ℕ)) → subcommand_rows_of matches.now ≡ Some (verb, rows) → form_of verb ≡ Some form
        → AreRead names options rows → AreDigits options → IsSomeAnd result (λ r. command_in r ≡ command_by form names options) }
{
    let (verb, inner) = matches.subcommand()?;
    let form = form_of(verb)?;
    let names = inner.get_strs("names").unwrap_or(&[]);
    let turns = number_in(inner, "turns", form.turns.unwrap_or(0));
    let seed = number_in(inner, "seed", form.seed.unwrap_or(0));
    command_by(verb, names, turns, seed)
}

// The number of an option, or this one if it was not given.
fn number_in(matches: &ArgMatches<'_>, id: &str, default: u64) -> u64
    ensures { (given : Option (List ℕ)) → one_of id.now (rows_of (found_of matches.now)) ≡ given → IfSome given (λ t. is_number t ≡ true) → result ≡ option_map_or number_of given default }
{
    matches.get_one::<u64>(id).unwrap_or(default)
}
