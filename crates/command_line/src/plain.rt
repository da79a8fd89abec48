// Tests whether words are in plain form.
ghost use Rattle.std.specs.Prelude.{◌≡◌, ◌&&◌, not, is_some};
ghost use Rattle.std.specs.List.{list_all, list_any};
ghost use Rattle.std.specs.Str.{bytes_eq};
ghost use Rattle.command_line.specs.Words.{texts_of, is_plain, are_names, is_name, is_digit, is_number, are_turns, is_option, is_given, are_options, are_names_and_options};

use crate::table::{Form, form_of};

/// The most turns that can be asked for.
const MOST_TURNS: u64 = 1_048_576;

/// The most digits of a number.
const MOST_DIGITS: usize = 18;

/// Whether the words are in plain form.
pub(crate) fn are_plain(words: &[String]) -> bool
    ensures { result ≡ is_plain (texts_of words.now) }
{
    match words {
        [verb, others @ ..] => match form_of(verb.as_str()) {
            Some(form) => is_followed(form, others),
            None => false,
        },
        [] => false,
    }
}

// Whether these are the names and then the options of a form.
fn is_followed(form: Form, words: &[String]) -> bool
    ensures { result ≡ are_names_and_options form.names (is_some form.turns) (is_some form.seed) (texts_of words.now) }
{
    match words.split_at_checked(form.names) {
        Some((names, options)) => are_names(names) && are_options(form, options),
        None => false,
    }
}

// Whether each word is a name, and no two are equal.
fn are_names(words: &[String]) -> bool
    ensures { result ≡ are_names (texts_of words.now) }
{
    match words {
        [] => true,
        [word, others @ ..] => {
            if !is_name(word.as_str()) {
                return false;
            }
            if is_among(word.as_str(), others) {
                return false;
            }
            are_names(others)
        }
    }
}

fn is_name(word: &str) -> bool
    ensures { result ≡ is_name word.now }
{
    match word.as_bytes() {
        [] => false,
        [first, ..] => *first != b'-',
    }
}

// Whether one of the words is this one.
fn is_among(word: &str, words: &[String]) -> bool
    ensures { result ≡ list_any (λ other. bytes_eq other word.now) (texts_of words.now) }
{
    match words {
        [] => false,
        [other, others @ ..] => other.as_str() == word || is_among(word, others),
    }
}

// Whether the words are options of a form, each given once.
fn are_options(form: Form, words: &[String]) -> bool
    ensures { result ≡ are_options (is_some form.turns) (is_some form.seed) (texts_of words.now) }
{
    match words {
        [word, number, others @ ..] => {
            is_new_option(form, word.as_str(), number.as_str(), others) && are_options(form, others)
        }
        _ => words.is_empty(),
    }
}

// Whether the two words are an option that is not among the others.
fn is_new_option(form: Form, word: &str, number: &str, others: &[String]) -> bool
    ensures { result ≡ (is_option (is_some form.turns) (is_some form.seed) word.now number.now && not (is_given word.now (texts_of others.now))) }
{
    is_option(form, word, number) && !is_given(word, others)
}

// Whether an option is among these.
#[tactic(auto, unfolding(crate::specs::Words::is_given))]
fn is_given(option: &str, words: &[String]) -> bool
    ensures { result ≡ is_given option.now (texts_of words.now) }
{
    match words {
        [word, _, others @ ..] => word.as_str() == option || is_given(option, others),
        _ => false,
    }
}

// Whether the two words are an option of a form.
#[tactic(auto, unfolding(crate::specs::Words::is_option))]
fn is_option(form: Form, word: &str, number: &str) -> bool
    ensures { result ≡ is_option (is_some form.turns) (is_some form.seed) word.now number.now }
{
    match word {
        "--turns" => form.turns.is_some() && are_turns(number),
        "--seed" => form.seed.is_some() && is_number(number),
        _ => false,
    }
}

// Whether a number of turns can be asked for.
fn are_turns(digits: &str) -> bool
    ensures { result ≡ are_turns digits.now }
{
    if !is_number(digits) {
        return false;
    }
    match digits.parse::<u64>() {
        Ok(turns) => turns >= 1 && turns <= MOST_TURNS,
        Err(_) => false,
    }
}

fn is_number(digits: &str) -> bool
    ensures { result ≡ is_number digits.now }
{
    if digits.is_empty() || digits.len() > MOST_DIGITS {
        return false;
    }
    are_digits(digits.as_bytes())
}

fn are_digits(bytes: &[u8]) -> bool
    ensures { result ≡ list_all is_digit bytes.now }
{
    bytes.iter().all(|byte| byte.is_ascii_digit())
}
