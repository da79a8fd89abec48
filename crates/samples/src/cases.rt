//! Cases of tests, a line each, which a program of tests reads from a file, tries and compares.
use std::alloc::{AllocError, Global};
use std::fmt::Display;
use std::rt::Files;
use std::test::Fail;
use std::{fs, io};

/// Tries the cases of a file, and says on the standard error how many there are, and each that differs by its line. The answer is whether all
/// agree, and there are some.
///
/// A line `CALL INPUT = ANSWER` is a case: `answer` is given the instance or other ground of the case, its call and its input, and gives its
/// answer as text. A line `over GROUND` gives the ground of the cases below it. Empty lines and lines from `#` on are for the reader. A case that
/// cannot be tried is an error: it ends the program, and its line is named before.
pub fn try_cases<R, F>(rt: &R, name: &str, answer: F) -> Result<bool, Fail>
where
    R: Files + Eprint + AllocGlobal,
    F: Fn(Global, &str, &str, &str) -> Result<String, Fail>,
    requires { F.IsAlwaysCallable answer }
{
    let text = fs::read_to_string(rt, name)?;
    let mut over = "";
    let (mut cases, mut agree) = (0u32, true);
    for (place, line) in text.as_str().lines().enumerate() {
        if let Some(ground) = line.strip_prefix("over ") {
            over = ground;
        } else if is_case(line) {
            cases = cases.saturating_add(1);
            agree &= try_case(rt, name, place, over, line, &answer)?;
        }
    }
    eprintln!(rt; "{name}: {cases} cases")?;
    Ok(agree && cases > 0)
}

// Tries a case, and answers whether it agrees.
fn try_case<R, F>(
    rt: &R,
    name: &str,
    place: usize,
    over: &str,
    line: &str,
    answer: &F,
) -> Result<bool, Fail>
where
    R: Eprint + AllocGlobal,
    F: Fn(Global, &str, &str, &str) -> Result<String, Fail>,
    requires { F.IsAlwaysCallable answer.now }
{
    let (question, expected) = halves(line, " = ");
    let (call, input) = halves(question, " ");
    match answer(rt.alloc(), over, call, input) {
        Ok(found) => compare(rt, name, place, line, expected, found.as_str()),
        Err(fail) => {
            let _ = name_case(rt, name, place, line, "it cannot be tried", "");
            Err(fail)
        }
    }
}

fn compare<R: Eprint>(
    rt: &R,
    name: &str,
    place: usize,
    line: &str,
    expected: &str,
    found: &str,
) -> Result<bool, Fail> {
    let agrees = found == expected;
    if !agrees {
        name_case(rt, name, place, line, "the answer is ", found)?;
    }
    Ok(agrees)
}

// Names a case, and says what came of it.
fn name_case<R: Eprint>(
    rt: &R,
    name: &str,
    place: usize,
    line: &str,
    what: &str,
    found: &str,
) -> io::Result<()> {
    let number = place.saturating_add(1);
    eprintln!(rt; "{name}, line {number}: {line}\n  but {what}{found}")
}

// Whether the line is none of those for the reader.
fn is_case(line: &str) -> bool {
    !line.is_empty() && !line.starts_with('#')
}

// What stands before and behind the first separator.
fn halves<'a>(text: &'a str, separator: &str) -> (&'a str, &'a str) {
    text.split_once(separator).unwrap_or((text, ""))
}

/// A part of an input, counted from 0, between semicolons.
pub fn part(input: &str, place: usize) -> &str {
    input.split(';').nth(place).unwrap_or("").trim()
}

/// The numbers of a text.
pub fn numbers(alloc: Global, text: &str) -> Result<Vec<u64>, Fail> {
    let mut numbers = Vec::new(alloc);
    for word in text.split_ascii_whitespace() {
        numbers.push(word.parse::<u64>()?)?;
    }
    Ok(numbers)
}

/// The numbers of a text that name vertices, edges and the like.
pub fn numbers32(alloc: Global, text: &str) -> Result<Vec<u32>, Fail> {
    let mut numbers = Vec::new(alloc);
    for word in text.split_ascii_whitespace() {
        numbers.push(word.parse::<u32>()?)?;
    }
    Ok(numbers)
}

/// The numbers of a text, each with a sign if it is negative.
pub fn signed_numbers(alloc: Global, text: &str) -> Result<Vec<i64>, Fail> {
    let mut numbers = Vec::new(alloc);
    for word in text.split_ascii_whitespace() {
        numbers.push(word.parse::<i64>()?)?;
    }
    Ok(numbers)
}

/// The number of a text.
pub fn number(text: &str) -> Result<u64, Fail> {
    Ok(text.trim().parse::<u64>()?)
}

/// Values as text, with blanks between, or `none`.
pub fn listed<T: Display>(alloc: Global, values: &[T]) -> Result<String, AllocError> {
    let mut text = String::new(alloc);
    for value in values {
        push_listed(&mut text, " ", value)?;
    }
    if text.is_empty() {
        text.push_str("none")?;
    }
    Ok(text)
}

/// `yes` or `no`.
pub fn yes_or_no(alloc: Global, is_so: bool) -> Result<String, AllocError> {
    String::from_str(alloc, if is_so { "yes" } else { "no" })
}

/// Puts a value behind a text, and the separator between them if the text is not empty.
pub fn push_listed<T: Display>(
    text: &mut String,
    separator: &str,
    value: &T,
) -> Result<(), AllocError> {
    if !text.is_empty() {
        text.push_str(separator)?;
    }
    write!(text, "{value}")
}
