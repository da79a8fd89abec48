// The table of verbs, and the command of each.
ghost use Rattle.std.specs.Prelude.{◌≡◌, None, Some, [], MatchOption, IsSomeAnd, find, map, option_map, slice_index_or};
ghost use Rattle.std.specs.Str.{bytes_eq};
ghost use Rattle.command_line.specs.Words as words;
ghost use Rattle.command_line.specs.Words.{form_of};
ghost use Rattle.command_line.specs.Forms.{command_in, row_in, row_of};

use crate::command::Command;

/// What may follow a verb: so many names, and then the options that stand here, with the number that holds if they are not given.
#[derive(Clone, Copy)]
pub(crate) struct Form {
    pub verb: &'static str,
    pub names: usize,
    pub turns: Option<u64>,
    pub seed: Option<u64>,
}

/// The rows of the table.
pub(crate) const FORMS: [Form; 10] = [
    Form {
        verb: "solve",
        names: 2,
        turns: Some(64),
        seed: Some(1),
    },
    Form {
        verb: "check",
        names: 2,
        turns: None,
        seed: None,
    },
    Form {
        verb: "sheet",
        names: 2,
        turns: None,
        seed: None,
    },
    Form {
        verb: "make",
        names: 1,
        turns: None,
        seed: Some(1),
    },
    Form {
        verb: "drill",
        names: 0,
        turns: Some(4),
        seed: Some(1),
    },
    Form {
        verb: "upgrade",
        names: 3,
        turns: None,
        seed: None,
    },
    Form {
        verb: "postman",
        names: 1,
        turns: None,
        seed: None,
    },
    Form {
        verb: "fleet",
        names: 1,
        turns: Some(64),
        seed: None,
    },
    Form {
        verb: "edit",
        names: 5,
        turns: None,
        seed: None,
    },
    Form {
        verb: "improve",
        names: 3,
        turns: Some(64),
        seed: Some(1),
    },
];

// The row of a verb, if one of these has it.
fn row_of(forms: &[Form], verb: &str) -> Option<Form>
    ensures { option_map row_in result ≡ find (λ row. bytes_eq row.verb verb.now) (map row_in forms.now) }
{
    match forms {
        [] => None,
        [form, others @ ..] => {
            if form.verb == verb {
                Some(*form)
            } else {
                row_of(others, verb)
            }
        }
    }
}

/// What may follow a verb, if it is one.
pub(crate) fn form_of(verb: &str) -> Option<Form>
    ensures { MatchOption result (form_of verb.now ≡ None) (λ f. IsSomeAnd (form_of verb.now) (λ form. row_in f ≡ row_of form)) }
{
    row_of(&FORMS, verb)
}

// The name at a place.
fn name_at<'a>(names: &[&'a str], place: usize) -> &'a str
    ensures { result.now ≡ slice_index_or (map (λ name. name.now) names.now) place [] }
{
    names.get(place).copied().unwrap_or("")
}

/// The command of a verb with these names and numbers.
pub(crate) fn command_by<'a>(
    verb: &str,
    names: &[&'a str],
    turns: u64,
    seed: u64,
) -> Option<Command<'a>>
    ensures { (form : words.Form) → form_of verb.now ≡ Some form → IsSomeAnd result (λ r. command_in r ≡ form.command (map (λ name. name.now) names.now) turns seed) }
{
    let file = name_at(names, 0);
    let cert = name_at(names, 1);
    let third = name_at(names, 2);
    match verb {
        "solve" => Some(Command::Solve {
            file,
            cert,
            turns,
            seed,
        }),
        "check" => Some(Command::Check { file, cert }),
        "sheet" => Some(Command::Sheet { file, cert }),
        "make" => Some(Command::Make { file, seed }),
        "drill" => Some(Command::Drill { turns, seed }),
        "upgrade" => Some(Command::Upgrade {
            file,
            cert,
            renewed: third,
        }),
        "postman" => Some(Command::Postman { file }),
        "fleet" => Some(Command::Fleet { file, turns }),
        "edit" => Some(Command::Edit {
            file,
            cert,
            edits: third,
            edited: name_at(names, 3),
            carried: name_at(names, 4),
        }),
        "improve" => Some(Command::Improve {
            file,
            cert,
            improved: third,
            turns,
            seed,
        }),
        _ => None,
    }
}
