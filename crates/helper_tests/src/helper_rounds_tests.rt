// What helpers do to each other and to the best plan, for the cases of `data/helper_rounds`.

use crate::actor::{Actor, Part};
use carp_base::{Instance, Memory};
use deadhead_paths::{single_tours, tidy};
use helper_frame::Standing;
use helper_rounds::{Heard, ask_all, consult, dismiss};
use samples::{instance_of, number, part, push_listed};
use std::alloc::Global;
use std::test::Fail;
use task_tours::{cost_distances, lawful_cost};

pub fn answer(alloc: Global, over: &str, call: &str, input: &str) -> Result<String, Fail> {
    let inst = instance_of(alloc, over)?;
    match call {
        "hear" => heard(alloc, &inst, input),
        "ask" => asked(alloc, &inst, number(part(input, 0))?, part(input, 1)),
        _ => Err("no such call")?,
    }
}

// What a helper's answer is beside single tours, what the best plan costs after it, and the helper's fouls.
fn heard(alloc: Global, inst: &Instance, text: &str) -> Result<String, Fail> {
    let dist = cost_distances(alloc, inst)?;
    let mut best = single_tours(alloc, inst, &dist)?;
    let mut helper = Actor {
        standing: Standing::new(5),
        part: Part::of(alloc, text)?,
    };
    let heard = consult(alloc, inst, &dist, &mut best, &mut helper);
    let cost = lawful_cost(alloc, inst, &best)?;
    let (word, fouls) = (word_of(heard), helper.standing.fouls);
    Ok(format!(in alloc; "{word} {cost} {fouls}")?)
}

fn word_of(heard: Result<Heard, Memory>) -> &'static str {
    match heard {
        Ok(Heard::Better) => "better",
        Ok(Heard::Same) => "same",
        Ok(Heard::Foul) => "foul",
        Err(Memory) => "memory",
    }
}

// What the best plan costs after a list of helpers was asked, from single tours on, and the helpers, before and after some are dismissed.
fn asked(alloc: Global, inst: &Instance, word: u64, texts: &str) -> Result<String, Fail> {
    let mut helpers = helpers_of(alloc, texts)?;
    let cost = cost_after(alloc, inst, &mut helpers, word)?;
    let all = numbers(alloc, &helpers)?;
    dismiss(&mut helpers);
    let kept = numbers(alloc, &helpers)?;
    Ok(format!(in alloc; "{cost}; {all}; {kept}")?)
}

fn helpers_of(alloc: Global, texts: &str) -> Result<Vec<Actor>, Fail> {
    let mut helpers = Vec::new(alloc);
    for (place, text) in texts.split('/').enumerate() {
        let part = Part::of(alloc, text.trim())?;
        let standing = Standing::new(place as u64);
        helpers.push(Actor { standing, part })?;
    }
    Ok(helpers)
}

fn cost_after(
    alloc: Global,
    inst: &Instance,
    helpers: &mut Vec<Actor>,
    word: u64,
) -> Result<u128, Fail> {
    let dist = cost_distances(alloc, inst)?;
    let singles = single_tours(alloc, inst, &dist)?;
    let mut best = tidy(alloc, inst, &dist, &singles)?;
    ask_all(alloc, inst, &dist, &mut best, helpers, word)?;
    Ok(lawful_cost(alloc, inst, &best)?)
}

// The number, the seed, the calls and the fouls of each helper.
fn numbers(alloc: Global, helpers: &[Actor]) -> Result<String, Fail> {
    let mut text = String::new(alloc);
    for helper in helpers {
        let x = &helper.standing;
        push_listed(
            &mut text,
            ", ",
            &format_args!("{} {} {} {}", x.id, x.seed, x.asked, x.fouls),
        )?;
    }
    Ok(text)
}
