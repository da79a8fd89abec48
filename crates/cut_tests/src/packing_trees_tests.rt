// Answers of the check of a packing, for the cases of `data/packing_trees`.

use packing_trees::{PackNode, Packing, check_pack};
use samples::{instance_of, number, numbers32, part};
use std::alloc::Global;
use std::test::Fail;

pub fn answer(alloc: Global, over: &str, call: &str, input: &str) -> Result<String, Fail> {
    if call != "check" {
        Err("no such call")?
    }
    let inst = instance_of(alloc, over)?;
    let packing = packing_of(alloc, input)?;
    if packing.groups.len() > 100 || packing.tree.len() > 100 {
        Err("a small packing")?
    }
    let found = check_pack(alloc, &inst, &packing)?;
    Ok(format!(in alloc; "{found:?}")?)
}

fn packing_of(alloc: Global, input: &str) -> Result<Packing, Fail> {
    let groups = numbers32(alloc, part(input, 0))?;
    let count = part(input, 1).parse::<u32>()?;
    let bound = part(input, 2).parse::<u32>()?;
    let tree = nodes_of(alloc, part(input, 3))?;
    Ok(Packing {
        groups,
        count,
        bound,
        tree,
        turns: 0,
    })
}

fn nodes_of(alloc: Global, text: &str) -> Result<Vec<PackNode>, Fail> {
    let mut nodes = Vec::new(alloc);
    for words in text.split(',') {
        if let Some(node) = node_of(words.trim())? {
            nodes.push(node)?;
        }
    }
    Ok(nodes)
}

// The node of its words, if there are some.
fn node_of(words: &str) -> Result<Option<PackNode>, Fail> {
    let (kind, rest) = words.split_once(' ').unwrap_or((words, ""));
    match kind {
        "" => Ok(None),
        "apart" => Ok(Some(PackNode::Apart)),
        "share" => Ok(Some(PackNode::Share { s: number(rest)? })),
        _ => {
            let (a, b) = words.split_once('+').unwrap_or((words, ""));
            let (a, b) = (a.parse::<u32>()?, b.parse::<u32>()?);
            Ok(Some(PackNode::Pair { a, b }))
        }
    }
}
