// Activities after a thousand steps, among which some pivots are small, for the cases of `data/linear_program`.

use linear_program::{Basic, Caps, ColumnId, Entry, Program, RowBounds, RowId, Store, Variable};
use rand_core::Rng;
use rand_pcg::Lcg64Xsh32;
use samples::number;
use std::alloc::Global;
use std::test::Fail;

const ROWS: usize = 30;

const COLUMNS: usize = 300;

const CAPS: Caps = Caps {
    dual: 1000,
    primal: 1000,
    work: u64::MAX,
};

pub fn answer(alloc: Global, _over: &str, call: &str, input: &str) -> Result<String, Fail> {
    if call != "covers" {
        Err("no such call")?
    }
    let mut generator = Lcg64Xsh32::new(number(input)?, 1);
    let mut store = Store::new(alloc, 1_000_000_000);
    let mut program = Program::new(alloc)?;
    let sides = add_rows(alloc, &mut store, &mut program, &mut generator)?;
    add_columns(alloc, &mut store, &mut program, &mut generator)?;
    let covered = are_covered(alloc, &store, &mut program, &mut generator, &sides)?;
    let text = match (covered, program.pivots() >= 1000) {
        (false, _) => "some row is not covered",
        (true, false) => "covered, after few steps",
        (true, true) => "covered",
    };
    Ok(String::from_str(alloc, text)?)
}

// A number below a limit.
fn draw(generator: &mut Lcg64Xsh32, limit: u32) -> u32 {
    generator.next_u32() % limit.max(1)
}

// Rows that are to be covered 1 to 20 times, and what each is, in parts of 2^40.
fn add_rows(
    alloc: Global,
    store: &mut Store,
    program: &mut Program,
    generator: &mut Lcg64Xsh32,
) -> Result<Vec<i128>, Fail> {
    let mut sides = Vec::new(alloc);
    for _ in 0..ROWS {
        let right_side = 1 + i64::from(draw(generator, 20));
        add_row(alloc, store, program, right_side)?;
        sides.push(i128::from(right_side) << 40)?;
    }
    Ok(sides)
}

fn add_row(
    alloc: Global,
    store: &mut Store,
    program: &mut Program,
    right_side: i64,
) -> Result<(), Fail> {
    let bounds = RowBounds {
        right_side,
        least: -1_000_000,
        most: 1_000_000,
    };
    let row = store.add_row(bounds, &[])?.ok_or("no row")?;
    program.use_row(alloc, store, row)?;
    Ok(())
}

fn add_columns(
    alloc: Global,
    store: &mut Store,
    program: &mut Program,
    generator: &mut Lcg64Xsh32,
) -> Result<(), Fail> {
    for _ in 0..COLUMNS {
        let column = add_column(alloc, store, generator)?;
        program.use_column(column)?;
    }
    Ok(())
}

// A column that costs 1,000 to 1,400 for each unit that it covers.
fn add_column(
    alloc: Global,
    store: &mut Store,
    generator: &mut Lcg64Xsh32,
) -> Result<ColumnId, Fail> {
    let mut sum: u32 = 0;
    let entries = drawn_entries(alloc, generator, &mut sum)?;
    let more = draw(generator, sum.saturating_mul(400));
    let cost = i64::from(sum)
        .saturating_mul(1000)
        .saturating_add(i64::from(more));
    Ok(store.add_column(cost, entries)?.ok_or("no column")?)
}

// Coefficients from 1 to 200 in some eight rows, and their sum.
fn drawn_entries(
    alloc: Global,
    generator: &mut Lcg64Xsh32,
    sum: &mut u32,
) -> Result<Vec<Entry>, Fail> {
    let mut entries = Vec::new(alloc);
    for row in 0..ROWS {
        if draw(generator, ROWS as u32) < 8 {
            let less_one = (generator.next_u32() % 200) as u8;
            *sum = sum.saturating_add(u32::from(less_one) + 1);
            entries.push(entry(row, less_one)?)?;
        }
    }
    Ok(entries)
}

fn entry(row: usize, less_one: u8) -> Result<Entry, Fail> {
    let row = RowId::new(row).ok_or("no number of a row")?;
    Ok(Entry::new(row, i32::from(less_one) + 1).ok_or("no coefficient")?)
}

// Whether all rows are covered in each of many programs after one another, each from the basis of the one before with another range for the
// multiplier of a row.
fn are_covered(
    alloc: Global,
    store: &Store,
    program: &mut Program,
    generator: &mut Lcg64Xsh32,
    sides: &[i128],
) -> Result<bool, Fail> {
    for turn in 0..400 {
        let ended = program.solve(alloc, store, turn % 2 == 1, &CAPS)?;
        if !ended || !is_covered(alloc, store, program, sides)? {
            return Ok(false);
        }
        change_range(program, generator)?;
    }
    Ok(true)
}

// A new range for the multiplier of a drawn row.
fn change_range(program: &mut Program, generator: &mut Lcg64Xsh32) -> Result<(), Fail> {
    let row = RowId::new(draw(generator, ROWS as u32) as usize).ok_or("no row")?;
    let most = i64::from(draw(generator, 1800)) + 200;
    let least = if draw(generator, 2) == 0 { 0 } else { -most };
    program.set_bounds(row, least, most);
    Ok(())
}

// Whether each row gets its right side but for a thousandth, of which a quarter is the noise of the right sides.
fn is_covered(
    alloc: Global,
    store: &Store,
    program: &Program,
    sides: &[i128],
) -> Result<bool, Fail> {
    let mut left = Vec::from_slice(alloc, sides)?;
    for place in 0..ROWS {
        let basic = program.basic(place).ok_or("no variable")?;
        take_basic(store, &basic, &mut left);
    }
    Ok(left.iter().all(|rest| rest.unsigned_abs() < 1 << 30))
}

// Takes from each row what a variable of the basis gives it, in parts of 2^40.
fn take_basic(store: &Store, basic: &Basic, left: &mut [i128]) {
    let activity = i128::from(basic.activity);
    match basic.variable {
        Variable::Column(column) => take_column(store.entries(column), activity, left),
        Variable::Surplus(row) => take(left, row, activity.saturating_mul(-1)),
        Variable::Penalty(row) => take(left, row, activity),
    }
}

fn take_column(entries: &[Entry], activity: i128, left: &mut [i128]) {
    for entry in entries {
        let coefficient = i128::from(entry.coefficient());
        take(left, entry.row(), coefficient.saturating_mul(activity));
    }
}

// Takes from what a row is left with.
fn take(left: &mut [i128], row: RowId, given: i128) {
    if let Some(rest) = left.get_mut(row.number()) {
        *rest = rest.saturating_sub(given);
    }
}
