// The tableau: a row for each edge, and a column for each shore.
ghost use Rattle.std.specs.Prelude.{◌≡◌, ◌+◌, ◌*◌, ◌<◌, ◌≤◌, All, length, IfOk, IfSome, OnErr, OnOk};
ghost use Rattle.shore_program.specs.Tableaus.{IsTableau};

use crate::fixed::{ONE, entry};
use carp_base::{Edge, Memory};
use std::alloc::Global;

/// How many columns there is room for.
pub(crate) const COLUMNS: usize = 1200;

/// Weights and prices are in parts of one million.
pub(crate) const UNIT: u64 = 1_000_000;

// A column whose gain is no greater than this, 2^-20, does not enter.
const LEAST_GAIN: i64 = 1 << 20;

/// A variable of the program.
#[derive(Clone, Copy)]
pub(crate) enum Variable {
    /// What is left of the cost of the edge at a place from 0.
    Slack(u32),
    /// The weight of the shore at a place from 0.
    Weight(u32),
}

/// A row: the variable that is basic there.
#[derive(Clone, Copy)]
pub(crate) struct Row {
    pub variable: Variable,
    /// Its value, in parts of `UNIT`, by costs that are a little less than the true ones, against ties.
    pub level: i64,
    /// Its value by the true costs.
    pub true_level: i64,
}

/// A column: a variable that is 0.
#[derive(Clone, Copy)]
pub(crate) struct Column {
    pub variable: Variable,
    /// What the objective gains for each unit of the variable, in fixed point.
    pub gain: i64,
}

/// A condensed tableau (Dantzig 1951): each basic variable is its level less the entries of its row times the variables
/// of the columns. The entry of row r and column c is at place `r * COLUMNS + c`.
#[derive(Drop)]
pub(crate) struct Tableau {
    pub entries: Vec<i64>,
    pub rows: Vec<Row>,
    pub columns: Vec<Column>,
    /// The objective, in parts of `UNIT`.
    pub value: i64,
    /// How many entries were touched.
    pub work: u64,
}

// The cost of an edge in parts of `UNIT`.
fn level_of(edge: &Edge) -> i64 {
    edge.cost.saturating_mul(UNIT).min(1 << 60) as i64
}

// A number below 1,024 that looks drawn.
fn noise(place: u64) -> u64 {
    let mixed = place.wrapping_add(1).wrapping_mul(0x9E37_79B9_7F4A_7C15);
    let mixed = (mixed ^ (mixed >> 29)).wrapping_mul(0xBF58_476D_1CE4_E5B9);
    (mixed ^ (mixed >> 32)) % 1024
}

// The level of the slack of an edge, with a small loss by which no two edges that cost the same are alike.
fn row_of(place: u32, edge: &Edge) -> Row {
    let loss = noise(u64::from(place)).saturating_mul((edge.cost / 16).max(1));
    let level = edge.cost.saturating_mul(UNIT).saturating_sub(loss);
    Row {
        variable: Variable::Slack(place),
        level: level.min(1 << 60) as i64,
        true_level: level_of(edge),
    }
}

// The rows of the edges, of which all slacks are basic.
fn rows_of(alloc: Global, edges: &[Edge]) -> Result<Vec<Row>, Memory>
    requires { length edges.now ≤ 4000 }
    ensures { IfOk result (λ rows. length rows.items ≡ length edges.now) }
{
    let mut rows = Vec::with_capacity(alloc, edges.len())?;
    for place in 0..edges.len() {
        rows.push(row_of(place as u32, &edges[place]))?;
    }
    Ok(rows)
}

// Whether it is the slack of an edge with a mark.
fn is_marked(variable: Variable, marks: &[bool]) -> bool {
    match variable {
        Variable::Slack(place) => {
            let place = place as usize;
            place < marks.len() && marks[place]
        }
        Variable::Weight(_) => false,
    }
}

// The columns of the slacks of edges with a mark.
fn marked_columns(alloc: Global, columns: &[Column], marks: &[bool]) -> Result<Vec<usize>, Memory>
    requires { length columns.now ≤ 1200 }
    ensures { IfOk result (λ marked. All (λ c. c < 1200) marked.items) }
{
    let mut marked = Vec::new(alloc);
    for place in 0..columns.len() {
        if is_marked(columns[place].variable, marks) {
            marked.push(place)?;
        }
    }
    Ok(marked)
}

// What a new column gains: what its shore demands, and the gains of the slacks that it takes up.
fn gain_of(columns: &[Column], marks: &[bool], least: u64) -> i64 {
    let mut gain = (least.min(1 << 20) as i64) * ONE;
    for column in columns {
        if is_marked(column.variable, marks) {
            gain = gain.saturating_add(column.gain);
        }
    }
    gain
}

// The sum of the entries of some columns in a row.
fn sum_of(line: &[i64], places: &[usize], start: i64) -> i64
    requires { All (λ c. c < length line.now) places.now }
{
    let mut sum = start;
    for place in places {
        sum = sum.saturating_add(line[*place]);
    }
    sum
}

// Writes a new column: in each row the sum of the columns that it is made of, and 1 where a slack that it takes up is basic.
fn write_column(entries: &mut [i64], rows: &[Row], marks: &[bool], marked: &[usize], column: usize)
    requires entries { length entries.old ≡ length rows.now * 1200 }
    requires marked { All (λ c. c < 1200) marked.now }
    requires column { column < 1200 }
{
    for place in 0..rows.len() {
        let line = &mut entries[place * COLUMNS..(place + 1) * COLUMNS];
        let start = if is_marked(rows[place].variable, marks) {
            ONE
        } else {
            0
        };
        line[column] = entry(sum_of(line, marked, start));
    }
}

// Moves the entries of one column to the place of another.
fn move_column(entries: &mut [i64], rows: usize, from: usize, to: usize)
    requires entries { length entries.old ≡ rows * 1200 }
    requires from { from < 1200 }
    requires to { to < 1200 }
{
    for place in 0..rows {
        entries[place * COLUMNS + to] = entries[place * COLUMNS + from];
    }
}

impl Tableau {
    /// The tableau of the edges, with no column.
    pub(crate) fn new(alloc: Global, edges: &[Edge]) -> Result<Tableau, Memory>
        requires { length edges.now ≤ 4000 }
        ensures tableau { IfOk result (IsTableau (length edges.now)) }
        ensures none { IfOk result (λ t. length t.columns.items ≡ 0) }
    {
        Ok(Tableau {
            entries: vec![in alloc; 0; edges.len() * COLUMNS]?,
            rows: rows_of(alloc, edges)?,
            columns: Vec::with_capacity(alloc, COLUMNS)?,
            value: 0,
            work: 0,
        })
    }

    /// Adds the column of the shore at a place, which crosses the edges with a mark. It touches each row once for each
    /// such edge.
    pub(crate) fn add_column(
        &mut self,
        alloc: Global,
        marks: &[bool],
        least: u64,
        shore: u32,
    ) -> Result<(), Memory>
        requires tableau { IsTableau (length self.old.rows.items) self.old }
        requires room { length self.old.columns.items < 1200 }
        ensures tableau { IsTableau (length self.old.rows.items) self.new }
        ensures ok { OnOk result (length self.new.columns.items ≡ length self.old.columns.items + 1) }
        ensures err { OnErr result (length self.new.columns.items ≡ length self.old.columns.items) }
    {
        let marked = marked_columns(alloc, &self.columns, marks)?;
        let gain = gain_of(&self.columns, marks, least);
        let touched = (self.rows.len() as u64).saturating_mul(marked.len() as u64);
        self.work = self.work.saturating_add(touched);
        write_column(
            &mut self.entries,
            &self.rows,
            marks,
            &marked,
            self.columns.len(),
        );
        self.columns.push(Column {
            variable: Variable::Weight(shore),
            gain,
        })?;
        Ok(())
    }

    /// Takes a column out, and gives its variable. The last column takes its place.
    pub(crate) fn remove_column(&mut self, column: usize) -> Variable
        requires tableau { IsTableau (length self.old.rows.items) self.old }
        requires column { column < length self.old.columns.items }
        ensures tableau { IsTableau (length self.old.rows.items) self.new }
        ensures one_less { length self.new.columns.items + 1 ≡ length self.old.columns.items }
    {
        let last = self.columns.len() - 1;
        move_column(&mut self.entries, self.rows.len(), last, column);
        self.columns.swap_remove(column).variable
    }
}

/// The column of greatest gain, if one gains enough.
pub(crate) fn entering(columns: &[Column]) -> Option<usize>
    ensures { IfSome result (λ place. place < length columns.now) }
{
    let mut best = None;
    let mut most = LEAST_GAIN;
    for place in 0..columns.len() {
        if columns[place].gain > most {
            most = columns[place].gain;
            best = Some(place);
        }
    }
    best
}
