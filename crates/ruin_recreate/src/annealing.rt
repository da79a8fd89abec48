// Annealing: the sequence is varied, and the trial taken up if it is dearer by no more than a limit that falls.
ghost use Rattle.std.specs.Prelude.{◌≡◌, ◌<◌, ◌≤◌, IfOk, OnOk, length};
ghost use Rattle.std.specs.List.{All};
ghost use Rattle.ruin_recreate.specs.Boards.{IsBoard};
ghost use Rattle.ruin_recreate.specs.Annealing.{IsAnnealingOn};

use crate::board::Board;
use crate::draws::draw;
use crate::neighbours::{Neighbours, neighbours};
use crate::ordering::{order, shuffle};
use crate::pricing::{fine_of, first_price, next_price};
use crate::recreating::put;
use crate::regretting::Regret;
use crate::ruining::{Ruin, locate};
use crate::sequences::Sequence;
use carp_base::Memory;
use rand_pcg::Lcg64Xsh32;
use std::alloc::Global;
use std::mem;

// After so many steps the price of load follows how many of their sequences were lawful.
const STEPS_AT_A_PRICE: u32 = 16;

// How the steps of an annealing put services back.
#[derive(Clone, Copy)]
pub(crate) enum Recreation {
    // In an order that is drawn, each where it costs least.
    InOrder,
    // One step of four by regret, and the others in order.
    Mixed,
    ByRegret,
}

// What an annealing works on.
#[derive(Drop)]
pub(crate) struct Annealing {
    near: Vec<Neighbours>,
    ruin: Ruin,
    regret: Regret,
    pub(crate) recreation: Recreation,
    pub(crate) current: Sequence,
    trial: Sequence,
    // The load above the room in the current sequence.
    excess: u64,
    // The cheapest lawful sequence so far.
    pub(crate) top: Vec<u32>,
    top_cost: u64,
    // What the first sequence has to cross without service for each service, and 1 more.
    scale: u64,
    // What a unit of load above the room costs, in 256ths.
    price: u64,
}

impl Annealing {
    pub(crate) fn new(
        alloc: Global,
        board: &Board,
        start: Vec<u32>,
        recreation: Recreation,
    ) -> Result<Annealing, Memory>
        requires board { IsBoard board.now }
        requires within { All (λ x. x < board.now.width) start.items }
        ensures { IfOk result (IsAnnealingOn board.now.width) }
    {
        let mut current = Sequence::new(alloc, board.width)?;
        current.read(board, &start)?;
        let top_cost = current.deadheads;
        Ok(Annealing {
            near: neighbours(alloc, board)?,
            ruin: Ruin::new(alloc, board.width)?,
            regret: Regret::new(alloc),
            recreation,
            current,
            trial: Sequence::new(alloc, board.width)?,
            excess: 0,
            top: start,
            top_cost,
            scale: (top_cost / u64::from(board.edges().max(1))).saturating_add(1),
            price: 1,
        })
    }

    // Notes what is read of the current sequence.
    fn survey(&mut self, board: &Board)
        requires board { IsBoard board.now }
        requires annealing { IsAnnealingOn board.now.width self.old }
        ensures { IsAnnealingOn board.now.width self.new }
    {
        self.excess = self.current.excess(board.room);
        locate(&self.current, &mut self.ruin.places);
    }

    // Puts services back one after another, each where it costs least.
    fn put_in_order(&mut self, board: &Board, costs: &[u32]) -> Result<(), Memory>
        requires board { IsBoard board.now }
        requires annealing { IsAnnealingOn board.now.width self.old }
        requires costs { length costs.now ≡ board.now.width }
        ensures { OnOk result (IsAnnealingOn board.now.width self.new) }
    {
        for i in 0..self.ruin.removed.len() {
            let stop = self.ruin.removed[i].stop;
            put(board, costs, &mut self.trial, self.price, stop)?;
        }
        Ok(())
    }

    // Whether the next step puts services back by regret.
    fn is_by_regret(&self, generator: &mut Lcg64Xsh32) -> bool {
        match self.recreation {
            Recreation::InOrder => false,
            Recreation::Mixed => draw(generator, 4) == 0,
            Recreation::ByRegret => true,
        }
    }

    // Puts services back by regret, or in an order that is drawn.
    fn recreate(
        &mut self,
        board: &Board,
        costs: &[u32],
        generator: &mut Lcg64Xsh32,
    ) -> Result<(), Memory>
        requires board { IsBoard board.now }
        requires annealing { IsAnnealingOn board.now.width self.old }
        requires costs { length costs.now ≡ board.now.width }
        ensures { OnOk result (IsAnnealingOn board.now.width self.new) }
    {
        if self.is_by_regret(generator) {
            shuffle(&mut self.ruin.removed, generator);
            let removed = &self.ruin.removed;
            self.regret
                .put_back(board, costs, &mut self.trial, self.price, removed)
        } else {
            order(board, &mut self.ruin.removed, generator);
            self.put_in_order(board, costs)
        }
    }

    // Makes the trial: some services of the current sequence are taken out and put back.
    fn vary(
        &mut self,
        board: &Board,
        costs: &[u32],
        generator: &mut Lcg64Xsh32,
    ) -> Result<(), Memory>
        requires board { IsBoard board.now }
        requires some { 4 ≤ board.now.width }
        requires annealing { IsAnnealingOn board.now.width self.old }
        requires costs { length costs.now ≡ board.now.width }
        ensures { OnOk result (IsAnnealingOn board.now.width self.new) }
    {
        self.ruin
            .take_out(board, &self.current, &self.near, generator)?;
        self.trial.rest(board, &self.current, &self.ruin.gone)?;
        self.ruin.unmark(board);
        self.recreate(board, costs, generator)
    }

    // Whether the trial costs no more than the current sequence and a limit, which is in 256ths and is rounded at random.
    fn takes(&self, board: &Board, limit: u64, generator: &mut Lcg64Xsh32) -> bool {
        let trial_fine = fine_of(self.price, self.trial.excess(board.room));
        let fine = fine_of(self.price, self.excess);
        let rise = limit.saturating_add(u64::from(draw(generator, 256))) / 256;
        self.trial.deadheads.saturating_add(trial_fine)
            <= self
                .current
                .deadheads
                .saturating_add(fine)
                .saturating_add(rise)
    }

    // Makes the trial the current sequence, and notes it if it is the cheapest.
    fn take(&mut self, board: &Board) -> Result<(), Memory>
        requires board { IsBoard board.now }
        requires annealing { IsAnnealingOn board.now.width self.old }
        ensures { OnOk result (IsAnnealingOn board.now.width self.new) }
    {
        mem::swap(&mut self.current, &mut self.trial);
        self.survey(board);
        if self.excess == 0 && self.current.deadheads < self.top_cost {
            self.top_cost = self.current.deadheads;
            self.current.write(board, &mut self.top)?;
        }
        Ok(())
    }

    // One annealing, of so many steps, from the current sequence.
    pub(crate) fn anneal(
        &mut self,
        board: &Board,
        costs: &[u32],
        steps: u32,
        generator: &mut Lcg64Xsh32,
    ) -> Result<(), Memory>
        requires board { IsBoard board.now }
        requires some { 4 ≤ board.now.width }
        requires annealing { IsAnnealingOn board.now.width self.old }
        requires costs { length costs.now ≡ board.now.width }
        ensures { OnOk result (IsAnnealingOn board.now.width self.new) }
    {
        self.survey(board);
        self.price = first_price(board, self.scale);
        let mut lawful = 0;
        for step in 0..steps {
            let left = u64::from(steps - step);
            let limit = self.scale.saturating_mul(128 * left) / u64::from(steps);
            self.vary(board, costs, generator)?;
            if self.takes(board, limit, generator) {
                self.take(board)?;
            }
            if self.excess == 0 {
                lawful += 1;
            }
            if step % STEPS_AT_A_PRICE == STEPS_AT_A_PRICE - 1 {
                self.price = next_price(self.price, lawful < STEPS_AT_A_PRICE / 2);
                lawful = 0;
            }
        }
        Ok(())
    }
}
