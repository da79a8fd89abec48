// Steps that close a leaf.
ghost use Rattle.std.specs.Prelude.{Ok};
ghost use Rattle.branch_rules.specs.Decisions.{IsFixed, IsVoid};
ghost use Rattle.branch_tree.specs.Leaves.{IsAtLeaf, IsTurn};
ghost use Rattle.branch_tree.specs.Searches.{IsSearch, state_of};

use crate::laws::known_laws;
use crate::search::{Search, Turn};
use branch_rules::{Branch, Node};
use carp_base::{Instance, Memory};
use grown_trees::GrowingNode;
use plan_model::Plan;
use task_tours::lawful_cost;

impl Search {
    // Closes a leaf whose decisions no lawful plan meets.
    pub(crate) fn close_void(&mut self, inst: &Instance, place: usize, branch: &Branch) -> Turn
        requires search { IsSearch inst.now self.old }
        requires at { IsAtLeaf (state_of self.old) place branch.now }
        requires void { IsVoid inst.now self.old.pool branch.now }
        ensures { IsTurn inst.now self.old self.new (Ok result) }
    {
        known_laws();
        // The instance and the branch tell only that the leaf is void.
        let _ = inst;
        let _ = branch;
        let leaf = GrowingNode {
            node: Node::Void,
            shows: u64::MAX,
        };
        self.put_leaf(place, leaf);
        Turn::Closed
    }

    // Closes a leaf whose decisions leave each chain to be driven as it stands, and takes that plan if it is cheaper.
    pub(crate) fn close_fixed(
        &mut self,
        inst: &Instance,
        place: usize,
        branch: &Branch,
    ) -> Result<Turn, Memory>
        requires search { IsSearch inst.now self.old }
        requires at { IsAtLeaf (state_of self.old) place branch.now }
        requires fixed { IsFixed inst.now self.old.pool branch.now }
        ensures { IsTurn inst.now self.old self.new result }
    {
        known_laws();
        let plan = branch.fixed_plan(self.alloc, inst, &self.pool, &self.dist)?;
        let cost = lawful_cost(self.alloc, inst, &plan)?;
        let cost = cost as u64;
        self.keep_cheaper(plan, cost);
        let leaf = GrowingNode {
            node: Node::Fixed,
            shows: cost,
        };
        self.put_leaf(place, leaf);
        Ok(Turn::Closed)
    }
}
