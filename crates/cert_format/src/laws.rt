// Laws over certificates, as functions whose contracts are the laws.
ghost use Rattle.cert_format.specs.Good.{CountsAreInRange, CountsKeepGood, GoodIsProof, PlansAreOnEdges};

use branch_rules::tree_bounds;
use cert_lines::{fine_is_spellable, spellable_is_fine};

/// A certificate that is good for a valid instance is a proof, whoever made it. Its plan is lawful and costs what is
/// stated, and no lawful plan costs less than its bound.
pub fn good_is_proof()
    ensures { GoodIsProof }
{
    tree_bounds();
}

/// The numbers of a valid instance are in the ranges of a certificate's text.
pub fn counts_are_in_range()
    ensures { CountsAreInRange }
{}

/// If a good certificate can be spelled, it stays good and can still be spelled with the numbers of its instance in
/// place of its own.
pub fn counts_keep_good()
    ensures { CountsKeepGood }
{
    fine_is_spellable();
    spellable_is_fine();
}

/// The steps of a lawful plan of a valid instance are on edges of numbers from 1 to 4,000, as the text of a certificate
/// needs.
pub fn plans_are_on_edges()
    ensures { PlansAreOnEdges }
{}
