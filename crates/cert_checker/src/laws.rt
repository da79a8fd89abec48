// Laws over certificates and their reasons, as functions whose contract is the law.
ghost use Rattle.cert_checker.specs.Reasons.{GoodHasNoReason, ReasonIsUnique};

use decision_chains::fixed_values_compare;
use plan_model::verdicts_are_exact;

/// A certificate that is good has no first reason.
pub fn good_has_no_reason()
    ensures { GoodHasNoReason }
{
    verdicts_are_exact();
    fixed_values_compare();
}

/// A certificate has at most one first reason.
pub fn reason_is_unique()
    ensures { ReasonIsUnique }
{
    verdicts_are_exact();
    fixed_values_compare();
}
