// The lines that are written where an input is refused.
ghost use Rattle.std.specs.Prelude.{◌≡◌, ◌++◌, IfOk, OnOk, string_bytes};
ghost use Rattle.plan_print.specs.RefusalLines.{around, fault_words, instance_words, instance_fault_line, certificate_words, certificate_fault_line, edit_fault_line, edit_words, reason_words, verdict_words, misfit_words, rejection_line};

use carp_base::{InstanceFault, Memory};
use cert_checker::{Part, Reason};
use cert_lines::CertFault;
use dat_text::DatFault;
use instance_edits::EditFault;
use plan_model::Verdict;
use std::alloc::{AllocError, Global};
use std::fmt::Write;

/// The line for a fault of an instance file: `bad instance: `, what is wrong with it, and LF.
///
/// Lines of the file and edges are counted from 1, as in the fault, and a key is spelled in capitals. Its error says
/// only that there was not enough memory. A line has at most 100 bytes, so it takes constant time.
#[tactic(auto, unfolding(crate::specs::RefusalLines::instance_fault_line))]
pub fn instance_fault_line(alloc: Global, fault: &DatFault) -> Result<Vec<u8>, Memory>
    ensures { IfOk result (λ text. text.items ≡ instance_fault_line fault.now) }
{
    let mut text = String::from_str(alloc, "bad instance: ")?;
    push_fault(&mut text, fault)?;
    text.push('\n')?;
    Ok(text.into_bytes())
}

/// The line for a fault of a certificate's text: `bad certificate: `, what is wrong with it, and LF.
///
/// Lines of the text are counted from 1, as in the fault. Its error says only that there was not enough memory. A line
/// has fewer than 100 bytes, so it takes constant time.
#[tactic(auto, unfolding(crate::specs::RefusalLines::certificate_fault_line))]
pub fn certificate_fault_line(alloc: Global, fault: &CertFault) -> Result<Vec<u8>, Memory>
    ensures { IfOk result (λ text. text.items ≡ certificate_fault_line fault.now) }
{
    let mut text = String::from_str(alloc, "bad certificate: ")?;
    push_parts(&mut text, certificate_parts(fault))?;
    text.push('\n')?;
    Ok(text.into_bytes())
}

/// The line for a fault of edits: `bad edit: `, what is wrong with them or with the edited instance, and LF.
///
/// Lines of the edits and edges of the edited instance are counted from 1, as in the fault. Its error says only that
/// there was not enough memory. A line has fewer than 100 bytes, so it takes constant time.
#[tactic(auto, unfolding(crate::specs::RefusalLines::edit_fault_line))]
pub fn edit_fault_line(alloc: Global, fault: &EditFault) -> Result<Vec<u8>, Memory>
    ensures { IfOk result (λ text. text.items ≡ edit_fault_line fault.now) }
{
    let mut text = String::from_str(alloc, "bad edit: ")?;
    push_parts(&mut text, edit_parts(fault))?;
    text.push('\n')?;
    Ok(text.into_bytes())
}

/// The line for the first reason why a certificate is not good: `rejected: `, the reason, and LF.
///
/// Tours, steps, edges, shores, sets, nodes and places are counted from 1, as in the reason. There are no words for a
/// lawful plan, which is the reason of no answer of [`cert_checker::check`]. Its error says only that there was not
/// enough memory. A line has fewer than 200 bytes, so it takes constant time.
#[tactic(auto, unfolding(crate::specs::RefusalLines::rejection_line))]
pub fn rejection_line(alloc: Global, reason: &Reason) -> Result<Vec<u8>, Memory>
    ensures { IfOk result (λ text. text.items ≡ rejection_line reason.now) }
{
    let mut text = String::from_str(alloc, "rejected: ")?;
    push_reason(&mut text, reason)?;
    text.push('\n')?;
    Ok(text.into_bytes())
}

fn push_fault(text: &mut String, fault: &DatFault) -> Result<(), AllocError>
    ensures { OnOk result (string_bytes text.new ≡ string_bytes text.old ++ fault_words fault.now) }
{
    match fault {
        DatFault::Syntax(line) => write!(text, "line {line} cannot be read"),
        DatFault::MissingKey(key) => write!(text, "key {key} is missing"),
        DatFault::DoubleKey(key) => write!(text, "key {key} stands twice"),
        DatFault::CountDiffers { key, stated, found } => {
            write!(text, "{key} states {stated} and the list has {found}")
        }
        DatFault::NumberTooLong(line) => {
            write!(text, "line {line} has a number of more than 18 digits")
        }
        DatFault::Refused(fault) => push_parts(text, instance_parts(fault)),
    }
}

// What stands before the one number of the fault, the number, and what stands after it.
fn instance_parts(fault: &InstanceFault) -> (&'static str, u64, &'static str)
    ensures { around result.0.now result.1 result.2.now ≡ instance_words fault.now }
{
    match fault {
        InstanceFault::TooManyVertices(n) => ("", *n, " vertices are too many"),
        InstanceFault::TooManyEdges(n) => ("", *n, " edges are too many"),
        InstanceFault::TooManyRequired(n) => ("", *n, " required edges are too many"),
        InstanceFault::EndOutOfRange(e) => ("edge ", *e, " has an end out of range"),
        InstanceFault::Loop(e) => ("edge ", *e, " is a loop"),
        InstanceFault::CostTooLarge(e) => ("edge ", *e, " has too large a cost"),
        InstanceFault::CapacityOutOfRange(n) => ("capacity ", *n, " is out of range"),
        InstanceFault::ZeroDemand(e) => ("required edge ", *e, " has demand 0"),
        InstanceFault::Overweight(e) => ("edge ", *e, " has a demand above the capacity"),
        InstanceFault::DepotOutOfRange(n) => ("depot ", *n, " is out of range"),
        InstanceFault::TooManyStates(n) => ("", *n, " states are too many"),
        InstanceFault::Unreachable(e) => ("edge ", *e, " cannot be reached"),
        InstanceFault::ServiceTooLarge(e) => ("edge ", *e, " has too large a service cost"),
    }
}

fn certificate_parts(fault: &CertFault) -> (&'static str, u64, &'static str)
    ensures { around result.0.now result.1 result.2.now ≡ certificate_words fault.now }
{
    match fault {
        CertFault::Syntax(line) => ("line ", *line, " cannot be read"),
        CertFault::Limit(line) => ("line ", *line, " passes a limit"),
        CertFault::Truncated(line) => ("ends before line ", *line, " is complete"),
    }
}

fn edit_parts(fault: &EditFault) -> (&'static str, u64, &'static str)
    ensures { around result.0.now result.1 result.2.now ≡ edit_words fault.now }
{
    match fault {
        EditFault::Syntax(line) => ("line ", *line, " cannot be read"),
        EditFault::Unknown(line) => ("line ", *line, " names a wrong edge"),
        EditFault::Refused(fault) => instance_parts(fault),
    }
}

fn push_reason(text: &mut String, reason: &Reason) -> Result<(), AllocError>
    ensures { OnOk result (string_bytes text.new ≡ string_bytes text.old ++ reason_words reason.now) }
{
    match reason {
        Reason::PlanUnlawful(verdict) => push_verdict(text, verdict),
        Reason::CostDiffers { stated, found } => {
            write!(text, "cost {stated} is stated and {found} is true")
        }
        Reason::Misfit(part) => push_parts(text, misfit_parts(part)),
        Reason::WeightTooLarge { set, edge, price } => {
            write!(text, "set {set} prices edge {edge} at {price}")
        }
        Reason::NotLean { node } => write!(text, "node {node} is not lean"),
        Reason::NotVoid { node } => write!(text, "node {node} is not void"),
        Reason::NotFixed { node } => write!(text, "node {node} is not fixed"),
        Reason::MissingUpper { set, node, shore } => {
            write!(
                text,
                "set {set} at node {node} has no upper number for shore {shore}"
            )
        }
        Reason::MissingYes { set, node, a, b } => {
            write!(text, "set {set} at node {node} needs the pair {a} {b}")
        }
        Reason::TourTooCheap { set, node, value } => {
            write!(text, "set {set} at node {node} has a tour at {value}")
        }
        Reason::LeafLow { node, value, limit } => {
            write!(text, "node {node} has value {value}, not above {limit}")
        }
        Reason::CountsDiffer {
            place,
            stated,
            found,
        } => {
            write!(
                text,
                "count {place} is {stated} and the instance has {found}"
            )
        }
    }
}

fn push_verdict(text: &mut String, verdict: &Verdict) -> Result<(), AllocError>
    ensures { OnOk result (string_bytes text.new ≡ string_bytes text.old ++ verdict_words verdict.now) }
{
    match verdict {
        Verdict::Lawful { .. } => Ok(()),
        Verdict::Broken { tour, step } => write!(text, "tour {tour} step {step} is broken"),
        Verdict::NotAtDepot { tour } => {
            write!(text, "tour {tour} does not start and end at the depot")
        }
        Verdict::ServesOther { edge } => write!(text, "edge {edge} is served and not required"),
        Verdict::ServedTwice { edge } => write!(text, "edge {edge} is served twice"),
        Verdict::NotServed { edge } => write!(text, "edge {edge} is not served"),
        Verdict::Overload { tour, load } => write!(text, "tour {tour} has load {load}"),
    }
}

fn misfit_parts(part: &Part) -> (&'static str, u64, &'static str)
    ensures { around result.0.now result.1 result.2.now ≡ misfit_words part.now }
{
    match part {
        Part::Shore(i) => ("shore ", *i, " does not fit the instance"),
        Part::Prices(j) => ("prices ", *j, " do not fit the instance"),
        Part::Node(k) => ("node ", *k, " does not fit the instance"),
    }
}

fn push_parts(text: &mut String, parts: (&str, u64, &str)) -> Result<(), AllocError>
    ensures { OnOk result (string_bytes text.new
        ≡ string_bytes text.old ++ around parts.entry.0.now parts.entry.1 parts.entry.2.now) }
{
    let (before, number, after) = parts;
    write!(text, "{before}{number}{after}")
}
