// A whole text.
ghost use Rattle.std.specs.Prelude.{◌≡◌, [], IfOk, OnOk, IsErrOf};
ghost use Rattle.carp_base.specs.declared.fail.Fail.TheVariants.{Refused};
ghost use Rattle.cert_lines.specs.declared.fault.CertFault.{CertFault as Fault};
ghost use Rattle.cert_lines.specs.Texts.{IsTextOf, IsFaultOf};
ghost use Rattle.cert_format.specs.declared.reader.Standing.TheVariants.{Going};
ghost use Rattle.cert_format.specs.Certs.{certificate_in};
ghost use Rattle.cert_format.specs.Held.{HasTaken};
ghost use Rattle.cert_format.specs.Reads.{ItemFits, KeepsItem, ReadsTree};

use crate::{Cert, CertReader};
use branch_rules::Tree;
use carp_base::{Fail, Memory};
use cert_lines::{CertFault, Item, readings_are_unique};
use std::alloc::Global;

/// The certificate of a text, or the first fault of bytes that are no text of a certificate.
///
/// `Fail::Memory` says only that there was not enough memory. It takes expected time in proportion to the bytes, and
/// memory in proportion to the bytes and to the number of nodes that they state.
pub fn read_cert(alloc: Global, bytes: &[u8]) -> Result<Cert, Fail<CertFault>>
    ensures read { IfOk result (λ cert. IsTextOf bytes.now (certificate_in cert)) }
    ensures refused { (fault : Fault) → IsErrOf result (Refused fault) → IsFaultOf bytes.now fault }
{
    let mut reader = CertReader::new(alloc)?;
    let tree = match read_nodes(alloc, &mut reader, bytes) {
        Ok(tree) => tree,
        Err(fail) => return Err(fail),
    };
    if let Err(fail) = reader.finish() {
        return Err(fail);
    }
    readings_are_unique();
    Ok(reader.into_cert(tree))
}

// Feeds a whole text to a new reader, and keeps the nodes.
fn read_nodes(alloc: Global, reader: &mut CertReader, bytes: &[u8]) -> Result<Tree, Fail<CertFault>>
    requires taken { HasTaken reader.old [] }
    requires going { reader.old.standing ≡ Going }
    ensures read { IfOk result (λ tree. ReadsTree reader.new tree bytes.now) }
    ensures going { OnOk result (reader.new.standing ≡ Going) }
    ensures refused { (fault : Fault) → IsErrOf result (Refused fault) → IsFaultOf bytes.now fault }
{
    let mut tree = Tree::new(alloc, 0)?;
    let mut taken = 0;
    while taken < bytes.len() {
        let (more, item) = match reader.feed_lines(&bytes[taken..]) {
            Ok(run) => run,
            Err(fail) => return Err(fail),
        };
        taken += more;
        keep_item(alloc, reader.draft.head.nodes, &mut tree, item)?;
    }
    Ok(tree)
}

// Keeps a node, or makes room for so many.
fn keep_item(alloc: Global, nodes: u64, tree: &mut Tree, item: Item) -> Result<(), Memory>
    requires { ItemFits item tree.old }
    ensures { OnOk result (KeepsItem item nodes tree.old tree.new) }
{
    match item {
        Item::Quiet | Item::Whole => {}
        Item::Head => *tree = Tree::new(alloc, nodes as usize)?,
        Item::Node(node) => tree.put_node(node),
    }
    Ok(())
}
