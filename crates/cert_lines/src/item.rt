// What a reader in pieces gives.
use branch_rules::Node;

/// What the bytes of one call of a reader in pieces complete (`CertReader::feed` of `cert_format`).
#[derive(Clone, Copy, Debug, PartialEq, Eq)]
pub enum Item {
    /// No item: all bytes were taken, and they completed none.
    Quiet,
    /// All lines up to the number of nodes, that line too.
    Head,
    /// A node of the tree.
    Node(Node),
    /// The line `end`: the certificate is whole.
    Whole,
}
