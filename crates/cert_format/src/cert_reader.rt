// A reader of certificates in pieces.
ghost use Rattle.cert_format.specs.Drafts.{IsBounded};
ghost use Rattle.cert_format.specs.BoundedFacts.{IsBounded-prop};

use crate::draft::Draft;
use crate::line::LineState;
use crate::reader::Standing;
use cert_lines::Word;
use std::alloc::Global;

/// Reads the text of a certificate in pieces, however it is cut. It keeps what stands before the first node, and no
/// node. So its memory does not grow with the number of nodes.
#[derive(Drop)]
pub struct CertReader {
    pub(crate) alloc: Global,
    pub(crate) standing: Standing,
    pub(crate) draft: Draft,
    pub(crate) line: LineState,
    pub(crate) word: Word,
    ghost bounded: { IsBounded draft } by { IsBounded-prop draft },
}
