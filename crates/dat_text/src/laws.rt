// Laws over all texts, as functions whose contract is the law.
ghost use Rattle.dat_text.specs.Laws.{
  WrittenIsRead,
  WrittenIsShort,
  InstanceIsUnique,
  FaultIsUnique,
  TextHasNoFault,
};

use carp_base::valid_where_no_fault;

/// The text that is written of an instance describes this instance.
pub fn written_is_read()
    ensures { WrittenIsRead }
{}

/// The text that is written of an instance has at most 4,194,304 bytes, so that a reader with this limit refuses none
/// for its length.
pub fn written_is_short()
    ensures { WrittenIsShort }
{}

/// Bytes describe at most one instance, and have at most one first fault, and not both.
pub fn readings_are_unique()
    ensures instance { InstanceIsUnique }
    ensures fault { FaultIsUnique }
    ensures apart { TextHasNoFault }
{
    valid_where_no_fault();
}
