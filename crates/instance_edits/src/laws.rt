// Laws, as functions whose contract is the law.
ghost use Rattle.instance_edits.specs.Laws.{BadLineIsUnique, EditsAreUnique, EditsHaveNoFault};

/// No bytes are the text of two lists of edits, have two first bad lines, or are a text and have a bad line.
pub fn edits_are_unique()
    ensures edits { EditsAreUnique }
    ensures apart { EditsHaveNoFault }
    ensures fault { BadLineIsUnique }
{}
