// Laws over two runs, as functions whose contract is the law.
ghost use Rattle.carp_cli.specs.Laws.{
  SolvedIsAccepted,
  UpgradedIsAccepted,
  EditedIsAccepted,
  ImprovedIsAccepted,
  MadeIsHeld,
  MadeIsSolved,
};

use cert_lines::{texts_are_short, texts_are_unique};
use dat_text::{written_is_read, written_is_short};
use town_maker::towns_are_valid;

/// What one command keeps, the next one takes: a law over what two runs leave ([`crate::run`]), with nothing to run.
///
/// If `solve FILE CERT` ended `Proven` or `Gap`, a later `check FILE CERT`, of which no look at the files failed,
/// answers `Accepted`, with the cost and the bound that `solve` reported. Otherwise it could not write, or it had no
/// memory. The same holds of what `upgrade`, `edit` and `improve` keep. What `improve` keeps costs no more than what it
/// read, and its bound is no lower. What `make` keeps is the text of its town, within the limit of an instance file, so
/// that `solve` solves it.
pub fn kept_is_accepted()
    ensures solved { SolvedIsAccepted }
    ensures upgraded { UpgradedIsAccepted }
    ensures edited { EditedIsAccepted }
    ensures improved { ImprovedIsAccepted }
    ensures made { MadeIsHeld }
    ensures made_solved { MadeIsSolved }
{
    texts_are_unique();
    texts_are_short();
    written_is_read();
    written_is_short();
    towns_are_valid();
}
