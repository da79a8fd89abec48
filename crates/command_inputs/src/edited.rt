// What three files hold: an instance, a certificate of it, and edits.

use carp_base::Instance;
use cert_format::Cert;
use instance_edits::Edit;

/// An instance, a certificate that is good for it, edits, and the edited instance.
#[derive(Drop)]
pub struct Edited {
    /// The instance of the first file.
    pub before: Instance,
    /// The certificate of the second file, which is good for it.
    pub cert: Cert,
    /// The edits of the third file.
    pub edits: Vec<Edit>,
    /// The instance that they make.
    pub after: Instance,
}
