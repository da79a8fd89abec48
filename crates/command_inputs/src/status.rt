// How a run ends.
ghost use Rattle.std.specs.Prelude.{◌≡◌};

use cert_checker::Reason;
use cert_format::CertFault;
use dat_text::DatFault;
use instance_edits::EditFault;

/// How a run ends.
#[derive(Clone, Copy, Debug, PartialEq, Eq)]
pub enum Status {
    /// A plan was found whose cost is the bound, or a fleet whose number of vehicles is.
    Proven,
    /// A plan was found whose cost is above the bound, or a fleet with more vehicles than the bound.
    Gap,
    /// The certificate is good.
    Accepted,
    /// A command that answers nothing else was done.
    Done,
    /// The certificate reads and is not good. This is its first reason.
    Rejected(Reason),
    /// The words are no command.
    BadUsage,
    /// The bytes of the instance file have this fault.
    BadInstance(DatFault),
    /// The bytes of the certificate have this fault.
    BadCertificate(CertFault),
    /// A file could not be read.
    ReadFault,
    /// A file could not be kept, or a text could not be written.
    WriteFault,
    /// There was not enough memory. Nothing was kept, and nothing written.
    Memory,
    /// A file has more bytes than this limit.
    TooLong(u64),
    /// The required edges do not hang together with the depot. This is the least edge that is apart.
    NotJoined(u32),
    /// The edits have this fault, or the edited instance.
    BadEdit(EditFault),
}

impl Status {
    ghost use Rattle.command_inputs.specs.Codes.{code_of};

    /// The status code of the process: 0 if the command was done, 1 if a plan or a fleet was found with a gap, 2 if a
    /// certificate was rejected, and from 3 to 11 otherwise.
    pub fn code(&self) -> u8
        ensures { result ≡ code_of self.now }
    {
        match self {
            Status::Proven | Status::Accepted | Status::Done => 0,
            Status::Gap => 1,
            Status::Rejected(_) => 2,
            Status::BadUsage => 3,
            Status::BadInstance(_) => 4,
            Status::BadCertificate(_) => 5,
            Status::ReadFault => 6,
            Status::WriteFault => 7,
            Status::Memory => 8,
            Status::TooLong(_) => 9,
            Status::NotJoined(_) => 10,
            Status::BadEdit(_) => 11,
        }
    }
}
