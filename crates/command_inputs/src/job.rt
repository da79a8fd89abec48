// What a command has to do.

use crate::{Edited, Laid};
use carp_base::Instance;
use cert_format::Cert;
use plan_model::Plan;

/// What a command has to do: its names and its numbers, and what was read of its files.
#[derive(Drop)]
pub enum Job<'a> {
    /// Solves the instance, and keeps the certificate at `cert`.
    Solve {
        inst: Instance,
        cert: &'a str,
        /// 1 to 1,048,576.
        turns: u64,
        seed: u64,
    },
    /// Says that a certificate of this cost and this bound was accepted.
    Check {
        cost: u64,
        bound: u64,
    },
    /// Writes the street sheet of a lawful plan of the instance.
    Sheet {
        inst: Instance,
        plan: Plan,
    },
    /// Keeps the town of a number at `file`.
    Make {
        file: &'a str,
        seed: u64,
    },
    /// Solves the town of a number, and checks its certificate.
    Drill {
        /// 1 to 1,048,576.
        turns: u64,
        seed: u64,
    },
    /// Keeps the certificate, which has the numbers of its instance, at `renewed`.
    Upgrade {
        cert: Cert,
        renewed: &'a str,
    },
    /// Writes a least closed walk over all required edges.
    Postman {
        laid: Laid,
    },
    /// Finds few vehicles that carry all demands, and how many it takes at least.
    Fleet {
        inst: Instance,
        /// 1 to 1,048,576.
        turns: u64,
    },
    /// Keeps an edited instance at `edited`, and the certificate, carried over to it, at `carried`.
    Edit {
        read: Edited,
        edited: &'a str,
        carried: &'a str,
    },
    /// Goes on with a certificate that is good for the instance, and keeps what comes of it at `improved`.
    Improve {
        inst: Instance,
        cert: Cert,
        improved: &'a str,
        /// 1 to 1,048,576.
        turns: u64,
        seed: u64,
    },
}
