// The commands.

/// A command, with its names and its numbers. A name is not empty and does not begin with `-`, and no two names have
/// the same bytes. Two names of one file, such as `a` and `./a`, are not noticed.
#[derive(Drop)]
pub enum Command<'a> {
    /// Solves the instance of `file`, and keeps the certificate at `cert`.
    Solve {
        file: &'a str,
        cert: &'a str,
        /// The most turns of the search: 1 to 1,048,576.
        turns: u64,
        /// What the choices of helpers are drawn from: below 10 to the 18.
        seed: u64,
    },
    /// Checks the certificate of `cert` for the instance of `file`.
    Check {
        file: &'a str,
        cert: &'a str,
    },
    /// Checks as `Check` does, and writes the street sheet of the plan.
    Sheet {
        file: &'a str,
        cert: &'a str,
    },
    /// Keeps the town of a number at `file`.
    Make {
        file: &'a str,
        /// The number of the town: below 10 to the 18.
        seed: u64,
    },
    /// Solves the town of a number, and checks its certificate.
    Drill {
        /// The most turns of the search: 1 to 1,048,576.
        turns: u64,
        /// The number of the town, and what the choices of helpers are drawn from: below 10 to the 18.
        seed: u64,
    },
    /// Does as `Check`, and keeps the certificate with the numbers of the instance at `renewed`.
    Upgrade {
        file: &'a str,
        cert: &'a str,
        renewed: &'a str,
    },
    /// Finds a least closed walk over all required edges of the instance of `file`.
    Postman {
        file: &'a str,
    },
    /// Finds few vehicles that carry all demands of the instance of `file`, and how many it takes at least.
    Fleet {
        file: &'a str,
        /// The most turns of the search: 1 to 1,048,576.
        turns: u64,
    },
    /// Edits the instance of `file` by `edits`, keeps it at `edited`, and keeps the certificate of `cert`, carried over
    /// to it, at `carried`.
    Edit {
        file: &'a str,
        cert: &'a str,
        edits: &'a str,
        edited: &'a str,
        carried: &'a str,
    },
    /// Goes on with the certificate of `cert` for the instance of `file`, and keeps what comes of it at `improved`.
    Improve {
        file: &'a str,
        cert: &'a str,
        improved: &'a str,
        /// The most turns that the search takes beside those of the certificate: 1 to 1,048,576.
        turns: u64,
        /// What the choices of helpers are drawn from: below 10 to the 18.
        seed: u64,
    },
}
