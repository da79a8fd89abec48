// What an answer keeps and writes.

use command_inputs::Status;

/// A name, and the bytes that are to be kept there.
#[derive(Drop)]
pub struct Kept<'a> {
    /// The name.
    pub name: &'a str,
    /// All bytes that it is to hold.
    pub bytes: Vec<u8>,
}

/// What an answer keeps, in order, and then writes.
#[derive(Drop)]
pub struct Delivery<'a> {
    /// What is kept, in this order.
    pub kept: Vec<Kept<'a>>,
    /// What is written after all is kept.
    pub text: Vec<u8>,
    /// The answer if no keep and no put fails.
    pub status: Status,
}
