//! Conclusions: what a command comes to that nothing refuses.

/// A file to store.
#[derive(Drop)]
pub struct OutputFile {
    pub name: String,
    pub bytes: Vec<u8>,
}

/// The text that a command writes, the status that the program then ends with, and the files that it stores before, in
/// this order.
#[derive(Drop)]
pub struct Conclusion {
    pub text: Vec<u8>,
    pub status: u8,
    pub files: Vec<OutputFile>,
}
