//! Why bytes are no command or no response.

/// Why bytes are no command or no response.
#[derive(Clone, Copy, Debug, PartialEq, Eq)]
pub enum ApduFault {
    /// Under 4 bytes for a command, under 2 for a response.
    Short,
    /// The length isn't the one that Lc asks for. No response has this fault.
    LcWrong,
    /// Above 261 bytes for a command, above 258 for a response.
    TooLong,
}
