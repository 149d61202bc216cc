//! What a call of the program works with.

/// Where a call finds its texts, and where it leaves what it makes.
pub struct Desk<S, K, N> {
    /// The shelf that has the texts.
    pub shelf: S,
    /// Where results go.
    pub out: K,
    /// Where the line goes that notes why a call ended early.
    pub notes: N,
    /// The Verilog text that a call leaves.
    pub text: Vec<u8>,
}
