//! Why tokens have no tree.

/// Why tokens have no tree.
#[derive(Clone, Copy)]
pub enum ParseError {
    /// The tokens before this one begin a source of a height of at most 200, and with it they begin none of any height. The number is
    /// that of the token, from 0, or the number of tokens where all of them begin one and are none.
    Syntax(u32),
    /// The tokens before this one begin a source of a height of at most 200, and with it they begin only higher ones. The number is the
    /// byte at which that token starts.
    TooDeep(u32),
    /// Want of memory.
    Memory,
}
