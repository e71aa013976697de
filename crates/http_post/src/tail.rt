//! Whether an empty line stands among the bytes of a head that came so far. Each byte is looked at once.

/// What the bytes end with.
#[derive(Clone, Copy, Debug, PartialEq, Eq)]
pub enum Tail {
    /// Line ends alone.
    Blank,
    /// A part of a line.
    Part,
    /// A line.
    Line,
    /// A line and a carriage return.
    Return,
    /// A line and an empty one, and whatever came behind them.
    Ended,
}

/// What they end with behind one byte more.
fn behind(tail: Tail, byte: u8) -> Tail {
    match (tail, byte) {
        (Tail::Blank, b'\r' | b'\n') => Tail::Blank,
        (Tail::Part, b'\n') => Tail::Line,
        (Tail::Line, b'\r') => Tail::Return,
        (Tail::Line | Tail::Return, b'\n') => Tail::Ended,
        (Tail::Ended, _) => Tail::Ended,
        _ => Tail::Part,
    }
}

/// What they end with behind these.
pub fn tail_behind(tail: Tail, piece: &[u8]) -> Tail {
    let mut tail = tail;
    for byte in piece {
        tail = behind(tail, *byte);
    }
    tail
}
