use crate::Sign;

/// What a token is, apart from its bytes.
#[derive(Clone, Copy, Debug, PartialEq, Eq)]
pub enum Shape {
    Open,
    Close,
    Word,
    Variable,
    Keyword,
    Number,
    Sign(Sign),
}

/// What stands at a byte, with the number of bytes behind that one which belong to it.
#[derive(Clone, Copy, Debug, PartialEq, Eq)]
pub enum Next {
    Blank(usize),
    Piece(Shape, usize),
    BadByte,
    BadNumber(usize),
}
