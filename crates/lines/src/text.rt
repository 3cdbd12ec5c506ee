// A line of text by value.

// The bytes that a line has room for.
pub const LINE: usize = 64;

// The bytes of a text, zeros after them, and its length: a value that is copied like any other, which an `ArrayVec` is not.
#[derive(Clone, Copy)]
pub struct Line {
    pub text: [u8; LINE],
    pub len: usize,
}
