// The five kinds of member, cell 1.

#[derive(Clone, Copy, Debug, PartialEq, Eq)]
pub enum Kind {
    Tension,
    Bending,
    Compression,
    CompressionBending,
    TensionBending,
}
