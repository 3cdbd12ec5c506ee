// A member as a strut.

// The effective length L, and the side s across which the member buckles over it, in mm. In 16 bits, as a member has them.
#[derive(Clone, Copy)]
pub struct Strut {
    pub length: u16,
    pub side: u16,
}

// The size of a strut in bytes.
const _: () = prove!(size_of::<Strut>() == 4);
