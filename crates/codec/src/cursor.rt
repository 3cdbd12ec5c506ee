// A place among the bits of packed cells.
ghost use Rattle.std.specs.Prelude.{◌≡◌, ◌+◌, ◌^◌, ◌≤◌, ◌<◌};

// `at` bytes lie behind the place. The `count` lowest bits of `waiting` are on hand: when writing, those not yet written; when reading, those taken in and not
// yet read. At most seven bits and a cell, or 34 bits and a byte, are there. A place and no rest of a slice: the same cursor goes through the bytes that are read and the
// buffer that is written, and tells how many were taken; for single bits the library has no type.
#[derive(Clone, Copy)]
pub struct Cursor {
    pub at: usize,
    pub count: usize,
    pub waiting: u64,
    ghost low: { waiting < 2 ^ count },
    ghost most: { count ≤ 42 },
}

impl Cursor {
    ghost use Rattle.codec.specs.Place.{Appended, Taken};

    // The place before the first bit. It is no `Default`, which cannot be derived beside a ghost field.
    pub fn start() -> Self
        ensures { (result.at ≡ 0) × (result.count ≡ 0) }
    {
        Cursor {
            at: 0,
            count: 0,
            waiting: 0,
        }
    }

    // Puts n bits after those on hand: the digits of a number.
    pub fn append(&mut self, n: usize, digits: u64)
        requires room { self.old.count + n ≤ 42 }
        requires small { digits < 2 ^ n }
        ensures { Appended self.old self.new n digits }
    {
        self.waiting = (self.waiting << n) + digits;
        self.count += n;
    }

    // Takes the first n bits on hand: the number whose digits they are.
    pub fn take(&mut self, n: usize) -> u64
        requires { n ≤ self.old.count }
        ensures { Taken self.old self.new n result }
    {
        self.count -= n;
        let digits = self.waiting >> self.count;
        self.waiting &= (1 << self.count) - 1;
        digits
    }
}
