// Random numbers from a seed: the same seed gives the same numbers.
#[derive(Drop)]
pub struct Dice {
    state: u64,
}

impl Dice {
    // Numbers from this seed on.
    pub fn new(seed: u32) -> Dice {
        let state = (seed as u64 + 1).wrapping_mul(0x9e37_79b9_7f4a_7c15);
        Dice { state: state | 1 }
    }

    // Any number of 32 bits.
    pub fn any(&mut self) -> u32 {
        let mut x = self.state;
        x ^= x << 13;
        x ^= x >> 7;
        x ^= x << 17;
        self.state = x;
        ((x >> 16) & 0xffff_ffff) as u32
    }

    // A number below `limit`, or 0 where there is none.
    pub fn below(&mut self, limit: u32) -> u32 {
        if limit == 0 { 0 } else { self.any() % limit }
    }

    // A byte below `limit`, or 0 where there is none.
    pub fn byte(&mut self, limit: u8) -> u8 {
        u8::try_from(self.below(u32::from(limit))).unwrap_or(0)
    }

    // An index below a length, or 0 where there is none.
    pub fn index(&mut self, length: usize) -> usize {
        self.below(u32::try_from(length).unwrap_or(u32::MAX)) as usize
    }

    // One of these, if there is any.
    pub fn choose<'a, T>(&mut self, from: &'a [T]) -> Option<&'a T> {
        from.get(self.index(from.len()))
    }

    // Yes, once in so many times.
    pub fn once_in(&mut self, times: u32) -> bool {
        self.below(times) == 0
    }
}
