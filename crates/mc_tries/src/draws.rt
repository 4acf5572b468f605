// Numbers that are drawn.

// What a number is multiplied with for the next one, and what is added.
const FACTOR: u64 = 6_364_136_223_846_793_005;

const STEP: u64 = 1_442_695_040_888_963_407;

// The lower bits of a number repeat themselves soon, and are left out.
const LOW: u64 = 8_589_934_592;

/// Numbers that are drawn one after the other, the same ones in each call.
#[derive(Clone, Copy)]
pub struct Draws {
    last: u64,
}

impl Draws {
    /// Begins with the first number.
    pub fn new() -> Draws {
        Draws { last: 1 }
    }

    /// The next number below another; 0 where there is none.
    pub fn below(&mut self, most: u64) -> u64 {
        self.last = self.last.wrapping_mul(FACTOR).wrapping_add(STEP);
        if most == 0 {
            return 0;
        }
        (self.last / LOW) % most
    }

    /// Whether this is so, once in so many times; never where these are 0.
    pub fn once_in(&mut self, times: u64) -> bool {
        self.below(times) == 0 && times > 0
    }

    /// A place in a list of so many.
    pub fn place(&mut self, length: usize) -> usize {
        self.below(length as u64) as usize
    }
}
