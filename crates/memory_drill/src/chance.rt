// A fixed row of numbers that looks like chance: xorshift with three shifts.
#[derive(Clone, Copy)]
pub struct Chance {
    state: u64,
}

impl Chance {
    pub fn new(seed: u64) -> Chance {
        Chance {
            state: seed ^ 0x9e37_79b9_7f4a_7c15,
        }
    }

    pub fn next(&mut self) -> u64 {
        let mut x = self.state;
        x ^= x << 13;
        x ^= x >> 7;
        x ^= x << 17;
        self.state = x;
        x
    }

    // One time in `n`, n a power of two.
    pub fn rarely(&mut self, n: u64) -> bool {
        self.next() & n.saturating_sub(1) == 0
    }

    // A place: mostly one of the first so many, now and then any byte.
    pub fn place(&mut self, many: u8) -> u8 {
        let any = self.rarely(16);
        let x = self.next() >> 20 & 255;
        if any {
            x as u8
        } else {
            (x * many as u64 >> 8) as u8
        }
    }

    // A class: mostly a low one, now and then up to 511.
    pub fn class(&mut self) -> u16 {
        let any = self.rarely(8);
        let x = self.next() >> 20;
        if any {
            (x & 511) as u16
        } else {
            (x & 15) as u16
        }
    }
}
