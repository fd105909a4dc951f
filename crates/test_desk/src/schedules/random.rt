//! A generator of numbers: the same at each run.

#[derive(Drop)]
pub struct Random {
    state: u64,
}

impl Random {
    pub fn new(state: u64) -> Random {
        Random { state }
    }

    /// A number below this one; 0 where there is none.
    pub fn below(&mut self, bound: u64) -> u64 {
        self.state = self.state.wrapping_mul(6_364_136_223_846_793_005);
        self.state = self.state.wrapping_add(1_442_695_040_888_963_407);
        (self.state >> 33).checked_rem(bound).unwrap_or(0)
    }

    /// One of these.
    pub fn pick(&mut self, choices: &[&'static str]) -> &'static str {
        match choices.get(self.below(choices.len() as u64) as usize) {
            Some(choice) => *choice,
            None => "",
        }
    }
}
