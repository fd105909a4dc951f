//! All lists of choices, one after the other.
use std::alloc::Global;

/// Which of how many was chosen.
#[derive(Clone, Copy)]
struct Choice {
    taken: usize,
    of: usize,
}

/// The choices of an order, and how many of them were made again.
#[derive(Drop)]
pub struct Choices {
    made: Vec<Choice>,
    next: usize,
}

impl Choices {
    pub fn new(alloc: Global) -> Choices {
        Choices {
            made: Vec::new(alloc),
            next: 0,
        }
    }

    pub fn clear(&mut self) {
        self.made.clear();
        self.next = 0;
    }

    /// Chooses one of so many: as before, or where nothing was chosen yet the first; none of them where there is no memory.
    pub fn choose(&mut self, of: usize) -> usize {
        let next = self.next;
        self.next = next.wrapping_add(1);
        match self.made.get(next) {
            Some(choice) => choice.taken,
            None => {
                if self.made.push(Choice { taken: 0, of }).is_ok() {
                    0
                } else {
                    of
                }
            }
        }
    }

    /// Goes on to the next list of choices; whether there is one.
    pub fn advance(&mut self) -> bool {
        self.next = 0;
        for _choice in 0..self.made.len() {
            let Some(last) = self.made.pop() else {
                return false;
            };
            let taken = last.taken.wrapping_add(1);
            if taken < last.of {
                return self.made.push(Choice { taken, of: last.of }).is_ok();
            }
        }
        false
    }
}
