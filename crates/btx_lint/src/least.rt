//! The least that was met in a function: how much could still be opened, and how many literals were left untouched.
use btx_check::work::Room;

/// The least that was met.
#[derive(Clone, Copy)]
pub struct Least {
    pub fuel: usize,
    pub loops: usize,
    pub literals: usize,
}

impl Least {
    /// Before a function, where `room` says how many bodies and loops can be opened.
    pub fn new(room: Room) -> Least {
        Least {
            fuel: room.fuel,
            loops: room.loops,
            literals: usize::MAX,
        }
    }

    /// Notes that `fuel` bodies and `loops` loops could be opened.
    pub fn met(&mut self, fuel: usize, loops: usize) {
        if fuel < self.fuel {
            self.fuel = fuel;
        }
        if loops < self.loops {
            self.loops = loops;
        }
    }

    /// Notes that the lowest `literals` of the stack were left untouched.
    pub fn left(&mut self, literals: usize) {
        if literals < self.literals {
            self.literals = literals;
        }
    }

    /// Notes that of `height` literals the `count` on top were touched.
    pub fn touched(&mut self, height: usize, count: usize) {
        self.left(height.saturating_add(SPARE_LITERALS).saturating_sub(count));
    }
}

/// More literals than a function of one step touches, so that it is seen where they are too few.
pub const SPARE_LITERALS: usize = 8;
