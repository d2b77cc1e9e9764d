// What is left of a piece of a recording.
ghost use Rattle.std.specs.Prelude.{◌≤◌};

/// The bytes of one piece.
pub const PIECE: usize = 65536;

/// The bytes of a piece that are still to read: those from one place up to another.
#[derive(Clone, Copy)]
pub struct Rest {
    pub from: usize,
    pub to: usize,
    ghost in_order: { from ≤ to },
    ghost in_piece: { to ≤ 65536 },
}

impl Rest {
    /// Inner. The first bytes of a piece, where there are any.
    pub fn first(count: usize) -> Option<Rest>
        requires { count ≤ 65536 }
    {
        (count > 0).then_some(Rest { from: 0, to: count })
    }

    /// The same without its first bytes, which were taken; none where it is used up.
    pub fn without(self, taken: usize) -> Option<Rest> {
        let from = self.from.saturating_add(taken);
        if from < self.to {
            Some(Rest { from, to: self.to })
        } else {
            None
        }
    }

    pub fn bytes<'a>(&self, piece: &'a [u8; PIECE]) -> &'a [u8] {
        &piece[self.from..self.to]
    }
}
