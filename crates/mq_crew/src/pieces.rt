// Pieces that may be made in any order, each from its index alone.
ghost use Rattle.std.specs.Prelude.{◌≡◌, ℕ, ◌<◌, IfOk};

use mq_base::OutOfMemory;
use std::alloc::Global;
use std::marker::{Send, Sync};

/// Pieces that any thread may make, in any order. Their indices count from 0.
pub trait Pieces: Sync {
    /// One piece, which a worker returns to the thread that started it.
    type Piece: Send + Drop;

    /// What must hold so that the pieces can be made.
    ghost fit: { Self → Type 0 };

    /// The number of pieces.
    ghost size: { Self → ℕ };

    /// What the piece at an index must be.
    ghost is_piece: { Self → ℕ → Self.Piece → Type 0 };

    /// Returns the number of pieces.
    fn count(&self) -> u32
        requires { fit self.now }
        ensures { result ≡ size self.now };

    /// Makes the piece at index `b`. The only error is that memory runs out.
    fn piece(&self, alloc: Global, b: u32) -> Result<Self::Piece, OutOfMemory>
        requires fit { fit self.now }
        requires inside { b < size self.now }
        ensures { IfOk result (λ p. is_piece self.now b p) };
}
