ghost use Rattle.std.specs.Prelude.{ℕ, Bool, true, IsTrue};

/// Is told when a piece of parallel work begins and when it ends, by the piece's number from 0, and how far the work is.
/// It answers nothing, so it can change no result.
///
/// Contracts see two meanings, which nobody but the gate's own calls can show of a gate that they don't know: that a
/// piece has begun, and that it has ended.
pub trait Gate {
    /// Whether a piece has begun.
    ghost begun: { Self → ℕ → Bool };

    /// Whether a piece has ended.
    ghost ended: { Self → ℕ → Bool };

    fn begin(&self, place: usize)
        ensures { IsTrue (begun self.now place) };

    fn end(&self, place: usize)
        requires { IsTrue (begun self.now place) }
        ensures { IsTrue (ended self.now place) };

    /// Of a work that decides conditions: how many there are in all, before the first of them is decided.
    fn posed(&self, count: usize);

    /// How many more of them are decided, and how many of these are open. Any piece may tell it.
    fn decided(&self, count: usize, open: usize);
}

/// A gate that does nothing.
#[derive(Clone, Copy, Debug)]
pub struct OpenGate;

impl Gate for OpenGate {
    ghost begun = { λ _ _. true };

    ghost ended = { λ _ _. true };

    fn begin(&self, _place: usize)
        ensures { IsTrue true }
    {}

    fn end(&self, _place: usize)
        requires { IsTrue true }
        ensures { IsTrue true }
    {}

    fn posed(&self, _count: usize) {}

    fn decided(&self, _count: usize, _open: usize) {}
}
