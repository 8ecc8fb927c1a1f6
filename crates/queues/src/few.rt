//! What one step lets wait in one queue.
ghost use Rattle.std.specs.Prelude.{◌≡◌, length};
ghost use Rattle.queues.specs.Few.{few_items};

/// At most two messages, in their order. Stays an enum of its own: it is `Copy` where its messages are, which no vector is.
#[derive(Clone, Copy, PartialEq, Eq, Debug, Drop)]
pub enum Few<M> {
    Zero,
    One(M),
    Two(M, M),
}

impl<M> Few<M> {
    /// How many messages there are.
    pub fn count(&self) -> usize
        ensures number_of_messages { result ≡ length (few_items self.now) }
    {
        match self {
            Few::Zero => 0,
            Few::One(_) => 1,
            Few::Two(_, _) => 2,
        }
    }
}
