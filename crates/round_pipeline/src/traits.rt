// What goes through a pipeline, and who works on it.
ghost use Rattle.std.specs.Prelude.{Bool, Option};

/// The buffer of a round. The source fills it, a judge works on it, the sink empties it, and the source fills it again.
pub trait RoundBuffer {
    /// The source can fill it.
    ghost empty: { Self → Type 0 };

    /// It holds a round that was read.
    ghost filled: { Self → Type 0 };

    /// It holds a round that was judged.
    ghost judged: { Self → Type 0 };
}

/// Where the rounds come from.
pub trait Source<T: RoundBuffer> {
    /// The next round can be read.
    ghost ready: { Self → Type 0 };

    /// What reading a round makes of the source and the buffer, and whether more rounds may come.
    ghost fills: { Self → T → Self → T → Bool → Type 0 };

    /// Reads the next round into the buffer. The answer is false if this is the last round, also if a fault ended it: the
    /// round then says so itself.
    fn fill(&mut self, buffer: &mut T) -> bool
        requires ready { ready self.old }
        requires empty { T.empty buffer.old }
        ensures ready { ready self.new }
        ensures filled { T.filled buffer.new }
        ensures fills { fills self.old buffer.old self.new buffer.new result };
}

/// Who judges rounds. Each worker has a judge of its own, which keeps its state from round to round.
pub trait Judge<T: RoundBuffer> {
    /// It can judge a round.
    ghost ready: { Self → Type 0 };

    /// What judging a round makes of the judge and the round.
    ghost judges: { Self → T → Self → T → Type 0 };

    /// Judges a round in its buffer. A judge that fails says so in the round, and stays ready.
    fn judge(&mut self, buffer: &mut T)
        requires ready { ready self.old }
        requires filled { T.filled buffer.old }
        ensures ready { ready self.new }
        ensures judged { T.judged buffer.new }
        ensures judges { judges self.old buffer.old self.new buffer.new };
}

/// Where the rounds go, one after another in the order in which they were read. `E` says why the sink ended.
pub trait Sink<T: RoundBuffer, E> {
    /// It can take a round.
    ghost ready: { Self → Type 0 };

    /// What putting a round makes of the sink and the round, and whether the sink ends with it.
    ghost puts: { Self → T → Self → T → Option E → Type 0 };

    /// Puts a round, and empties its buffer. If there is an answer, nothing more is put.
    fn put(&mut self, buffer: &mut T) -> Option<E>
        requires ready { ready self.old }
        requires judged { T.judged buffer.old }
        ensures ready { ready self.new }
        ensures empty { T.empty buffer.new }
        ensures puts { puts self.old buffer.old self.new buffer.new result };
}
