// Work on a layer that the level above it lends.

/// A piece of work on a layer that stands below others. What a call on the layer answers, the errand keeps in fields of
/// its own.
pub trait Errand<B> {
    /// Whether it may be done, as the errand and the layer stand.
    ghost may_go: { Self → B → Type 0 };

    /// What it does: the errand and the layer before, and both after.
    ghost did_go: { Self → B → Self → B → Type 0 };

    /// Does the work, once.
    fn go(&mut self, below: &mut B)
        requires { may_go self.old below.old }
        ensures { did_go self.old below.old self.new below.new };
}
