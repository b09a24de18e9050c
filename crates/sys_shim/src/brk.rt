// The end of the guest's heap.
ghost use Rattle.std.specs.Prelude.{◌≡◌};
ghost use Rattle.sys_shim.specs.Calls.{break_at};

/// The break, the address behind the guest's heap, with its bounds. A call moves it within these, `high` included.
#[derive(Clone, Copy, Debug, PartialEq, Eq)]
pub struct Brk {
    /// The least address that it may have.
    pub low: u32,
    /// The break itself.
    pub top: u32,
    /// The greatest address that it may have.
    pub high: u32,
}

impl Brk {
    /// Moves the break to an address, or leaves it where its bounds forbid that.
    pub(crate) fn ask(&mut self, at: u32)
        ensures { self.new ≡ record { low = self.old.low; top = break_at self.old at; high = self.old.high } }
    {
        if self.low <= at && at <= self.high {
            self.top = at;
        }
    }
}
