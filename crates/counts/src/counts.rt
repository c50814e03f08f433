// How many records the three stores hold, and the guard that puts the counts back.
ghost use Rattle.std.specs.Prelude.{◌≡◌, Some, None};
ghost use Rattle.std.specs.Option.{unwrap_or};

#[derive(Clone, Copy, Debug, Default, PartialEq, Eq)]
pub struct Counts {
    pub actions: u32,
    pub cells: u32,
    pub nodes: u32,
}

impl Counts {
    // Empty stores: the default, with what it promises here.
    pub fn none() -> Counts
        ensures { (result.actions ≡ 0) × (result.cells ≡ 0) × (result.nodes ≡ 0) }
    {
        Counts::default()
    }
}

// At its end the counts are those that it found, unless what was built is kept.
pub struct Guard<'a> {
    pub counts: &'a mut Counts,
    // The counts that it found, none once what was built is kept.
    saved: Option<Counts>,
}

// By hand, by a rule of the project: this is what puts the counts back, on every way out.
impl Drop for Guard<'_> {
    fn drop(self)
        ensures { self.exit.0.now ≡ unwrap_or self.entry.saved self.entry.counts.now }
    {
        let Guard { counts, saved } = self;
        if let Some(found) = saved {
            *counts = found;
        }
    }
}

impl<'a> Guard<'a> {
    pub fn over(counts: &'a mut Counts) -> Guard<'a>
        ensures counts { result.counts.now ≡ counts.old }
        ensures saved { result.saved ≡ Some counts.old }
        ensures lender { result.counts.ghost_name ≡ counts.entry.ghost_name }
    {
        let saved = Some(*counts);
        Guard { counts, saved }
    }

    // What was built stays.
    pub fn keep(&mut self)
        ensures kept { self.new.saved ≡ None }
        ensures counts { self.new.counts.now ≡ self.old.counts.now }
        ensures lender { self.new.counts.ghost_name ≡ self.old.counts.ghost_name }
    {
        self.saved = None;
    }
}
