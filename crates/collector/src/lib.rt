// The one collector: fills a lent slice from its front, whatever its entries are.
#![tactic(auto)]

ghost use Rattle.std.specs.Prelude.{◌≡◌, ◌≤◌, length};

#[derive(Debug, Drop)]
pub struct Collector<'a, T> {
    entries: &'a mut [T],
    used: usize,
    ghost within: { used ≤ length entries.now },
}

impl<'a, T: Drop> Collector<'a, T> {
    ghost use Rattle.collector.specs.Pushing.{Pushed};

    pub fn over(entries: &'a mut [T]) -> Collector<'a, T>
        ensures used { result.used ≡ 0 }
        ensures same { result.entries.now ≡ entries.old }
        ensures lender { result.entries.ghost_name ≡ entries.entry.ghost_name }
    {
        Collector { entries, used: 0 }
    }

    // Takes one entry more, or hands it back: exactly when no entry is free.
    pub fn push(&mut self, x: T) -> Result<(), T>
        ensures { Pushed self.old self.new x result }
    {
        if self.used >= self.entries.len() {
            return Err(x);
        }
        self.entries[self.used] = x;
        self.used += 1;
        Ok(())
    }

    pub fn used(&self) -> usize
        ensures { result ≡ self.now.used }
    {
        let count = self.used;
        count
    }
}
