ghost use Rattle.std.specs.Prelude.{◌↔◌, IsTrue};
ghost use Rattle.cy_io.specs.Store.{IsListedNext, IsFresh, IsOneLater};

// The calls on an object so far, and the numbers of those that are to fail, counted from 1.
#[derive(Drop)]
pub struct Calls {
    pub made: u64,
    pub failing: Vec<u64>,
}

impl Calls {
    pub fn new(failing: Vec<u64>) -> Calls
        ensures { IsFresh result failing.items }
    {
        Calls { made: 0, failing }
    }

    // Counts one more call, and says whether it is to fail.
    pub fn fails_next(&mut self) -> bool
        ensures listed { IsTrue result ↔ IsListedNext self.old }
        ensures later { IsOneLater self.old self.new }
    {
        if self.made == u64::MAX {
            return false;
        }
        self.made += 1;
        self.failing.contains(&self.made)
    }
}
