//! How far an end has come along the ring.
ghost use Rattle.std.specs.Prelude.{◌≡◌, ◌+◌, ◌%◌, ◌<◌, ◌^◌};

/// How many items went by, and the entry that comes next.
#[derive(Drop)]
pub struct EntryCursor {
    pub count: u64,
    pub entry: usize,
    pub capacity: usize,
    ghost lies: { (entry ≡ count % capacity) × (0 < capacity) },
}

impl EntryCursor {
    pub fn new(capacity: usize) -> EntryCursor
        requires { 0 < capacity }
        ensures { (result.count ≡ 0) × (result.capacity ≡ capacity) }
    {
        EntryCursor {
            count: 0,
            entry: 0,
            capacity,
        }
    }

    /// Goes on by one item.
    pub fn advance(&mut self)
        requires { self.old.count + 1 < 2 ^ 64 }
        ensures { (self.new.count ≡ self.old.count + 1) × (self.new.capacity ≡ self.old.capacity) }
    {
        self.count += 1;
        self.entry = if self.entry + 1 < self.capacity {
            self.entry + 1
        } else {
            0
        };
    }
}
