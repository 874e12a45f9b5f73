// A value for each of 64 rows. The number of a row counts modulo 64, as in a word, so no function asks anything.
ghost use Rattle.std.specs.Prelude.{◌≡◌, ◌%◌, replicate, set, slice_index_or};

#[derive(Drop)]
pub(crate) struct ByRow<T> {
    of: [T; 64],
}

impl<T: Copy> ByRow<T> {
    pub(crate) fn all(x: T) -> ByRow<T>
        ensures { result.of ≡ replicate 64 x }
    {
        ByRow { of: [x; 64] }
    }

    pub(crate) fn at(&self, n: u8) -> T
        ensures { (other : _) → result ≡ slice_index_or self.now.of (n % 64) other }
    {
        self.of[(n % 64) as usize]
    }

    pub(crate) fn put(&mut self, n: u8, x: T)
        ensures { self.new.of ≡ set self.old.of (n % 64) x }
    {
        self.of[(n % 64) as usize] = x;
    }
}
