// The search among rows whose keys rise.
ghost use Rattle.std.specs.Prelude.{◌≡◌, ℕ, true, map};
ghost use Rattle.catalogue.specs.Search.{first_where, rising};
ghost use Rattle.catalogue.specs.Inner.{key_is};

// A row with a key of its own.
pub(crate) trait Row {
    ghost key: { Self → ℕ };

    fn key(&self) -> u32
        ensures { result ≡ key self.now };
}

// The row with a key. A search of our own: std's binary search has no branches, so that each of its steps waits for the load before it,
// and with it the report of one layout misses its target.
pub(crate) fn row_with<R: Row + Copy>(rows: &[R], key: u32) -> Option<R>
    requires { rising (map R.key rows.now) ≡ true }
    ensures { result ≡ first_where (λ r. key_is key (R.key r)) rows.now }
{
    let mut low: usize = 0;
    let mut high = rows.len();
    while low < high {
        let mid = low + (high - low) / 2;
        let row = rows[mid];
        let found = row.key();
        if found == key {
            return Some(row);
        }
        if found < key {
            low = mid + 1;
        } else {
            high = mid;
        }
    }
    None
}
