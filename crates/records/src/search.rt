//! The search for a row by its key, the same for every table.

ghost use Rattle.std.specs.Prelude.{◌≡◌, ◌<◌, Bool, length, IfSome};
ghost use Rattle.records.specs.Tables.{place};

/// A row that is found by a key of the type `K`.
pub trait Keyed<K> {
    ghost fits: { K → Self → Bool };

    fn has_key(&self, key: &K) -> bool
        ensures tells_its_key { result ≡ fits key.now self.now };
}

/// Where the first row with the key stands.
pub fn position<K, T: Keyed<K>>(rows: &[T], key: &K) -> Option<usize>
    ensures first_match { result ≡ place (T.Keyed.fits key.now) rows.now }
    ensures within { IfSome result (λ i. i < length rows.now) }
{
    rows.iter().position(|row| row.has_key(key))
}
