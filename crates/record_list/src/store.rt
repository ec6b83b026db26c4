// Records of zeros.
ghost use Rattle.std.specs.Prelude.{◌≡◌};
ghost use Rattle.record.specs.Meaning.{zero_store};

use record::store::Store;

// The record that a refused start hands out, and an accepted one fills.
pub fn zeros() -> Store
    ensures { result ≡ zero_store }
{
    Store::default()
}
