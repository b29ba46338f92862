// Which versions are kept.
ghost use Rattle.std.specs.Prelude.{◌≡◌};
ghost use Rattle.versions.specs.Kept.{kept};

use store::Store;

// Whether a version is there and at most the horizon before the newest.
pub fn is_kept(store: &Store, version: u64) -> bool
    ensures { result ≡ kept store.now.horizon store.now.entries version }
{
    version <= store.entries() && store.entries() <= version + store.horizon()
}
