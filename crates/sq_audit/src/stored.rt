// The families of a store, one after another.
ghost use Rattle.std.specs.Prelude.{◌≡◌, None, IfSome, IfNone};
ghost use Rattle.sq_gather.specs.Prelude.{HoldsByRoot, family_from};
ghost use Rattle.sq_audit.specs.Located.{IsNextFamily};

use sq_gather::{Family, FamilyStore, SlabStore};

/// Returns the family in `store` with the least root key of at least `at`, and the number after its
/// root key.
pub(crate) fn next_family(store: &SlabStore, at: u64) -> Option<(&Family, u64)>
    ensures some { IfSome result (λ found. IsNextFamily store.now at found.0.now found.1) }
    ensures none { IfNone result (family_from store.now at ≡ None) }
    ensures rooted { HoldsByRoot store.now }
{
    let Some(family) = store.walk(at) else {
        return None;
    };
    // For the proof alone: the log belongs to the family's own root key, as every family's does.
    family.position();
    Some((family, family.root().number() + 1))
}
