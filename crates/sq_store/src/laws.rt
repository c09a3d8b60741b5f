// Laws of what a store contains.
ghost use Rattle.std.specs.Prelude.{◌≡◌, ◌↔◌, ◌≤◌, ◌&&◌, ℕ, List, None, IsTrue, All, nat_le, nat_lt, if◌then◌else◌};
ghost use Rattle.std.specs.FinMap.{get};
ghost use Rattle.sq_schema.specs.Prelude.{FamilyValue};
ghost use Rattle.sq_store.specs.StoreValue.{StoreValue, family_in, families_between, without_between, take_end, with_families, fold_of, folded_store, roots_differ, has_none_of};
ghost use Rattle.sq_store.specs.InOrder.{HoldsByRoot, are_within};
ghost use Rattle.sq_store.specs.Laws.{IsFullest, family_or};

/// The families between two root keys rise, and are exactly those that the store has at the root
/// keys in between.
pub fn takes_what_is_between()
    ensures rising { (store : StoreValue) (lo hi : ℕ) → HoldsByRoot store
        → IsTrue (are_within lo hi (families_between store lo hi)) }
    ensures each { (store : StoreValue) (lo hi root : ℕ) → HoldsByRoot store
        → family_in (families_between store lo hi) root
        ≡ (if nat_le lo root && nat_lt root hi then get store root else None) }
{}

/// Removing the families between two root keys changes nothing at any other root key.
pub fn keeps_what_is_not_between()
    ensures { (lo hi : ℕ) (store : StoreValue) (root : ℕ)
        → get (without_between store lo hi) root
        ≡ (if nat_le lo root && nat_lt root hi then None else get store root) }
{}

/// Adding families with different root keys puts each at its root key and changes nothing at any
/// other.
pub fn gets_what_it_is_given()
    ensures { (families : List FamilyValue) (store : StoreValue) (root : ℕ)
        → IsTrue (roots_differ families)
        → get (with_families store families) root
        ≡ family_or families root (get store root) }
{}

/// Folding the logs of a store restarts each family from its rows and drops the families without
/// rows.
pub fn folds_each_family()
    ensures { (store : StoreValue) (root : ℕ)
        → get (folded_store store) root ≡ fold_of (get store root) }
{}

/// Putting back what was taken out of a store restores it.
pub fn is_the_same_with_what_was_taken()
    ensures { (store : StoreValue) (lo hi : ℕ) → HoldsByRoot store
        → with_families (without_between store lo hi) (families_between store lo hi) ≡ store }
{}

/// Families that were taken may be given back: rising root keys differ, and the store no longer has
/// any of them.
pub fn has_none_of_what_was_taken()
    ensures differ { (families : List FamilyValue) (lo hi : ℕ) → IsTrue (are_within lo hi families)
        → IsTrue (roots_differ families) }
    ensures absent { (store : StoreValue) (lo hi : ℕ) → HoldsByRoot store
        → IsTrue (has_none_of (without_between store lo hi) (families_between store lo hi)) }
{}

/// A store has none of a list of families exactly if it has no family at any of their root keys.
pub fn has_none_of_absent_families()
    ensures { (store : StoreValue) (families : List FamilyValue)
        → IsTrue (has_none_of store families)
        ↔ All (λ family. get store family.root ≡ None) families }
{}

/// A cut takes as many families as fit, but at least one if there is one, and ends within its
/// extent.
pub fn takes_as_many_as_fit()
    ensures { (store : StoreValue) (lo hi limit : ℕ) → HoldsByRoot store → lo ≤ hi
        → (lo ≤ take_end store lo hi limit) × (take_end store lo hi limit ≤ hi)
        × IsFullest store lo hi limit (take_end store lo hi limit) }
{}
