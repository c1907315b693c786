// Key kinds and stores.
ghost use Rattle.std.specs.Prelude.{◌≡◌, ℕ, suc, ◌<◌, ◌≤◌, Bool, true, false, List, length, is_some, if◌then◌else◌, Some, None, Ok, Err};
ghost use Rattle.stores.specs.Pairs.{Kept, look, turned, full, more};
ghost use Rattle.std.specs.Option.{unwrap_or};

use crate::fault::StoreFault;

pub trait Key {
    ghost alike: { Self → Self → Bool };

    ghost bucket: { Self → ℕ };

    fn same(&self, other: &Self) -> bool
        ensures { result ≡ alike self.now other.now };

    fn hash(&self) -> usize
        ensures { result ≡ bucket self.now };

    ghost reflexive: { (x : Self) → alike x x ≡ true };

    ghost symmetric: { (x y : Self) → alike x y ≡ true → alike y x ≡ true };

    ghost transitive: { (x y z : Self) → alike x y ≡ true → alike y z ≡ true → alike x z ≡ true };

    ghost small: { (x : Self) → bucket x < 16 };

    ghost shared: { (x y : Self) → alike x y ≡ true → bucket x ≡ bucket y };
}

pub trait Store<K: Key, V> {
    ghost pairs: { Self → List (K × V) };

    ghost capacity: { Self → ℕ };

    // what no type of the store's own can keep; each making gives it, each call keeps it
    ghost sound: { Self → Type 0 };

    fn put(&mut self, k: K, v: V) -> Result<(), StoreFault>
        ensures sound { sound self.old → sound self.new }
        ensures capacity { capacity self.new ≡ capacity self.old }
        ensures answer { sound self.old → result ≡ (if full K.Key.alike (pairs self.old) (capacity self.old) k then Err StoreFault.Full else Ok tt) }
        ensures refusal { sound self.old → full K.Key.alike (pairs self.old) (capacity self.old) k ≡ true → self.new ≡ self.old }
        ensures found { sound self.old → full K.Key.alike (pairs self.old) (capacity self.old) k ≡ false → (q : K) → look K.Key.alike (pairs self.new) q ≡ turned K.Key.alike (look K.Key.alike (pairs self.old)) k (Some v) q }
        ensures many { sound self.old → full K.Key.alike (pairs self.old) (capacity self.old) k ≡ false → length (pairs self.new) ≡ more (is_some (look K.Key.alike (pairs self.old) k)) (length (pairs self.old)) };

    // By the rules the value goes to the caller's place, which stays as it was where there is none: so no Option of a value.
    fn get(&self, k: &K, place: &mut V) -> bool
        ensures kept { sound self.now → Kept K.Key.alike (pairs self.now) (capacity self.now) }
        ensures answer { sound self.now → result ≡ is_some (look K.Key.alike (pairs self.now) k.now) }
        ensures place { sound self.now → place.new ≡ unwrap_or (look K.Key.alike (pairs self.now) k.now) place.old };

    fn drop_pair(&mut self, k: &K) -> bool
        ensures sound { sound self.old → sound self.new }
        ensures capacity { capacity self.new ≡ capacity self.old }
        ensures answer { sound self.old → result ≡ is_some (look K.Key.alike (pairs self.old) k.now) }
        ensures refusal { sound self.old → result ≡ false → self.new ≡ self.old }
        ensures found { sound self.old → (q : K) → look K.Key.alike (pairs self.new) q ≡ turned K.Key.alike (look K.Key.alike (pairs self.old)) k.now None q }
        ensures many { sound self.old → more result (length (pairs self.old)) ≡ suc (length (pairs self.new)) };
}
