// At most N of something, held in place.
ghost use Rattle.std.specs.Prelude.{◌≡◌, ◌≤◌, length};

use std::alloc::AllocError;

pub struct Few<T, const N: usize> {
    items: [T; N],
    count: usize,
    ghost whole: { length items ≡ N },
    ghost few: { count ≤ N },
}

impl<T, const N: usize> Few<T, N> {
    ghost use Rattle.std.specs.Prelude.{◌↔◌, IsTrue, []};
    ghost use Rattle.catalog.specs.Few.{standing};

    pub fn as_slice(&self) -> &[T]
        ensures { result.now ≡ standing self.now }
    {
        &self.items[..self.count]
    }

    pub fn len(&self) -> usize
        ensures { result ≡ length (standing self.now) }
    {
        self.as_slice().len()
    }

    pub fn is_empty(&self) -> bool
        ensures { IsTrue result ↔ (standing self.now ≡ []) }
    {
        self.as_slice().is_empty()
    }
}

impl<T: Copy, const N: usize> Few<T, N> {
    ghost use Rattle.std.specs.Prelude.{◌<◌, [], ◌∷◌, ◌++◌, MatchOption};
    ghost use Rattle.catalog.specs.Few.{standing};

    // None yet; `unused` lies in the places that are free.
    pub fn new(unused: T) -> Few<T, N>
        ensures { standing result ≡ [] }
    {
        Few {
            items: [unused; N],
            count: 0,
        }
    }

    // Nothing where there are more than N.
    pub fn from_slice(items: &[T], unused: T) -> Option<Few<T, N>>
        ensures { MatchOption result (N < length items.now) (λ few. standing few ≡ items.now) }
    {
        let count = items.len();
        if count > N {
            return None;
        }
        let mut places = [unused; N];
        places[..count].copy_from_slice(items);
        Some(Few {
            items: places,
            count,
        })
    }

    // Nothing, and no change, where N stand already.
    pub fn push(&mut self, item: T) -> Option<()>
        ensures { MatchOption result ((length (standing self.old) ≡ N) × (self.new ≡ self.old)) (λ _. standing self.new ≡ standing self.old ++ item ∷ []) }
    {
        if self.count == N {
            return None;
        }
        self.items[self.count] = item;
        self.count += 1;
        Some(())
    }
}

impl<T: Copy, const N: usize> Clone for Few<T, N> {
    ghost use Rattle.std.specs.Prelude.{⊤};

    ghost is_clone = { λ a b. b ≡ a };

    ghost is_infallible = { λ _. ⊤ };

    fn clone(&self) -> Result<Few<T, N>, AllocError> {
        Ok(*self)
    }
}

impl<T: Copy, const N: usize> Copy for Few<T, N> {}

// Those that stand are compared, and not the unused places.
impl<T: PartialEq, const N: usize> PartialEq for Few<T, N> {
    ghost use Rattle.std.specs.Cmp.{on_per};
    ghost use Rattle.std.specs.Cmp.Lexicographic.{lists_per, pointwise};
    ghost use Rattle.catalog.specs.Few.{standing};

    ghost eq = { λ a b. pointwise T.eq (standing a) (standing b) };

    ghost laws = { on_per standing (lists_per T.laws) };

    fn eq(&self, other: &Few<T, N>) -> bool {
        self.as_slice() == other.as_slice()
    }
}

impl<T: Eq, const N: usize> Eq for Few<T, N> {
    ghost use Rattle.std.specs.Cmp.{on_equiv};
    ghost use Rattle.std.specs.Cmp.Lexicographic.{lists_equiv};
    ghost use Rattle.catalog.specs.Few.{standing};

    ghost laws = { on_equiv standing (lists_equiv T.Eq.laws) };
}
