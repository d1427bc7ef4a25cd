// A short list by value: what a book and a reading hold their parts in.
//
// A desk is opened, and answers, with no memory but what it is lent. So its lists are arrays with a count, and not
// vectors, which would want memory; and like the values that hold them they are copied, which a vector is not.
ghost use Rattle.std.specs.Prelude.{◌≡◌, ◌<◌, ◌≤◌, ⊤, length, is_some, IfSome, nat_le};

use std::alloc::AllocError;

// The first `count` of `all` are the items, at most `N`.
pub struct Listed<T, const N: usize> {
    pub all: [T; N],
    pub count: usize,
    ghost whole: { length all ≡ N },
    ghost few: { count ≤ N },
}

impl<T, const N: usize> Listed<T, N> {
    ghost use Rattle.taps.specs.Items.{items};

    pub fn new(all: [T; N], count: usize) -> Option<Listed<T, N>>
    where
        T: Copy,
        ensures test { is_some result ≡ nat_le count N }
        ensures value { IfSome result (λ l. (l.all ≡ all) × (l.count ≡ count)) }
    {
        if count > N {
            return None;
        }
        Some(Listed { all, count })
    }

    // All items of an array that has one at least, and no more than `N`.
    pub fn from_array<const M: usize>(list: [T; M]) -> Listed<T, N>
    where
        T: Copy,
        requires some { 0 < M }
        requires few { M ≤ N }
        ensures items { items result ≡ list }
        ensures count { result.count ≡ M }
    {
        let mut all = [list[0]; N];
        all[..M].copy_from_slice(&list);
        Listed { all, count: M }
    }

    pub fn as_slice(&self) -> &[T]
        ensures { result.now ≡ items self.now }
    {
        let all = self.all.as_slice();
        &all[..self.count]
    }
}

impl<T: Copy, const N: usize> Clone for Listed<T, N> {
    ghost is_clone = { λ list copy. copy ≡ list };

    ghost is_infallible = { λ _. ⊤ };

    fn clone(&self) -> Result<Listed<T, N>, AllocError> {
        Ok(*self)
    }
}

impl<T: Copy, const N: usize> Copy for Listed<T, N> {}
