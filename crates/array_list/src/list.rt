// The list and its calls.
ghost use Rattle.array_list.specs.Items.{items, pushed};
ghost use Rattle.std.specs.Option.{option_map};
ghost use Rattle.std.specs.List.{slice_get};
ghost use Rattle.std.specs.Prelude.{◌≡◌, ◌<◌, ◌≤◌, [], ◌∷◌, ◌++◌, length};

// It has no proved invariant, so that a copy of it can be derived: every call cuts the length to N.
#[derive(Clone, Copy)]
pub struct ArrayVec<T: Copy, const N: usize> {
    slots: [T; N],
    len: usize,
}

impl<T: Copy, const N: usize> ArrayVec<T, N> {
    // An empty list; `filler` stands in the slots that nothing reads.
    pub fn new(filler: T) -> ArrayVec<T, N>
        ensures { items result ≡ [] }
    {
        ArrayVec {
            slots: [filler; N],
            len: 0,
        }
    }

    // How many values it holds.
    pub fn len(&self) -> usize
        ensures value { result ≡ length (items self.now) }
        ensures few { result ≤ N }
    {
        self.as_slice().len()
    }

    // The values, first to last.
    pub fn as_slice(&self) -> &[T]
        ensures value { result.now ≡ items self.now }
        ensures few { length result.now ≤ N }
    {
        let slots = &self.slots[..];
        &slots[0..self.len.min(N)]
    }

    // The value with so many before it.
    pub fn get(&self, i: usize) -> Option<&T>
        ensures { option_map (λ x. x.now) result ≡ slice_get (items self.now) i }
    {
        self.as_slice().get(i)
    }

    // One value more at the end; where N are held, it is not taken.
    pub fn push(&mut self, value: T)
        ensures value { items self.new ≡ pushed N (items self.old) value }
        ensures room { length (items self.old) < N → items self.new ≡ items self.old ++ value ∷ [] }
    {
        let slots = &self.slots[..];
        if self.len < slots.len() {
            self.slots[self.len] = value;
            self.len += 1;
        }
    }
}

impl<T: Copy + Default, const N: usize> Default for ArrayVec<T, N> {
    fn default() -> Self
        ensures { items result ≡ [] }
    {
        ArrayVec::new(T::default())
    }
}
