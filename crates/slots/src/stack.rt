// Slots that the host lends, the first `used` of which hold the items. They grow at their end, and are emptied at once.
ghost use Rattle.std.specs.Prelude.{◌≡◌, [], length};
ghost use Rattle.slots.specs.Stack.{Pushed, slots_lent};

use std::marker::Model;

#[derive(Drop)]
pub struct Stack<'a, T> {
    slots: &'a mut [T],
    used: usize,
}

impl<'a, T> Model for Stack<'a, T> {
    ghost use Rattle.std.specs.Prelude.{◌≤◌, ◌-◌, length, take};
    ghost use Rattle.slots.specs.Stack.{LentItems};

    ghost Value = { LentItems T };

    ghost view = { λ t. record { items = take t.used t.slots.now; free = length t.slots.now - t.used } };

    ghost invariant = { λ t. t.used ≤ length t.slots.now };
}

impl<'a, T: Copy> Stack<'a, T> {
    // No items, whatever the slots held before.
    pub fn new(slots: &'a mut [T]) -> Stack<'a, T>
        ensures { result ≡ record { items = []; free = length slots.old } }
    {
        Stack { slots, used: 0 }
    }

    pub fn as_slice(&self) -> &[T]
        ensures { result.now ≡ self.now.items }
    {
        &self.slots[..self.used]
    }

    pub fn len(&self) -> usize
        ensures { result ≡ length self.now.items }
    {
        self.used
    }

    // How many slots are lent.
    pub fn capacity(&self) -> usize
        ensures { result ≡ slots_lent self.now }
    {
        self.slots.len()
    }

    // Nothing, and no change, where no slot is free.
    pub fn push(&mut self, item: T) -> Option<()>
        ensures { Pushed self.old item result self.new }
    {
        if self.used == self.slots.len() {
            return None;
        }
        self.slots[self.used] = item;
        self.used += 1;
        Some(())
    }

    pub fn clear(&mut self)
        ensures { self.new ≡ record { items = []; free = slots_lent self.old } }
    {
        self.used = 0;
    }
}
