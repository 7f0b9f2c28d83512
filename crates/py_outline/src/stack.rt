ghost use Rattle.std.specs.Prelude.{◌≡◌, ◌-◌, [], ◌∷◌, length, drop, OnOk, OnErr};
ghost use Rattle.py_outline.specs.Lists.{first_item, without_first, with_first};

use std::alloc::Global;
use std::marker::Model;
use xh_outside::NoMemory;

/// Items of which the last one that was pushed comes first.
#[derive(Drop)]
pub(crate) struct Stack<T: Copy> {
    items: Vec<T>,
}

impl<T: Copy> Model for Stack<T> {
    ghost use Rattle.std.specs.Prelude.{List, reverse};

    ghost Value = { List T };

    ghost view = { λ s. reverse s.items.items };
}

impl<T: Copy> Stack<T> {
    /// No items. It takes no memory yet.
    pub fn new(alloc: Global) -> Self
        ensures { result ≡ [] }
    {
        Stack {
            items: Vec::new(alloc),
        }
    }

    /// The number of items.
    pub fn len(&self) -> usize
        ensures { result ≡ length self.now }
    {
        self.items.len()
    }

    /// Where there is no memory for the item, the stack stays as it was.
    pub fn push(&mut self, item: T) -> Result<(), NoMemory>
        ensures ok { OnOk result (self.new ≡ item ∷ self.old) }
        ensures err { OnErr result (self.new ≡ self.old) }
    {
        self.items.push(item)?;
        Ok(())
    }

    /// The item that was pushed last.
    pub fn first(&self) -> Option<T>
        ensures { result ≡ first_item self.now }
    {
        self.items.last().copied()
    }

    /// Takes the item off that was pushed last, where there is one.
    pub fn pop(&mut self)
        ensures { self.new ≡ without_first self.old }
    {
        self.items.pop();
    }

    /// Takes items off, where there are more than `len`, until there are as many.
    pub fn shorten(&mut self, len: usize)
        ensures { self.new ≡ drop (length self.old - len) self.old }
    {
        self.items.truncate(len);
    }

    /// Puts another item in place of the one that was pushed last, where there is one.
    pub fn replace_first(&mut self, item: T)
        ensures { self.new ≡ with_first item self.old }
    {
        if let Some(last) = self.items.len().checked_sub(1) {
            self.items[last] = item;
        }
    }
}
