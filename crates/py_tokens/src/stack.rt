ghost use Rattle.std.specs.Prelude.{◌≡◌, ◌==◌, length, [], ◌∷◌, OnOk};
ghost use Rattle.spec_tokens.specs.Lines.{without_first};
ghost use Rattle.py_tokens.specs.Steps.{first_item};

use std::alloc::Global;
use std::marker::Model;
use xh_outside::NoMemory;

/// Items of which the last one that was pushed comes first.
#[derive(Drop)]
pub(crate) struct Stack<T: Copy> {
    items: Vec<T>,
}

impl<T: Copy> Model for Stack<T> {
    ghost use Rattle.std.specs.Prelude.{List, reverse};

    ghost Value = { List T };

    ghost view = { λ s. reverse s.items.items };
}

impl<T: Copy> Stack<T> {
    /// No items. It takes no memory yet.
    pub fn new(alloc: Global) -> Self
        ensures { result ≡ [] }
    {
        Stack {
            items: Vec::new(alloc),
        }
    }

    pub fn is_empty(&self) -> bool
        ensures { result ≡ (length self.now == 0) }
    {
        self.items.is_empty()
    }

    /// The number of items.
    pub fn len(&self) -> usize
        ensures { result ≡ length self.now }
    {
        self.items.len()
    }

    pub fn push(&mut self, item: T) -> Result<(), NoMemory>
        ensures { OnOk result (self.new ≡ item ∷ self.old) }
    {
        self.items.push(item)?;
        Ok(())
    }

    /// The item that was pushed last.
    pub fn first(&self) -> Option<T>
        ensures { result ≡ first_item self.now }
    {
        self.items.last().copied()
    }

    /// Takes the item off that was pushed last, where there is one.
    pub fn pop(&mut self)
        ensures { self.new ≡ without_first self.old }
    {
        self.items.pop();
    }
}
