// Lists whose elements contracts see.
ghost use Rattle.std.specs.Prelude.{◌≡◌};

use std::marker::Model;

/// A list. Contracts see the list itself.
#[derive(Drop)]
pub struct Items<T> {
    items: Vec<T>,
}

impl<T> Model for Items<T> {
    ghost use Rattle.std.specs.Prelude.{List};

    ghost Value = { List T };

    ghost view = { λ v. v.items.items };
}

impl<T> From<Vec<T>> for Items<T> {
    ghost from_gives = { λ v list. list ≡ v.items };

    fn from(items: Vec<T>) -> Items<T> {
        Items { items }
    }
}

impl<T> Items<T> {
    pub fn as_slice(&self) -> &[T]
        ensures { result.now ≡ self.now }
    {
        &self.items
    }
}
