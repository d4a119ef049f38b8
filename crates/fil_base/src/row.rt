ghost use Rattle.std.specs.Prelude.{◌≡◌};

use std::marker::Model;

/// Items that contracts see as a list.
#[derive(Debug, Drop)]
pub struct Row<T> {
    inner: Vec<T>,
}

impl<T> Model for Row<T> {
    ghost use Rattle.std.specs.Prelude.{List};
    ghost use Rattle.std.specs.Coded.{coded_list};

    ghost Value = { List T };

    ghost coded = { coded_list T.code };

    ghost view = { λ row. row.inner.items };
}

impl<T> Row<T> {
    /// These items. It takes no memory.
    pub fn of(items: Vec<T>) -> Row<T>
        ensures { result ≡ items.items }
    {
        Row { inner: items }
    }

    pub fn as_slice(&self) -> &[T]
        ensures { result.now ≡ self.now }
    {
        self.inner.as_slice()
    }

    /// The vector that [`Row::of`] was given. It takes no memory.
    pub fn into_vec(self) -> Vec<T>
        ensures { result.items ≡ self }
    {
        let Row { inner } = self;
        inner
    }
}
