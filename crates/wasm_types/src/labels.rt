ghost use Rattle.std.specs.Prelude.{◌≡◌, IfOk};

use fil_base::{Mem, Row};
use std::alloc::Global;
use std::marker::Model;

/// The labels of a `br_table` but for the default one. They stand behind one pointer, so that an instruction stays small.
#[derive(Debug, Drop)]
pub struct Labels {
    inner: Box<Row<u32>>,
}

impl Model for Labels {
    ghost use Rattle.std.specs.Prelude.{List, ℕ};

    ghost Value = { List ℕ };

    ghost view = { λ labels. labels.inner.value };
}

impl Labels {
    /// These labels.
    pub fn new(alloc: Global, labels: Row<u32>) -> Mem<Labels>
        ensures { IfOk result (λ made. made ≡ labels) }
    {
        let inner = Box::new(alloc, labels)?;
        Ok(Labels { inner })
    }

    pub fn as_slice(&self) -> &[u32]
        ensures { result.now ≡ self.now }
    {
        self.inner.as_slice()
    }
}
