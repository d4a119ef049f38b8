ghost use Rattle.std.specs.Prelude.{◌≡◌, ◌+◌, ◌<◌, ◌≤◌, ◌^◌, ◌++◌, [], IfOk, List, OnOk, ℕ, length};
ghost use Rattle.dag_cbor.specs.Spelling.{joined};
ghost use Rattle.amt_map.specs.NodeText.{node_text};

use fil_base::Mem;
use std::alloc::Global;

/// The room that is made at first for the spellings of a node, in bytes. Eight links or actors' records need no more.
const USUAL_LEN: usize = 1024;

/// What stands at the digits of a node: links or values.
#[derive(Drop)]
pub(crate) struct Slots {
    /// The bit of each digit at which something stands, that of digit 0 the lowest.
    pub(crate) bitmap: u8,

    /// How many stand.
    pub(crate) count: u8,

    /// Their spellings, one after another.
    pub(crate) spellings: Vec<u8>,
}

impl Slots {
    /// Nothing at each digit.
    pub(crate) fn none(alloc: Global) -> Mem<Slots>
        ensures bitmap { IfOk result (λ slots. slots.bitmap ≡ 0) }
        ensures count { IfOk result (λ slots. slots.count ≡ 0) }
        ensures spellings { IfOk result (λ slots. slots.spellings.items ≡ []) }
    {
        let spellings = Vec::with_capacity(alloc, USUAL_LEN)?;
        Ok(Slots {
            bitmap: 0,
            count: 0,
            spellings,
        })
    }

    /// Puts what is spelled so at a digit at which nothing stands, above the others.
    pub(crate) fn put(&mut self, digit: u64, spelling: &[u8]) -> Mem<()>
        requires digit { digit < 8 }
        requires bitmap { self.old.bitmap + 2 ^ digit < 2 ^ 8 }
        requires count { self.old.count < 8 }
        ensures bitmap { OnOk result (self.new.bitmap ≡ self.old.bitmap + 2 ^ digit) }
        ensures count { OnOk result (self.new.count ≡ self.old.count + 1) }
        ensures spellings { OnOk result (self.new.spellings.items ≡ self.old.spellings.items ++ spelling.now) }
    {
        self.spellings.extend_from_slice(spelling)?;
        self.bitmap += 1 << digit;
        self.count += 1;
        Ok(())
    }

    /// The node that has these values.
    pub(crate) fn leaf(&self, alloc: Global) -> Mem<Vec<u8>>
        requires { self.now.count ≤ 8 }
        ensures { (values : List (List ℕ)) → self.now.count ≡ length values → self.now.spellings.items ≡ joined values
            → IfOk result (λ bytes. bytes.items ≡ node_text self.now.bitmap [] values) }
    {
        let mut bytes = Vec::with_capacity(alloc, 5 + self.spellings.len())?;
        bytes.extend_from_slice(&[0x83, 0x41, self.bitmap, 0x80, 0x80 + self.count])?;
        bytes.extend_from_slice(self.spellings.as_slice())?;
        Ok(bytes)
    }

    /// The node that has these links.
    pub(crate) fn inner_node(&self, alloc: Global) -> Mem<Vec<u8>>
        requires { self.now.count ≤ 8 }
        ensures { (links : List (List ℕ)) → self.now.count ≡ length links → self.now.spellings.items ≡ joined links
            → IfOk result (λ bytes. bytes.items ≡ node_text self.now.bitmap links []) }
    {
        let mut bytes = Vec::with_capacity(alloc, 5 + self.spellings.len())?;
        bytes.extend_from_slice(&[0x83, 0x41, self.bitmap, 0x80 + self.count])?;
        bytes.extend_from_slice(self.spellings.as_slice())?;
        bytes.push(0x80)?;
        Ok(bytes)
    }
}
