ghost use Rattle.std.specs.Prelude.{◌≡◌, ◌≤◌, ◌∷◌, [], ◌++◌, IfErr, IfOk, MatchResult, length, Ok, Err};
ghost use Rattle.wasm_check.specs.Machine.{Leaves};
ghost use Rattle.wasm_check.specs.Operands.{no_operands, behind_jump, lacks as lacks_of, is_like as is_like_of, common as common_of, fitted, is_bare as is_bare_of, operand_at, taken, dropped, selected, ended, with_operand, without};

use crate::fault::CheckKind;
use crate::results::{is_same_value, list_of};
use fil_base::Mem;
use std::alloc::Global;
use std::marker::Model;
use wasm_types::ValType;

/// The operands of a block that is open. Where the code is not reached, operands of any type lie below those kept.
#[derive(Debug, Drop)]
pub struct Operands {
    kept: Vec<Option<ValType>>,
    reached: bool,
}

impl Model for Operands {
    ghost use Rattle.std.specs.Prelude.{reverse};
    ghost use Rattle.wasm_check.specs.Operands.{OperandStack};

    ghost Value = { OperandStack };

    ghost view = { λ operands. record { kept = reverse operands.kept.items; reached = operands.reached } };
}

impl Operands {
    /// Those at the beginning of a block.
    pub fn new(alloc: Global) -> Operands
        ensures { result ≡ no_operands }
    {
        Operands {
            kept: Vec::new(alloc),
            reached: true,
        }
    }

    /// How many are kept.
    pub fn count(&self) -> usize
        ensures { result ≡ length self.now.kept }
    {
        self.kept.len()
    }

    /// Whether there are fewer than so many.
    pub fn lacks(&self, count: usize) -> bool
        ensures { result ≡ lacks_of count self.now }
    {
        self.reached && self.kept.len() < count
    }

    // Whether none is kept.
    fn is_bare(&self) -> bool
        ensures { result ≡ is_bare_of self.now }
    {
        self.kept.is_empty()
    }

    /// Puts one on top.
    pub fn push(&mut self, operand: Option<ValType>) -> Mem<()>
        ensures pushed { IfOk result (λ _. self.new ≡ with_operand operand self.old) }
        ensures unchanged { IfErr result (λ _. self.new ≡ self.old) }
    {
        self.kept.push(operand)?;
        Ok(())
    }

    // Takes the topmost one, of any type where none is kept.
    fn pop(&mut self) -> Option<ValType>
        ensures value { result ≡ operand_at 0 self.old }
        ensures rest { self.new ≡ without 1 self.old }
    {
        match self.kept.pop() {
            None => None,
            Some(operand) => operand,
        }
    }

    /// Takes operands of these types, and before them those that lie above them.
    pub fn take(&mut self, types: &[ValType], above: &[ValType]) -> Result<(), CheckKind>
        ensures taken { Leaves result self.new (taken (types.now ++ above.now) self.old) }
        ensures shrinks { length self.new.kept ≤ length self.old.kept }
    {
        if self.lacks(types.len() + above.len()) {
            return Err(CheckKind::Underflow);
        }
        self.take_each(above)?;
        self.take_each(types)
    }

    // Takes operands of these types, as many of them as are kept.
    fn take_each(&mut self, types: &[ValType]) -> Result<(), CheckKind>
        ensures taken { Leaves result self.new (fitted types.now self.old) }
        ensures shrinks { length self.new.kept ≤ length self.old.kept }
    {
        for taken in 0..types.len() {
            self.take_one(types[types.len() - 1 - taken])?;
        }
        Ok(())
    }

    // Takes an operand of this type, if one is kept.
    fn take_one(&mut self, wanted: ValType) -> Result<(), CheckKind>
        ensures taken { Leaves result self.new (fitted (wanted ∷ []) self.old) }
        ensures shrinks { length self.new.kept ≤ length self.old.kept }
    {
        if is_like(wanted, self.pop()) {
            Ok(())
        } else {
            Err(CheckKind::TypeMismatch)
        }
    }

    /// Takes one of any type.
    pub fn drop_one(&mut self) -> Result<(), CheckKind>
        ensures taken { Leaves result self.new (dropped self.old) }
        ensures shrinks { length self.new.kept ≤ length self.old.kept }
    {
        if self.lacks(1) {
            return Err(CheckKind::Underflow);
        }
        let _any = self.pop();
        Ok(())
    }

    /// Takes a condition and two operands of one type, and tells what is to be put in their place.
    pub fn select(&mut self) -> Result<Option<ValType>, CheckKind>
        ensures taken { MatchResult result
            (λ operand. selected self.old ≡ Ok (with_operand operand self.new))
            (λ kind. selected self.old ≡ Err kind) }
        ensures shrinks { length self.new.kept ≤ length self.old.kept }
    {
        if self.lacks(3) {
            return Err(CheckKind::Underflow);
        }
        let condition = self.pop();
        let second = self.pop();
        let first = self.pop();
        if !is_like(ValType::I32, condition) {
            return Err(CheckKind::TypeMismatch);
        }
        common(second, first)
    }

    /// Those at the beginning of a block once more.
    pub fn restart(&mut self)
        ensures { self.new ≡ no_operands }
    {
        self.kept.clear();
        self.reached = true;
    }

    /// What is written behind a jump is not reached.
    pub fn jump(&mut self)
        ensures { self.new ≡ behind_jump }
    {
        self.kept.clear();
        self.reached = false;
    }

    /// Takes the result of the block, at its end: there are no other operands.
    pub fn end(&mut self, result_type: Option<ValType>) -> Result<(), CheckKind>
        ensures taken { Leaves result self.new (ended result_type self.old) }
        ensures shrinks { length self.new.kept ≤ length self.old.kept }
    {
        self.take(list_of(result_type), &[])?;
        if self.is_bare() {
            Ok(())
        } else {
            Err(CheckKind::TypeMismatch)
        }
    }
}

// Whether an operand can have the type.
fn is_like(wanted: ValType, operand: Option<ValType>) -> bool
    ensures { result ≡ is_like_of wanted operand }
{
    match operand {
        None => true,
        Some(given) => is_same_value(wanted, given),
    }
}

// What two operands are that can have one type.
fn common(one: Option<ValType>, other: Option<ValType>) -> Result<Option<ValType>, CheckKind>
    ensures { result ≡ common_of one other }
{
    match (one, other) {
        (None, _) => Ok(other),
        (Some(_), None) => Ok(one),
        (Some(first), Some(second)) => {
            if is_same_value(first, second) {
                Ok(one)
            } else {
                Err(CheckKind::TypeMismatch)
            }
        }
    }
}
