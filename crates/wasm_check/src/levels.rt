ghost use Rattle.std.specs.Prelude.{◌≡◌, ◌∷◌, [], ◌++◌, map, ok_or, slice_get, Err, IfOk, MatchResult};
ghost use Rattle.wasm_check.specs.declared.fault.CheckKind.TheVariants as kinds;
ghost use Rattle.wasm_check.specs.Machine.{acted, begun, closed_in, else_in, ended_at_top, IsNestable, IsTooDeep, label_of as label_of_level, LeavesOrNoMemory, opened_in, opened_if_in, operands_of, raised, result_at_end};
ghost use Rattle.wasm_check.specs.Operands.{with_operand, with_result};
ghost use Rattle.wasm_check.specs.Effects.{moves, leaves, disagrees, drops, selects};

use crate::fault::CheckKind;
use crate::limits::{MOST_HEIGHT, MOST_NESTING};
use crate::operands::Operands;
use fil_base::{Failure, Mem};
use std::alloc::Global;
use std::marker::Model;
use std::mem;
use wasm_types::ValType;

/// What kind of block is open.
#[derive(Clone, Copy, Debug, PartialEq, Eq)]
pub enum LevelKind {
    /// A `block`, the part of an `if` behind `else`, or the body itself.
    Block,

    Loop,

    /// An `if` up to its `else` or its `end`.
    If,
}

/// A block that is open.
#[derive(Debug, Drop)]
pub struct Level {
    pub kind: LevelKind,
    pub result_type: Option<ValType>,
    pub operands: Operands,
}

impl Level {
    // One that begins.
    fn new(alloc: Global, kind: LevelKind, result_type: Option<ValType>) -> Level
        ensures { result ≡ begun kind result_type }
    {
        Level {
            kind,
            result_type,
            operands: Operands::new(alloc),
        }
    }

    // What its label asks for.
    fn label_type(&self) -> Option<ValType>
        ensures { result ≡ label_of_level self.now }
    {
        match self.kind {
            LevelKind::Loop => None,
            LevelKind::Block | LevelKind::If => self.result_type,
        }
    }

    // Takes its result at its end.
    fn end(mut self) -> Result<Option<ValType>, CheckKind>
        ensures { result ≡ result_at_end self }
    {
        if self.kind == LevelKind::If && self.result_type.is_some() {
            return Err(CheckKind::Underflow);
        }
        self.operands.end(self.result_type)?;
        Ok(self.result_type)
    }
}

/// The blocks that are open in a body, the innermost first, of which the last one is the body itself.
#[derive(Debug, Drop)]
pub struct Levels {
    current: Level,
    outer: Vec<Level>,

    /// How many operands the outer ones have.
    below: usize,
}

impl Model for Levels {
    ghost use Rattle.std.specs.Prelude.{◌≡◌, ◌≤◌, ◌+◌, ◌∷◌, List, length, reverse};
    ghost use Rattle.wasm_check.specs.declared.levels.Level.{Level};
    ghost use Rattle.wasm_check.specs.declared.limits.TheConstants.{MOST_HEIGHT};
    ghost use Rattle.wasm_check.specs.Machine.{height_of};

    ghost Value = { List Level };

    ghost view = { λ levels. levels.current ∷ reverse levels.outer.items };

    ghost invariant = { λ levels. (levels.below ≡ height_of (reverse levels.outer.items))
        × (length levels.current.operands.kept + levels.below ≤ MOST_HEIGHT) };
}

impl Levels {
    /// At the beginning of a body with this result.
    pub fn new(alloc: Global, result_type: Option<ValType>) -> Levels
        ensures { result ≡ begun LevelKind.Block result_type ∷ [] }
    {
        Levels {
            current: Level::new(alloc, LevelKind::Block, result_type),
            outer: Vec::new(alloc),
            below: 0,
        }
    }

    /// What the label of this number asks for.
    pub fn label(&self, label: u32) -> Result<Option<ValType>, CheckKind>
        ensures { result ≡ ok_or (slice_get (map label_of_level self.now) label) kinds.Label }
    {
        let depth = label as usize;
        if depth == 0 {
            return Ok(self.current.label_type());
        }
        if depth > self.outer.len() {
            return Err(CheckKind::Label);
        }
        Ok(self.outer[self.outer.len() - depth].label_type())
    }

    /// Opens a `block` or a `loop`.
    pub fn open(
        &mut self,
        alloc: Global,
        kind: LevelKind,
        result_type: Option<ValType>,
    ) -> Result<(), Failure<CheckKind>>
        ensures { LeavesOrNoMemory result self.new (opened_in kind result_type self.old) }
    {
        // The proof knows by a field that a block is open.
        let _ = &self.current;
        self.may_nest()?;
        self.enter(alloc, kind, result_type)?;
        Ok(())
    }

    /// Opens an `if`, which takes its condition.
    pub fn open_if(
        &mut self,
        alloc: Global,
        result_type: Option<ValType>,
    ) -> Result<(), Failure<CheckKind>>
        ensures { LeavesOrNoMemory result self.new (opened_if_in result_type self.old) }
    {
        self.may_nest()?;
        self.current.operands.take(&[ValType::I32], &[])?;
        self.enter(alloc, LevelKind::If, result_type)?;
        Ok(())
    }

    // One block more may be open.
    fn may_nest(&self) -> Result<(), CheckKind>
        ensures { MatchResult result (λ _. IsNestable self.now) (λ kind. IsTooDeep kind self.now) }
    {
        if self.outer.len() >= MOST_NESTING {
            Err(CheckKind::Nesting)
        } else {
            Ok(())
        }
    }

    // Goes into a block.
    fn enter(&mut self, alloc: Global, kind: LevelKind, result_type: Option<ValType>) -> Mem<()>
        ensures { IfOk result (λ _. self.new ≡ begun kind result_type ∷ self.old) }
    {
        let below = self.below + self.current.operands.count();
        let parent = mem::replace(&mut self.current, Level::new(alloc, kind, result_type));
        self.outer.push(parent)?;
        self.below = below;
        Ok(())
    }

    /// Begins the part behind `else`.
    pub fn begin_else(&mut self) -> Result<(), Failure<CheckKind>>
        ensures { LeavesOrNoMemory result self.new (else_in self.old) }
    {
        let result_type = self.current.result_type;
        self.current.operands.end(result_type)?;
        self.current.operands.restart();
        self.current.kind = LevelKind::Block;
        Ok(())
    }

    /// Ends the innermost block, and gives its result to the one around it. The outermost stays.
    pub fn close(&mut self) -> Result<(), Failure<CheckKind>>
        ensures { LeavesOrNoMemory result self.new (closed_in self.old) }
    {
        let Some(parent) = self.outer.pop() else {
            return Ok(());
        };
        let level = mem::replace(&mut self.current, parent);
        self.below -= self.current.operands.count();
        let result_type = level.end()?;
        self.give(result_type)
    }

    /// Takes the result of the body at its end.
    pub fn end(&mut self) -> Result<(), Failure<CheckKind>>
        ensures { LeavesOrNoMemory result self.new (ended_at_top self.old) }
    {
        let result_type = self.current.result_type;
        self.current.operands.end(result_type)?;
        Ok(())
    }

    // Puts one operand more on top.
    fn give_one(&mut self, operand: Option<ValType>) -> Result<(), Failure<CheckKind>>
        ensures { LeavesOrNoMemory result self.new (raised (with_operand operand (operands_of self.old)) self.old) }
    {
        if self.current.operands.count() + self.below >= MOST_HEIGHT {
            return Err(Failure::Fault(CheckKind::Height));
        }
        self.current.operands.push(operand)?;
        Ok(())
    }

    // Puts a result on top, if there is one.
    fn give(&mut self, result_type: Option<ValType>) -> Result<(), Failure<CheckKind>>
        ensures { LeavesOrNoMemory result self.new (raised (with_result result_type (operands_of self.old)) self.old) }
    {
        match result_type {
            None => {
                prove!(self.current.operands.count() + self.below <= MOST_HEIGHT);
                Ok(())
            }
            Some(value_type) => self.give_one(Some(value_type)),
        }
    }

    /// Takes operands of these types and, above them, of others, and gives a result or none.
    pub fn convert(
        &mut self,
        takes: &[ValType],
        above: &[ValType],
        gives: Option<ValType>,
    ) -> Result<(), Failure<CheckKind>>
        ensures { LeavesOrNoMemory result self.new (acted (moves (takes.now ++ above.now) gives) self.old) }
    {
        self.current.operands.take(takes, above)?;
        self.give(gives)
    }

    /// Takes operands of these types. What is written behind is not reached.
    pub fn jump(&mut self, takes: &[ValType]) -> Result<(), Failure<CheckKind>>
        ensures { LeavesOrNoMemory result self.new (acted (leaves takes.now) self.old) }
    {
        self.current.operands.take(takes, &[])?;
        self.current.operands.jump();
        Ok(())
    }

    /// The fault of a jump whose labels ask for different operands.
    pub fn disagree(&self, takes: &[ValType]) -> CheckKind
        ensures { acted (disagrees takes.now) self.now ≡ Err result }
    {
        if self.current.operands.lacks(takes.len()) {
            CheckKind::Underflow
        } else {
            CheckKind::TypeMismatch
        }
    }

    /// Takes an operand of any type.
    pub fn drop_one(&mut self) -> Result<(), Failure<CheckKind>>
        ensures { LeavesOrNoMemory result self.new (acted drops self.old) }
    {
        self.current.operands.drop_one()?;
        Ok(())
    }

    /// Takes a condition and two operands of one type, and gives one of that type.
    pub fn select(&mut self) -> Result<(), Failure<CheckKind>>
        ensures { LeavesOrNoMemory result self.new (acted selects self.old) }
    {
        let operand = self.current.operands.select()?;
        self.give_one(operand)
    }
}
