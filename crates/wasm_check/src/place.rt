ghost use Rattle.std.specs.Prelude.{◌≡◌, ok_or, slice_get};
ghost use Rattle.wasm_check.specs.declared.fault.CheckKind.TheVariants as kinds;

use crate::fault::CheckKind;
use std::marker::Model;
use wasm_types::{Body, FuncType, RawModule, ValType};

/// Where code stands: its module, its function's type, and its body.
#[derive(Drop)]
pub struct Place<'a> {
    pub raw: &'a RawModule,
    pub func_type: &'a FuncType,
    pub body: &'a Body,
}

impl<'a> Model for Place<'a> {
    ghost use Rattle.std.specs.Prelude.{◌++◌, []};
    ghost use Rattle.wasm_check.specs.Effects.{Context};

    ghost Value = { Context };

    ghost view = { λ place. record {
      raw = place.raw.now;
      locals = place.func_type.now.params ++ place.body.now.locals;
      result = place.func_type.now.result;
      labels = [];
    } };
}

impl<'a> Place<'a> {
    /// The type of the local of this number.
    pub fn local(&self, index: u32) -> Result<ValType, CheckKind>
        ensures { result ≡ ok_or (slice_get self.now.locals index) kinds.Local }
    {
        let index = index as usize;
        let params = self.func_type.params.as_slice();
        if index < params.len() {
            return Ok(params[index]);
        }
        match self.body.locals.as_slice().get(index - params.len()) {
            Some(value_type) => Ok(*value_type),
            None => Err(CheckKind::Local),
        }
    }
}
