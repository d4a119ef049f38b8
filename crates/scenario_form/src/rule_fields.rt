ghost use Rattle.std.specs.Prelude.{◌≡◌, ◌<◌, ◌^◌, All, Err, IfErr, IfOk, Ok, length};
ghost use Rattle.cbor_fields.specs.Fields.{field};
ghost use Rattle.cbor_fields.specs.Readers.{items_of};
ghost use Rattle.fil_base.specs.Failure.{IfFault};
ghost use Rattle.fil_message.specs.Readers.{if_read};
ghost use Rattle.scenario_form.specs.Parts.{AreParts, IsPart};
ghost use Rattle.scenario_form.specs.Reading.{codes_read, itself, limits_read, prices_read, rules_read};

use crate::raw::RawRules;
use cbor_fields::{FieldFault, FieldKind, cid_at, list_of, u64_at};
use dag_cbor::Value;
use fil_base::{Cid, Failure, Mem, Row};
use fil_message::items_at;
use gas_prices::Codes;
use std::alloc::Global;

/// The codes of the actors that are built in, where they stand.
#[derive(Clone, Copy)]
struct CodeLinks<'a> {
    system: &'a Cid,
    init: &'a Cid,
    account: &'a Cid,
    reward: &'a Cid,
}

/// The rules at this place of a list: `[prices, [depth, pages], codes]`.
pub(crate) fn rules_at(
    alloc: Global,
    items: &[Value],
    at: usize,
) -> Result<RawRules, Failure<FieldFault>>
    requires place { at < 2 ^ 32 }
    requires parts { All IsPart items.now }
    ensures found { IfOk result (λ rules. if_read (field itself items.now at) rules_read ≡ Ok rules) }
    ensures fault { IfErr result (λ failure. IfFault failure (λ fault.
        if_read (field itself items.now at) rules_read ≡ Err fault)) }
{
    match value_at(items, at) {
        Ok(value) => rules_of(alloc, value),
        Err(fault) => Err(Failure::Fault(fault)),
    }
}

fn rules_of(alloc: Global, value: &Value) -> Result<RawRules, Failure<FieldFault>>
    requires { IsPart value.now }
    ensures found { IfOk result (λ rules. rules_read value.now ≡ Ok rules) }
    ensures fault { IfErr result (λ failure. IfFault failure (λ fault. rules_read value.now ≡ Err fault)) }
{
    let items = match list_of(value, 3) {
        Ok(items) => items,
        Err(fault) => return Err(Failure::Fault(fault)),
    };
    let prices = prices_at(alloc, items, 0)?;
    let (depth, pages) = match limits_at(items, 1) {
        Ok(limits) => limits,
        Err(fault) => return Err(Failure::Fault(fault)),
    };
    let codes = codes_at(alloc, items, 2)?;
    Ok(RawRules {
        prices,
        depth,
        pages,
        codes,
    })
}

/// The prices at this place of a list, each a number.
fn prices_at(alloc: Global, items: &[Value], at: usize) -> Result<Row<u64>, Failure<FieldFault>>
    requires place { at < 2 ^ 32 }
    requires parts { AreParts items.now }
    ensures found { IfOk result (λ prices. if_read (field items_of items.now at) prices_read ≡ Ok prices) }
    ensures fault { IfErr result (λ failure. IfFault failure (λ fault.
        if_read (field items_of items.now at) prices_read ≡ Err fault)) }
{
    match items_at(items, at) {
        Ok(values) => prices_of(alloc, values),
        Err(fault) => Err(Failure::Fault(fault)),
    }
}

fn prices_of(alloc: Global, values: &[Value]) -> Result<Row<u64>, Failure<FieldFault>>
    requires { length values.now < 2 ^ 32 }
    ensures found { IfOk result (λ prices. prices_read values.now ≡ Ok prices) }
    ensures fault { IfErr result (λ failure. IfFault failure (λ fault. prices_read values.now ≡ Err fault)) }
{
    let mut prices = Vec::with_capacity(alloc, values.len())?;
    for i in 0..values.len() {
        match u64_at(values, i) {
            Ok(price) => prices.push(price)?,
            Err(fault) => return Err(Failure::Fault(fault)),
        }
    }
    Ok(Row::of(prices))
}

/// The limits at this place of a list: `[depth, pages]`.
fn limits_at(items: &[Value], at: usize) -> Result<(u64, u64), FieldFault>
    requires { at < 2 ^ 32 }
    ensures { result ≡ if_read (field itself items.now at) limits_read }
{
    let value = value_at(items, at)?;
    limits_of(value)
}

fn limits_of(value: &Value) -> Result<(u64, u64), FieldFault>
    ensures { result ≡ limits_read value.now }
{
    let items = list_of(value, 2)?;
    let depth = u64_at(items, 0)?;
    let pages = u64_at(items, 1)?;
    Ok((depth, pages))
}

/// The codes at this place of a list: `[system, init, account, reward]`.
fn codes_at(alloc: Global, items: &[Value], at: usize) -> Result<Codes, Failure<FieldFault>>
    requires { at < 2 ^ 32 }
    ensures found { IfOk result (λ codes. if_read (field itself items.now at) codes_read ≡ Ok codes) }
    ensures fault { IfErr result (λ failure. IfFault failure (λ fault.
        if_read (field itself items.now at) codes_read ≡ Err fault)) }
{
    let links = match links_at(items, at) {
        Ok(links) => links,
        Err(fault) => return Err(Failure::Fault(fault)),
    };
    let codes = copied(alloc, &links)?;
    Ok(codes)
}

fn links_at(items: &[Value], at: usize) -> Result<CodeLinks<'_>, FieldFault>
    requires { at < 2 ^ 32 }
    ensures found { IfOk result (λ links. if_read (field itself items.now at) codes_read ≡ Ok (record {
      system = links.system.now;
      init = links.init.now;
      account = links.account.now;
      reward = links.reward.now;
    })) }
    ensures fault { IfErr result (λ fault. if_read (field itself items.now at) codes_read ≡ Err fault) }
{
    let value = value_at(items, at)?;
    links_of(value)
}

fn links_of(value: &Value) -> Result<CodeLinks<'_>, FieldFault>
    ensures found { IfOk result (λ links. codes_read value.now ≡ Ok (record {
      system = links.system.now;
      init = links.init.now;
      account = links.account.now;
      reward = links.reward.now;
    })) }
    ensures fault { IfErr result (λ fault. codes_read value.now ≡ Err fault) }
{
    let items = list_of(value, 4)?;
    let system = cid_at(items, 0)?;
    let init = cid_at(items, 1)?;
    let account = cid_at(items, 2)?;
    let reward = cid_at(items, 3)?;
    Ok(CodeLinks {
        system,
        init,
        account,
        reward,
    })
}

/// The codes that stand there.
fn copied(alloc: Global, links: &CodeLinks<'_>) -> Mem<Codes>
    ensures { IfOk result (λ codes. codes ≡ record {
      system = links.now.system.now;
      init = links.now.init.now;
      account = links.now.account.now;
      reward = links.now.reward.now;
    }) }
{
    Ok(Codes {
        system: links.system.copy(alloc)?,
        init: links.init.copy(alloc)?,
        account: links.account.copy(alloc)?,
        reward: links.reward.copy(alloc)?,
    })
}

/// The item at this place of a list, whatever it is.
fn value_at(list: &[Value], at: usize) -> Result<&Value, FieldFault>
    requires { at < 2 ^ 32 }
    ensures found { IfOk result (λ value. field itself list.now at ≡ Ok value.now) }
    ensures fault { IfErr result (λ fault. field itself list.now at ≡ Err fault) }
{
    match list.get(at) {
        Some(value) => Ok(value),
        None => Err(FieldFault {
            index: at as u32,
            kind: FieldKind::WrongLength,
        }),
    }
}
