ghost use Rattle.std.specs.Prelude.{ℕ, ◌≡◌, ◌<◌, ◌≤◌, ◌^◌, ◌-◌, ◌↔◌, Err, IfErr, IfOk, IsTrue, None, Ok, OnOk, Some, map, min, sum};
ghost use Rattle.cbor_fields.specs.Fields.{field};
ghost use Rattle.cbor_fields.specs.Readers.{items_of};
ghost use Rattle.fil_base.specs.Failure.{IfFault};
ghost use Rattle.fil_base.specs.declared.token.TheConstants.{GREATEST_AMOUNT};
ghost use Rattle.fil_message.specs.Form0Layout.{form_value};
ghost use Rattle.fil_message.specs.Form0Sound.{IsForm0};
ghost use Rattle.fil_message.specs.Form0Reading.{actor_of, fields_read, form0_of, in_form, not_above, transfer_of};
ghost use Rattle.fil_message.specs.Readers.{all_read, if_read, just, up_to};
ghost use Rattle.fil_message.specs.Reading.{fields_of};
ghost use Rattle.fil_message.specs.declared.form_fault.FormFault.TheVariants.{Order, Total};

use crate::fields::{id_at, items_at, just_at, number_at};
use crate::form_fault::FormFault;
use crate::form0::{Form0, Form0Actor, Form0Message};
use cbor_fields::{list_of, token_at, u64_at};
use dag_cbor::Value;
use fil_base::{Failure, GREATEST_AMOUNT, Row};
use std::alloc::Global;

/// The account list that a value is: `[0, epoch, actors, messages]`, an actor being `[id, nonce, balance]` and a message
/// `[from, to, nonce, value]`, with amounts as their bytes.
#[tactic(auto, using(crate::proofs::Form0Laws::form_read))]
pub fn read_form0(alloc: Global, value: &Value) -> Result<Form0, Failure<FormFault>>
    ensures found { IfOk result (λ form. form0_of value.now ≡ Ok form) }
    ensures laid_out { IfOk result (λ form. IsForm0 form × (value.now ≡ form_value form)) }
    ensures fault { IfErr result (λ failure. IfFault failure (λ fault. form0_of value.now ≡ Err fault)) }
{
    let form = form_of(alloc, value)?;
    Ok(form)
}

/// The account list that a value is, judged.
fn form_of(alloc: Global, value: &Value) -> Result<Form0, Failure<FormFault>>
    ensures found { IfOk result (λ form. form0_of value.now ≡ Ok form) }
    ensures fault { IfErr result (λ failure. IfFault failure (λ fault. form0_of value.now ≡ Err fault)) }
{
    let form = fields_of(alloc, value)?;
    judge_order(form.actors.as_slice())?;
    judge_total(form.actors.as_slice())?;
    Ok(form)
}

/// The fields of an account list, each by itself.
fn fields_of(alloc: Global, value: &Value) -> Result<Form0, Failure<FormFault>>
    ensures found { IfOk result (λ form. fields_read value.now ≡ Ok form) }
    ensures fault { IfErr result (λ failure. IfFault failure (λ fault. in_form (fields_read value.now) ≡ Err fault)) }
{
    let items = items_of(value)?;
    let epoch = epoch_of(items)?;
    let listed = list_at(items, 2)?;
    let actors = actors_of(alloc, listed)?;
    let sent = list_at(items, 3)?;
    let messages = messages_of(alloc, sent)?;
    Ok(Form0 {
        epoch,
        actors,
        messages,
    })
}

fn items_of(value: &Value) -> Result<&[Value], FormFault>
    ensures found { IfOk result (λ items. fields_of value.now 4 ≡ Ok items.now) }
    ensures fault { IfErr result (λ fault. in_form (fields_of value.now 4) ≡ Err fault) }
{
    let items = list_of(value, 4)?;
    Ok(items)
}

/// The epoch, behind the number of this form.
fn epoch_of(items: &[Value]) -> Result<u64, FormFault>
    ensures form { OnOk result (field (just 0) items.now 0 ≡ Ok 0) }
    ensures found { IfOk result (λ epoch. field (up_to (2 ^ 63 - 1)) items.now 1 ≡ Ok epoch) }
    ensures fault { IfErr result (λ fault. in_form
        (if_read (field (just 0) items.now 0) (λ _. field (up_to (2 ^ 63 - 1)) items.now 1)) ≡ Err fault) }
{
    let _form = just_at(items, 0, 0)?;
    let epoch = number_at(items, 1, (1 << 63) - 1)?;
    Ok(epoch)
}

fn list_at(items: &[Value], at: usize) -> Result<&[Value], FormFault>
    requires { at < 2 ^ 32 }
    ensures found { IfOk result (λ list. field items_of items.now at ≡ Ok list.now) }
    ensures fault { IfErr result (λ fault. in_form (field items_of items.now at) ≡ Err fault) }
{
    let list = items_at(items, at)?;
    Ok(list)
}

/// The actors, each by itself.
fn actors_of(alloc: Global, items: &[Value]) -> Result<Row<Form0Actor>, Failure<FormFault>>
    ensures found { IfOk result (λ actors. all_read actor_of items.now ≡ Ok actors) }
    ensures fault { IfErr result (λ failure. IfFault failure (λ fault.
        in_form (all_read actor_of items.now) ≡ Err fault)) }
{
    let mut actors = Vec::with_capacity(alloc, items.len())?;
    for item in items {
        let actor = actor_of(item)?;
        actors.push(actor)?;
    }
    Ok(Row::of(actors))
}

/// `[id, nonce, balance]`.
fn actor_of(value: &Value) -> Result<Form0Actor, FormFault>
    ensures { result ≡ in_form (actor_of value.now) }
{
    let items = list_of(value, 3)?;
    let id = id_at(items, 0)?;
    let nonce = u64_at(items, 1)?;
    let balance = token_at(items, 2)?;
    Ok(Form0Actor { id, nonce, balance })
}

/// The messages, in their order.
fn messages_of(alloc: Global, items: &[Value]) -> Result<Row<Form0Message>, Failure<FormFault>>
    ensures found { IfOk result (λ messages. all_read transfer_of items.now ≡ Ok messages) }
    ensures fault { IfErr result (λ failure. IfFault failure (λ fault.
        in_form (all_read transfer_of items.now) ≡ Err fault)) }
{
    let mut messages = Vec::with_capacity(alloc, items.len())?;
    for item in items {
        let message = transfer_of(item)?;
        messages.push(message)?;
    }
    Ok(Row::of(messages))
}

/// `[from, to, nonce, value]`.
fn transfer_of(value: &Value) -> Result<Form0Message, FormFault>
    ensures { result ≡ in_form (transfer_of value.now) }
{
    let items = list_of(value, 4)?;
    let from = id_at(items, 0)?;
    let to = id_at(items, 1)?;
    let nonce = number_at(items, 2, u64::MAX - 1)?;
    let value = token_at(items, 3)?;
    Ok(Form0Message {
        from,
        to,
        nonce,
        value,
    })
}

/// Judges that the IDs rise strictly.
fn judge_order(actors: &[Form0Actor]) -> Result<(), FormFault>
    ensures found { OnOk result (not_above 0 (map (λ a. a.id) actors.now) ≡ None) }
    ensures fault { IfErr result (λ fault. (at : ℕ) × (not_above 0 (map (λ a. a.id) actors.now) ≡ Some at)
        × (fault ≡ Order (min at (2 ^ 32 - 1)))) }
{
    for i in 1..actors.len() {
        if !is_before(&actors[i - 1], &actors[i]) {
            return Err(FormFault::Order(place_of(i)));
        }
    }
    Ok(())
}

fn is_before(actor: &Form0Actor, next: &Form0Actor) -> bool
    ensures { IsTrue result ↔ (actor.now.id < next.now.id) }
{
    actor.id < next.id
}

/// A place as a fault gives it.
fn place_of(at: usize) -> u32
    ensures { result ≡ min at (2 ^ 32 - 1) }
{
    at.min(u32::MAX as usize) as u32
}

/// Judges that the balances add up to no more tokens than there can be.
fn judge_total(actors: &[Form0Actor]) -> Result<(), FormFault>
    ensures found { OnOk result (sum (map (λ a. a.balance) actors.now) ≤ GREATEST_AMOUNT) }
    ensures fault { IfErr result (λ fault. (GREATEST_AMOUNT < sum (map (λ a. a.balance) actors.now))
        × (fault ≡ Total)) }
{
    let mut total = 0;
    for actor in actors {
        total += actor.balance.number();
        if total > GREATEST_AMOUNT {
            return Err(FormFault::Total);
        }
    }
    Ok(())
}
