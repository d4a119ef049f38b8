ghost use Rattle.std.specs.Prelude.{IfOk, IfErr};
ghost use Rattle.fvm_run.specs.Answers.{IsRunAnswer, BeginsAsList, Spells};
ghost use Rattle.fvm_run.specs.Stops.{IfRefused};
ghost use Rattle.fil_message.specs.Form0Layout.{form_value};
ghost use Rattle.fil_message.specs.Form0Sound.{IsForm0};

use crate::stop::Stop;
use dag_cbor::decode;
use fil_base::Bytes;
use fil_message::{Form0, read_form0};
use report_text::form0_text;
use std::alloc::Global;
use tipset_exec::run_form0;

/// The text of the report of the account list that the input spells.
pub fn text_of_list(alloc: Global, input: Vec<u8>) -> Result<Bytes, Stop>
    requires { BeginsAsList input.items }
    ensures text { IfOk result (λ text. IsRunAnswer input.items (Ok text)) }
    ensures refused { IfErr result (IfRefused (λ refusal. IsRunAnswer input.items (Err refusal))) }
{
    let form = form_of(alloc, input)?;
    let report = run_form0(alloc, &form)?;
    drop(form);
    Ok(form0_text(alloc, &report)?)
}

/// The account list that the input spells. The input and its value are let go before it is run.
fn form_of(alloc: Global, input: Vec<u8>) -> Result<Form0, Stop>
    requires { BeginsAsList input.items }
    ensures form { IfOk result (λ form. IsForm0 form × Spells input.items (form_value form)) }
    ensures refused { IfErr result (IfRefused (λ refusal. IsRunAnswer input.items (Err refusal))) }
{
    let value = decode(alloc, &input)?;
    drop(input);
    Ok(read_form0(alloc, &value)?)
}
