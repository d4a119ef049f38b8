ghost use Rattle.std.specs.Prelude.{◌≡◌, ◌++◌, codes, decimal, IfOk, OnOk};
ghost use Rattle.std.specs.List.{flat_map, enumerate_from};
ghost use Rattle.report_text.specs.Form0Text.{form0_text as spelled_report, message_line, actor_line};

use crate::pieces::put_number;
use fil_base::{Bytes, ExitCode, Mem};
use fil_message::{Form0Actor, Form0Report};
use std::alloc::Global;

// About how many bytes a line has. The text grows where lines are longer.
const LINE_LEN: usize = 24;

/// The text of a report: a line for the epoch, one for each message, one for each actor, and `end`.
#[tactic(auto, unfolding(crate::specs::Form0Text::form0_text))]
pub fn form0_text(alloc: Global, report: &Form0Report) -> Mem<Bytes>
    ensures { IfOk result (λ text. text ≡ spelled_report report.now) }
{
    let exits = report.exits.as_slice();
    let actors = report.actors.as_slice();
    let lines = exits.len().saturating_add(actors.len());
    let mut text = Vec::with_capacity(alloc, lines.saturating_mul(LINE_LEN))?;
    put_epoch(&mut text, report.epoch)?;
    put_messages(&mut text, exits)?;
    put_actors(&mut text, actors)?;
    text.extend_from_slice(b"end\n")?;
    Ok(Bytes::of(text))
}

fn put_epoch(text: &mut Vec<u8>, epoch: u64) -> Mem<()>
    ensures { OnOk result (text.new.items ≡ text.old.items ++ (codes "epoch " ++ (decimal epoch ++ codes "\n"))) }
{
    text.extend_from_slice(b"epoch ")?;
    put_number(text, epoch)?;
    text.extend_from_slice(b"\n")?;
    Ok(())
}

fn put_messages(text: &mut Vec<u8>, exits: &[ExitCode]) -> Mem<()>
    ensures { OnOk result (text.new.items ≡ text.old.items ++ flat_map message_line (enumerate_from 0 exits.now)) }
{
    for (place, exit) in exits.iter().enumerate() {
        put_message(text, place, *exit)?;
    }
    Ok(())
}

fn put_message(text: &mut Vec<u8>, place: usize, exit: ExitCode) -> Mem<()>
    ensures { OnOk result (text.new.items ≡ text.old.items ++ message_line (place, exit)) }
{
    text.extend_from_slice(b"message ")?;
    put_number(text, place)?;
    text.extend_from_slice(b" exit ")?;
    put_number(text, exit.number())?;
    text.extend_from_slice(b"\n")?;
    Ok(())
}

fn put_actors(text: &mut Vec<u8>, actors: &[Form0Actor]) -> Mem<()>
    ensures { OnOk result (text.new.items ≡ text.old.items ++ flat_map actor_line actors.now) }
{
    for actor in actors {
        put_actor(text, actor)?;
    }
    Ok(())
}

fn put_actor(text: &mut Vec<u8>, actor: &Form0Actor) -> Mem<()>
    ensures { OnOk result (text.new.items ≡ text.old.items ++ actor_line actor.now) }
{
    text.extend_from_slice(b"actor ")?;
    put_number(text, actor.id.number())?;
    text.extend_from_slice(b" nonce ")?;
    put_number(text, actor.nonce)?;
    text.extend_from_slice(b" balance ")?;
    put_number(text, actor.balance.number())?;
    text.extend_from_slice(b"\n")?;
    Ok(())
}
