ghost use Rattle.std.specs.Prelude.{◌≡◌, ◌+◌, ◌^◌, ◌<◌, ◌≤◌, All, IfOk, OnOk, MatchOption, IsNone, length, nat_lt, if◌then◌else◌};
ghost use Rattle.std.specs.FinMap.{get};
ghost use Rattle.fil_base.specs.declared.token.TheConstants.{GREATEST_AMOUNT};
ghost use Rattle.fil_base.specs.declared.exit_code.TheConstants.{EXIT_OK, SYS_INSUFFICIENT_FUNDS};
ghost use Rattle.fil_message.specs.Form0Sound.{IsForm0, IsTransfer};
ghost use Rattle.tipset_exec.specs.Accounts.{accounts_of, exit_of, after, with_next_nonce, without, with_more};
ghost use Rattle.tipset_exec.specs.Report.{report_of, exits, final};
ghost use Rattle.tipset_exec.specs.Ledger.{ids, total, id_at, account_at, IsLedger, IsPlaceOf};

use fil_base::{
    ActorId, EXIT_OK, ExitCode, Mem, Row, SYS_INSUFFICIENT_FUNDS, SYS_INVALID_RECEIVER,
    SYS_SENDER_INVALID, SYS_SENDER_STATE_INVALID, Token,
};
use fil_message::{Form0, Form0Actor, Form0Message, Form0Report};
use std::alloc::Global;

/// Runs the messages one after another, each on the accounts that the one before it left. It takes memory for
/// a copy of the actors and for the exits.
pub fn run_form0(alloc: Global, form: &Form0) -> Mem<Form0Report>
    requires { IsForm0 form.now }
    ensures { IfOk result (λ report. report ≡ report_of form.now) }
{
    let mut actors = Vec::from_slice(alloc, form.actors.as_slice())?;
    let exits = run_messages(alloc, &mut actors, form.messages.as_slice())?;
    Ok(Form0Report {
        epoch: form.epoch,
        exits: Row::of(exits),
        actors: Row::of(actors),
    })
}

// Runs the messages, and gives how each ended.
#[tactic(auto, using(crate::proofs::Runs::steps))]
fn run_messages(
    alloc: Global,
    actors: &mut [Form0Actor],
    messages: &[Form0Message],
) -> Mem<Vec<ExitCode>>
    requires ledger { IsLedger actors.old }
    requires messages { All IsTransfer messages.now }
    ensures exits { IfOk result (λ done. done.items ≡ exits (accounts_of actors.old) messages.now) }
    ensures after { OnOk result (accounts_of actors.new ≡ final (accounts_of actors.old) messages.now) }
    ensures ledger { IsLedger actors.new }
    ensures ids { ids actors.new ≡ ids actors.old }
{
    let mut exits = Vec::with_capacity(alloc, messages.len())?;
    for message in messages {
        exits.push(run_message(actors, message))?;
    }
    Ok(exits)
}

// Runs one message, and gives how it ended.
#[tactic(auto, using(crate::proofs::Inserts::inserts), unfolding(crate::specs::Accounts::exit_of, crate::specs::Accounts::after))]
fn run_message(actors: &mut [Form0Actor], message: &Form0Message) -> ExitCode
    requires ledger { IsLedger actors.old }
    requires message { IsTransfer message.now }
    ensures exit { result ≡ exit_of (accounts_of actors.old) message.now }
    ensures after { accounts_of actors.new ≡ after (accounts_of actors.old) message.now }
    ensures ledger { IsLedger actors.new }
    ensures ids { ids actors.new ≡ ids actors.old }
{
    let from = match place_of(actors, message.from) {
        None => return ExitCode::new(SYS_SENDER_INVALID),
        Some(from) => from,
    };
    if actors[from].nonce != message.nonce {
        return ExitCode::new(SYS_SENDER_STATE_INVALID);
    }
    raise_nonce(actors, from);
    match place_of(actors, message.to) {
        None => ExitCode::new(SYS_INVALID_RECEIVER),
        Some(to) => transfer(actors, from, to, message.value),
    }
}

#[tactic(auto, using(crate::proofs::Writes::writes))]
fn raise_nonce(actors: &mut [Form0Actor], place: usize)
    requires ledger { IsLedger actors.old }
    requires place { place < length actors.old }
    requires room { (account_at actors.old place).nonce + 1 < 2 ^ 64 }
    ensures after { accounts_of actors.new ≡ with_next_nonce (accounts_of actors.old) (id_at actors.old place) }
    ensures ledger { IsLedger actors.new }
    ensures ids { ids actors.new ≡ ids actors.old }
{
    actors[place].nonce += 1;
}

// Moves the value, if the sender has that much.
#[tactic(auto, using(crate::proofs::Lookup::balance_there))]
fn transfer(actors: &mut [Form0Actor], from: usize, to: usize, value: Token) -> ExitCode
    requires ledger { IsLedger actors.old }
    requires from { from < length actors.old }
    requires to { to < length actors.old }
    ensures exit { result
        ≡ (if nat_lt (account_at actors.old from).balance value then SYS_INSUFFICIENT_FUNDS else EXIT_OK) }
    ensures short { result ≡ SYS_INSUFFICIENT_FUNDS → accounts_of actors.new ≡ accounts_of actors.old }
    ensures moved { result ≡ EXIT_OK → accounts_of actors.new
        ≡ with_more (without (accounts_of actors.old) (id_at actors.old from) value) (id_at actors.old to) value }
    ensures ledger { IsLedger actors.new }
    ensures ids { ids actors.new ≡ ids actors.old }
{
    if actors[from].balance < value {
        return ExitCode::new(SYS_INSUFFICIENT_FUNDS);
    }
    withdraw(actors, from, value);
    deposit(actors, to, value);
    ExitCode::new(EXIT_OK)
}

#[tactic(auto, using(crate::proofs::Writes::writes))]
fn withdraw(actors: &mut [Form0Actor], place: usize, value: Token)
    requires ledger { IsLedger actors.old }
    requires place { place < length actors.old }
    requires enough { value ≤ (account_at actors.old place).balance }
    ensures after { accounts_of actors.new ≡ without (accounts_of actors.old) (id_at actors.old place) value }
    ensures total { total actors.new + value ≡ total actors.old }
    ensures ledger { IsLedger actors.new }
    ensures ids { ids actors.new ≡ ids actors.old }
{
    let left = actors[place].balance.number() - value.number();
    actors[place].balance = Token::new(left).unwrap();
}

#[tactic(auto, using(crate::proofs::Writes::writes))]
fn deposit(actors: &mut [Form0Actor], place: usize, value: Token)
    requires ledger { IsLedger actors.old }
    requires place { place < length actors.old }
    requires room { total actors.old + value ≤ GREATEST_AMOUNT }
    ensures after { accounts_of actors.new ≡ with_more (accounts_of actors.old) (id_at actors.old place) value }
    ensures ledger { IsLedger actors.new }
    ensures ids { ids actors.new ≡ ids actors.old }
{
    let sum = actors[place].balance.number() + value.number();
    actors[place].balance = Token::new(sum).unwrap();
}

// The place of the actor that has the ID.
fn place_of(actors: &[Form0Actor], id: ActorId) -> Option<usize>
    requires { IsLedger actors.now }
    ensures { MatchOption result (IsNone (get (accounts_of actors.now) id)) (IsPlaceOf actors.now id) }
{
    let number = id.number();
    actors
        .binary_search_by_key(&number, |actor| actor.id.number())
        .ok()
}

#[cfg(test)]
mod tests {
    use super::*;
    use std::test::Fail;

    fn actor(id: u32, nonce: u32, balance: u32) -> Form0Actor
        ensures { result ≡ record { id = id; nonce = nonce; balance = balance } }
    {
        Form0Actor {
            id: ActorId::new(u64::from(id)).unwrap(),
            nonce: u64::from(nonce),
            balance: Token::new(u128::from(balance)).unwrap(),
        }
    }

    fn message(from: u32, to: u32, nonce: u32, value: u32) -> Form0Message
        ensures { IsTransfer result }
    {
        Form0Message {
            from: ActorId::new(u64::from(from)).unwrap(),
            to: ActorId::new(u64::from(to)).unwrap(),
            nonce: u64::from(nonce),
            value: Token::new(u128::from(value)).unwrap(),
        }
    }

    // Actor 100 with a balance of 10 and actor 101 with none, and the messages.
    fn form(alloc: Global, messages: Vec<Form0Message>) -> Mem<Form0>
        requires { All IsTransfer messages.items }
        ensures { IfOk result (λ form. IsForm0 form) }
    {
        let actors = vec![in alloc; actor(100, 0, 10), actor(101, 0, 0)]?;
        Ok(Form0 {
            epoch: 0,
            actors: Row::of(actors),
            messages: Row::of(messages),
        })
    }

    #[test]
    fn nonces_are_compared_and_rise(rt: HostRuntime) -> Result<(), Fail> {
        let alloc = rt.alloc();
        let first = message(100, 101, 0, 3);
        let messages = vec![in alloc; first, first, message(100, 101, 1, 3)]?;
        let report = run_form0(alloc, &form(alloc, messages)?)?;
        let exits = [EXIT_OK, SYS_SENDER_STATE_INVALID, EXIT_OK].map(ExitCode::new);
        assert_eq!(rt; report.exits.as_slice(), exits.as_slice());
        let actors = [actor(100, 2, 4), actor(101, 0, 6)];
        assert_eq!(rt; report.actors.as_slice(), actors.as_slice());
        Ok(())
    }

    // A sender and a receiver that are not listed, too great a value, and a transfer to oneself.
    #[test]
    fn a_nonce_rises_where_the_sender_may_send(rt: HostRuntime) -> Result<(), Fail> {
        let alloc = rt.alloc();
        let no_sender = message(102, 100, 0, 1);
        let no_receiver = message(100, 102, 0, 1);
        let too_great = message(100, 101, 1, 11);
        let to_oneself = message(100, 100, 2, 10);
        let messages = vec![in alloc; no_sender, no_receiver, too_great, to_oneself]?;
        let report = run_form0(alloc, &form(alloc, messages)?)?;
        let exits = [
            SYS_SENDER_INVALID,
            SYS_INVALID_RECEIVER,
            SYS_INSUFFICIENT_FUNDS,
            EXIT_OK,
        ]
        .map(ExitCode::new);
        assert_eq!(rt; report.exits.as_slice(), exits.as_slice());
        let actors = [actor(100, 3, 10), actor(101, 0, 0)];
        assert_eq!(rt; report.actors.as_slice(), actors.as_slice());
        Ok(())
    }
}
