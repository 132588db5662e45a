// One call on an overlay, by the public calls of `overlay`.
ghost use Rattle.std.specs.Prelude.{◌≡◌, [], vec_len, vec_capacity};
ghost use Rattle.overlay.specs.Views.{state, arrived, world};
ghost use Rattle.overlay.specs.Calls.{tag as tag_of};
ghost use Rattle.history.specs.Desk.{Reckons, after_tag, after_taken, arrival, blank, booked_at, called, on_open, on_received, open_one};
ghost use Rattle.history.specs.Views.{answer_of, call_of, desk_of, moved_of, said_of, shown, turn_of};
ghost use Rattle.history.specs.Reckoning.{says};
ghost use Rattle.overlay.specs.Refusals.{booking_outcome};
ghost use Rattle.overlay.specs.Receiving.{check as check_of};

use crate::{Call, CallFault, Said, Stage, Stepped, TagBytes};
use engine::Engine;
use overlay::{Answer, BookingFault, Ledger, Open, Received, Refused, Slip};

// A call of an open overlay.
fn on_open<E: Engine>(mut opened: Open<E>, memory: &mut [u8], call: &Call<'_>) -> Stepped<E>
    ensures { turn_of E.Engine.means result memory.new ≡ on_open E.Block.Block.arith (state E.Engine.means opened) memory.old (call_of call.now) }
{
    match call {
        Call::Add { edit, count } => {
            let answer = opened.add(memory, edit, *count);
            Stepped::after(Stage::Opened(opened), answer)
        }
        Call::Cut { count } => {
            let answer = opened.cut(memory, *count);
            Stepped::after(Stage::Opened(opened), answer)
        }
        Call::Put {
            position,
            edit,
            count,
        } => {
            let answer = opened.put(memory, *position, edit, *count);
            Stepped::after(Stage::Opened(opened), answer)
        }
        Call::Tag { bytes } => tag_of(opened, memory, *bytes),
        _ => Stepped::silent(Stage::Opened(opened)),
    }
}

// A tag of an open overlay. One of 17 bytes stands for any that is longer: all are refused alike.
fn tag_of<E: Engine>(mut opened: Open<E>, memory: &[u8], bytes: usize) -> Stepped<E>
    ensures { turn_of E.Engine.means result memory.now ≡ after_tag (tag_of E.Block.Block.arith (world E.Engine.means opened memory.now (blank bytes))) }
{
    let mut buffer = [0u8; 17];
    let length = bytes.min(17);
    let Answer { outcome, slip } = opened.tag(memory, &mut buffer[..length]);
    let said = match outcome {
        Ok(()) => Ok(TagBytes { buffer, length }),
        Err(fault) => Err(CallFault::Overlay(fault)),
    };
    Stepped::told(Stage::Opened(opened), said, slip)
}

// A call of a received overlay.
fn on_received<E: Engine>(
    mut received: Received<E>,
    memory: &mut [u8],
    call: &Call<'_>,
) -> Stepped<E>
    ensures { turn_of E.Engine.means result memory.new ≡ on_received E.Block.Block.arith (arrived E.Engine.means received) memory.old (call_of call.now) }
{
    match call {
        Call::Check { tag } => check(received, memory, tag),
        Call::Recover { tag, block } => {
            let answer = received.recover(memory, tag, *block);
            Stepped::after(Stage::Received(received), answer)
        }
        _ => Stepped::silent(Stage::Received(received)),
    }
}

// A check: a right tag opens the overlay.
fn check<E: Engine>(received: Received<E>, memory: &[u8], tag: &[u8]) -> Stepped<E>
    ensures { turn_of E.Engine.means result memory.now ≡ after_taken open_one arrival memory.now (check_of E.Block.Block.arith (arrived E.Engine.means received) memory.now tag.now) }
{
    let Answer { outcome, slip } = received.check(memory, tag);
    match outcome {
        Ok(opened) => Stepped::carried(Stage::Opened(opened), slip),
        Err(Refused { fault, back }) => Stepped::refused(Stage::Received(back), fault, slip),
    }
}

// What a booking says.
fn said_of(booked: Result<(), BookingFault>) -> Said
    ensures { said_of result ≡ says (booking_outcome booked) [] }
{
    match booked {
        Ok(()) => Ok(TagBytes::none()),
        Err(fault) => Err(CallFault::Booking(fault)),
    }
}

// Books a slip, if there is one at that place.
fn book(ledger: &mut Ledger, slips: &mut Vec<Slip>, slip: usize, account: u8) -> Option<Said>
    ensures after { record { answer = answer_of result; accounts = ledger.new.accounts; slips = shown slips.new.items } ≡ booked_at ledger.old.accounts (shown slips.old.items) slip account }
    ensures count { vec_len slips.new ≡ vec_len slips.old }
    ensures room { vec_capacity slips.new ≡ vec_capacity slips.old }
{
    if slip >= slips.len() {
        return None;
    }
    let booked = ledger.book(&mut slips[slip], account);
    Some(said_of(booked))
}

// One call on an overlay, its memory, a ledger and the slips given so far.
fn move_on<E: Engine>(
    stage: Stage<E>,
    memory: &mut [u8],
    ledger: &mut Ledger,
    slips: &mut Vec<Slip>,
    call: &Call<'_>,
) -> Stepped<E>
    ensures after { moved_of E.Engine.means result memory.new ledger.new.accounts slips.new.items ≡ called E.Block.Block.arith (desk_of E.Engine.means stage memory.old ledger.old.accounts slips.old.items) (call_of call.now) }
    ensures count { vec_len slips.new ≡ vec_len slips.old }
    ensures room { vec_capacity slips.new ≡ vec_capacity slips.old }
{
    if let Call::Book { slip, account } = call {
        let said = book(ledger, slips, *slip, *account);
        return Stepped {
            stage,
            said,
            slip: None,
        };
    }
    match stage {
        Stage::Returned(engine) => Stepped::silent(Stage::Returned(engine)),
        Stage::Received(received) => on_received(received, memory, call),
        Stage::Opened(opened) => on_open(opened, memory, call),
    }
}

// One call on an overlay, its memory, a ledger and the slips given so far, which stay with the caller; a slip that the call
// gives is handed back beside them. The three are lent one by one: a struct of them would have to say at each call that it
// still lends the same ones.
pub fn step<E: Engine>(
    stage: Stage<E>,
    memory: &mut [u8],
    ledger: &mut Ledger,
    slips: &mut Vec<Slip>,
    call: &Call<'_>,
) -> Stepped<E>
    ensures after { moved_of E.Engine.means result memory.new ledger.new.accounts slips.new.items ≡ called E.Block.Block.arith (desk_of E.Engine.means stage memory.old ledger.old.accounts slips.old.items) (call_of call.now) }
    ensures law { Reckons E.Block.Block.arith (desk_of E.Engine.means stage memory.old ledger.old.accounts slips.old.items) (call_of call.now) (moved_of E.Engine.means result memory.new ledger.new.accounts slips.new.items) }
    ensures count { vec_len slips.new ≡ vec_len slips.old }
    ensures room { vec_capacity slips.new ≡ vec_capacity slips.old }
{
    move_on(stage, memory, ledger, slips, call)
}
