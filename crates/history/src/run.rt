// Whole histories.
ghost use Rattle.std.specs.Prelude.{◌≡◌, ◌+◌, ◌<◌, ◌≤◌, true, List, [], ◌∷◌, ◌++◌, length, is_ok, vec_len, vec_capacity};
ghost use Rattle.history.specs.Desk.{Advances, Runs, called, ran, started as started_of};
ghost use Rattle.history.specs.Views.{Replayed, beginning_of, call_of, calls_of, desk_of, replies_of, reply_of, shown, slip_of, telling_of, turn_of};
ghost use Rattle.history.specs.declared.answer.Reply.{Reply as CodeReply};

use crate::{Beginning, Call, Reply, Stage, Stepped, step};
use engine::Engine;
use overlay::{Answer, Ledger, Open, Received, Slip};

// Open or receive.
fn begin<E: Engine>(beginning: Beginning, engine: E, memory: &[u8]) -> Stepped<E>
    ensures { turn_of E.Engine.means result memory.now ≡ started_of E.Block.Block.arith (beginning_of beginning) (E.Engine.means engine) memory.now }
{
    match beginning {
        Beginning::Opening => {
            let Answer { outcome, slip } = Open::new(engine, memory);
            match outcome {
                Ok(opened) => Stepped::carried(Stage::Opened(opened), slip),
                Err(refused) => Stepped::returned(refused, slip),
            }
        }
        Beginning::Receipt { bits } => {
            let Answer { outcome, slip } = Received::new(engine, bits, memory);
            match outcome {
                Ok(received) => Stepped::carried(Stage::Received(received), slip),
                Err(refused) => Stepped::returned(refused, slip),
            }
        }
    }
}

// Keeps a slip, if a call gave one.
fn keep(given: Option<Slip>, slips: &mut Vec<Slip>)
    requires { vec_len slips.old < vec_capacity slips.old }
    ensures slips { shown slips.new.items ≡ shown slips.old.items ++ slip_of given }
    ensures count { vec_len slips.new ≤ vec_len slips.old + 1 }
    ensures room { vec_capacity slips.new ≡ vec_capacity slips.old }
{
    match given {
        Some(slip) => slips.push_reserved(slip),
        None => (),
    }
}

// Notes a call's slip and what is told of it.
fn note<E: Engine>(stepped: Stepped<E>, slips: &mut Vec<Slip>, replies: &mut Vec<Reply>) -> Stage<E>
    requires slip_room { vec_len slips.old < vec_capacity slips.old }
    requires reply_room { vec_len replies.old < vec_capacity replies.old }
    ensures stage { result ≡ stepped.stage }
    ensures slips { shown slips.new.items ≡ shown slips.old.items ++ slip_of stepped.slip }
    ensures told { replies.new.items ≡ replies.old.items ++ (telling_of E.Engine.means stepped ∷ []) }
    ensures count { vec_len slips.new ≤ vec_len slips.old + 1 }
    ensures room { vec_capacity slips.new ≡ vec_capacity slips.old }
    ensures replied { vec_len replies.new ≡ vec_len replies.old + 1 }
    ensures space { vec_capacity replies.new ≡ vec_capacity replies.old }
{
    let Stepped { stage, said, slip } = stepped;
    keep(slip, slips);
    let bits = stage.bits();
    let left = stage.left();
    replies.push_reserved(Reply { said, bits, left });
    stage
}

// One call of a history.
fn advance<E: Engine>(
    stage: Stage<E>,
    memory: &mut [u8],
    ledger: &mut Ledger,
    slips: &mut Vec<Slip>,
    replies: &mut Vec<Reply>,
    call: &Call<'_>,
) -> Stage<E>
    requires slip_room { vec_len slips.old < vec_capacity slips.old }
    requires reply_room { vec_len replies.old < vec_capacity replies.old }
    ensures after { desk_of E.Engine.means result memory.new ledger.new.accounts slips.new.items ≡ (called E.Block.Block.arith (desk_of E.Engine.means stage memory.old ledger.old.accounts slips.old.items) (call_of call.now)).desk }
    ensures told { (x : CodeReply) × ((replies.new.items ≡ replies.old.items ++ (x ∷ [])) × Advances E.Block.Block.arith (desk_of E.Engine.means stage memory.old ledger.old.accounts slips.old.items) (call_of call.now) (reply_of x) (desk_of E.Engine.means result memory.new ledger.new.accounts slips.new.items)) }
    ensures count { vec_len slips.new ≤ vec_len slips.old + 1 }
    ensures room { vec_capacity slips.new ≡ vec_capacity slips.old }
    ensures replied { vec_len replies.new ≡ vec_len replies.old + 1 }
    ensures space { vec_capacity replies.new ≡ vec_capacity replies.old }
{
    let stepped = step(stage, memory, ledger, slips, call);
    note(stepped, slips, replies)
}

// Calls one after the other.
fn resume<E: Engine>(
    mut stage: Stage<E>,
    memory: &mut [u8],
    ledger: &mut Ledger,
    slips: &mut Vec<Slip>,
    replies: &mut Vec<Reply>,
    calls: &[Call<'_>],
) -> Stage<E>
    requires slip_room { vec_len slips.old + length calls.now ≤ vec_capacity slips.old }
    requires reply_room { vec_len replies.old + length calls.now ≤ vec_capacity replies.old }
    ensures after { desk_of E.Engine.means result memory.new ledger.new.accounts slips.new.items ≡ ran E.Block.Block.arith (desk_of E.Engine.means stage memory.old ledger.old.accounts slips.old.items) (calls_of calls.now) }
    ensures told { (xs : List CodeReply) × ((replies.new.items ≡ replies.old.items ++ xs) × Runs E.Block.Block.arith (desk_of E.Engine.means stage memory.old ledger.old.accounts slips.old.items) (calls_of calls.now) (replies_of xs) (desk_of E.Engine.means result memory.new ledger.new.accounts slips.new.items)) }
{
    for call in calls {
        stage = advance(stage, memory, ledger, slips, replies, call);
    }
    stage
}

// A whole history: open or receive, then all of the calls. The slips that they give are kept behind those handed in, and so is
// what is told of each. Where there is no memory for either, nothing is done and the engine comes back.
pub fn replay<E: Engine>(
    beginning: Beginning,
    engine: E,
    memory: &mut [u8],
    ledger: &mut Ledger,
    slips: &mut Vec<Slip>,
    replies: &mut Vec<Reply>,
    calls: &[Call<'_>],
) -> Result<Stage<E>, E>
    ensures history { Replayed E.Engine.means E.Block.Block.arith result engine (beginning_of beginning) (calls_of calls.now) memory.old memory.new ledger.old.accounts ledger.new.accounts slips.old.items slips.new.items replies.old.items replies.new.items }
    ensures succeeds { vec_len slips.old + (length calls.now + 1) ≤ vec_capacity slips.old → vec_len replies.old + (length calls.now + 1) ≤ vec_capacity replies.old → is_ok result ≡ true }
{
    let count = calls.len() + 1;
    if slips.reserve(count).is_err() {
        return Err(engine);
    }
    if replies.reserve(count).is_err() {
        return Err(engine);
    }
    let begun = begin(beginning, engine, memory);
    let stage = note(begun, slips, replies);
    Ok(resume(stage, memory, ledger, slips, replies, calls))
}
