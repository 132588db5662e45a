// The overlay of one voyage, with its memory, the accounts and the slips that its calls gave.
ghost use Rattle.std.specs.Prelude.{◌≡◌};

use crate::command::{Command, Edit};
use crate::shown::{Call, Shown};
use aes::Aes128;
use engine::Engine;
use overlay::{Answer, Ledger, Open, Slip};
use std::alloc::{AllocError, AllocFailed, Global};
use std::fmt;

// The account that slips left open are booked to at the end.
const LAST_ACCOUNT: u8 = 15;

pub(crate) struct Desk {
    overlay: Open<Aes128>,
    memory: Vec<u8>,
    ledger: Ledger,
    slips: Vec<Slip>,
}

impl Desk {
    // An overlay just opened, and the slip that it came with.
    pub(crate) fn new(alloc: Global, overlay: Open<Aes128>, memory: Vec<u8>, slip: Slip) -> Self {
        let mut desk = Desk {
            overlay,
            memory,
            ledger: Ledger::new(0),
            slips: Vec::new(alloc),
        };
        desk.keep(slip);
        desk
    }

    // Runs one command, and gives what is shown of it; none where it names a slip or bits that are not there.
    pub(crate) fn run(
        &mut self,
        alloc: Global,
        command: Command<'_>,
    ) -> Result<Option<Shown>, AllocError> {
        match command {
            Command::Add(edit) => self.edit(
                alloc,
                "add",
                edit,
                |overlay, memory, bytes, count| overlay.add(memory, bytes, count),
            ),
            Command::Cut { bits } => {
                let answer = self.overlay.cut(&self.memory, bits);
                Ok(Some(Shown::Call(self.note("cut", answer))))
            }
            Command::Put { position, edit } => self.edit(
                alloc,
                "put",
                edit,
                |overlay, memory, bytes, count| overlay.put(memory, position, bytes, count),
            ),
            Command::Tag { bits } => Ok(Some(Shown::Call(self.tag(alloc, bits)?))),
            Command::Book { slip, account } => Ok(self.book(slip, account)),
        }
    }

    // Runs a call that writes bits, if the hex spells any.
    fn edit<F: FnOnce(&mut Open<Aes128>, &mut [u8], &[u8], u32) -> Answer + Drop>(
        &mut self,
        alloc: Global,
        name: &'static str,
        edit: Edit<'_>,
        call: F,
    ) -> Result<Option<Shown>, AllocError>
        requires { F.IsAlwaysCallable call }
    {
        let Some(bytes) = edit.bytes(alloc)? else {
            return Ok(None);
        };
        let count = edit.count(&bytes);
        let answer = call(&mut self.overlay, &mut self.memory, &bytes, count);
        Ok(Some(Shown::Call(self.note(name, answer))))
    }

    // A length that is no whole number of bytes is asked for as none, and refused.
    fn tag(&mut self, alloc: Global, bits: u32) -> Result<Call, AllocError> {
        let size = if bits % 8 == 0 && bits <= 128 {
            bits as usize / 8
        } else {
            0
        };
        let mut tag = vec![in alloc; 0u8; size]?;
        let answer = self.overlay.tag(&self.memory, &mut tag);
        let mut call = self.note("tag", answer);
        if call.outcome.is_ok() {
            call.tag = Some(hex::encode(alloc, tag)?);
        }
        Ok(call)
    }

    fn book(&mut self, slip: usize, account: u8) -> Option<Shown> {
        let slip = self.slips.get_mut(slip)?;
        Some(Shown::Booking(self.ledger.book(slip, account)))
    }

    // What is shown of a call, whose slip is kept.
    fn note(&mut self, name: &'static str, answer: Answer) -> Call {
        let Answer { outcome, slip } = answer;
        let call = Call {
            name,
            outcome,
            bits: self.overlay.bits(),
            operations: slip.shows(),
            slip: self.slips.len(),
            tag: None,
        };
        self.keep(slip);
        call
    }

    // Keeps a slip until it is booked; where there is no memory for it, it is booked at once.
    fn keep(&mut self, slip: Slip) {
        if let Err(AllocFailed { value, .. }) = self.slips.push(slip) {
            settle(&mut self.ledger, value);
        }
    }

    // The slips that still show operations, a line each.
    pub(crate) fn open_slips(&self, alloc: Global) -> Result<String, AllocError> {
        let mut text = String::new(alloc);
        for (place, slip) in self.slips.iter().enumerate() {
            let shows = slip.shows();
            if shows > 0 {
                writeln!(
                    text,
                    "slip {place} shows {shows}: booked to account {LAST_ACCOUNT}"
                )?;
            }
        }
        Ok(text)
    }

    // Books every slip to the last account, which ends the voyage.
    pub(crate) fn settle(self) -> Settled {
        let Desk {
            overlay,
            memory: _,
            mut ledger,
            mut slips,
        } = self;
        // No `for` here: one that stopped would have to let the other slips go, and a slip goes only once it is booked.
        while let Some(slip) = slips.pop() {
            settle(&mut ledger, slip);
        }
        slips.destroy_empty();
        Settled {
            ledger,
            left: overlay.left(),
        }
    }
}

// A voyage that has ended: the accounts, and the operations that are left.
#[derive(Drop)]
pub(crate) struct Settled {
    ledger: Ledger,
    left: u32,
}

// The totals of all accounts, their sum, and what is left.
impl fmt::Display for Settled {
    fn fmt<W: fmt::Write>(&self, f: &mut fmt::Formatter<W>) -> fmt::Result {
        write!(f, "totals")?;
        let mut booked: u64 = 0;
        for number in 0..=LAST_ACCOUNT {
            if let Some(account) = self.ledger.account(number) {
                let total = account.total();
                booked = booked.saturating_add(u64::from(total));
                write!(f, " {total}")?;
            }
        }
        let left = self.left;
        writeln!(f, "\nbooked {booked}, left {left}")
    }
}

// Ends a slip: its operations go to the last account.
pub(crate) fn settle(ledger: &mut Ledger, mut slip: Slip) {
    if ledger.book(&mut slip, LAST_ACCOUNT).is_err() {
        let _ = write_off(&mut slip);
    }
}

// For an account that is full, which one allowance cannot bring about: the operations that are lost to all accounts.
fn write_off(slip: &mut Slip) -> u32
    ensures { slip.new.count ≡ 0 }
{
    let lost = slip.shows();
    let mut spare = Ledger::new(0);
    let _ = spare.book(slip, 0);
    lost
}
