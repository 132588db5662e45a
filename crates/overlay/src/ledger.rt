// The accounts into which slips are booked.
ghost use Rattle.std.specs.Prelude.{◌≡◌, true, is_ok, length};
ghost use Rattle.overlay.specs.Ledger.{opened, held, takes, entered, book as book_of};
ghost use Rattle.overlay.specs.Views.{booked};

use crate::{BookingFault, Slip};

// One account: its total, and the latest amount that was booked into it.
#[derive(Clone, Copy)]
pub struct Account {
    total: u32,
    latest: u32,
}

impl Account {
    // The sum of all amounts booked, on top of what it opened with.
    pub fn total(self) -> u32
        ensures { result ≡ self.total }
    {
        let Account { total, .. } = self;
        total
    }

    pub fn latest(self) -> u32
        ensures { result ≡ self.latest }
    {
        let Account { latest, .. } = self;
        latest
    }

    // Adds an amount to the total, unless that would pass the largest number.
    fn enter(&mut self, amount: u32) -> Result<(), BookingFault>
        ensures answer { result ≡ takes self.old amount }
        ensures after { self.new ≡ entered self.old amount }
    {
        if amount > u32::MAX - self.total {
            return Err(BookingFault::Full);
        }
        self.total += amount;
        self.latest = amount;
        Ok(())
    }
}

#[derive(Drop)]
pub struct Ledger {
    accounts: [Account; 16],
    ghost sixteen: { length accounts ≡ 16 },
}

impl Ledger {
    // All totals open at `total`.
    pub fn new(total: u32) -> Self
        ensures { result.accounts ≡ opened total }
    {
        Ledger {
            accounts: [Account { total, latest: 0 }; 16],
        }
    }

    // An account as it stands, if there is one of that number.
    pub fn account(&self, number: u8) -> Option<Account>
        ensures { result ≡ held self.now.accounts number }
    {
        self.accounts.get(number as usize).copied()
    }

    // Moves a slip's number into an account, and leaves the slip at zero.
    pub fn book(&mut self, slip: &mut Slip, account: u8) -> Result<(), BookingFault>
        ensures after { booked result self.new.accounts slip.new.count ≡ book_of self.old.accounts slip.old.count account }
        ensures emptied { is_ok result ≡ true → slip.new.count ≡ 0 }
    {
        // By index: `get_mut` does not say that the number of accounts stays.
        if account > 15 {
            return Err(BookingFault::NoAccount);
        }
        let lent = &mut self.accounts[account as usize];
        lent.enter(slip.count)?;
        slip.count = 0;
        Ok(())
    }
}
